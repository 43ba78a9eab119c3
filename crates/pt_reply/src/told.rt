// What is written of a run that has a report.
ghost use Rattle.std.specs.Prelude.{◌≡◌, List, [], flat_map, IfOk};
ghost use Rattle.pt_trace.specs.Report.{Meetings};
ghost use Rattle.pt_trace.specs.EndText.{end_text};
ghost use Rattle.pt_trace.specs.MeetingText.{meetings_text};
ghost use Rattle.pt_trace.specs.ReportText.{report_text};
ghost use Rattle.pt_reply.specs.Texts.{text_in, with_meetings};

use crate::form::Form;
use pt_trace::{Report, summary, text};
use std::alloc::{AllocError, Global};

/// The text of how a run ended, behind all else in a report.
fn end_of(alloc: Global, report: Report) -> Result<Vec<u8>, AllocError>
    ensures { IfOk result (λ bytes. bytes.items ≡ end_text report.end) }
{
    let last = Report {
        traces: Vec::new(alloc),
        meetings: Vec::new(alloc),
        end: report.end,
    };
    text(alloc, &last)
}

/// The text of a report with these lists of meetings, whose text stands before the end.
fn text_with(alloc: Global, report: Report, lists: &[u8]) -> Result<Vec<u8>, AllocError>
    requires { report.meetings ≡ [] }
    ensures { IfOk result (λ bytes. (meetings : List Meetings) → lists.now ≡ flat_map meetings_text meetings → bytes.items ≡ report_text (with_meetings report meetings)) }
{
    let mut out = text(alloc, &report)?;
    let end = end_of(alloc, report)?;
    out.truncate(out.len() - end.len());
    out.extend_from_slice(lists)?;
    out.extend_from_slice(&end)?;
    Ok(out)
}

/// What is written of a run that made so many firings and has this report with these lists of meetings.
pub fn told_in(
    alloc: Global,
    form: Form,
    report: Report,
    lists: &[u8],
    firings: u64,
) -> Result<Vec<u8>, AllocError>
    requires { report.meetings ≡ [] }
    ensures { IfOk result (λ bytes. (meetings : List Meetings) → lists.now ≡ flat_map meetings_text meetings → bytes.items ≡ text_in form firings (with_meetings report meetings)) }
{
    match form {
        Form::Report => text_with(alloc, report, lists),
        Form::Summary => summary(alloc, &report, firings),
    }
}
