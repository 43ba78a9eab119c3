ghost use Rattle.std.specs.Prelude.{◌≡◌, IfOk};
ghost use Rattle.pt_trace.specs.ReportText.{report_text};

use crate::meetings::{Meetings, write_meetings};
use crate::run_end::{RunEnd, write_end};
use crate::trace::{Trace, write_trace};
use std::alloc::{AllocError, Global};
use std::marker::Model;

/// What a run reports: the trace of each recorded port, the meetings of each Rendezvous composite, and how it ended.
#[derive(Drop)]
pub struct Report {
    pub traces: Vec<Trace>,
    pub meetings: Vec<Meetings>,
    pub end: RunEnd,
}

impl Model for Report {
    ghost use Rattle.pt_trace.specs.Report as report;
    ghost use Rattle.pt_trace.specs.ReportCode.{coded_report};

    ghost Value = { report.Report };

    ghost coded = { coded_report };

    ghost view = { λ r. record { traces = r.traces.items; meetings = r.meetings.items; end = r.end } };
}

/// The text of a report. It takes time linear in its length.
pub fn text(alloc: Global, report: &Report) -> Result<Vec<u8>, AllocError>
    ensures { IfOk result (λ bytes. bytes.items ≡ report_text report.now) }
{
    let mut out = Vec::new(alloc);
    for trace in &report.traces {
        write_trace(trace, &mut out)?;
    }
    for meetings in &report.meetings {
        write_meetings(alloc, meetings, &mut out)?;
    }
    write_end(&report.end, &mut out)?;
    Ok(out)
}
