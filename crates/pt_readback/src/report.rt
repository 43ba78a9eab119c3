ghost use Rattle.std.specs.Prelude.{◌≡◌, ◌↔◌, IfOk, IsTrue, Err};
ghost use Rattle.pt_trace.specs.Report as reports;
ghost use Rattle.pt_trace.specs.ReportText.{report_text};
ghost use Rattle.pt_readback.specs.Report.{IsFormed, IsRunReport};
ghost use Rattle.pt_readback.specs.Listed.{Finds};

use crate::ending::ending;
use crate::fault::ReportFault;
use crate::meetings::all_meetings;
use crate::traces::traces;
use pt_trace::{Report, text};
use std::alloc::{AllocError, Global};

/// The report that prints as the text. It takes time linear in the text.
pub fn parse_report(alloc: Global, text: &[u8]) -> Result<Report, ReportFault>
    ensures prints { IfOk result (λ r. report_text r ≡ text.now) }
    ensures form { IfOk result IsFormed }
    ensures only { IfOk result (λ r. (other : reports.Report) → IsRunReport other → report_text other ≡ text.now → r ≡ other) }
    ensures refuses { result ≡ Err ReportFault.Shape → (report : reports.Report) → IsRunReport report → ¬ (report_text report ≡ text.now) }
{
    let report = candidate(alloc, text)?;
    if prints_as(alloc, &report, text)? {
        Ok(report)
    } else {
        drop(report);
        Err(ReportFault::Shape)
    }
}

/// The one report that may print as the text.
fn candidate(alloc: Global, text: &[u8]) -> Result<Report, ReportFault>
    ensures found { (report : reports.Report) → IsRunReport report → report_text report ≡ text.now → Finds (λ r. r) result report }
    ensures form { IfOk result IsFormed }
{
    let (traces, rest) = traces(alloc, text)?;
    let (meetings, rest) = all_meetings(alloc, rest)?;
    let end = ending(alloc, rest)?;
    Ok(Report {
        traces,
        meetings,
        end,
    })
}

/// Whether the report prints as the text.
fn prints_as(alloc: Global, report: &Report, expected: &[u8]) -> Result<bool, AllocError>
    ensures { IfOk result (λ same. IsTrue same ↔ (report_text report.now ≡ expected.now)) }
{
    let printed = text(alloc, report)?;
    Ok(printed.as_slice() == expected)
}
