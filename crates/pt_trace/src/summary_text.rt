ghost use Rattle.std.specs.Prelude.{◌≡◌, ◌++◌, IfOk, OnOk};
ghost use Rattle.pt_trace.specs.SummaryText.{firings_line, trace_line, last, last_text, summary_text};

use crate::report::Report;
use crate::run_end::write_end;
use crate::trace::Trace;
use crate::writing::write_number;
use pt_tagged::Tagged;
use pt_value::{Token, print};
use std::alloc::{AllocError, Global};

/// The summary of a run that made so many firings and has this report: the number of firings, for each recorded port the
/// number of its tokens and the value of the last, and how the run ended. It takes time linear in its length.
pub fn summary(alloc: Global, report: &Report, firings: u64) -> Result<Vec<u8>, AllocError>
    ensures { IfOk result (λ bytes. bytes.items ≡ summary_text firings report.now) }
{
    let mut out = Vec::new(alloc);
    write_firings(firings, &mut out)?;
    for trace in &report.traces {
        write_trace_line(trace, &mut out)?;
    }
    write_end(&report.end, &mut out)?;
    Ok(out)
}

fn write_firings(firings: u64, out: &mut Vec<u8>) -> Result<(), AllocError>
    ensures { OnOk result (out.new.items ≡ out.old.items ++ firings_line firings) }
{
    out.extend_from_slice(b"firings ")?;
    write_number(firings, out)?;
    out.push(b'\n')?;
    Ok(())
}

fn write_trace_line(trace: &Trace, out: &mut Vec<u8>) -> Result<(), AllocError>
    ensures { OnOk result (out.new.items ≡ out.old.items ++ trace_line trace.now) }
{
    out.extend_from_slice(b"trace ")?;
    out.extend_from_slice(trace.text.as_str().as_bytes())?;
    out.push(b' ')?;
    write_number(trace.tokens.len() as u64, out)?;
    out.push(b' ')?;
    write_last(&trace.tokens, out)?;
    out.push(b'\n')?;
    Ok(())
}

/// The value of the last token, or a dash where there is none.
fn write_last(tokens: &Tagged, out: &mut Vec<u8>) -> Result<(), AllocError>
    ensures { OnOk result (out.new.items ≡ out.old.items ++ last_text (last tokens.now)) }
{
    let (_, numbers, rest) = tokens.parts();
    if let Some((_, token)) = rest.last() {
        return print(token, out);
    }
    match numbers.last() {
        Some(number) => print(&Token::Int(*number), out),
        None => out.extend_from_slice(b"-"),
    }
}
