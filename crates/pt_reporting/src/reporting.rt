ghost use Rattle.std.specs.Prelude.{◌≡◌, length, replicate, [], IfOk};
ghost use Rattle.pt_node.specs.Shown.{shown_node};
ghost use Rattle.pt_trees.specs.Ports.{AreBelow, AreNumbered, NumbersStay, outputs_in, recorded_ports, told_of, filled};
ghost use Rattle.pt_trees.specs.Report.{end_of};

use pt_node::Node;
use pt_past::{Recorded, Records};
use pt_tagged::Tagged;
use pt_trace::{Meetings, Report, RunEnd, Trace};
use pt_trees::Ended;
use pt_value::Text;
use std::alloc::{AllocError, Global};
use std::mem;

/// The report of a run with these meetings: what each port of the tree has recorded, in the order of the numbers of the ports, of which there are so many. It is taken out of the tree, which keeps none of it.
pub fn report(
    alloc: Global,
    top: &mut Node,
    meetings: Vec<Meetings>,
    ended: Ended,
    count: usize,
) -> Result<Report, AllocError>
    requires { AreNumbered count (shown_node top.old) }
    ensures traces { IfOk result (λ report. report.traces ≡ told_of (recorded_ports count (shown_node top.old))) }
    ensures meetings { IfOk result (λ report. report.meetings ≡ meetings.items) }
    ensures end { IfOk result (λ report. report.end ≡ end_of ended) }
{
    let mut traces = blank_traces(alloc, count)?;
    gather(alloc, top, &mut traces);
    Ok(Report {
        traces,
        meetings,
        end: end_told(ended),
    })
}

/// The numbers of the recorded ports are the same after a run, so that a report can be made of it.
pub fn numbers_stay()
    ensures { NumbersStay }
{}

/// So many traces without tokens.
fn blank_traces(alloc: Global, count: usize) -> Result<Vec<Trace>, AllocError>
    ensures { IfOk result (λ traces. traces.items ≡ replicate count (record { text = []; tokens = [] })) }
{
    let mut traces = Vec::with_capacity(alloc, count)?;
    for _ in 0..count {
        traces.push(Trace {
            text: Text::of(alloc, "")?,
            tokens: Tagged::new(alloc),
        })?;
    }
    Ok(traces)
}

/// Takes what each port of a node and of all within it has recorded, and puts it at the place of its number.
fn gather(alloc: Global, node: &mut Node, traces: &mut Vec<Trace>)
    requires { AreBelow (length traces.old.items) (outputs_in (shown_node node.old)) }
    ensures { traces.new.items ≡ filled (outputs_in (shown_node node.old)) traces.old.items }
{
    let records = mem::replace(&mut node.records, Records::of(Vec::new(alloc)));
    put_own(records.into_ports(), traces);
    for k in 0..node.children.len() {
        gather(alloc, &mut node.children[k], traces);
    }
}

/// Puts what each of the ports has recorded at the place of its number.
fn put_own(ports: Vec<Recorded>, traces: &mut Vec<Trace>)
    requires { AreBelow (length traces.old.items) ports.items }
    ensures { traces.new.items ≡ filled ports.items traces.old.items }
{
    for port in ports {
        let number = port.number();
        let (text, tokens) = port.into_told();
        traces[number] = Trace { text, tokens };
    }
}

fn end_told(ended: Ended) -> RunEnd
    ensures { result ≡ end_of ended }
{
    match ended {
        Ended::Iterations => RunEnd::Iterations,
        Ended::Inputs => RunEnd::Inputs,
        Ended::Stop => RunEnd::Stop,
        Ended::Idle => RunEnd::Idle,
        Ended::Deadlock => RunEnd::Deadlock,
        Ended::Fault(place) => RunEnd::Fault(place),
        Ended::Full(blocked) => RunEnd::Queue(blocked),
        Ended::Spent(count) => RunEnd::Budget(count),
    }
}
