ghost use Rattle.std.specs.Prelude.{◌≡◌, ◌==◌, ◌<◌, ◌+◌, ◌^◌, ◌++◌, ℕ, OnOk, IfOk, if◌then◌else◌};
ghost use Rattle.pt_trace.specs.MeetingText.{meetings_text, meeting_line, met_text, place_text, met};

use crate::writing::write_number;
use pt_value::Text;
use std::alloc::{AllocError, Global};
use std::collections::HashMap;
use std::marker::Model;

/// A place of a child of a composite: the path of the child below the composite, its port, and the number of the channel at the port.
#[derive(Debug, Drop)]
pub struct ChildPlace {
    pub child: Text,
    pub port: Text,
    pub channel: u64,
}

/// Who met.
#[derive(Debug, Drop)]
pub enum Met {
    /// The sender and the receiver of the channel to this place.
    Meet(ChildPlace),
    /// The sender of the channel to the composite's output of this name, which always receives.
    Out(Text),
    /// The Barrier of this path below the composite, and the senders of all its channels.
    Barrier(Text),
}

/// One meeting: the number of the composite's firing in which it was made, and who met. Its index is the number of earlier lines of its firing.
#[derive(Debug, Drop)]
pub struct MeetingLine {
    pub firing: u64,
    pub what: Met,
}

/// The meetings of a Rendezvous composite, in the order in which they were made.
#[derive(Debug, Drop)]
pub struct Meetings {
    pub path: Text,
    pub lines: Vec<MeetingLine>,
}

impl Model for Meetings {
    ghost use Rattle.pt_trace.specs.Report as report;
    ghost use Rattle.pt_trace.specs.ReportCode.{coded_meetings};

    ghost Value = { report.Meetings };

    ghost coded = { coded_meetings };

    ghost view = { λ m. record { path = m.path; lines = m.lines.items } };
}

pub(crate) fn write_meetings(
    alloc: Global,
    meetings: &Meetings,
    out: &mut Vec<u8>,
) -> Result<(), AllocError>
    ensures { OnOk result (out.new.items ≡ out.old.items ++ meetings_text meetings.now) }
{
    out.extend_from_slice(b"meetings ")?;
    out.extend_from_slice(meetings.path.as_str().as_bytes())?;
    out.push(b'\n')?;
    let mut earlier = HashMap::new(alloc);
    for line in &meetings.lines {
        let index = next_index(&mut earlier, line.firing)?;
        write_meeting(line, index, out)?;
    }
    Ok(())
}

/// The index of the next meeting of a firing, which is counted.
fn next_index(earlier: &mut HashMap<u64, u64>, firing: u64) -> Result<u64, AllocError>
    requires { met earlier.old firing < 2 ^ 63 }
    ensures index { IfOk result (λ index. index ≡ met earlier.old firing) }
    ensures counted { OnOk result ((q : ℕ) → met earlier.new q ≡ (if q == firing then met earlier.old q + 1 else met earlier.old q)) }
{
    let count = earlier.entry(firing)?.or_insert(0);
    let index = *count;
    *count += 1;
    Ok(index)
}

fn write_meeting(line: &MeetingLine, index: u64, out: &mut Vec<u8>) -> Result<(), AllocError>
    ensures { OnOk result (out.new.items ≡ out.old.items ++ meeting_line line.now index) }
{
    write_number(line.firing, out)?;
    out.push(b' ')?;
    write_number(index, out)?;
    out.push(b' ')?;
    write_met(&line.what, out)?;
    out.push(b'\n')?;
    Ok(())
}

fn write_met(met: &Met, out: &mut Vec<u8>) -> Result<(), AllocError>
    ensures { OnOk result (out.new.items ≡ out.old.items ++ met_text met.now) }
{
    match met {
        Met::Meet(place) => {
            out.extend_from_slice(b"meet ")?;
            write_place(place, out)
        }
        Met::Out(port) => {
            out.extend_from_slice(b"out ")?;
            out.extend_from_slice(port.as_str().as_bytes())
        }
        Met::Barrier(child) => {
            out.extend_from_slice(b"barrier ")?;
            out.extend_from_slice(child.as_str().as_bytes())
        }
    }
}

fn write_place(place: &ChildPlace, out: &mut Vec<u8>) -> Result<(), AllocError>
    ensures { OnOk result (out.new.items ≡ out.old.items ++ place_text place.now) }
{
    out.extend_from_slice(place.child.as_str().as_bytes())?;
    out.push(b'.')?;
    out.extend_from_slice(place.port.as_str().as_bytes())?;
    out.push(b'.')?;
    write_number(place.channel, out)
}
