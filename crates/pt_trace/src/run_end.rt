ghost use Rattle.std.specs.Prelude.{◌≡◌, ◌++◌, OnOk};
ghost use Rattle.pt_trace.specs.EndText.{end_text, fault_end, budget_end, queue_end, full_lines, full_line};

use crate::writing::write_number;
use pt_firing::{Blocked, Place, Rows};
use pt_value::Text;
use std::alloc::AllocError;

/// How a run ended.
#[derive(Debug, Drop)]
pub enum RunEnd {
    Stop,
    Idle,
    Iterations,
    Inputs,
    Deadlock,
    /// A place is stuck.
    Fault(Place),
    /// So many firings were made, at least as many as were allowed.
    Budget(u64),
    /// A process network is full.
    Queue(Blocked),
}

pub(crate) fn write_end(end: &RunEnd, out: &mut Vec<u8>) -> Result<(), AllocError>
    ensures { OnOk result (out.new.items ≡ out.old.items ++ end_text end.now) }
{
    match end {
        RunEnd::Stop => out.extend_from_slice(b"end stop\n"),
        RunEnd::Idle => out.extend_from_slice(b"end idle\n"),
        RunEnd::Iterations => out.extend_from_slice(b"end iterations\n"),
        RunEnd::Inputs => out.extend_from_slice(b"end inputs\n"),
        RunEnd::Deadlock => out.extend_from_slice(b"end deadlock\n"),
        RunEnd::Fault(place) => write_fault(place, out),
        RunEnd::Budget(count) => write_budget(*count, out),
        RunEnd::Queue(blocked) => write_queue(blocked, out),
    }
}

fn write_fault(place: &Place, out: &mut Vec<u8>) -> Result<(), AllocError>
    ensures { OnOk result (out.new.items ≡ out.old.items ++ fault_end place.now) }
{
    out.extend_from_slice(b"end fault ")?;
    write_number(u64::from(place.kind.code()), out)?;
    out.push(b' ')?;
    out.extend_from_slice(place.path.as_str().as_bytes())?;
    out.push(b' ')?;
    write_number(place.firing, out)?;
    out.push(b'\n')?;
    Ok(())
}

fn write_budget(count: u64, out: &mut Vec<u8>) -> Result<(), AllocError>
    ensures { OnOk result (out.new.items ≡ out.old.items ++ budget_end count) }
{
    out.extend_from_slice(b"end budget ")?;
    write_number(count, out)?;
    out.push(b'\n')?;
    Ok(())
}

fn write_queue(blocked: &Blocked, out: &mut Vec<u8>) -> Result<(), AllocError>
    ensures { OnOk result (out.new.items ≡ out.old.items ++ queue_end blocked.now) }
{
    write_full(&blocked.channels, out)?;
    out.extend_from_slice(b"end queue ")?;
    out.extend_from_slice(blocked.path.as_str().as_bytes())?;
    out.push(b' ')?;
    write_number(blocked.channels.as_slice().len() as u64, out)?;
    out.push(b'\n')?;
    Ok(())
}

/// A line for each full channel.
fn write_full(channels: &Rows, out: &mut Vec<u8>) -> Result<(), AllocError>
    ensures { OnOk result (out.new.items ≡ out.old.items ++ full_lines channels.now) }
{
    for (place, length) in channels.as_slice() {
        write_full_line(place, *length, out)?;
    }
    Ok(())
}

fn write_full_line(place: &Text, length: u64, out: &mut Vec<u8>) -> Result<(), AllocError>
    ensures { OnOk result (out.new.items ≡ out.old.items ++ full_line place.now length) }
{
    out.extend_from_slice(b"full ")?;
    out.extend_from_slice(place.as_str().as_bytes())?;
    out.push(b' ')?;
    write_number(length, out)?;
    out.push(b'\n')?;
    Ok(())
}
