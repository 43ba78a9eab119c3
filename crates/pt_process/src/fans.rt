ghost use Rattle.std.specs.Prelude.{◌≡◌, ℕ, ◌^◌, ◌<◌, ◌≤◌, [], length, map, get_or, IfOk, OnOk};
ghost use Rattle.std.specs.List.{All};
ghost use Rattle.pt_meaning.specs.Net.{Output};
ghost use Rattle.pt_core.specs.Source.{source_of};
ghost use Rattle.pt_puts.specs.Fans.{IsNamed, RowMore, fans_in, row_in};
ghost use Rattle.pt_process.specs.Plan.{AreFans, FansMore};

use pt_core::Source;
use std::alloc::{AllocError, Global};

/// The channels that begin at each output of each process.
pub fn fans_of(
    alloc: Global,
    sources: &[Source],
    processes: usize,
) -> Result<Vec<Vec<Vec<u32>>>, AllocError>
    requires few { length sources.now < 2 ^ 32 }
    requires named { All (IsNamed processes) (map source_of sources.now) }
    ensures { IfOk result (λ fans. AreFans (map source_of sources.now) (fans_in fans.items)) }
{
    let mut fans = no_fans(alloc, processes)?;
    for c in 0..sources.len() {
        fan_out(alloc, &mut fans, sources[c], c as u32)?;
    }
    Ok(fans)
}

/// Notes that a channel begins there.
fn fan_out(
    alloc: Global,
    fans: &mut Vec<Vec<Vec<u32>>>,
    source: Source,
    c: u32,
) -> Result<(), AllocError>
    requires { IsNamed (length fans.old.items) (source_of source) }
    ensures fans { OnOk result (FansMore (source_of source) c (fans_in fans.old.items) (fans_in fans.new.items)) }
    ensures length { length fans.new.items ≡ length fans.old.items }
{
    match source {
        Source::Own(_) => Ok(()),
        Source::Output(child, port) => fan_at_port(alloc, fans, child, port, c),
    }
}

/// Notes that a channel begins at an output of a process.
fn fan_at_port(
    alloc: Global,
    fans: &mut Vec<Vec<Vec<u32>>>,
    child: u32,
    port: u32,
    c: u32,
) -> Result<(), AllocError>
    requires { child < length fans.old.items }
    ensures fans { OnOk result (FansMore (Output child port) c (fans_in fans.old.items) (fans_in fans.new.items)) }
    ensures length { length fans.new.items ≡ length fans.old.items }
{
    let row = &mut fans[child as usize];
    add_fan(alloc, row, port, c)?;
    Ok(())
}

/// The same of one process.
fn add_fan(alloc: Global, row: &mut Vec<Vec<u32>>, port: u32, c: u32) -> Result<(), AllocError>
    ensures { OnOk result (RowMore port c (row_in row.old.items) (row_in row.new.items)) }
{
    widen(alloc, row, port)?;
    push_channel(row, port as usize, c)?;
    Ok(())
}

/// Puts a channel behind the others of a port.
fn push_channel(row: &mut Vec<Vec<u32>>, port: usize, c: u32) -> Result<(), AllocError>
    requires { port < length row.old.items }
    ensures { OnOk result (RowMore port c (row_in row.old.items) (row_in row.new.items)) }
{
    let fan = &mut row[port];
    fan.push(c)?;
    Ok(())
}

/// Makes a row long enough for a port.
fn widen(alloc: Global, row: &mut Vec<Vec<u32>>, port: u32) -> Result<(), AllocError>
    ensures long { OnOk result (port < length row.new.items) }
    ensures same { OnOk result ((q : ℕ) → get_or (row_in row.new.items) q [] ≡ get_or (row_in row.old.items) q []) }
{
    for _ in row.len()..port as usize + 1 {
        row.push(Vec::new(alloc))?;
    }
    Ok(())
}

/// So many rows without ports.
fn no_fans(alloc: Global, processes: usize) -> Result<Vec<Vec<Vec<u32>>>, AllocError>
    ensures fans { IfOk result (λ fans. AreFans [] (fans_in fans.items)) }
    ensures length { IfOk result (λ fans. length fans.items ≡ processes) }
{
    let mut fans = Vec::with_capacity(alloc, processes)?;
    for _ in 0..processes {
        fans.push(Vec::new(alloc))?;
    }
    Ok(fans)
}
