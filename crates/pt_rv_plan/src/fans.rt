ghost use Rattle.std.specs.Prelude.{◌≡◌, ℕ, ◌+◌, ◌^◌, ◌<◌, ◌≤◌, [], length, map, get_or, IfOk, OnOk};
ghost use Rattle.std.specs.List.{All};
ghost use Rattle.pt_core.specs.Source.{source_of};
ghost use Rattle.pt_puts.specs.Fans.{IsNamed, RowMore, fans_in, row_in};
ghost use Rattle.pt_rv_plan.specs.Plan.{AreFans, FansMore, row_of, port_of};

use pt_core::Source;
use std::alloc::{AllocError, Global};

/// The channels that begin at each output of each process, and behind those at each own input.
pub(crate) fn fans_of(
    alloc: Global,
    sources: &[Source],
    processes: usize,
) -> Result<Vec<Vec<Vec<u32>>>, AllocError>
    requires few { length sources.now < 2 ^ 32 }
    requires fewer { processes < 2 ^ 32 }
    requires named { All (IsNamed processes) (map source_of sources.now) }
    ensures fans { IfOk result (λ fans. AreFans processes (map source_of sources.now) (fans_in fans.items)) }
    ensures counted { IfOk result (λ fans. length fans.items ≡ processes + 1) }
{
    let mut fans = no_fans(alloc, processes + 1)?;
    for c in 0..sources.len() {
        fan_out(alloc, &mut fans, processes, sources[c], c as u32)?;
    }
    Ok(fans)
}

/// Notes that a channel begins there.
fn fan_out(
    alloc: Global,
    fans: &mut Vec<Vec<Vec<u32>>>,
    processes: usize,
    source: Source,
    c: u32,
) -> Result<(), AllocError>
    requires long { length fans.old.items ≡ processes + 1 }
    requires named { IsNamed processes (source_of source) }
    ensures fans { OnOk result (FansMore processes (source_of source) c (fans_in fans.old.items) (fans_in fans.new.items)) }
    ensures length { length fans.new.items ≡ length fans.old.items }
{
    let row = row_at(processes, source);
    let port = port_at(source);
    let row = &mut fans[row];
    add_fan(alloc, row, port, c)?;
    Ok(())
}

/// The row of a source in the table: that of its process, or the last one.
fn row_at(processes: usize, source: Source) -> usize
    requires { IsNamed processes (source_of source) }
    ensures row { result ≡ row_of processes (source_of source) }
    ensures within { result ≤ processes }
{
    match source {
        Source::Own(_) => processes,
        Source::Output(child, _) => child as usize,
    }
}

/// The place of a source in its row.
fn port_at(source: Source) -> u32
    ensures { result ≡ port_of (source_of source) }
{
    match source {
        Source::Own(port) => port,
        Source::Output(_, port) => port,
    }
}

/// Notes that a channel begins at a port of a row.
fn add_fan(alloc: Global, row: &mut Vec<Vec<u32>>, port: u32, c: u32) -> Result<(), AllocError>
    ensures { OnOk result (RowMore port c (row_in row.old.items) (row_in row.new.items)) }
{
    widen(alloc, row, port)?;
    push_channel(row, port as usize, c)?;
    Ok(())
}

/// Puts a channel behind the others of a port.
fn push_channel(row: &mut Vec<Vec<u32>>, port: usize, c: u32) -> Result<(), AllocError>
    requires { port < length row.old.items }
    ensures { OnOk result (RowMore port c (row_in row.old.items) (row_in row.new.items)) }
{
    let fan = &mut row[port];
    fan.push(c)?;
    Ok(())
}

/// Makes a row long enough for a port.
fn widen(alloc: Global, row: &mut Vec<Vec<u32>>, port: u32) -> Result<(), AllocError>
    ensures long { OnOk result (port < length row.new.items) }
    ensures same { OnOk result ((q : ℕ) → get_or (row_in row.new.items) q [] ≡ get_or (row_in row.old.items) q []) }
{
    for _ in row.len()..port as usize + 1 {
        row.push(Vec::new(alloc))?;
    }
    Ok(())
}

/// So many rows without ports.
fn no_fans(alloc: Global, rows: usize) -> Result<Vec<Vec<Vec<u32>>>, AllocError>
    ensures none { IfOk result (λ fans. (i : ℕ) → get_or (fans_in fans.items) i [] ≡ []) }
    ensures counted { IfOk result (λ fans. length fans.items ≡ rows) }
{
    let mut fans = Vec::with_capacity(alloc, rows)?;
    for _ in 0..rows {
        fans.push(Vec::new(alloc))?;
    }
    Ok(fans)
}
