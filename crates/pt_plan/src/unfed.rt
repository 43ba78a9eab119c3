ghost use Rattle.std.specs.Prelude.{◌≡◌, ◌+◌, ◌<◌, ◌≤◌, ◌++◌, ◌||◌, ℕ, All, IfOk, OnOk, false, get_or, length, map, slice_index};
ghost use Rattle.pt_plan.specs.Unfed.{is_own, feeds, own, unfed_among};

use pt_core::Source;
use std::alloc::{AllocError, Global};

/// Adds a channel for each own input that feeds nothing. It begins there and ends nowhere, and has room for what an iteration
/// takes there. In `q` the numbers of the own inputs are from `first` on.
pub(crate) fn add_unfed(
    alloc: Global,
    sources: &mut Vec<Source>,
    room: &mut Vec<usize>,
    inputs: u32,
    first: usize,
    q: &[u64],
) -> Result<(), AllocError>
    requires { first + inputs ≤ length q.now }
    ensures sources { OnOk result (sources.new.items ≡ sources.old.items ++ map own (unfed_among sources.old.items inputs)) }
    ensures room { OnOk result (room.new.items ≡ room.old.items ++ map (λ port. slice_index q.now (first + port)) (unfed_among sources.old.items inputs)) }
{
    let unfed = unfed_inputs(alloc, sources, inputs)?;
    add_channels(sources, room, &unfed, first, q)
}

/// Adds a channel that begins at each of these own inputs.
fn add_channels(
    sources: &mut Vec<Source>,
    room: &mut Vec<usize>,
    unfed: &[u32],
    first: usize,
    q: &[u64],
) -> Result<(), AllocError>
    requires { All (λ port. first + port < length q.now) unfed.now }
    ensures sources { OnOk result (sources.new.items ≡ sources.old.items ++ map own unfed.now) }
    ensures room { OnOk result (room.new.items ≡ room.old.items ++ map (λ port. slice_index q.now (first + port)) unfed.now) }
{
    for port in unfed {
        sources.push(Source::Own(*port))?;
        room.push(q[first + *port as usize] as usize)?;
    }
    Ok(())
}

/// The own inputs that feed nothing, of so many.
fn unfed_inputs(alloc: Global, sources: &[Source], inputs: u32) -> Result<Vec<u32>, AllocError>
    ensures { IfOk result (λ unfed. unfed.items ≡ unfed_among sources.now inputs) }
{
    let fed = fed_inputs(alloc, sources, inputs)?;
    let mut unfed = Vec::new(alloc);
    for port in 0..inputs {
        if !fed[port as usize] {
            unfed.push(port)?;
        }
    }
    Ok(unfed)
}

/// Of each own input whether it feeds a channel.
fn fed_inputs(alloc: Global, sources: &[Source], inputs: u32) -> Result<Vec<bool>, AllocError>
    ensures count { IfOk result (λ fed. length fed.items ≡ inputs) }
    ensures each { IfOk result (λ fed. (port : ℕ) → port < inputs → get_or fed.items port false ≡ feeds sources.now port) }
{
    let mut fed = vec![in alloc; false; inputs as usize]?;
    for source in sources {
        mark(&mut fed, source);
    }
    Ok(fed)
}

/// Marks the own input at which a channel begins.
fn mark(fed: &mut Vec<bool>, source: &Source)
    ensures count { length fed.new.items ≡ length fed.old.items }
    ensures each { (port : ℕ) → port < length fed.old.items → get_or fed.new.items port false ≡ (get_or fed.old.items port false || is_own port source.now) }
{
    match *source {
        Source::Own(port) => {
            if (port as usize) < fed.len() {
                fed[port as usize] = true;
            }
        }
        Source::Output(_, _) => {}
    }
}
