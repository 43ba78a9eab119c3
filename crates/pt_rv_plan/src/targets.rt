ghost use Rattle.std.specs.Prelude.{◌≡◌, ℕ, ◌+◌, ◌^◌, ◌<◌, ◌++◌, length, map, IfOk, OnOk};
ghost use Rattle.pt_rv_plan.specs.Plan.{AreTargets, target_of};
ghost use Rattle.pt_rv_plan.specs.Targets.{places_row, outlets_row, targets_to};

use std::alloc::{AllocError, Global};

/// Where a channel ends: at a place of a process, or at an own output.
#[derive(Clone, Copy, PartialEq, Eq, Debug)]
pub enum Target {
    Place(u32, usize),
    Outlet(usize),
}

/// Where each of so many channels ends, by the places of the processes.
pub(crate) fn targets_of(
    alloc: Global,
    places: &[usize],
    channels: usize,
) -> Result<Vec<Target>, AllocError>
    requires { length places.now < 2 ^ 32 }
    ensures { IfOk result (λ targets. AreTargets places.now channels targets.items) }
{
    let mut targets = Vec::with_capacity(alloc, channels)?;
    for process in 0..places.len() {
        add_places(&mut targets, process as u32, places[process])?;
    }
    let outlets = channels.saturating_sub(targets.len());
    add_outlets(&mut targets, outlets)?;
    Ok(targets)
}

/// The places of a process behind the others.
fn add_places(targets: &mut Vec<Target>, process: u32, places: usize) -> Result<(), AllocError>
    ensures { OnOk result (map target_of targets.new.items ≡ map target_of targets.old.items ++ places_row process 0 places) }
{
    for place in 0..places {
        targets.push(Target::Place(process, place))?;
    }
    Ok(())
}

/// So many own outputs behind the others.
fn add_outlets(targets: &mut Vec<Target>, outlets: usize) -> Result<(), AllocError>
    ensures { OnOk result (map target_of targets.new.items ≡ map target_of targets.old.items ++ outlets_row 0 outlets) }
{
    for outlet in 0..outlets {
        targets.push(Target::Outlet(outlet))?;
    }
    Ok(())
}
