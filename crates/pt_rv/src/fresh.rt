ghost use Rattle.std.specs.Prelude.{◌≡◌, ℕ, ◌-◌, ◌<◌, [], length, get_or, map, replicate, IfOk};
ghost use Rattle.pt_meaning.specs.Machine.{Over};
ghost use Rattle.pt_rv_laws.specs.Lawful.{HasPlaces};
ghost use Rattle.pt_rv_plan.specs.Plan.{AreSound};
ghost use Rattle.pt_rv_parts.specs.Process.{at_start};
ghost use Rattle.pt_puts.specs.Need.{need_in};
ghost use Rattle.pt_rv.specs.Parties.{inputs_of, outputs_of};
ghost use Rattle.pt_rv.specs.Fresh.{IsFresh, starting};

use crate::parties::Parties;
use pt_puts::KeptNeed;
use pt_rv_parts::{Process, Team};
use pt_rv_plan::{Inlet, Outlet, Plan};
use std::alloc::{AllocError, Global};

/// The parties of a plan at their start.
pub(crate) fn fresh_parties(alloc: Global, plan: &Plan) -> Result<Parties, AllocError>
    requires { AreSound plan.now }
    ensures { IfOk result (λ parties. IsFresh plan.now parties) }
{
    let core = plan.plan();
    let processes = processes_of(alloc, &core.barriers, &core.starts, core.places.as_slice())?;
    let team = Team::of(alloc, processes)?;
    let inlets = inlets_of(alloc, plan.inlets())?;
    let outlets = outlets_of(alloc, plan.channels().saturating_sub(plan.inner()))?;
    Ok(Parties {
        team,
        inlets,
        outlets,
    })
}

/// The processes at their start.
fn processes_of(
    alloc: Global,
    barriers: &[bool],
    starts: &[KeptNeed],
    places: &[usize],
) -> Result<Vec<Process>, AllocError>
    requires told { length barriers.now ≡ length places.now }
    requires counted { length starts.now ≡ length places.now }
    requires fits { (i : ℕ) → i < length places.now → HasPlaces (get_or places.now i 0) (get_or (map need_in starts.now) i Over) }
    ensures { IfOk result (λ processes. processes.items ≡ starting barriers.now (map need_in starts.now) places.now) }
{
    let mut processes = Vec::with_capacity(alloc, places.len())?;
    for i in 0..places.len() {
        let process = process_of(alloc, barriers[i], &starts[i], places[i])?;
        processes.push(process)?;
    }
    Ok(processes)
}

/// A process at its start.
fn process_of(
    alloc: Global,
    is_barrier: bool,
    start: &KeptNeed,
    places: usize,
) -> Result<Process, AllocError>
    requires { HasPlaces places (need_in start.now) }
    ensures { IfOk result (λ process. process ≡ at_start is_barrier (need_in start.now) places) }
{
    let need = start.copy(alloc)?;
    Process::new(alloc, is_barrier, need, places)
}

/// So many own inputs that have nothing to put.
fn inlets_of(alloc: Global, inlets: usize) -> Result<Vec<Inlet>, AllocError>
    ensures { IfOk result (λ fresh. inputs_of fresh.items ≡ replicate inlets []) }
{
    let mut fresh = Vec::with_capacity(alloc, inlets)?;
    for _ in 0..inlets {
        fresh.push(Inlet::new(alloc))?;
    }
    Ok(fresh)
}

/// So many own outputs to which nothing has come.
fn outlets_of(alloc: Global, outlets: usize) -> Result<Vec<Outlet>, AllocError>
    ensures { IfOk result (λ fresh. outputs_of fresh.items ≡ replicate outlets []) }
{
    let mut fresh = Vec::with_capacity(alloc, outlets)?;
    for _ in 0..outlets {
        fresh.push(Outlet::new())?;
    }
    Ok(fresh)
}
