ghost use Rattle.std.specs.Prelude.{◌≡◌, IfOk, None, get_or, map, option_map};
ghost use Rattle.pt_chart.specs.Views.{machine_of};
ghost use Rattle.pt_trees.specs.Around.{ones_of};
ghost use Rattle.pt_within.specs.Gives.{machine_in, declared_in};

use crate::machines::written_at;
use pt_chart::Written;
use pt_firing::Counts;
use pt_stated::Stated;
use std::alloc::{AllocError, Global};

/// The same again.
fn copy_of(alloc: Global, stated: &Stated) -> Result<Stated, AllocError>
    ensures { IfOk result (λ copy. copy ≡ stated.now) }
{
    Ok(Stated {
        takes: stated.takes.copy(alloc)?,
        gives: stated.gives.copy(alloc)?,
        capacities: stated.capacities,
    })
}

/// What the entity of that number states, if its children are processes.
pub fn stated_at(
    alloc: Global,
    stated: &[Option<Stated>],
    k: usize,
) -> Result<Option<Stated>, AllocError>
    ensures { IfOk result (λ found. found ≡ get_or stated.now k None) }
{
    match stated.get(k) {
        Some(Some(stated)) => Ok(Some(copy_of(alloc, stated)?)),
        Some(None) => Ok(None),
        None => Ok(None),
    }
}

/// One token on each output of a Modal entity.
fn ones_of(alloc: Global, machine: &Written) -> Result<Counts, AllocError>
    ensures { IfOk result (λ counts. counts ≡ ones_of (machine_of machine.now)) }
{
    let outputs = machine.names.outputs.as_slice().len();
    Ok(Counts::of(vec![in alloc; 1usize; outputs]?))
}

/// One token on each output of the entity of that number, if it is a Modal entity.
fn ones_at(
    alloc: Global,
    machines: &[Option<Written>],
    k: usize,
) -> Result<Option<Counts>, AllocError>
    ensures { IfOk result (λ found. found ≡ option_map ones_of (machine_in machines.now k)) }
{
    match written_at(machines, k) {
        Some(machine) => Ok(Some(ones_of(alloc, machine)?)),
        None => Ok(None),
    }
}

/// How many tokens a firing of it is to give on each of its outputs, if that is declared: of a composite of processes and of a Modal entity.
fn declared_by(
    alloc: Global,
    stated: &[Option<Stated>],
    machines: &[Option<Written>],
    k: usize,
) -> Result<Option<Counts>, AllocError>
    ensures { IfOk result (λ found. found ≡ declared_in stated.now machines.now k) }
{
    match stated.get(k) {
        Some(Some(stated)) => Ok(Some(stated.gives.copy(alloc)?)),
        Some(None) => ones_at(alloc, machines, k),
        None => ones_at(alloc, machines, k),
    }
}

/// So of each of these entities.
pub fn declared_of(
    alloc: Global,
    stated: &[Option<Stated>],
    machines: &[Option<Written>],
    children: &[usize],
) -> Result<Vec<Option<Counts>>, AllocError>
    ensures { IfOk result (λ declared. declared.items ≡ map (declared_in stated.now machines.now) children.now) }
{
    let mut declared = Vec::with_capacity(alloc, children.len())?;
    for child in children {
        declared.push(declared_by(alloc, stated, machines, *child)?)?;
    }
    Ok(declared)
}
