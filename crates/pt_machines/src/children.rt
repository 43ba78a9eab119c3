// What stands in the entities of a net.
ghost use Rattle.std.specs.Prelude.{◌≡◌, ◌++◌, ℕ, ◌<◌, IfOk, OnOk, map, option_map, option_to_list, length, get_or, replicate, set, slice_get, true, false};
ghost use Rattle.std.specs.List.{filter_map};
ghost use Rattle.pt_net.specs.Net.{transparent_view};
ghost use Rattle.pt_machine.specs.Children.{has_transparent, marked};

use pt_net::{NetEntity, Transparent};
use std::alloc::{AllocError, Global};

/// The entity of this number, if there is one.
fn entity_at(entities: &[NetEntity], number: usize) -> Option<&NetEntity>
    ensures { option_map (λ e. e.now) result ≡ slice_get entities.now number }
{
    entities.get(number)
}

/// Adds an entity, if there is one.
fn add_entity<'a>(
    found: &mut Vec<&'a NetEntity>,
    entity: Option<&'a NetEntity>,
) -> Result<(), AllocError>
    ensures { OnOk result (map (λ e. e.now) found.new.items ≡ map (λ e. e.now) found.old.items ++ option_to_list (option_map (λ e. e.now) entity.entry)) }
{
    match entity {
        Some(entity) => {
            found.push(entity)?;
            Ok(())
        }
        None => Ok(()),
    }
}

/// The entities of these numbers.
pub(crate) fn entities_at<'a>(
    alloc: Global,
    entities: &'a [NetEntity],
    numbers: &[usize],
) -> Result<Vec<&'a NetEntity>, AllocError>
    ensures { IfOk result (λ found. map (λ e. e.now) found.items ≡ filter_map (λ k. slice_get entities.now k) numbers.now) }
{
    let mut found = Vec::with_capacity(alloc, numbers.len())?;
    for number in numbers {
        add_entity(&mut found, entity_at(entities, *number))?;
    }
    Ok(found)
}

fn mark_one(parted: &mut Vec<bool>, entity: usize)
    ensures { parted.new.items ≡ set parted.old.items entity true }
{
    if entity >= parted.len() {
        return;
    }
    parted[entity] = true;
}

/// Marks the entity in which a transparent composite stands.
fn mark(parted: &mut Vec<bool>, parent: Option<u32>)
    ensures { parted.new.items ≡ marked parent parted.old.items }
{
    match parent {
        Some(parent) => mark_one(parted, parent as usize),
        None => (),
    }
}

fn none_marked(alloc: Global, count: usize) -> Result<Vec<bool>, AllocError>
    ensures { IfOk result (λ parted. parted.items ≡ replicate count false) }
{
    Ok(vec![in alloc; false; count]?)
}

/// Of so many entities, whether a transparent composite stands in them.
pub(crate) fn parted_of(
    alloc: Global,
    count: usize,
    composites: &[Transparent],
) -> Result<Vec<bool>, AllocError>
    ensures counted { IfOk result (λ parted. length parted.items ≡ count) }
    ensures each { IfOk result (λ parted. (m : ℕ) → m < count → get_or parted.items m false ≡ has_transparent (map transparent_view composites.now) m) }
{
    let mut parted = none_marked(alloc, count)?;
    for composite in composites {
        mark(&mut parted, composite.parent);
    }
    Ok(parted)
}
