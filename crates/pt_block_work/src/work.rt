// The firings of all children, each behind those that feed it.
ghost use Rattle.std.specs.Prelude.{◌≡◌, ℕ, ◌*◌, ◌<◌, ◌≤◌, length, get_or, IsTrue, List, []};
ghost use Rattle.pt_sdf_parts.specs.Plan.{plan_of};
ghost use Rattle.pt_block_work.specs.Work.{AreOffsets, IsFor, AllEmpty, HasFired, HasWorked, AllGiven};

use crate::inputs::inputs_of;
use crate::row::Row;
use pt_library::LibraryActor;
use pt_sdf_parts::CorePlan;
use std::alloc::Global;
use std::mem;

/// Makes the firings of all children in so many iterations, in an order in which each stands behind those that feed it. `given` has then what each gave. Where that isn't told, some weren't made.
pub fn fire_all(
    alloc: Global,
    plan: &CorePlan,
    offsets: &[usize],
    order: &[u32],
    iterations: usize,
    actors: &mut Vec<LibraryActor>,
    given: &mut Vec<Row>,
) -> bool
    requires fits { IsFor (plan_of plan.now) actors.old.items given.old.items }
    requires offsets { AreOffsets plan.now.places offsets.now }
    requires none { AllEmpty given.old.items }
    ensures { IsTrue result → HasWorked (plan_of plan.now) plan.now.needs iterations actors.old.items actors.new.items given.new.items }
{
    for k in 0..order.len() {
        let i = order[k] as usize;
        if i >= actors.len() {
            return false;
        }
        let actor = &mut actors[i];
        if !fire_child(alloc, plan, offsets[i], i, iterations, actor, given) {
            return false;
        }
    }
    all_given(given)
}

/// Makes the firings of a child that hasn't fired, where those that feed it have.
fn fire_child(
    alloc: Global,
    plan: &CorePlan,
    from: usize,
    i: usize,
    iterations: usize,
    actor: &mut LibraryActor,
    given: &mut Vec<Row>,
) -> bool
    requires there { i < length plan.now.places }
    requires repetitions { length plan.now.repetitions ≡ length plan.now.places }
    requires rates { length plan.now.rates.items ≡ length plan.now.places }
    requires rows { length given.old.items ≡ length plan.now.places }
    ensures { IsTrue result → HasFired (plan_of plan.now) plan.now.needs from i iterations actor.old given.old.items actor.new given.new.items }
{
    let rates = plan.rates[i].as_slice();
    if rates.len() != 1 || !given[i].is_empty() {
        return false;
    }
    let rate = rates[0];
    let Some(firings) = iterations.checked_mul(plan.repetitions.as_slice()[i]) else {
        return false;
    };
    let mut row = mem::replace(&mut given[i], Row::new(alloc));
    let Some(inputs) = inputs_of(plan, given, from, plan.places.as_slice()[i], firings) else {
        return false;
    };
    let made = actor.stretch(&inputs, rate, &mut row.numbers);
    if made != firings || row.is_empty() {
        return false;
    }
    given[i] = row;
    true
}

/// Whether each child gave something.
fn all_given(given: &[Row]) -> bool
    ensures { IsTrue result → AllGiven given.now }
{
    for row in given {
        if row.is_empty() {
            return false;
        }
    }
    true
}

/// Takes away what was given before.
pub fn clear(given: &mut Vec<Row>)
    ensures none { AllEmpty given.new.items }
    ensures count { length given.new.items ≡ length given.old.items }
{
    for k in 0..given.len() {
        let row = &mut given[k];
        row.clear();
    }
}
