// What the firings of a child take in a block, by what its sources gave.
ghost use Rattle.std.specs.Prelude.{◌≡◌, ℕ, ◌+◌, ◌*◌, ◌<◌, ◌≤◌, length, map, get_or, IfSome, Option, Some, None, [], ◌∷◌};
ghost use Rattle.pt_core.specs.Source.{source_of};
ghost use Rattle.pt_block_work.specs.Work.{AreInputs, IsSource};

use crate::row::Row;
use pt_core::Source;
use pt_firing::IntRows;
use pt_sdf_parts::CorePlan;

/// What so many firings of a child take that has so many places from this one on, where each place has just as much.
/// A child of several places isn't told of here, and goes another way.
pub(crate) fn inputs_of<'a>(
    plan: &CorePlan,
    given: &'a [Row],
    from: usize,
    places: usize,
    firings: usize,
) -> Option<IntRows<'a>>
    ensures { IfSome result (AreInputs (map source_of plan.now.sources.items) plan.now.needs given.now from places firings) }
{
    match places {
        0 => Some(IntRows::nothing(firings)),
        1 => inputs_at(plan, given, from, firings),
        _ => None,
    }
}

/// The same of a child of one place.
fn inputs_at<'a>(
    plan: &CorePlan,
    given: &'a [Row],
    from: usize,
    firings: usize,
) -> Option<IntRows<'a>>
    ensures { IfSome result (AreInputs (map source_of plan.now.sources.items) plan.now.needs given.now from 1 firings) }
{
    let needs = plan.needs.as_slice();
    if from >= needs.len() {
        return None;
    }
    let need = needs[from];
    let numbers = row_at(&plan.sources, given, from)?;
    if firings.checked_mul(need) != Some(numbers.len()) {
        return None;
    }
    Some(IntRows::at_one_place(numbers, need, firings))
}

/// What the source of a channel gave, if that is a child and has fired.
fn row_at<'a>(sources: &[Source], given: &'a [Row], channel: usize) -> Option<&'a [i64]>
    ensures { IfSome result (λ numbers. IsSource (map source_of sources.now) given.now channel numbers.now) }
{
    let Source::Output(child, 0) = sources.get(channel)? else {
        return None;
    };
    let row = given.get(*child as usize)?;
    if row.is_empty() {
        return None;
    }
    Some(row.as_slice())
}
