// How many tokens the places of an actor need.
ghost use Rattle.std.specs.Prelude.{◌≡◌, [], ◌∷◌, replicate, IfOk};

use pt_firing::Counts;
use std::alloc::{AllocError, Global};

/// One token on each of so many places.
pub(crate) fn one_each(alloc: Global, places: usize) -> Result<Counts, AllocError>
    ensures { IfOk result (λ counts. counts ≡ replicate places 1) }
{
    Ok(Counts::of(vec![in alloc; 1usize; places]?))
}

/// So many tokens on the one place.
pub(crate) fn so_many(alloc: Global, count: usize) -> Result<Counts, AllocError>
    ensures { IfOk result (λ counts. counts ≡ count ∷ []) }
{
    Ok(Counts::of(vec![in alloc; count]?))
}
