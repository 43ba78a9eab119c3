ghost use Rattle.std.specs.Prelude.{◌≡◌, IfOk};
ghost use Rattle.pt_sr.specs.Tick.{begins};
ghost use Rattle.pt_sr.specs.State.{unheard};

use std::alloc::{AllocError, Global};

/// Where the places of each child begin, and where those of all end.
pub(crate) fn offsets_of(alloc: Global, places: &[usize]) -> Result<Vec<usize>, AllocError>
    ensures { IfOk result (λ offsets. offsets.items ≡ begins 0 places.now) }
{
    let mut offsets = Vec::new(alloc);
    let mut from = 0usize;
    for n in places {
        offsets.push(from)?;
        let Some(next) = from.checked_add(*n) else {
            return Err(AllocError);
        };
        from = next;
    }
    offsets.push(from)?;
    Ok(offsets)
}

/// The number of places of each child, and one more.
pub(crate) fn unheard_of(alloc: Global, places: &[usize]) -> Result<Vec<usize>, AllocError>
    ensures { IfOk result (λ heard. heard.items ≡ unheard places.now) }
{
    let mut heard = Vec::with_capacity(alloc, places.len())?;
    for n in places {
        let Some(more) = n.checked_add(1) else {
            return Err(AllocError);
        };
        heard.push(more)?;
    }
    Ok(heard)
}
