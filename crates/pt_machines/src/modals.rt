// Nets in which no entity is Modal.
ghost use Rattle.std.specs.Prelude.{◌≡◌, ℕ, None, IfOk, length, get_or};

use pt_chart::Written;
use std::alloc::{AllocError, Global};

/// No machine for each of so many entities.
pub(crate) fn no_machines(alloc: Global, count: usize) -> Result<Vec<Option<Written>>, AllocError>
    ensures counted { IfOk result (λ machines. length machines.items ≡ count) }
    ensures none { IfOk result (λ machines. (m : ℕ) → get_or machines.items m None ≡ None) }
{
    let mut machines = Vec::with_capacity(alloc, count)?;
    for _ in 0..count {
        machines.push(None)?;
    }
    Ok(machines)
}
