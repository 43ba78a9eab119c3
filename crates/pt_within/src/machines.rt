ghost use Rattle.std.specs.Prelude.{◌≡◌, IfOk, IfSome, IfNone, Some, None, get_or, option_map};
ghost use Rattle.pt_chart.specs.Views.{machine_of};
ghost use Rattle.pt_within.specs.Gives.{machine_in};

use pt_chart::Written;
use std::alloc::{AllocError, Global};

/// The machine of the entity of that number as it is written, if it is a Modal entity.
pub(crate) fn written_at(machines: &[Option<Written>], k: usize) -> Option<&Written>
    ensures some { IfSome result (λ machine. get_or machines.now k None ≡ Some machine.now) }
    ensures none { IfNone result (get_or machines.now k None ≡ None) }
{
    match machines.get(k) {
        Some(Some(machine)) => Some(machine),
        Some(None) => None,
        None => None,
    }
}

/// Another machine that is written so, for the entity of that number, if it is a Modal entity.
pub fn machine_at(
    alloc: Global,
    machines: &[Option<Written>],
    k: usize,
) -> Result<Option<Written>, AllocError>
    ensures { IfOk result (λ found. option_map machine_of found ≡ machine_in machines.now k) }
{
    match written_at(machines, k) {
        Some(machine) => Ok(Some(machine.copy(alloc)?)),
        None => Ok(None),
    }
}
