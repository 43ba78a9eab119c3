ghost use Rattle.std.specs.Prelude.{◌≡◌, None, set, get_or};
ghost use Rattle.pt_meaning.specs.Modal.{lagged};

use pt_time::{Tag, outer};

/// The wake of a refinement.
pub(crate) fn wake_of(wakes: &[Option<Tag>], refinement: u32) -> Option<Tag>
    ensures { result ≡ get_or wakes.now refinement None }
{
    let refinement = refinement as usize;
    if refinement < wakes.len() {
        wakes[refinement]
    } else {
        None
    }
}

/// Gives a refinement a wake.
pub(crate) fn set_wake(wakes: &mut Vec<Option<Tag>>, refinement: u32, wake: Option<Tag>)
    ensures { wakes.new.items ≡ set wakes.old.items refinement wake }
{
    let refinement = refinement as usize;
    if refinement < wakes.len() {
        wakes[refinement] = wake;
    }
}

/// The wake of a refinement as that of its Modal, by how much its time lags.
pub(crate) fn lagged(wake: Option<Tag>, lag: u64) -> Option<Tag>
    ensures { result ≡ lagged wake lag }
{
    match wake {
        Some(tag) => outer(tag, lag),
        None => None,
    }
}
