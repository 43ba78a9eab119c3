ghost use Rattle.std.specs.Prelude.{◌≡◌, IfOk, replicate};
ghost use Rattle.pt_meaning.specs.Streams.{change_at};
ghost use Rattle.pt_meaning.specs.Modal.{unentered, fresh_unless, left_at, entered_at, lag_of, change_if};
ghost use Rattle.pt_modal_laws.specs.State.{moved_stays};

use std::alloc::{AllocError, Global};
use std::marker::Model;

/// The times of a refinement: how long it has stood when it was last left, and by how much its time lags behind that of the Modal.
#[derive(Clone, Copy, Debug)]
pub(crate) struct Stay {
    standing: u64,
    lag: u64,
}

impl Model for Stay {
    ghost use Rattle.pt_meaning.specs.Modal as modal;

    ghost Value = { modal.Stay };

    ghost view = { λ s. record { standing = s.standing; lag = s.lag } };

    ghost inverse = { λ s. record { standing = s.standing; lag = s.lag } };
}

impl Stay {
    /// Before it is entered.
    fn unentered() -> Stay
        ensures { result ≡ unentered }
    {
        Stay {
            standing: 0,
            lag: 0,
        }
    }

    /// Left at a time.
    fn left(self, time: u64) -> Stay
        ensures { result ≡ left_at time self }
    {
        Stay {
            standing: time.saturating_sub(self.lag),
            lag: self.lag,
        }
    }

    /// As a transition finds it that leads to it.
    fn refreshed(self, history: bool) -> Stay
        ensures { result ≡ fresh_unless history self }
    {
        if history {
            self
        } else {
            Stay {
                standing: 0,
                lag: self.lag,
            }
        }
    }

    /// Entered at a time.
    fn entered(self, time: u64) -> Stay
        ensures { result ≡ entered_at time self }
    {
        Stay {
            standing: self.standing,
            lag: time.saturating_sub(self.standing),
        }
    }
}

/// The times of so many refinements before any is entered.
pub(crate) fn unentered(alloc: Global, refinements: usize) -> Result<Vec<Stay>, AllocError>
    ensures { IfOk result (λ stays. stays.items ≡ replicate refinements unentered) }
{
    Ok(vec![in alloc; Stay::unentered(); refinements]?)
}

/// By how much the time of a refinement lags.
pub(crate) fn lag_of(stays: &[Stay], refinement: u32) -> u64
    ensures { result ≡ lag_of stays.now refinement }
{
    let refinement = refinement as usize;
    if refinement < stays.len() {
        let stay = stays[refinement];
        stay.lag
    } else {
        0
    }
}

/// A transition is taken at a time: the refinement of the one state is left, and that of the other is entered.
pub(crate) fn pass(
    stays: &mut Vec<Stay>,
    time: u64,
    history: bool,
    left: Option<u32>,
    entered: Option<u32>,
)
    ensures { stays.new.items ≡ moved_stays time history left entered stays.old.items }
{
    leave(stays, time, left);
    enter(stays, time, history, entered);
}

/// Leaves a refinement, if there is one.
fn leave(stays: &mut Vec<Stay>, time: u64, refinement: Option<u32>)
    ensures { stays.new.items ≡ change_if refinement (left_at time) stays.old.items }
{
    if let Some(refinement) = refinement {
        leave_one(stays, time, refinement);
    }
}

fn leave_one(stays: &mut Vec<Stay>, time: u64, refinement: u32)
    ensures { stays.new.items ≡ change_at refinement (left_at time) stays.old.items }
{
    let refinement = refinement as usize;
    if refinement < stays.len() {
        stays[refinement] = stays[refinement].left(time);
    }
}

/// Enters a refinement, if there is one.
fn enter(stays: &mut Vec<Stay>, time: u64, history: bool, refinement: Option<u32>)
    ensures { stays.new.items ≡ change_if refinement (entered_at time) (change_if refinement (fresh_unless history) stays.old.items) }
{
    if let Some(refinement) = refinement {
        enter_one(stays, time, history, refinement);
    }
}

fn enter_one(stays: &mut Vec<Stay>, time: u64, history: bool, refinement: u32)
    ensures { stays.new.items ≡ change_at refinement (entered_at time) (change_at refinement (fresh_unless history) stays.old.items) }
{
    let refinement = refinement as usize;
    if refinement < stays.len() {
        stays[refinement] = stays[refinement].refreshed(history).entered(time);
    }
}
