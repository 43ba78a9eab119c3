ghost use Rattle.std.specs.Prelude.{◌≡◌, ◌≤◌, [], length, vec_capacity};
ghost use Rattle.pt_flow_base.specs.Number.{GivesNumber, GivesStretch};

use pt_firing::{Fires, IntInputs, IntRows};
use pt_flow_numbers::{
    AbsoluteValue, Accumulator, AddSubtract, Counter, Extreme, MultiplyDivide, Ramp, Scale,
};
use pt_flow_streams::{Const, DownSample, SampleDelay, Sequence};
use std::alloc::Global;
use std::mem;

/// A class whose firings may give one integer each.
pub(crate) trait GivesOne: Fires {
    /// Makes the firing where it gives one integer, and nothing else. Else it makes none.
    fn one(&mut self, inputs: &IntInputs<'_>) -> Option<i64>
        ensures { GivesNumber Self.step self.old inputs.now result self.new };
}

/// A class whose state changes at each firing, and that another can stand for while it is taken out.
pub(crate) trait Idles: GivesOne {
    /// Any actor of the class. It takes no memory.
    fn idle(alloc: Global) -> Self;
}

/// The same as `stretch_of_ones`. The actor is taken out, so that its state isn't read and stored at each firing.
pub(crate) fn stretch_taken_out<A: Idles + Drop>(
    actor: &mut A,
    inputs: &IntRows<'_>,
    rate: usize,
    given: &mut Vec<i64>,
) -> usize
    ensures { GivesStretch A.step actor.old inputs.now rate result given.new.items actor.new }
{
    let alloc = *given.allocator();
    let mut own = mem::replace(actor, A::idle(alloc));
    let made = stretch_of_ones(&mut own, inputs, rate, given);
    *actor = own;
    made
}

/// Makes the first firings of a stretch, one after another, where each gives one integer, and tells how many. `given` has the integers then, in order.
#[inline(always)]
pub(crate) fn stretch_of_ones<A: GivesOne>(
    actor: &mut A,
    inputs: &IntRows<'_>,
    rate: usize,
    given: &mut Vec<i64>,
) -> usize
    ensures { GivesStretch A.step actor.old inputs.now rate result given.new.items actor.new }
{
    given.clear();
    let firings = inputs.firings();
    if rate != 1 {
        return 0;
    }
    if given.reserve(firings).is_err() {
        return 0;
    }
    // In places of their own the inputs and the buffer aren't read again at each firing.
    let alloc = *given.allocator();
    let mut row = mem::replace(given, Vec::new(alloc));
    let made = put_ones(actor, &inputs.same(), &mut row);
    *given = row;
    made
}

/// Puts the integers of the first firings into an empty buffer that has room for those of all.
#[inline(always)]
fn put_ones<A: GivesOne>(actor: &mut A, inputs: &IntRows<'_>, given: &mut Vec<i64>) -> usize
    requires empty { given.old.items ≡ [] }
    requires room { length inputs.now ≤ vec_capacity given.old }
    ensures { GivesStretch A.step actor.old inputs.now 1 result given.new.items actor.new }
{
    let firings = inputs.firings();
    for k in 0..firings {
        let Some(number) = actor.one(&inputs.firing(k)) else {
            return k;
        };
        given.push_reserved(number);
    }
    firings
}

impl GivesOne for AbsoluteValue {
    #[inline(always)]
    fn one(&mut self, inputs: &IntInputs<'_>) -> Option<i64> {
        self.number(inputs)
    }
}

impl GivesOne for Accumulator {
    #[inline(always)]
    fn one(&mut self, inputs: &IntInputs<'_>) -> Option<i64> {
        self.number(inputs)
    }
}

impl Idles for Accumulator {
    fn idle(alloc: Global) -> Accumulator {
        Accumulator::idle(alloc)
    }
}

impl GivesOne for AddSubtract {
    #[inline(always)]
    fn one(&mut self, inputs: &IntInputs<'_>) -> Option<i64> {
        self.number(inputs)
    }
}

impl GivesOne for Const {
    #[inline(always)]
    fn one(&mut self, inputs: &IntInputs<'_>) -> Option<i64> {
        self.number(inputs)
    }
}

impl GivesOne for Counter {
    #[inline(always)]
    fn one(&mut self, inputs: &IntInputs<'_>) -> Option<i64> {
        self.number(inputs)
    }
}

impl GivesOne for DownSample {
    #[inline(always)]
    fn one(&mut self, inputs: &IntInputs<'_>) -> Option<i64> {
        self.number(inputs)
    }
}

impl GivesOne for Extreme {
    #[inline(always)]
    fn one(&mut self, inputs: &IntInputs<'_>) -> Option<i64> {
        self.number(inputs)
    }
}

impl GivesOne for MultiplyDivide {
    #[inline(always)]
    fn one(&mut self, inputs: &IntInputs<'_>) -> Option<i64> {
        self.number(inputs)
    }
}

impl GivesOne for Ramp {
    #[inline(always)]
    fn one(&mut self, inputs: &IntInputs<'_>) -> Option<i64> {
        self.number(inputs)
    }
}

impl Idles for Ramp {
    fn idle(alloc: Global) -> Ramp {
        Ramp::idle(alloc)
    }
}

impl GivesOne for SampleDelay {
    #[inline(always)]
    fn one(&mut self, inputs: &IntInputs<'_>) -> Option<i64> {
        self.number(inputs)
    }
}

impl GivesOne for Scale {
    #[inline(always)]
    fn one(&mut self, inputs: &IntInputs<'_>) -> Option<i64> {
        self.number(inputs)
    }
}

impl GivesOne for Sequence {
    #[inline(always)]
    fn one(&mut self, inputs: &IntInputs<'_>) -> Option<i64> {
        self.number(inputs)
    }
}
