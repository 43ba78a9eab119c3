ghost use Rattle.std.specs.Prelude.{◌≡◌, ◌≤◌, ◌+◌, ◌*◌, ◌^◌, IfOk, IfSome, IsSome, Some, length, option_map, slice_get};
ghost use Rattle.pt_meaning.specs.Basics.{Streams};
ghost use Rattle.pt_value.specs.Token.{token_of};
ghost use Rattle.pt_value.specs.declared.token.Token as token;
ghost use Rattle.pt_value.specs.declared.token.Token.TheVariants.{Int};
ghost use Rattle.pt_lib_timed.specs.DiscreteClock.{array_of, offset_of, moved, next};
ghost use Rattle.pt_lib_timed.specs.DiscreteClock as discrete_clock;
ghost use Rattle.pt_lib_timed.specs.Signal.{GivesSignal};

use crate::boxed_items::BoxedItems;
use crate::period::Period;
use crate::signal::{LAST_TIME, copy_of, is_due, outputs_of};
use pt_firing::{Actor, Fires, Inputs, Need, OneEach, Outputs, Partial, Step, strict_early};
use pt_flow_base::Params;
use pt_time::{Tag, outer};
use pt_value::{Items, Token};
use std::alloc::{AllocError, Global};

/// `DiscreteClock`: a source of events at some offsets in each period.
#[derive(Drop)]
pub struct DiscreteClock {
    period: Period,
    offsets: BoxedItems,
    values: BoxedItems,
    // The event that is next: its round, of which the first is 0, and its index in the round.
    round: u64,
    index: usize,
    places: OneEach,
}

impl DiscreteClock {
    /// The actor that the parameters start, if they are such as its row has them.
    pub fn start(alloc: Global, params: &Params) -> Result<Option<DiscreteClock>, AllocError>
        ensures { IfOk result (λ actor. actor ≡ discrete_clock.start params.now) }
    {
        let Some(period) = params.values.int_within("period", 0, 1, LAST_TIME) else {
            return Ok(None);
        };
        let Some(offsets) = array_of(alloc, 0, params.values.get("offsets"))? else {
            return Ok(None);
        };
        let Some(values) = array_of(alloc, 1, params.values.get("values"))? else {
            return Ok(None);
        };
        if offsets.len() != values.len() {
            return Ok(None);
        }
        let places = OneEach::of(alloc, 0)?;
        Ok(Some(DiscreteClock {
            period: Period::of(period.unsigned_abs()),
            offsets: BoxedItems::of(alloc, offsets)?,
            values: BoxedItems::of(alloc, values)?,
            round: 0,
            index: 0,
            places,
        }))
    }

    /// The offset of the next event in its round.
    fn offset(&self) -> Option<u64>
        ensures { result ≡ offset_of (slice_get self.now.offsets self.now.index) }
    {
        match self.offsets.get(self.index) {
            Some(Token::Int(offset)) => u64::try_from(*offset).ok(),
            _ => None,
        }
    }

    /// When the next event is due.
    fn due(&self) -> Option<Tag>
        ensures { result ≡ next self.now }
    {
        let offset = self.offset()?;
        let begins = self.round.checked_mul(self.period.ticks())?;
        let tag = Tag {
            time: offset,
            step: 0,
        };
        outer(tag, begins)
    }

    /// The value of the next event, where that is an integer.
    fn number(&self) -> Option<i64>
        ensures { IfSome result (λ number. option_map token_of (slice_get self.now.values self.now.index) ≡ Some (Int number)) }
    {
        match self.values.get(self.index) {
            Some(Token::Int(number)) => Some(*number),
            _ => None,
        }
    }

    /// Makes a firing that gives one integer at most, and takes no memory. Where it makes none, `step` makes the firing.
    #[inline(always)]
    pub fn signal(&mut self, tag: Tag) -> Option<Option<i64>>
        ensures { (X : Streams token.Token) → GivesSignal discrete_clock.step self.old tag X result self.new }
    {
        if !is_due(tag, self.due()) {
            return Some(None);
        }
        let number = self.number()?;
        self.advance();
        Some(Some(number))
    }

    /// Goes on to the event behind the next one.
    fn advance(&mut self)
        requires { IsSome (next self.old) }
        ensures { self.new ≡ moved self.old }
    {
        let count = self.offsets.len();
        let index = self.index + 1;
        if index < count {
            self.index = index;
        } else {
            self.round = round_after(self.round, self.period);
            self.index = 0;
        }
    }
}

/// The number of the round behind one that begins by the last tick.
fn round_after(round: u64, period: Period) -> u64
    requires { round * period ≤ 2 ^ 62 }
    ensures { result ≡ round + 1 }
{
    let _ticks = period.ticks();
    round + 1
}

/// The array that a value says, or the one with this integer alone where there is none.
fn array_of(alloc: Global, default: i64, value: Option<&Token>) -> Result<Option<Items>, AllocError>
    ensures { IfOk result (λ items. items ≡ array_of default (option_map (λ token. token.now) value.entry)) }
{
    Ok(match value {
        None => Some(Items::of(vec![in alloc; Token::Int(default)]?)),
        Some(Token::Array(items)) => Some(items.copy(alloc)?),
        Some(_) => None,
    })
}

impl Fires for DiscreteClock {
    ghost use Rattle.pt_lib_timed.specs.DiscreteClock as discrete_clock;

    ghost step = { discrete_clock.step };

    ghost Takes = { λ tag actor X. Unit {0} };

    ghost IsSpare = { λ actor. ⊥ };

    fn step(&mut self, alloc: Global, tag: Tag, _inputs: &Inputs<'_>) -> Step {
        if !is_due(tag, self.due()) {
            return Step::Done(Outputs::none(1));
        }
        let Ok(value) = copy_of(alloc, self.values.get(self.index)) else {
            return Step::Memory;
        };
        self.advance();
        Step::Done(outputs_of(value))
    }

    fn copy(&self, alloc: Global) -> Result<DiscreteClock, AllocError> {
        Ok(DiscreteClock {
            period: self.period,
            offsets: self.offsets.copy(alloc)?,
            values: self.values.copy(alloc)?,
            round: self.round,
            index: self.index,
            places: self.places.copy(alloc)?,
        })
    }
}

impl Actor for DiscreteClock {
    ghost use Rattle.std.specs.Prelude.{[]};
    ghost use Rattle.pt_firing.specs.Strict.{strict};
    ghost use Rattle.pt_lib_timed.specs.DiscreteClock as discrete_clock;

    ghost first = { λ actor. [] };

    ghost need = { discrete_clock.need };

    ghost next = { discrete_clock.next };

    ghost early = { strict 1 discrete_clock.step };

    fn first(&self) -> &[Token] {
        &[]
    }

    fn need(&self) -> Need<'_> {
        Need::All(self.places.counts())
    }

    fn early(&self, alloc: Global, tag: Tag, partial: &Partial) -> Result<Partial, AllocError> {
        strict_early(self, 1, alloc, tag, partial)
    }

    fn next(&self) -> Option<Tag> {
        self.due()
    }
}
