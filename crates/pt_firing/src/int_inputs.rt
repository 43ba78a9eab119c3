ghost use Rattle.std.specs.Prelude.{◌≡◌, ◌<◌, [], ◌∷◌, length, map};
ghost use Rattle.pt_meaning.specs.Basics.{at};
ghost use Rattle.pt_value.specs.declared.token.Token.TheVariants.{Int};
ghost use Rattle.pt_firing.specs.IntInputs.{one_at_each};
ghost use Rattle.pt_firing.specs.Row.{number_at, truth_at, is_present};

use std::marker::Model;
use std::slice;

/// What a firing takes, where all of it is integers: one at each place, or some at the only place. No token is made of them.
#[derive(Drop)]
pub struct IntInputs<'a> {
    numbers: &'a [i64],
    // As many as there are integers, where each place has one; else one, which has them all.
    places: usize,
}

impl<'a> Model for IntInputs<'a> {
    ghost use Rattle.std.specs.Prelude.{List};
    ghost use Rattle.std.specs.Coded.{coded_list};
    ghost use Rattle.pt_meaning.specs.Basics.{Streams};
    ghost use Rattle.pt_value.specs.declared.token.Token.{Token};
    ghost use Rattle.pt_value.specs.Token.{coded_token};

    ghost Value = { Streams Token };

    ghost coded = { coded_list (coded_list coded_token) };

    ghost use Rattle.pt_firing.specs.IntInputs.{streams_of, AreFor};

    ghost view = { λ i. streams_of i.places i.numbers.now };

    ghost invariant = { λ i. AreFor i.places i.numbers.now };
}

impl<'a> IntInputs<'a> {
    /// One integer at each place.
    #[inline(always)]
    pub fn one_at_each(numbers: &'a [i64]) -> IntInputs<'a>
        ensures { result ≡ one_at_each numbers.now }
    {
        IntInputs {
            numbers,
            places: numbers.len(),
        }
    }

    /// These integers at the only place.
    #[inline(always)]
    pub fn all_at_one(numbers: &'a [i64]) -> IntInputs<'a>
        ensures { result ≡ map Int numbers.now ∷ [] }
    {
        IntInputs { numbers, places: 1 }
    }

    #[inline(always)]
    pub fn places(&self) -> usize
        ensures { result ≡ length self.now }
    {
        self.places
    }

    /// The integers at a place: none where there is no such place.
    #[inline(always)]
    pub fn list(&self, place: usize) -> &'a [i64]
        ensures { map Int result.now ≡ at self.now place }
    {
        if self.places == self.numbers.len() {
            return one_of(self.numbers, place);
        }
        if place == 0 { self.numbers } else { &[] }
    }

    /// The first integer at a place, if there is one.
    #[inline(always)]
    pub fn number_at(&self, place: usize) -> Option<i64>
        ensures { result ≡ number_at self.now place }
    {
        if place == 0 {
            // In either form.
            return self.numbers.first().copied();
        }
        self.list(place).first().copied()
    }

    /// The first truth value at a place, of which there is none.
    #[inline(always)]
    pub fn truth_at(&self, place: usize) -> Option<bool>
        ensures { result ≡ truth_at self.now place }
    {
        match self.list(place) {
            [] | [_, ..] => None,
        }
    }

    /// Whether a place has an integer.
    #[inline(always)]
    pub fn is_present(&self, place: usize) -> bool
        ensures { result ≡ is_present self.now place }
    {
        !self.list(place).is_empty()
    }
}

/// The number of that place alone, if there is such a place.
#[inline(always)]
fn one_of(numbers: &[i64], place: usize) -> &[i64]
    ensures { map Int result.now ≡ at (one_at_each numbers.now) place }
{
    match numbers.get(place) {
        Some(number) => slice::from_ref(number),
        None => &[],
    }
}
