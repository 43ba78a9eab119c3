ghost use Rattle.std.specs.Prelude.{◌≡◌, ◌*◌, ◌<◌, ◌≤◌, [], length, map, replicate, get_or, IfSome};
ghost use Rattle.pt_firing.specs.IntInputs.{one_at_each};
ghost use Rattle.pt_firing.specs.IntRows.{at_one_place};

use crate::int_inputs::IntInputs;
use std::marker::Model;

/// What firings in a row take, one after another, where all of it is integers: as many at the only place in each, or nothing. No token is made of them.
#[derive(Drop)]
pub struct IntRows<'a> {
    // Those of one firing after another; there may be more.
    numbers: &'a [i64],
    // How many a firing takes, where there is a place.
    need: Option<usize>,
    firings: usize,
}

impl<'a> Model for IntRows<'a> {
    ghost use Rattle.std.specs.Prelude.{List};
    ghost use Rattle.std.specs.Coded.{coded_list};
    ghost use Rattle.pt_meaning.specs.Basics.{Streams};
    ghost use Rattle.pt_value.specs.declared.token.Token.{Token};
    ghost use Rattle.pt_value.specs.Token.{coded_token};

    ghost Value = { List (Streams Token) };

    ghost coded = { coded_list (coded_list (coded_list coded_token)) };

    ghost use Rattle.pt_firing.specs.IntRows.{rows_of, AreFor};

    ghost view = { λ r. rows_of r.need r.firings r.numbers.now };

    ghost invariant = { λ r. AreFor r.need r.firings r.numbers.now };
}

impl<'a> IntRows<'a> {
    /// So many firings that take nothing, and have no place.
    #[inline(always)]
    pub fn nothing(firings: usize) -> IntRows<'a>
        ensures { result ≡ replicate firings [] }
    {
        IntRows {
            numbers: &[],
            need: None,
            firings,
        }
    }

    /// So many firings, each of which takes the next `need` of these integers at the only place.
    #[inline(always)]
    pub fn at_one_place(numbers: &'a [i64], need: usize, firings: usize) -> IntRows<'a>
        requires { firings * need ≤ length numbers.now }
        ensures { result ≡ at_one_place need firings numbers.now }
    {
        IntRows {
            numbers,
            need: Some(need),
            firings,
        }
    }

    /// The same rows.
    #[inline(always)]
    pub fn same(&self) -> IntRows<'a>
        ensures { result ≡ self.now }
    {
        IntRows {
            numbers: self.numbers,
            need: self.need,
            firings: self.firings,
        }
    }

    /// How many firings there are.
    #[inline(always)]
    pub fn firings(&self) -> usize
        ensures { result ≡ length self.now }
    {
        self.firings
    }

    /// What one of them takes.
    #[inline(always)]
    pub fn firing(&self, k: usize) -> IntInputs<'a>
        requires { k < length self.now }
        ensures { result ≡ get_or self.now k [] }
    {
        match self.need {
            Some(need) => {
                let from = k * need;
                IntInputs::all_at_one(&self.numbers[from..from + need])
            }
            None => IntInputs::one_at_each(&[]),
        }
    }
}
