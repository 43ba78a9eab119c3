ghost use Rattle.std.specs.Prelude.{◌≡◌, ◌<◌, length, option_map};
ghost use Rattle.pt_meaning.specs.Basics.{at};
ghost use Rattle.pt_firing.specs.Row.{token_at, number_at, truth_at, is_present, all_present};

use crate::tokens::Tokens;
use pt_value::Token;
use std::marker::Model;

/// What a firing takes: a list of tokens for each place, lent by whoever keeps them.
#[derive(Drop)]
pub struct Inputs<'a> {
    lists: &'a [Tokens],
}

impl<'a> Model for Inputs<'a> {
    ghost use Rattle.std.specs.Prelude.{List};
    ghost use Rattle.std.specs.Coded.{coded_list};
    ghost use Rattle.pt_meaning.specs.Basics.{Streams};
    ghost use Rattle.pt_value.specs.declared.token.Token.{Token};
    ghost use Rattle.pt_value.specs.Token.{coded_token};

    ghost Value = { Streams Token };

    ghost coded = { coded_list (coded_list coded_token) };

    ghost view = { λ i. i.lists.now };
}

impl<'a> Inputs<'a> {
    pub fn of(lists: &'a [Tokens]) -> Inputs<'a>
        ensures { result ≡ lists.now }
    {
        Inputs { lists }
    }

    pub fn places(&self) -> usize
        ensures { result ≡ length self.now }
    {
        self.lists.len()
    }

    pub fn list(&self, place: usize) -> &[Token]
        requires { place < length self.now }
        ensures { result.now ≡ at self.now place }
    {
        match self.lists.get(place) {
            Some(list) => list.as_slice(),
            None => &[],
        }
    }

    /// The first token of a place, if there is one.
    pub fn token_at(&self, place: usize) -> Option<&Token>
        ensures { option_map (λ token. token.now) result ≡ token_at self.now place }
    {
        if place < self.places() {
            self.list(place).first()
        } else {
            None
        }
    }

    /// The first token of a place, where it is a number.
    pub fn number_at(&self, place: usize) -> Option<i64>
        ensures { result ≡ number_at self.now place }
    {
        match self.token_at(place) {
            Some(Token::Int(n)) => Some(*n),
            _ => None,
        }
    }

    /// The first token of a place, where it is a truth value.
    pub fn truth_at(&self, place: usize) -> Option<bool>
        ensures { result ≡ truth_at self.now place }
    {
        match self.token_at(place) {
            Some(Token::Bool(b)) => Some(*b),
            _ => None,
        }
    }

    /// Whether a place has a token.
    pub fn is_present(&self, place: usize) -> bool
        ensures { result ≡ is_present self.now place }
    {
        self.token_at(place).is_some()
    }

    /// Whether each place has a token.
    pub fn all_present(&self) -> bool
        ensures { result ≡ all_present self.now }
    {
        for place in 0..self.places() {
            if !self.is_present(place) {
                return false;
            }
        }
        true
    }
}
