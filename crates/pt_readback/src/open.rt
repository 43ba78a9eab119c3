ghost use Rattle.std.specs.Prelude.{◌≡◌, ◌++◌, ◌∷◌, [], IfOk};
ghost use Rattle.pt_value.specs.Token.{value_of};
ghost use Rattle.pt_value.specs.Value.{Value};
ghost use Rattle.pt_readback.specs.Reading.{Closes, Finds, Gives, Records, goes_on};

use crate::fault::TokenFault;
use crate::front::field_first;
use pt_language::Word;
use pt_value::{Fields, FieldsFault, Items, Text, Token};
use std::alloc::{AllocError, Global};
use std::marker::Model;

/// Named values in the order in which they are written, which a contract sees as the list of their names and values.
#[derive(Drop)]
pub(crate) struct Pairs {
    pairs: Vec<(Text, Token)>,
}

impl Model for Pairs {
    ghost use Rattle.std.specs.Prelude.{List, map, ℕ};
    ghost use Rattle.std.specs.Coded.{coded_list, coded_ℕ, coded×};
    ghost use Rattle.pt_value.specs.Value as value;
    ghost use Rattle.pt_value.specs.ValueCode.{coded_value};
    ghost use Rattle.pt_value.specs.Token.{entry_of_pair};

    ghost Value = { List (List ℕ × value.Value) };

    ghost coded = { coded_list (coded× (coded_list coded_ℕ) coded_value) };

    ghost view = { λ x. map entry_of_pair x.pairs.items };
}

impl Pairs {
    pub(crate) fn new(alloc: Global) -> Pairs
        ensures { result ≡ [] }
    {
        Pairs {
            pairs: Vec::new(alloc),
        }
    }

    /// The same with one more behind them.
    pub(crate) fn with(mut self, name: Text, value: Token) -> Result<Pairs, AllocError>
        ensures { IfOk result (λ more. more ≡ self ++ (name, value_of value) ∷ []) }
    {
        self.pairs.push((name, value)).map_err(AllocError::from)?;
        Ok(self)
    }

    /// The record of all of them, where they make one and are sorted by name.
    fn record(self, alloc: Global) -> Result<Token, TokenFault>
        ensures { (v : Value) → Records self v → Finds result v }
    {
        match Fields::of(alloc, self.pairs) {
            Ok(fields) => Ok(Token::Record(fields)),
            Err(FieldsFault::Memory) => Err(TokenFault::Memory),
            Err(FieldsFault::Empty) => Err(TokenFault::Shape),
            Err(FieldsFault::Repeated(_)) => Err(TokenFault::Shape),
            Err(FieldsFault::Name(_)) => Err(TokenFault::Shape),
        }
    }
}

/// An array or a record whose end isn't read yet.
#[derive(Drop)]
pub(crate) enum Open {
    /// The parts so far.
    Array(Items),
    /// The fields so far, and the name of the one that is read.
    Record(Pairs, Text),
}

impl Open {
    /// The whole array or record, with its last part.
    pub(crate) fn close(self, alloc: Global, last: Token) -> Result<Token, TokenFault>
        ensures { (v : Value) → Closes self (value_of last) v → Finds result v }
    {
        match self {
            Open::Array(items) => Ok(Token::Array(with(items, last)?)),
            Open::Record(pairs, name) => pairs.with(name, last)?.record(alloc),
        }
    }

    /// The same with one part more, where others follow, and the words of the next one.
    pub(crate) fn goes_on(
        self,
        alloc: Global,
        part: Token,
        words: &[Word],
    ) -> Result<(Open, &[Word]), TokenFault>
        ensures { Gives (λ x. (x.0, x.1.now)) result (goes_on self (value_of part) words.now) }
    {
        match self {
            Open::Array(items) => Ok((Open::Array(with(items, part)?), words)),
            Open::Record(pairs, name) => match field_first(words) {
                Some((next, rest)) => {
                    let next = next.copy(alloc)?;
                    Ok((Open::Record(pairs.with(name, part)?, next), rest))
                }
                None => Err(TokenFault::Shape),
            },
        }
    }
}

/// The parts with one more after them.
fn with(items: Items, part: Token) -> Result<Items, AllocError>
    ensures { IfOk result (λ more. more ≡ items ++ value_of part ∷ []) }
{
    let mut tokens = items.into_vec();
    tokens.push(part).map_err(AllocError::from)?;
    Ok(Items::of(tokens))
}
