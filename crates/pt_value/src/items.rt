ghost use Rattle.std.specs.Prelude.{◌≡◌, ◌↔◌, ◌++◌, IsTrue, IfOk, OnOk, map, min, length, option_map, slice_get};
ghost use Rattle.pt_value.specs.Value.{size_of_values, values_of};
ghost use Rattle.pt_value.specs.Token.{value_of, token_of};
ghost use Rattle.pt_value.specs.Printed.{in_braces, each_printed, IsExtended};

use crate::printed::write_separator;
use crate::token::Token;
use std::alloc::{AllocError, Global};
use std::marker::Model;

/// The parts of an array, which a contract sees as the list of their values.
#[derive(Drop)]
#[cycle(token)]
pub struct Items {
    tokens: Vec<Token>,
}

impl Model for Items {
    ghost use Rattle.std.specs.Prelude.{List, map};
    ghost use Rattle.std.specs.Coded.{coded_list};
    ghost use Rattle.pt_value.specs.Value as value;
    ghost use Rattle.pt_value.specs.ValueCode.{coded_value};

    ghost Value = { List value.Value };

    ghost coded = { coded_list coded_value };

    ghost use Rattle.pt_value.specs.Token.{value_of};

    ghost view = { λ x. map value_of x.tokens.items };

    ghost size = { λ vs. value.height_of_values (value.values_of vs) };

    ghost use Rattle.pt_value.specs.TokenHeight.{most_le-height};

    ghost size_decreases = { λ a h. most_le-height a.tokens.items };
}

impl Items {
    /// The array of these parts. It takes no memory.
    pub fn of(tokens: Vec<Token>) -> Items
        ensures values { result ≡ map value_of tokens.items }
        ensures tokens { map token_of result ≡ tokens.items }
    {
        Items { tokens }
    }

    pub fn len(&self) -> usize
        ensures { result ≡ length self.now }
    {
        self.tokens.len()
    }

    pub fn is_empty(&self) -> bool
        ensures { IsTrue result ↔ (length self.now ≡ 0) }
    {
        self.tokens.is_empty()
    }

    pub fn as_slice(&self) -> &[Token]
        ensures values { map value_of result.now ≡ self.now }
        ensures tokens { map token_of self.now ≡ result.now }
    {
        self.tokens.as_slice()
    }

    pub fn get(&self, index: usize) -> Option<&Token>
        ensures { option_map (λ t. value_of t.now) result ≡ slice_get self.now index }
    {
        self.tokens.get(index)
    }

    /// The parts as they are kept. It takes no memory.
    pub fn into_vec(self) -> Vec<Token>
        ensures values { map value_of result.items ≡ self }
        ensures tokens { map token_of self ≡ result.items }
    {
        let Items { tokens } = self;
        tokens
    }

    #[cycle(copies)]
    pub fn copy(&self, alloc: Global) -> Result<Items, AllocError>
        ensures { IfOk result (λ items. items ≡ self.now) }
    {
        let mut tokens = Vec::with_capacity(alloc, self.tokens.len())?;
        for token in &self.tokens {
            tokens.push(token.copy(alloc)?)?;
        }
        Ok(Items { tokens })
    }

    /// The sizes of the parts together, or the greatest `u64` where they are more.
    #[cycle(sizes)]
    pub fn size(&self) -> u64
        ensures { result ≡ min (size_of_values (values_of self.now)) u64.MAX }
    {
        let mut size = 0u64;
        for token in &self.tokens {
            size = size.saturating_add(token.size());
        }
        size
    }

    #[cycle(sames)]
    pub fn same(&self, other: &Items) -> bool
        ensures { IsTrue result ↔ (self.now ≡ other.now) }
    {
        if self.len() != other.len() {
            return false;
        }
        for (mine, theirs) in self.tokens.iter().zip(&other.tokens) {
            if !mine.same(theirs) {
                return false;
            }
        }
        true
    }

    /// The parts in braces, with commas between them.
    #[cycle(writes)]
    pub(crate) fn write(&self, out: &mut Vec<u8>) -> Result<(), AllocError>
        ensures ok { OnOk result (out.new.items ≡ out.old.items ++ in_braces (each_printed (values_of self.now))) }
        ensures kept { IsExtended out.old.items out.new.items }
    {
        out.push(b'{')?;
        for (index, token) in self.tokens.iter().enumerate() {
            write_separator(index, out)?;
            token.write(out)?;
        }
        out.push(b'}')?;
        Ok(())
    }
}
