ghost use Rattle.std.specs.Prelude.{◌≡◌, ◌++◌, [], ◌∷◌, IsTrue, OnOk, OnErr, length, map, take};
ghost use Rattle.pt_meaning.specs.Basics.{with_tag};
ghost use Rattle.pt_value.specs.declared.token.Token.TheVariants.{Int};

use pt_time::Tag;
use pt_value::Token;
use std::alloc::{AllocError, Global};
use std::marker::Model;

const START: Tag = Tag { time: 0, step: 0 };

/// Tokens one after another, each with a tag. The integers at their front that have the tag of the first lie in a row.
#[derive(Drop)]
pub struct Tagged {
    /// The tag of those in the row.
    tag: Tag,
    numbers: Vec<i64>,
    /// What comes behind these, each with its tag.
    rest: Vec<(Tag, Token)>,
}

impl Model for Tagged {
    ghost use Rattle.std.specs.Prelude.{List, ◌++◌, map};
    ghost use Rattle.std.specs.Coded.{coded_list};
    ghost use Rattle.pt_meaning.specs.Basics.{Tag, with_tag};
    ghost use Rattle.pt_value.specs.declared.token.Token.{Token};
    ghost use Rattle.pt_value.specs.declared.token.Token.TheVariants.{Int};
    ghost use Rattle.pt_tagged.specs.Tagged.{coded_tagged};

    ghost Value = { List (Tag × Token) };

    ghost coded = { coded_tagged };

    ghost view = { λ t. with_tag t.tag (map Int t.numbers.items) ++ t.rest.items };
}

impl Tagged {
    pub fn new(alloc: Global) -> Tagged
        ensures { result ≡ [] }
    {
        Tagged::of(alloc, Vec::new(alloc))
    }

    /// These, of which none is in the row.
    pub fn of(alloc: Global, tokens: Vec<(Tag, Token)>) -> Tagged
        ensures { result ≡ tokens.items }
    {
        Tagged {
            tag: START,
            numbers: Vec::new(alloc),
            rest: tokens,
        }
    }

    #[inline(always)]
    pub fn len(&self) -> usize
        ensures { result ≡ length self.now }
    {
        self.numbers.len() + self.rest.len()
    }

    /// The tag of the integers in the row, these, and the tokens behind them with their tags.
    #[inline(always)]
    pub fn parts(&self) -> (Tag, &[i64], &[(Tag, Token)])
        ensures { with_tag result.0 (map Int result.1.now) ++ result.2.now ≡ self.now }
    {
        (self.tag, self.numbers.as_slice(), self.rest.as_slice())
    }

    /// Takes away all but the first `count`.
    #[inline(always)]
    pub fn truncate(&mut self, count: usize)
        ensures { self.new ≡ take count self.old }
    {
        let row = self.numbers.len();
        if count <= row {
            self.numbers.truncate(count);
            self.rest.clear();
        } else {
            self.rest.truncate(count - row);
        }
    }

    /// Puts a token behind all.
    #[inline(always)]
    pub fn push(&mut self, tag: Tag, token: Token) -> Result<(), AllocError>
        ensures pushed { OnOk result (self.new ≡ self.old ++ (tag, token) ∷ []) }
        ensures before { take (length self.old) self.new ≡ self.old }
    {
        if let Token::Int(number) = &token {
            if goes_on(tag, self.tag, self.numbers.as_slice(), self.rest.as_slice()) {
                self.tag = tag;
                self.numbers.push(*number)?;
                return Ok(());
            }
        }
        self.rest.push((tag, token))?;
        Ok(())
    }

    /// Puts integers at one tag behind all.
    pub fn push_numbers(&mut self, tag: Tag, numbers: &[i64]) -> Result<(), AllocError>
        ensures pushed { OnOk result (self.new ≡ self.old ++ with_tag tag (map Int numbers.now)) }
        ensures before { take (length self.old) self.new ≡ self.old }
    {
        if goes_on(tag, self.tag, self.numbers.as_slice(), self.rest.as_slice()) {
            self.tag = tag;
            extend_row(numbers, &mut self.numbers)?;
            return Ok(());
        }
        push_each(tag, numbers, &mut self.rest)
    }
}

/// Whether integers at a tag come into the row of these, with that behind it.
#[inline(always)]
fn goes_on(tag: Tag, row: Tag, numbers: &[i64], rest: &[(Tag, Token)]) -> bool
    ensures nothing { IsTrue result → rest.now ≡ [] }
    ensures same { IsTrue result → with_tag row (map Int numbers.now) ≡ with_tag tag (map Int numbers.now) }
{
    rest.is_empty() && (numbers.is_empty() || row == tag)
}

/// Puts integers behind those that are there, where one alone is a case of its own.
#[inline(always)]
fn extend_row(numbers: &[i64], row: &mut Vec<i64>) -> Result<(), AllocError>
    ensures more { OnOk result (row.new.items ≡ row.old.items ++ numbers.now) }
    ensures kept { OnErr result (row.new.items ≡ row.old.items) }
{
    if let [number] = numbers {
        row.push(*number)?;
        return Ok(());
    }
    row.extend_from_slice(numbers)
}

/// Puts the integers behind those that are there, each with the tag.
fn push_each(tag: Tag, numbers: &[i64], rest: &mut Vec<(Tag, Token)>) -> Result<(), AllocError>
    ensures pushed { OnOk result (rest.new.items ≡ rest.old.items ++ with_tag tag (map Int numbers.now)) }
    ensures before { take (length rest.old.items) rest.new.items ≡ rest.old.items }
{
    for number in numbers {
        rest.push((tag, Token::Int(*number)))?;
    }
    Ok(())
}
