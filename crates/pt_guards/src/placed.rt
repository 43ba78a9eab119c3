//! Expressions of integers and truth values whose names are places.
ghost use Rattle.std.specs.Prelude.{◌≡◌, IfSome, option_map};
ghost use Rattle.pt_value.specs.Value.{Int, Bool};
ghost use Rattle.pt_language.specs.Meaning.{value, applied};
ghost use Rattle.pt_language.specs.Tree.{Tree};
ghost use Rattle.pt_language.specs.Outcome.{Gives};
ghost use Rattle.pt_chart.specs.Machine.{NameTable};
ghost use Rattle.pt_chart.specs.Names.{names_in};
ghost use Rattle.pt_guards.specs.Placed.{at_place, Says};
ghost use Rattle.pt_guards.specs.Reads.{reads_view};

use crate::names::{Reads, last_at, value_at};
use pt_language::BinaryOp;
use pt_value::Token;

/// From where a name is read.
#[derive(Clone, Copy, Debug)]
pub enum Place {
    /// The last token of an own input.
    Input(usize),
    /// The value of a Variable.
    Variable(usize),
}

/// An expression of integers and truth values. Its names are the places from which they are read.
#[derive(Drop)]
#[cycle(placed)]
pub enum Placed {
    Int(i64),
    Bool(bool),
    IntAt(Place),
    BoolAt(Place),
    Negate(Box<Placed>),
    Not(Box<Placed>),
    Binary(BinaryOp, Box<Placed>, Box<Placed>),
    Cond(Box<Placed>, Box<Placed>, Box<Placed>),
    /// Any other expression, of which nothing is said.
    Other,
}

/// The token at a place.
fn token_at<'a>(place: Place, reads: &Reads<'a>) -> Option<&'a Token>
    ensures { option_map (λ t. t.now) result ≡ at_place place (reads_view reads.now) }
{
    match place {
        Place::Input(port) => last_at(reads.inputs, port),
        Place::Variable(variable) => value_at(reads.values, variable),
    }
}

/// The integer that a number or a name comes to. Of any other expression nothing is said.
#[inline(always)]
fn leaf(placed: &Placed, reads: &Reads<'_>) -> Option<i64>
    ensures { IfSome result (λ n. (table : NameTable) (tree : Tree) → Says table placed.now tree → value (names_in table (reads_view reads.now)) tree ≡ Gives (Int n)) }
{
    match placed {
        Placed::Int(n) => Some(*n),
        Placed::IntAt(place) => match token_at(*place, reads) {
            Some(Token::Int(n)) => Some(*n),
            _ => None,
        },
        _ => None,
    }
}

/// The integer that an expression comes to, where it is made of integers and no fault is met.
#[cycle(quick)]
pub(crate) fn integer(placed: &Placed, reads: &Reads<'_>) -> Option<i64>
    ensures { IfSome result (λ n. (table : NameTable) (tree : Tree) → Says table placed.now tree → value (names_in table (reads_view reads.now)) tree ≡ Gives (Int n)) }
{
    match placed {
        Placed::Int(n) => Some(*n),
        Placed::IntAt(place) => match token_at(*place, reads) {
            Some(Token::Int(n)) => Some(*n),
            _ => None,
        },
        Placed::Negate(e) => match leaf(e, reads) {
            Some(n) => n.checked_neg(),
            None => integer(e, reads)?.checked_neg(),
        },
        Placed::Binary(op, a, b) => {
            let a = match leaf(a, reads) {
                Some(n) => n,
                None => integer(a, reads)?,
            };
            match leaf(b, reads) {
                Some(b) => computed(*op, a, b),
                None => computed(*op, a, integer(b, reads)?),
            }
        }
        Placed::Cond(test, a, b) => {
            if truth_value(test, reads)? {
                integer(a, reads)
            } else {
                integer(b, reads)
            }
        }
        _ => None,
    }
}

/// The truth value that an expression comes to, where its parts are integers or truth values and no fault is met.
#[cycle(quick)]
pub(crate) fn truth_value(placed: &Placed, reads: &Reads<'_>) -> Option<bool>
    ensures { IfSome result (λ b. (table : NameTable) (tree : Tree) → Says table placed.now tree → value (names_in table (reads_view reads.now)) tree ≡ Gives (Bool b)) }
{
    match placed {
        Placed::Bool(b) => Some(*b),
        Placed::BoolAt(place) => match token_at(*place, reads) {
            Some(Token::Bool(b)) => Some(*b),
            _ => None,
        },
        Placed::Not(e) => truth_value(e, reads).map(|b| !b),
        Placed::Binary(BinaryOp::Or, a, b) => {
            if truth_value(a, reads)? {
                Some(true)
            } else {
                truth_value(b, reads)
            }
        }
        Placed::Binary(BinaryOp::And, a, b) => {
            if truth_value(a, reads)? {
                truth_value(b, reads)
            } else {
                Some(false)
            }
        }
        Placed::Binary(op, a, b) => {
            let a = match leaf(a, reads) {
                Some(n) => n,
                None => integer(a, reads)?,
            };
            match leaf(b, reads) {
                Some(b) => compared(*op, a, b),
                None => compared(*op, a, integer(b, reads)?),
            }
        }
        _ => None,
    }
}

/// The integer that an expression comes to, as `integer` says. A number and a name are read without a call.
#[inline(always)]
pub fn operand(placed: &Placed, reads: &Reads<'_>) -> Option<i64>
    ensures { IfSome result (λ n. (table : NameTable) (tree : Tree) → Says table placed.now tree → value (names_in table (reads_view reads.now)) tree ≡ Gives (Int n)) }
{
    match leaf(placed, reads) {
        Some(n) => Some(n),
        None => integer(placed, reads),
    }
}

/// The truth value that an expression comes to, as `truth_value` says. A comparison is made without a call.
#[inline(always)]
pub(crate) fn test(placed: &Placed, reads: &Reads<'_>) -> Option<bool>
    ensures { IfSome result (λ b. (table : NameTable) (tree : Tree) → Says table placed.now tree → value (names_in table (reads_view reads.now)) tree ≡ Gives (Bool b)) }
{
    match placed {
        Placed::Binary(BinaryOp::Or, _, _) | Placed::Binary(BinaryOp::And, _, _) => {
            truth_value(placed, reads)
        }
        Placed::Binary(op, a, b) => {
            let a = operand(a, reads)?;
            compared(*op, a, operand(b, reads)?)
        }
        _ => truth_value(placed, reads),
    }
}

/// What an operator that makes integers makes of two.
fn computed(op: BinaryOp, m: i64, n: i64) -> Option<i64>
    ensures { IfSome result (λ r. applied op (Int m) (Int n) ≡ Gives (Int r)) }
{
    match op {
        BinaryOp::Add => m.checked_add(n),
        BinaryOp::Subtract => m.checked_sub(n),
        BinaryOp::Multiply => m.checked_mul(n),
        _ => None,
    }
}

/// What an operator that compares makes of two integers.
#[inline(always)]
fn compared(op: BinaryOp, m: i64, n: i64) -> Option<bool>
    ensures { IfSome result (λ b. applied op (Int m) (Int n) ≡ Gives (Bool b)) }
{
    match op {
        BinaryOp::Equal => Some(m == n),
        BinaryOp::Unequal => Some(m != n),
        BinaryOp::Less => Some(m < n),
        BinaryOp::LessEqual => Some(m <= n),
        BinaryOp::Greater => Some(m > n),
        BinaryOp::GreaterEqual => Some(m >= n),
        _ => None,
    }
}
