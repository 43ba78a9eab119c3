ghost use Rattle.std.specs.Prelude.{IfOk, IsTrue, map};
ghost use Rattle.pt_datatypes.specs.Order.{IsBelow};
ghost use Rattle.pt_types.specs.Ty.{type_of};
ghost use Rattle.pt_typing.specs.Views.{IsRuleOf, assigned};

use crate::numbers::Numbers;
use crate::term::{Inequality, Term};
use crate::variable::Variable;
use pt_types::{Rule, Ty, below};
use pt_value::Text;
use std::alloc::{AllocError, Global};
use std::slice;

/// An inequality as a rule on the types of numbers.
#[derive(Drop)]
pub struct Bound<'a> {
    pub target: u32,
    pub inequality: &'a Inequality,
    pub numbers: &'a Numbers,
    /// The numbers of the variables of the term, for the solver. One that is missing costs time, and changes no answer.
    pub reads: Reads,
}

/// Some numbers. Most rules read one number at most, for which no list is made.
#[derive(Drop)]
pub enum Reads {
    Nothing,
    One(u32),
    Many(Box<Vec<u32>>),
}

impl Reads {
    fn as_slice(&self) -> &[u32] {
        match self {
            Reads::Nothing => &[],
            Reads::One(number) => slice::from_ref(number),
            Reads::Many(numbers) => numbers.as_slice(),
        }
    }
}

impl Rule for Bound<'_> {
    ghost use Rattle.pt_typing.specs.Views.{bound_meaning};
    ghost use Rattle.pt_typing.specs.RuleGrows.{bound-grows};

    ghost target_of = { λ rule. rule.target };

    ghost value_of = { bound_meaning };

    ghost grows = { bound-grows };

    fn target(&self) -> u32 {
        self.target
    }

    fn value(&self, alloc: Global, types: &[Ty]) -> Result<Ty, AllocError> {
        self.inequality.term.value(alloc, self.numbers, types)
    }

    /// Of a variable and of a type that is given.
    fn is_met(&self, types: &[Ty], ty: &Ty) -> bool {
        match &self.inequality.term {
            Term::Same(variable) => is_variable_below(self.numbers, types, *variable, ty),
            Term::Fixed(fixed) => below(fixed, ty),
            Term::ArrayOf(_)
            | Term::ElementOf(_)
            | Term::FieldOf(..)
            | Term::RecordOf(_)
            | Term::TreeOf(_) => false,
        }
    }

    fn reads(&self) -> &[u32] {
        self.reads.as_slice()
    }
}

/// Whether there is a type of a variable, and it is below another.
fn is_variable_below(numbers: &Numbers, types: &[Ty], variable: Variable, ty: &Ty) -> bool
    ensures { IsTrue result → IsBelow (assigned numbers.now (map type_of types.now) variable) (type_of ty.now) }
{
    match types.get(numbers.number(variable) as usize) {
        Some(found) => below(found, ty),
        None => false,
    }
}

fn numbers_of(
    alloc: Global,
    numbers: &Numbers,
    names: &[(Text, Variable)],
) -> Result<Vec<u32>, AllocError> {
    let mut list = Vec::with_capacity(alloc, names.len())?;
    for (_, variable) in names {
        list.push(numbers.number(*variable))?;
    }
    Ok(list)
}

/// The numbers of named variables.
fn many(alloc: Global, numbers: &Numbers, names: &[(Text, Variable)]) -> Result<Reads, AllocError> {
    let list = numbers_of(alloc, numbers, names)?;
    Ok(Reads::Many(Box::new(alloc, list)?))
}

/// The numbers of the variables of a term.
fn reads_of(alloc: Global, numbers: &Numbers, term: &Term) -> Result<Reads, AllocError> {
    match term {
        Term::Fixed(_) => Ok(Reads::Nothing),
        Term::Same(variable)
        | Term::ArrayOf(variable)
        | Term::ElementOf(variable)
        | Term::FieldOf(variable, _) => Ok(Reads::One(numbers.number(*variable))),
        Term::RecordOf(fields) => many(alloc, numbers, fields.as_slice()),
        Term::TreeOf(tree) => many(alloc, numbers, tree.ports.as_slice()),
    }
}

impl<'a> Bound<'a> {
    /// The rule of an inequality.
    pub fn of(
        alloc: Global,
        numbers: &'a Numbers,
        inequality: &'a Inequality,
    ) -> Result<Bound<'a>, AllocError>
        ensures { IfOk result (IsRuleOf numbers.now inequality.now) }
    {
        Ok(Bound {
            target: numbers.number(inequality.variable),
            inequality,
            numbers,
            reads: reads_of(alloc, numbers, &inequality.term)?,
        })
    }
}
