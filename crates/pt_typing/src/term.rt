ghost use Rattle.std.specs.Prelude.{◌≡◌, ◌<◌, IfOk, OnOk, List, ℕ, map};
ghost use Rattle.pt_types.specs.Ty as ty;
ghost use Rattle.pt_language.specs.Expr.{tree_of};
ghost use Rattle.pt_language.specs.Typing.{or_general};
ghost use Rattle.pt_language.specs.TreeType as trees;
ghost use Rattle.pt_expr_type.specs.TypeEnv.{types_in};
ghost use Rattle.pt_language.specs.Rule.{type_or_general};
ghost use Rattle.pt_typing.specs.Terms.{meaning, named, itself, names_types, entry_in, has_type};
ghost use Rattle.pt_typing.specs.Views.{known_entry, tree_view, term_view, assigned};

use crate::numbers::Numbers;
use crate::variable::Variable;
use pt_expr_type::{TypeEnv, applied, field, record_of, type_of};
use pt_language::{Expr, TypeFault};
use pt_types::Ty;
use pt_value::Text;
use std::alloc::{AllocError, Global};

/// The type of an expression: its names are variables, or else have types.
#[derive(Drop)]
pub struct TreeTerm {
    pub tree: Expr,
    pub ports: Vec<(Text, Variable)>,
    pub known: Vec<(Text, Ty)>,
}

/// A term of types over variables.
#[derive(Drop)]
pub enum Term {
    Same(Variable),
    Fixed(Ty),
    ArrayOf(Variable),
    ElementOf(Variable),
    FieldOf(Variable, Text),
    RecordOf(Vec<(Text, Variable)>),
    /// In a place of its own, since few terms are of expressions, and a list of terms has the room of the largest for each.
    TreeOf(Box<TreeTerm>),
}

/// A variable, and the term that is below it.
#[derive(Drop)]
pub struct Inequality {
    pub variable: Variable,
    pub term: Term,
}

/// The type of a variable, where there is one for each number.
pub(crate) fn type_of_variable(
    alloc: Global,
    numbers: &Numbers,
    types: &[Ty],
    variable: Variable,
) -> Result<Ty, AllocError>
    ensures { IfOk result (λ t. ty.type_of t ≡ assigned numbers.now (map ty.type_of types.now) variable) }
{
    match types.get(numbers.number(variable) as usize) {
        Some(ty) => ty.copy(alloc),
        None => Ok(Ty::Unknown),
    }
}

impl TreeTerm {
    /// The names of the expression, with the types that they have where the variables have these.
    fn names(&self, alloc: Global, numbers: &Numbers, types: &[Ty]) -> Result<TypeEnv, AllocError>
        ensures { IfOk result (λ env. (name : List ℕ) → types_in env name ≡ names_types (assigned numbers.now (map ty.type_of types.now)) self.now.ports.items (map known_entry self.now.known.items) name) }
    {
        let mut env = TypeEnv::new(alloc);
        for (name, ty) in &self.known {
            env.bind(name.as_str(), ty.copy(alloc)?)?;
        }
        for (name, variable) in &self.ports {
            env.bind(
                name.as_str(),
                type_of_variable(alloc, numbers, types, *variable)?,
            )?;
        }
        Ok(env)
    }

    /// The type of the expression, or general where it has none.
    pub fn value(&self, alloc: Global, numbers: &Numbers, types: &[Ty]) -> Result<Ty, AllocError>
        ensures { IfOk result (λ t. ty.type_of t ≡ meaning (assigned numbers.now (map ty.type_of types.now)) (tree_view self.now)) }
    {
        let env = self.names(alloc, numbers, types)?;
        match type_of(alloc, &self.tree, &env) {
            Ok(ty) => Ok(ty),
            Err(TypeFault::Name | TypeFault::Clash) => Ok(Ty::General),
            Err(TypeFault::Memory) => Err(AllocError),
        }
    }

    /// Whether the expression has a type.
    pub fn is_typed(
        &self,
        alloc: Global,
        numbers: &Numbers,
        types: &[Ty],
    ) -> Result<bool, AllocError>
        ensures { IfOk result (λ b. b ≡ has_type (names_types (assigned numbers.now (map ty.type_of types.now)) self.now.ports.items (map known_entry self.now.known.items)) (tree_of self.now.tree)) }
    {
        let env = self.names(alloc, numbers, types)?;
        match type_of(alloc, &self.tree, &env) {
            Ok(_) => Ok(true),
            Err(TypeFault::Name | TypeFault::Clash) => Ok(false),
            Err(TypeFault::Memory) => Err(AllocError),
        }
    }
}

/// The elements of an array, or general where it is none.
fn element(alloc: Global, array: Ty) -> Result<Ty, AllocError>
    ensures { IfOk result (λ t. ty.type_of t ≡ or_general (trees.element (ty.type_of array))) }
{
    match applied(alloc, array, Ty::Int) {
        Ok(ty) => Ok(ty),
        Err(TypeFault::Name | TypeFault::Clash) => Ok(Ty::General),
        Err(TypeFault::Memory) => Err(AllocError),
    }
}

/// The field of a record, or general where there is none.
fn field_of(alloc: Global, whole: Ty, name: &str) -> Result<Ty, AllocError>
    ensures { IfOk result (λ t. ty.type_of t ≡ or_general (trees.field name.now (ty.type_of whole))) }
{
    match field(alloc, whole, name) {
        Ok(ty) => Ok(ty),
        Err(TypeFault::Name | TypeFault::Clash) => Ok(Ty::General),
        Err(TypeFault::Memory) => Err(AllocError),
    }
}

/// The record of variables under names, or general where the names make none.
fn record(
    alloc: Global,
    numbers: &Numbers,
    types: &[Ty],
    fields: &[(Text, Variable)],
) -> Result<Ty, AllocError>
    ensures { IfOk result (λ t. ty.type_of t ≡ or_general (trees.recorded (map (entry_in (assigned numbers.now (map ty.type_of types.now))) fields.now))) }
{
    let mut pairs = Vec::with_capacity(alloc, fields.len())?;
    for (name, variable) in fields {
        let name = name.copy(alloc)?;
        let ty = type_of_variable(alloc, numbers, types, *variable)?;
        pairs.push((name, ty)).map_err(AllocError::from)?;
    }
    match record_of(alloc, pairs) {
        Ok(ty) => Ok(ty),
        Err(TypeFault::Name | TypeFault::Clash) => Ok(Ty::General),
        Err(TypeFault::Memory) => Err(AllocError),
    }
}

impl Term {
    /// What the term means where the variables have these types.
    pub fn value(&self, alloc: Global, numbers: &Numbers, types: &[Ty]) -> Result<Ty, AllocError>
        ensures { IfOk result (λ t. ty.type_of t ≡ meaning (assigned numbers.now (map ty.type_of types.now)) (term_view self.now)) }
    {
        match self {
            Term::Same(variable) => type_of_variable(alloc, numbers, types, *variable),
            Term::Fixed(ty) => ty.copy(alloc),
            Term::ArrayOf(variable) => {
                Ty::array(alloc, type_of_variable(alloc, numbers, types, *variable)?)
            }
            Term::ElementOf(variable) => {
                element(alloc, type_of_variable(alloc, numbers, types, *variable)?)
            }
            Term::FieldOf(variable, name) => {
                let whole = type_of_variable(alloc, numbers, types, *variable)?;
                field_of(alloc, whole, name.as_str())
            }
            Term::RecordOf(fields) => record(alloc, numbers, types, fields.as_slice()),
            Term::TreeOf(tree) => tree.value(alloc, numbers, types),
        }
    }
}
