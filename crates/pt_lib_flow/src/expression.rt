ghost use Rattle.std.specs.Prelude.{◌≡◌, ◌⊎◌, IfOk, IfErr, OnOk, List, ℕ, map, true, false};
ghost use Rattle.pt_value.specs.Token.{value_of};
ghost use Rattle.pt_types.specs.Ty.{type_of};
ghost use Rattle.pt_language.specs.declared.eval_fault.EvalFault.TheVariants.{Memory};
ghost use Rattle.pt_language.specs.Outcome.{Gives, Stops};
ghost use Rattle.pt_expr.specs.Env.{scope_of};
ghost use Rattle.pt_language.specs.Expr.{tree_of};
ghost use Rattle.pt_types.specs.Entry.{typed_entry};
ghost use Rattle.pt_expr_type.specs.TypeEnv.{types_in};
ghost use Rattle.pt_firing.specs.Need.{need_of};
ghost use Rattle.pt_firing.specs.Row.{token_at};
ghost use Rattle.pt_formula.specs.Formula.{names, HasParameters, parameters, with_inputs, is_among, parameter_types, with_types, types_of, is_typed, is_of, are_of};
ghost use Rattle.pt_lib_flow.specs.Expression as expression;

use pt_expr::{Env, eval};
use pt_expr_type::TypeEnv;
use pt_firing::{
    Actor, Fires, Inputs, Need, OneEach, Outputs, Partial, RunFault, Step, Values, strict_early,
};
use pt_flow_base::{Params, PortTypes};
use pt_language::{EvalFault, Expr, TypeFault};
use pt_time::Tag;
use pt_types::{Ty, type_of_token};
use pt_value::{Text, Token};
use std::alloc::{AllocError, Global};
use std::marker::Model;

/// What an `Expression` keeps from firing to firing: its inputs, its parameters, and a tree that has a type.
#[derive(Drop)]
struct Fixed {
    inputs: PortTypes,
    values: Values,
    tree: Expr,
    places: OneEach,
}

impl Model for Fixed {
    ghost use Rattle.std.specs.Prelude.{◌≡◌, length, true};
    ghost use Rattle.pt_language.specs.Expr.{tree_of};
    ghost use Rattle.pt_formula.specs.Formula.{Formula, coded_formula, is_typed};

    ghost Value = { Formula };

    ghost coded = { coded_formula };

    ghost view = { λ f. record { inputs = f.inputs; values = f.values; tree = tree_of f.tree } };

    // Its tree has a type.
    ghost invariant = { λ f. (f.places ≡ length f.inputs) × (is_typed (record { inputs = f.inputs; values = f.values; tree = tree_of f.tree }) ≡ true) };
}

impl Fixed {
    /// These in memory of their own, where the tree has a type.
    fn boxed(
        alloc: Global,
        inputs: PortTypes,
        values: Values,
        tree: Expr,
    ) -> Result<Box<Fixed>, AllocError>
        requires { is_typed (record { inputs = inputs; values = values; tree = tree_of tree }) ≡ true }
        ensures { IfOk result (λ fixed. fixed.value ≡ record { inputs = inputs; values = values; tree = tree_of tree }) }
    {
        let places = OneEach::of(alloc, inputs.as_slice().len())?;
        let fixed = Fixed {
            inputs,
            values,
            tree,
            places,
        };
        Ok(Box::new(alloc, fixed)?)
    }

    /// Another actor that keeps the same.
    fn started(&self, alloc: Global) -> Result<Expression, AllocError>
        ensures { IfOk result (λ actor. actor ≡ self.now) }
    {
        Expression::of(
            alloc,
            self.inputs.copy(alloc)?,
            self.values.copy(alloc)?,
            self.tree.copy(alloc)?,
        )
    }

    /// One token of each input.
    fn need(&self) -> Need<'_>
        ensures { need_of result ≡ expression.need self.now }
    {
        Need::All(self.places.counts())
    }

    /// Whether each input has a token of its type.
    fn takes(&self, inputs: &Inputs<'_>) -> bool
        ensures { result ≡ are_of self.now.inputs inputs.now }
    {
        are_of(self.inputs.as_slice(), inputs)
    }

    /// What the tree comes to on tokens of the inputs' types, in an environment that has the parameters.
    fn evaluate(
        &self,
        env: &mut Env,
        alloc: Global,
        inputs: &Inputs<'_>,
    ) -> Result<Token, EvalFault>
        requires right { are_of self.now.inputs inputs.now ≡ true }
        requires bound { HasParameters (names self.now.inputs) self.now.values (scope_of env.old) }
        ensures ok { IfOk result (λ token. expression.outcome self.now inputs.now ≡ Gives (value_of token)) }
        ensures err { IfErr result (λ fault. (fault ≡ Memory) ⊎ (expression.outcome self.now inputs.now ≡ Stops fault)) }
        ensures others { (name : List ℕ) → is_among name (names self.now.inputs) ≡ false → scope_of env.new name ≡ scope_of env.old name }
    {
        bind_inputs(env, alloc, self.inputs.as_slice(), inputs)?;
        eval(alloc, &self.tree, env)
    }
}

/// `Expression`: gives what its tree comes to.
///
/// The parameters are bound once. At a firing only the inputs are bound anew, and what they were bound to before doesn't count.
#[derive(Drop)]
pub struct Expression {
    // In a box, so that actors of other classes take less room.
    fixed: Box<Fixed>,
    env: Env,
}

impl Model for Expression {
    ghost use Rattle.pt_expr.specs.Env.{scope_of};
    ghost use Rattle.pt_formula.specs.Formula.{Formula, coded_formula, names, HasParameters};

    ghost Value = { Formula };

    ghost coded = { coded_formula };

    ghost view = { λ e. e.fixed.value };

    ghost invariant = { λ e. HasParameters (names e.fixed.value.inputs) e.fixed.value.values (scope_of e.env) };
}

impl Expression {
    /// An actor with inputs of these names and types, in the order of its places, if the tree has a type.
    pub fn new(
        alloc: Global,
        inputs: PortTypes,
        values: Values,
        tree: Expr,
    ) -> Result<Option<Expression>, AllocError>
        ensures { IfOk result (λ actor. actor ≡ expression.typed (record { inputs = inputs; values = values; tree = tree_of tree })) }
    {
        if !has_type(alloc, &inputs, &values, &tree)? {
            return Ok(None);
        }
        Ok(Some(Expression::of(alloc, inputs, values, tree)?))
    }

    /// The same where the tree has one.
    fn of(
        alloc: Global,
        inputs: PortTypes,
        values: Values,
        tree: Expr,
    ) -> Result<Expression, AllocError>
        requires { is_typed (record { inputs = inputs; values = values; tree = tree_of tree }) ≡ true }
        ensures { IfOk result (λ actor. actor ≡ record { inputs = inputs; values = values; tree = tree_of tree }) }
    {
        let env = bound(alloc, &values)?;
        let fixed = Fixed::boxed(alloc, inputs, values, tree)?;
        Ok(Expression { fixed, env })
    }

    /// The actor that the parameters start, if there is a tree, each input has a type, and the tree has one then.
    pub fn start(alloc: Global, params: &Params) -> Result<Option<Expression>, AllocError>
        ensures { IfOk result (λ actor. actor ≡ expression.start params.now) }
    {
        let Some(tree) = &params.tree else {
            return Ok(None);
        };
        let names = params.ports.names_but(alloc, "output")?;
        let Some(inputs) = params.types.typed(alloc, &names)? else {
            return Ok(None);
        };
        let values = params.values.copy(alloc)?;
        Expression::new(alloc, inputs, values, tree.copy(alloc)?)
    }

    /// What the tree comes to on tokens of the inputs' types.
    fn evaluate(&mut self, alloc: Global, inputs: &Inputs<'_>) -> Result<Token, EvalFault>
        requires right { are_of self.old.inputs inputs.now ≡ true }
        ensures ok { IfOk result (λ token. expression.outcome self.old inputs.now ≡ Gives (value_of token)) }
        ensures err { IfErr result (λ fault. (fault ≡ Memory) ⊎ (expression.outcome self.old inputs.now ≡ Stops fault)) }
        ensures kept { self.new ≡ self.old }
    {
        self.fixed.evaluate(&mut self.env, alloc, inputs)
    }
}

/// Whether the tree has a type where its names have theirs.
fn has_type(
    alloc: Global,
    inputs: &PortTypes,
    values: &Values,
    tree: &Expr,
) -> Result<bool, AllocError>
    ensures { IfOk result (λ typed. typed ≡ is_typed (record { inputs = inputs.now; values = values.now; tree = tree_of tree.now })) }
{
    let mut env = bound_types(alloc, values)?;
    bind_types(&mut env, alloc, inputs.as_slice())?;
    match pt_expr_type::type_of(alloc, tree, &env) {
        Ok(_) => Ok(true),
        Err(TypeFault::Memory) => Err(AllocError),
        Err(TypeFault::Name | TypeFault::Clash) => Ok(false),
    }
}

/// An environment in which the parameters are bound to the types of their tokens.
fn bound_types(alloc: Global, values: &Values) -> Result<TypeEnv, AllocError>
    ensures { IfOk result (λ env. (name : List ℕ) → types_in env name ≡ parameter_types values.now name) }
{
    let mut env = TypeEnv::new(alloc);
    let entries = values.as_slice();
    // The first one under a name counts, and what is bound later replaces what was there.
    let mut left = entries.len();
    while left > 0 {
        left -= 1;
        let (name, value) = &entries[left];
        env.bind(name.as_str(), type_of_token(alloc, value)?)?;
    }
    Ok(env)
}

/// Binds the name of each input to its type.
fn bind_types(env: &mut TypeEnv, alloc: Global, inputs: &[(Text, Ty)]) -> Result<(), AllocError>
    ensures { OnOk result ((name : List ℕ) → types_in env.new name ≡ with_types (map typed_entry inputs.now) (types_in env.old) name) }
{
    for (name, ty) in inputs {
        env.bind(name.as_str(), ty.copy(alloc)?)?;
    }
    Ok(())
}

/// An environment in which the parameters are bound.
fn bound(alloc: Global, values: &Values) -> Result<Env, AllocError>
    ensures { IfOk result (λ env. (name : List ℕ) → scope_of env name ≡ parameters values.now name) }
{
    let mut env = Env::new(alloc);
    let entries = values.as_slice();
    // The first one under a name counts, and what is bound later replaces what was there.
    let mut left = entries.len();
    while left > 0 {
        left -= 1;
        let (name, value) = &entries[left];
        env.bind(name.as_str(), Some(value.copy(alloc)?))?;
    }
    Ok(env)
}

/// Binds the name of each input to the first token of its place.
fn bind_inputs(
    env: &mut Env,
    alloc: Global,
    entries: &[(Text, Ty)],
    inputs: &Inputs<'_>,
) -> Result<(), AllocError>
    ensures ok { OnOk result ((name : List ℕ) → scope_of env.new name ≡ with_inputs (names (map typed_entry entries.now)) inputs.now (scope_of env.old) name) }
    ensures others { (name : List ℕ) → is_among name (names (map typed_entry entries.now)) ≡ false → scope_of env.new name ≡ scope_of env.old name }
{
    for (place, (name, _)) in entries.iter().enumerate() {
        let token = first_at(alloc, inputs, place)?;
        env.bind(name.as_str(), token)?;
    }
    Ok(())
}

/// Whether each input has a token of its type.
fn are_of(entries: &[(Text, Ty)], inputs: &Inputs<'_>) -> bool
    ensures { result ≡ are_of (map typed_entry entries.now) inputs.now }
{
    for (place, (_, ty)) in entries.iter().enumerate() {
        if !is_of_at(inputs, place, ty) {
            return false;
        }
    }
    true
}

/// Whether a place has a token, of a type.
fn is_of_at(inputs: &Inputs<'_>, place: usize, ty: &Ty) -> bool
    ensures { result ≡ is_of (type_of ty.now) (token_at inputs.now place) }
{
    match inputs.token_at(place) {
        Some(token) => pt_types::is_of(token, ty),
        None => false,
    }
}

/// A copy of the first token of a place, if there is one.
fn first_at(alloc: Global, inputs: &Inputs<'_>, place: usize) -> Result<Option<Token>, AllocError>
    ensures { IfOk result (λ token. token ≡ token_at inputs.now place) }
{
    Ok(match inputs.token_at(place) {
        Some(token) => Some(token.copy(alloc)?),
        None => None,
    })
}

/// How a step tells what an evaluation comes to.
fn told(made: Result<Token, EvalFault>) -> Step
    ensures { result ≡ expression.told made }
{
    match made {
        Ok(token) => Step::Done(Outputs::one(token)),
        Err(EvalFault::DivideByZero) => Step::Fault(RunFault::DivideByZero),
        Err(EvalFault::Overflow) => Step::Fault(RunFault::Overflow),
        Err(EvalFault::Index) => Step::Fault(RunFault::Index),
        Err(EvalFault::Size) => Step::Fault(RunFault::Size),
        Err(EvalFault::Absent) => Step::Done(Outputs::none(1)),
        Err(EvalFault::Memory) => Step::Memory,
    }
}

impl Fires for Expression {
    ghost use Rattle.pt_lib_flow.specs.Expression as expression;

    ghost step = { expression.step };

    ghost Takes = { λ tag actor X. Unit {0} };

    ghost IsSpare = { λ actor. ⊥ };

    fn step(&mut self, alloc: Global, _tag: Tag, inputs: &Inputs<'_>) -> Step {
        if !self.fixed.takes(inputs) {
            return Step::Done(Outputs::none(1));
        }
        told(self.evaluate(alloc, inputs))
    }

    fn copy(&self, alloc: Global) -> Result<Expression, AllocError> {
        self.fixed.started(alloc)
    }
}

impl Actor for Expression {
    ghost use Rattle.std.specs.Prelude.{[], None};
    ghost use Rattle.pt_firing.specs.Strict.{strict};
    ghost use Rattle.pt_lib_flow.specs.Expression as expression;

    ghost first = { λ actor. [] };

    ghost need = { expression.need };

    ghost next = { λ actor. None };

    ghost early = { strict 1 expression.step };

    fn first(&self) -> &[Token] {
        &[]
    }

    fn need(&self) -> Need<'_> {
        self.fixed.need()
    }

    fn early(&self, alloc: Global, tag: Tag, partial: &Partial) -> Result<Partial, AllocError> {
        strict_early(self, 1, alloc, tag, partial)
    }

    fn next(&self) -> Option<Tag> {
        None
    }
}
