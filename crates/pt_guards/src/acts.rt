ghost use Rattle.std.specs.Prelude.{◌≡◌, [], ◌∷◌, IfOk, OnOk, map, option_map, true};
ghost use Rattle.pt_meaning.specs.Streams.{Streams, change_at};
ghost use Rattle.pt_value.specs.declared.token.Token.{Token};
ghost use Rattle.pt_language.specs.Expr.{tree_of};
ghost use Rattle.pt_language.specs.Meaning.{value};
ghost use Rattle.pt_language.specs.Outcome.{Wrong};
ghost use Rattle.pt_expr.specs.Env.{scope_of};
ghost use Rattle.pt_firing.specs.RunFault.{code_of};
ghost use Rattle.pt_chart.specs.Chart.{reading_of};
ghost use Rattle.pt_guards.specs.Bindings.{Fits, scope_on, IsBound, Follows};
ghost use Rattle.pt_chart.specs.Typed.{types_of, are_typed_actions};
ghost use Rattle.pt_guards.specs.Acts.{AreRight, put_one, set_one, put_all, set_all};
ghost use Rattle.pt_chart.specs.Views.{action_view, names_view};

use crate::bindings::Bindings;
use crate::evaluation::{Reading, read};
use pt_chart::{Action, Names};
use pt_expr::Env;
use pt_firing::{RunFault, Tokens};
use pt_value::Token;
use std::alloc::{AllocError, Global};

/// Runs output actions in listed order: each puts its token in the place of what its port has. The fault of one ends them.
pub fn put_all(
    alloc: Global,
    actions: &[Action],
    env: &Env,
    outputs: &mut Vec<Tokens>,
) -> Result<Option<RunFault>, AllocError>
    requires right { AreRight (scope_of env.now) (map action_view actions.now) }
    ensures { IfOk result (λ fault. put_all (scope_of env.now) (map action_view actions.now) outputs.old.items ≡ (option_map code_of fault, outputs.new.items)) }
{
    for action in actions {
        if let Some(fault) = put_one(alloc, action, env, outputs)? {
            return Ok(Some(fault));
        }
    }
    Ok(None)
}

fn put_one(
    alloc: Global,
    action: &Action,
    env: &Env,
    outputs: &mut Vec<Tokens>,
) -> Result<Option<RunFault>, AllocError>
    requires right { ¬ (value (scope_of env.now) (tree_of action.now.value) ≡ Wrong) }
    ensures { IfOk result (λ fault. put_one (reading_of (value (scope_of env.now) (tree_of action.now.value))) action.now.target outputs.old.items ≡ (option_map code_of fault, outputs.new.items)) }
{
    match read(alloc, &action.value, env)? {
        Reading::Reads(token) => {
            give(outputs, action.target, token);
            Ok(None)
        }
        Reading::Absent => Ok(None),
        Reading::Faulty(fault) => Ok(Some(fault)),
    }
}

/// Puts a token in the place of what a port has.
pub(crate) fn give(outputs: &mut Vec<Tokens>, port: u32, token: Token)
    ensures { outputs.new.items ≡ change_at port (λ old. token ∷ []) outputs.old.items }
{
    let port = port as usize;
    if port < outputs.len() {
        outputs[port] = Tokens::one(token);
    }
}

/// Runs set actions in listed order, each seeing the Variables as the earlier ones left them. The fault of one ends them.
///
/// A name is bound anew only where a later action may read it.
pub fn set_all(
    alloc: Global,
    actions: &[Action],
    names: &Names,
    bindings: &mut Bindings,
    values: &mut Vec<Token>,
) -> Result<Option<RunFault>, AllocError>
    requires typed { are_typed_actions (types_of (names_view names.now)) (map action_view actions.now) ≡ true }
    requires fits { Fits (names_view names.now) bindings.old }
    requires bound { IsBound (names_view names.now) values.old.items (scope_of bindings.old.env) }
    ensures fits { Fits (names_view names.now) bindings.new }
    ensures set { IfOk result (λ fault. (came given : Streams Token) → scope_of bindings.old.env ≡ scope_on (names_view names.now) values.old.items came given → set_all (names_view names.now) (map action_view actions.now) came given values.old.items ≡ (option_map code_of fault, values.new.items)) }
{
    for (number, action) in actions.iter().enumerate() {
        let more = number + 1 < actions.len();
        if let Some(fault) = set_one(alloc, action, names, bindings, values, more)? {
            return Ok(Some(fault));
        }
    }
    Ok(None)
}

/// Runs a set action. Where more of them come, the name of its Variable is bound anew.
fn set_one(
    alloc: Global,
    action: &Action,
    names: &Names,
    bindings: &mut Bindings,
    values: &mut Vec<Token>,
    more: bool,
) -> Result<Option<RunFault>, AllocError>
    requires right { ¬ (value (scope_of bindings.old.env) (tree_of action.now.value) ≡ Wrong) }
    requires fits { Fits (names_view names.now) bindings.old }
    ensures fits { Fits (names_view names.now) bindings.new }
    ensures set { IfOk result (λ fault. set_one (reading_of (value (scope_of bindings.old.env) (tree_of action.now.value))) action.now.target values.old.items ≡ (option_map code_of fault, values.new.items)) }
    ensures bound { OnOk result (more ≡ true → Follows (names_view names.now) values.old.items (scope_of bindings.old.env) values.new.items (scope_of bindings.new.env)) }
{
    match read(alloc, &action.value, &bindings.env)? {
        Reading::Reads(token) => {
            if more {
                assign_named(alloc, names, bindings, values, action.target, token)?;
            } else {
                assign(values, action.target, token);
            }
            Ok(None)
        }
        Reading::Absent => Ok(None),
        Reading::Faulty(fault) => Ok(Some(fault)),
    }
}

/// Gives a Variable a value, and its name.
fn assign_named(
    alloc: Global,
    names: &Names,
    bindings: &mut Bindings,
    values: &mut Vec<Token>,
    variable: u32,
    token: Token,
) -> Result<(), AllocError>
    requires fits { Fits (names_view names.now) bindings.old }
    ensures fits { Fits (names_view names.now) bindings.new }
    ensures set { OnOk result (values.new.items ≡ change_at variable (λ old. token) values.old.items) }
    ensures bound { OnOk result (Follows (names_view names.now) values.old.items (scope_of bindings.old.env) values.new.items (scope_of bindings.new.env)) }
{
    let variable = variable as usize;
    if variable >= values.len() {
        return Ok(());
    }
    bindings.set(alloc, names, variable, &token)?;
    values[variable] = token;
    Ok(())
}

/// Gives a Variable a value.
pub fn assign(values: &mut Vec<Token>, variable: u32, token: Token)
    ensures { values.new.items ≡ change_at variable (λ old. token) values.old.items }
{
    let variable = variable as usize;
    if variable < values.len() {
        values[variable] = token;
    }
}
