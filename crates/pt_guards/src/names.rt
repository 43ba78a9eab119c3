ghost use Rattle.std.specs.Prelude.{◌≡◌, List, ℕ, IfOk, OnOk, map, option_map, false};
ghost use Rattle.pt_meaning.specs.Streams.{at, get};
ghost use Rattle.pt_meaning.specs.Transitions.{last_of};
ghost use Rattle.pt_value.specs.Token.{value_of};
ghost use Rattle.pt_types.specs.Ty.{type_of};
ghost use Rattle.pt_types.specs.Entry.{typed_entry};
ghost use Rattle.pt_expr.specs.Env.{scope_of};
ghost use Rattle.pt_formula.specs.Formula.{names, parameters, is_among};
ghost use Rattle.pt_chart.specs.Names.{of_type, with_names, over, is_named, renamed};
ghost use Rattle.pt_chart.specs.Views.{names_view};
ghost use Rattle.pt_guards.specs.Reads.{reads_view};

use pt_chart::Names;
use pt_expr::Env;
use pt_firing::{Inputs, Tokens, Values};
use pt_types::{Ty, is_of};
use pt_value::{Text, Token};
use std::alloc::{AllocError, Global};

/// What guards and actions read: the Variables, the own inputs, and what the refinement gave.
#[derive(Clone, Copy)]
pub struct Reads<'a> {
    pub values: &'a [Token],
    pub inputs: &'a Inputs<'a>,
    pub given: &'a [Tokens],
}

/// Binds each name but those of parameters to what it stands for.
pub(crate) fn bind_names(
    env: &mut Env,
    alloc: Global,
    names: &Names,
    reads: &Reads<'_>,
) -> Result<(), AllocError>
    ensures ok { OnOk result ((name : List ℕ) → scope_of env.new name ≡ over (names_view names.now) (reads_view reads.now) (scope_of env.old) name) }
    ensures others { (name : List ℕ) → is_named (names_view names.now) name ≡ false → scope_of env.new name ≡ scope_of env.old name }
{
    bind_values(env, alloc, names.variables.as_slice(), reads.values)?;
    let given = Inputs::of(reads.given);
    bind_ports(env, alloc, names.outputs.as_slice(), &given)?;
    bind_ports(env, alloc, names.inputs.as_slice(), reads.inputs)?;
    Ok(())
}

/// An environment in which the parameters are bound.
pub(crate) fn bound(alloc: Global, values: &Values) -> Result<Env, AllocError>
    ensures { IfOk result (λ env. (name : List ℕ) → scope_of env name ≡ parameters values.now name) }
{
    let mut env = Env::new(alloc);
    let entries = values.as_slice();
    // The first one under a name counts, and what is bound later replaces what was there.
    let mut left = entries.len();
    while left > 0 {
        left -= 1;
        let (name, value) = &entries[left];
        env.bind(name.as_str(), Some(value.copy(alloc)?))?;
    }
    Ok(env)
}

/// Binds the name of each port to the last of its tokens.
fn bind_ports(
    env: &mut Env,
    alloc: Global,
    entries: &[(Text, Ty)],
    lists: &Inputs<'_>,
) -> Result<(), AllocError>
    ensures ok { OnOk result ((name : List ℕ) → scope_of env.new name ≡ with_names 0 (map typed_entry entries.now) (λ port. last_of (at lists.now port)) (scope_of env.old) name) }
    ensures others { (name : List ℕ) → is_among name (names (map typed_entry entries.now)) ≡ false → scope_of env.new name ≡ scope_of env.old name }
{
    for (port, (name, ty)) in entries.iter().enumerate() {
        let token = held(alloc, ty, last_at(lists, port))?;
        env.bind(name.as_str(), token)?;
    }
    Ok(())
}

/// Binds the name of each Variable to its value.
fn bind_values(
    env: &mut Env,
    alloc: Global,
    entries: &[(Text, Ty)],
    values: &[Token],
) -> Result<(), AllocError>
    ensures ok { OnOk result ((name : List ℕ) → scope_of env.new name ≡ with_names 0 (map typed_entry entries.now) (λ i. get values.now i) (scope_of env.old) name) }
    ensures others { (name : List ℕ) → is_among name (names (map typed_entry entries.now)) ≡ false → scope_of env.new name ≡ scope_of env.old name }
{
    for (i, (name, ty)) in entries.iter().enumerate() {
        let token = held(alloc, ty, value_at(values, i))?;
        env.bind(name.as_str(), token)?;
    }
    Ok(())
}

/// Binds the name of the Variable of this number to a token, if there is one.
pub(crate) fn rebind(
    env: &mut Env,
    alloc: Global,
    entries: &[(Text, Ty)],
    variable: usize,
    token: &Token,
) -> Result<(), AllocError>
    ensures ok { OnOk result ((name : List ℕ) → scope_of env.new name ≡ renamed (get (map typed_entry entries.now) variable) token.now (scope_of env.old) name) }
    ensures others { (name : List ℕ) → is_among name (names (map typed_entry entries.now)) ≡ false → scope_of env.new name ≡ scope_of env.old name }
{
    if variable >= entries.len() {
        return Ok(());
    }
    let (name, ty) = &entries[variable];
    let token = held(alloc, ty, Some(token))?;
    env.bind(name.as_str(), token)?;
    Ok(())
}

/// A copy of a token, where it is of a type.
fn held(alloc: Global, ty: &Ty, token: Option<&Token>) -> Result<Option<Token>, AllocError>
    ensures { IfOk result (λ held. option_map value_of held ≡ of_type (type_of ty.now) (option_map (λ t. t.now) token.entry)) }
{
    match token {
        Some(token) => {
            if is_of(token, ty) {
                Ok(Some(token.copy(alloc)?))
            } else {
                Ok(None)
            }
        }
        None => Ok(None),
    }
}

/// The last token of a port.
pub(crate) fn last_at<'a>(lists: &'a Inputs<'_>, port: usize) -> Option<&'a Token>
    ensures { option_map (λ t. t.now) result ≡ last_of (at lists.now port) }
{
    if port < lists.places() {
        last(lists.list(port))
    } else {
        None
    }
}

fn last(tokens: &[Token]) -> Option<&Token>
    ensures { option_map (λ t. t.now) result ≡ last_of tokens.now }
{
    tokens.last()
}

/// The value of a Variable.
pub(crate) fn value_at(values: &[Token], i: usize) -> Option<&Token>
    ensures { option_map (λ t. t.now) result ≡ get values.now i }
{
    if i < values.len() {
        Some(&values[i])
    } else {
        None
    }
}
