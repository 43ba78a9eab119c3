ghost use Rattle.std.specs.Prelude.{◌≡◌, ℕ, List, IfOk, IfErr, OnOk, true, false};
ghost use Rattle.std.specs.List.{Contains};
ghost use Rattle.pt_value.specs.Token.{value_of};
ghost use Rattle.pt_document.specs.Names.{is_among};
ghost use Rattle.pt_document.specs.declared.code.Code.TheVariants as code;
ghost use Rattle.pt_language.specs.Expr.{tree_of};
ghost use Rattle.pt_scopes.specs.Forms.{comparisons, functions, gates};
ghost use Rattle.pt_scopes.specs.Given.{Word, held_view, IsInScope, IsGiven, IsGivenFault, IsGivenValue, IsValueFault, HasNameOutside};
ghost use Rattle.pt_scopes.specs.Names.{seen_scope};
ghost use Rattle.pt_scopes.specs.PortNames.{names_port_of};
ghost use Rattle.pt_scopes.specs.Texts.{IsTreeOf, IsTreeFault};
ghost use Rattle.pt_scopes.specs.TextFault.{IsTold};

use crate::evaluation::evaluated;
use crate::reading::read;
use pt_document::Code;
use pt_language::Expr;
use pt_scopes::{Form, ParameterValue, PortNames, Seen, TextFault, fits, names_of};
use pt_value::Text;
use std::alloc::Global;

fn is_comparison(text: &str) -> bool
    ensures { result ≡ is_among comparisons text.now }
{
    matches!(text, ">" | "<" | "<=" | ">=" | "==")
}

fn is_function(text: &str) -> bool
    ensures { result ≡ is_among functions text.now }
{
    matches!(text, "and" | "or" | "xor" | "nand" | "nor" | "xnor")
}

fn is_gate(text: &str) -> bool
    ensures { result ≡ is_among gates text.now }
{
    matches!(text, "and" | "or")
}

/// A text that is taken as it is written, where it is one of those that may stand.
fn word(may_stand: bool) -> Result<ParameterValue, TextFault>
    ensures ok { IfOk result (λ p. (held_view p ≡ Word) × (may_stand ≡ true)) }
    ensures told { IfErr result (IsTold (λ cause. (cause ≡ code.Value) × (may_stand ≡ false))) }
{
    if may_stand {
        Ok(ParameterValue::Word)
    } else {
        Err(TextFault::Refused(Code::Value))
    }
}

/// Whether an expression may have this name.
fn is_in_scope(ports: &PortNames, seen: &Seen, name: &str) -> bool
    ensures yes { result ≡ true → IsInScope (names_port_of ports.now) (seen_scope seen.now) name.now }
    ensures no { result ≡ false → IsInScope (names_port_of ports.now) (seen_scope seen.now) name.now → ⊥ }
{
    ports.are_named_by(name) || seen.get(name).is_some()
}

/// Refuses a name that isn't in scope.
fn check_names(ports: &PortNames, seen: &Seen, names: &[Text]) -> Result<(), TextFault>
    ensures ok { OnOk result ((name : List ℕ) → Contains names.now name → IsInScope (names_port_of ports.now) (seen_scope seen.now) name) }
    ensures told { IfErr result (IsTold (λ cause. (cause ≡ code.ExprName) × HasNameOutside (IsInScope (names_port_of ports.now) (seen_scope seen.now)) names.now)) }
{
    for name in names {
        if !is_in_scope(ports, seen, name.as_str()) {
            return Err(TextFault::Refused(Code::ExprName));
        }
    }
    Ok(())
}

/// The tree of a text that is evaluated only in firings, each of whose names is in scope.
pub fn tree(alloc: Global, ports: &PortNames, seen: &Seen, text: &str) -> Result<Expr, TextFault>
    ensures ok { IfOk result (λ e. IsTreeOf (IsInScope (names_port_of ports.now) (seen_scope seen.now)) text.now (tree_of e)) }
    ensures told { IfErr result (IsTold (IsTreeFault (IsInScope (names_port_of ports.now) (seen_scope seen.now)) text.now)) }
{
    let tree = read(alloc, text)?;
    check_names(ports, seen, &names_of(alloc, &tree)?)?;
    Ok(tree)
}

/// The token that a text comes to, which has to have this form.
fn value(alloc: Global, seen: &Seen, form: Form, text: &str) -> Result<ParameterValue, TextFault>
    ensures ok { IfOk result (λ p. IsGivenValue (seen_scope seen.now) form text.now (held_view p)) }
    ensures told { IfErr result (IsTold (IsValueFault (seen_scope seen.now) form text.now)) }
{
    let token = evaluated(alloc, seen, text)?;
    if fits(form, &token) {
        Ok(ParameterValue::Token(token))
    } else {
        Err(TextFault::Refused(Code::Value))
    }
}

/// What a parameter of this form has by its text.
pub fn given(
    alloc: Global,
    ports: &PortNames,
    seen: &Seen,
    form: Form,
    text: &str,
) -> Result<ParameterValue, TextFault>
    ensures ok { IfOk result (λ p. IsGiven (names_port_of ports.now) (seen_scope seen.now) form text.now (held_view p)) }
    ensures told { IfErr result (IsTold (IsGivenFault (names_port_of ports.now) (seen_scope seen.now) form text.now)) }
{
    match form {
        Form::Tree => Ok(ParameterValue::Tree(tree(alloc, ports, seen, text)?)),
        Form::Comparison => word(is_comparison(text)),
        Form::Function => word(is_function(text)),
        Form::Gate => word(is_gate(text)),
        Form::Ignored => Ok(ParameterValue::Word),
        Form::Any
        | Form::Truth
        | Form::Integer { .. }
        | Form::Array
        | Form::FullArray
        | Form::Offsets => value(alloc, seen, form, text),
    }
}
