ghost use Rattle.std.specs.Prelude.{◌≡◌, IfOk, map, option_map};
ghost use Rattle.pt_types.specs.Ty.{type_of};
ghost use Rattle.pt_document.specs.View.{port_view};
ghost use Rattle.pt_typing.specs.declared.variable.Variable.TheVariants as variable;
ghost use Rattle.pt_typing.specs.Least.{assignment};
ghost use Rattle.pt_said.specs.SaidWords.{type_in};
ghost use Rattle.pt_resolve.specs.Broken.{is_over_type, is_over, has_port_over};

use pt_document::Port;
use pt_said::type_in;
use pt_types::{Ty, below};
use pt_typing::{Typing, Variable};
use pt_value::Text;
use std::alloc::{AllocError, Global};

/// Whether a type isn't below another, where there is one.
pub(crate) fn is_over_type(ty: &Ty, bound: &Option<Ty>) -> bool
    ensures { result ≡ is_over_type (type_of ty.now) (option_map type_of bound.now) }
{
    match bound {
        Some(bound) => !below(ty, bound),
        None => false,
    }
}

/// Whether a type isn't below the one that a text says, where it says one.
fn is_over(alloc: Global, ty: &Ty, text: &Text) -> Result<bool, AllocError>
    ensures { IfOk result (λ b. b ≡ is_over_type (type_of ty.now) (type_in text.now)) }
{
    let bound = type_in(alloc, text.as_str())?;
    Ok(is_over_type(ty, &bound))
}

/// Whether what passes at the port of this number of an entity isn't below what the port declares. Where it declares nothing, its type
/// isn't asked for.
fn is_port_over(
    alloc: Global,
    typing: &Typing,
    number: usize,
    index: usize,
    port: &Port,
) -> Result<bool, AllocError>
    ensures { IfOk result (λ b. b ≡ is_over ((assignment typing.now).types (variable.Port number index)) (port_view port.now).declared) }
{
    match &port.declared {
        Some(text) => {
            let ty = typing.ty(alloc, Variable::Port(number, index))?;
            is_over(alloc, &ty, text)
        }
        None => Ok(false),
    }
}

/// Whether a port of an entity isn't below what it declares.
pub(crate) fn has_port_over(
    alloc: Global,
    typing: &Typing,
    number: usize,
    ports: &[Port],
) -> Result<bool, AllocError>
    ensures { IfOk result (λ b. b ≡ has_port_over (assignment typing.now) number 0 (map port_view ports.now)) }
{
    for (index, port) in ports.iter().enumerate() {
        if is_port_over(alloc, typing, number, index, port)? {
            return Ok(true);
        }
    }
    Ok(false)
}
