ghost use Rattle.std.specs.Prelude.{◌≡◌, OnOk, map, option_map};
ghost use Rattle.pt_types.specs.Ty.{type_of};
ghost use Rattle.pt_document.specs.View.{port_view};
ghost use Rattle.pt_typing.specs.Views.{inequality_view};
ghost use Rattle.pt_resolve.specs.DeclaredTypes.{of_type, of_text, of_declared, declared_from};
ghost use Rattle.pt_places.specs.Views.{IsAdded, port_lists};

use pt_document::Port;
use pt_places::add;
use pt_said::type_in;
use pt_types::Ty;
use pt_typing::{Inequality, Term, Variable};
use pt_value::Text;
use std::alloc::{AllocError, Global};

/// A type, where there is one, is below a port.
fn add_type(
    number: usize,
    index: usize,
    ty: Option<Ty>,
    inequalities: &mut Vec<Inequality>,
) -> Result<(), AllocError>
    ensures { OnOk result (IsAdded inequalities.old.items inequalities.new.items (of_type number index (option_map type_of ty))) }
{
    match ty {
        Some(ty) => add(inequalities, Variable::Port(number, index), Term::Fixed(ty)),
        None => Ok(()),
    }
}

/// The type that a text says, where there is one, is below a port.
fn add_text(
    alloc: Global,
    number: usize,
    index: usize,
    text: &Option<Text>,
    inequalities: &mut Vec<Inequality>,
) -> Result<(), AllocError>
    ensures { OnOk result (IsAdded inequalities.old.items inequalities.new.items (of_text number index text.now)) }
{
    match text {
        Some(text) => {
            let ty = type_in(alloc, text.as_str())?;
            add_type(number, index, ty, inequalities)
        }
        None => Ok(()),
    }
}

/// What the ports of an entity or of a transparent composite declare is below them.
fn add_ports(
    alloc: Global,
    number: usize,
    ports: &[Port],
    inequalities: &mut Vec<Inequality>,
) -> Result<(), AllocError>
    ensures { OnOk result (IsAdded inequalities.old.items inequalities.new.items (of_declared number 0 (map port_view ports.now))) }
{
    for (index, port) in ports.iter().enumerate() {
        add_text(alloc, number, index, &port.declared, inequalities)?;
    }
    Ok(())
}

/// The type that a port of an entity or of a transparent composite declares is below it.
pub(crate) fn add_declared(
    alloc: Global,
    lists: &[&[Port]],
    inequalities: &mut Vec<Inequality>,
) -> Result<(), AllocError>
    ensures { OnOk result (IsAdded inequalities.old.items inequalities.new.items (declared_from 0 (port_lists lists.now))) }
{
    for (number, ports) in lists.iter().enumerate() {
        add_ports(alloc, number, ports, inequalities)?;
    }
    Ok(())
}
