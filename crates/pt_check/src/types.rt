ghost use Rattle.std.specs.Prelude.{◌≡◌, ◌++◌, map, length, ◌<◌, IfOk, OnOk};
ghost use Rattle.pt_net.specs.Inside as inside;
ghost use Rattle.pt_typing.specs.Least.{assignment};
ghost use Rattle.pt_facts.specs.CheckText.{typed};
ghost use Rattle.pt_check.specs.Types.{port_type, port_types};
ghost use Rattle.pt_check.specs.Marks.{AreSized};
ghost use Rattle.pt_check.specs.Marked.{marked_types, all_marked};

use crate::marks::{Marks, marks_of};
use pt_document::{Direction, Port, path_below};
use pt_net::{Net, NetEntity};
use pt_types::Ty;
use pt_typing::{Typing, Variable};
use pt_value::Text;
use std::alloc::{AllocError, Global};

fn is_output(port: &Port) -> bool
    ensures { result ≡ inside.is_output port.now }
{
    match port.direction {
        Direction::Input => false,
        Direction::Output => true,
    }
}

/// A port with its type, by the path of its entity and its name.
fn typed_port(
    alloc: Global,
    typing: &Typing,
    number: usize,
    entity: &NetEntity,
    index: usize,
    port: &Port,
) -> Result<(Text, Ty), AllocError>
    ensures { IfOk result (λ told. typed told ≡ port_type (assignment typing.now) number entity.now index port.now) }
{
    let path = path_below(alloc, entity.path.as_str(), port.name.as_str())?;
    let ty = typing.ty(alloc, Variable::Port(number, index))?;
    Ok((path, ty))
}

/// Puts the ports of an entity that are marked or outputs, each with its type.
fn put_types(
    alloc: Global,
    typing: &Typing,
    number: usize,
    entity: &NetEntity,
    marks: &Marks,
    out: &mut Vec<(Text, Ty)>,
) -> Result<(), AllocError>
    ensures { OnOk result (map typed out.new.items ≡ map typed out.old.items ++ marked_types (assignment typing.now) (number, entity.now) marks.now) }
{
    for (index, port) in entity.ports.iter().enumerate() {
        if marks.has(index) || is_output(port) {
            out.push(typed_port(alloc, typing, number, entity, index, port)?)?;
        }
    }
    Ok(())
}

/// The same of all these entities, where the marks have a row for each of them.
fn types_by(
    alloc: Global,
    typing: &Typing,
    entities: &[NetEntity],
    rows: &[Marks],
) -> Result<Vec<(Text, Ty)>, AllocError>
    requires { AreSized entities.now rows.now }
    ensures { IfOk result (λ types. map typed types.items ≡ all_marked (assignment typing.now) entities.now rows.now) }
{
    let mut types = Vec::new(alloc);
    for (number, entity) in entities.iter().enumerate() {
        put_types(alloc, typing, number, entity, &rows[number], &mut types)?;
    }
    Ok(types)
}

/// The type of each port of a net that a channel begins or ends at, and of each output, entity by entity. It takes time linear in the
/// net and in the types.
pub fn types_of(alloc: Global, net: &Net, typing: &Typing) -> Result<Vec<(Text, Ty)>, AllocError>
    ensures { IfOk result (λ types. map typed types.items ≡ port_types net.now (assignment typing.now)) }
{
    let rows = marks_of(alloc, &net.entities, &net.channels)?;
    let types = types_by(alloc, typing, &net.entities, &rows);
    drop(rows);
    types
}
