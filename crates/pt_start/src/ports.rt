ghost use Rattle.std.specs.Prelude.{◌≡◌, ◌++◌, IfOk, OnOk, map, option_map};
ghost use Rattle.std.specs.List.{enumerate_from};
ghost use Rattle.pt_document.specs.View.{port_view};
ghost use Rattle.pt_types.specs.Ty.{type_of};
ghost use Rattle.pt_types.specs.Entry.{typed_entry};
ghost use Rattle.pt_start.specs.Counts.{port_with};
ghost use Rattle.pt_start.specs.PortTypes.{named_types, with_type};

use pt_document::Port;
use pt_types::Ty;
use pt_value::Text;
use std::alloc::{AllocError, Global};

/// The ports by name, each with its number of channels.
pub fn counted_ports(
    alloc: Global,
    ports: &[Port],
    counts: &[u32],
) -> Result<Vec<(Text, u32)>, AllocError>
    ensures { IfOk result (λ counted. counted.items ≡ map (port_with counts.now) (enumerate_from 0 (map port_view ports.now))) }
{
    let mut counted = Vec::with_capacity(alloc, ports.len())?;
    for (number, port) in ports.iter().enumerate() {
        let count = match counts.get(number) {
            Some(count) => *count,
            None => 0,
        };
        counted.push((port.name.copy(alloc)?, count))?;
    }
    Ok(counted)
}

/// Adds a name with its type, if it has one.
fn add_type(
    alloc: Global,
    name: &Text,
    ty: Option<&Ty>,
    typed: &mut Vec<(Text, Ty)>,
) -> Result<(), AllocError>
    ensures { OnOk result (map typed_entry typed.new.items ≡ map typed_entry typed.old.items ++ with_type name.now (option_map type_of (option_map (λ t. t.now) ty.entry))) }
{
    match ty {
        Some(ty) => {
            typed.push((name.copy(alloc)?, ty.copy(alloc)?))?;
            Ok(())
        }
        None => Ok(()),
    }
}

/// The ports by name, each with its type.
pub fn typed_ports(
    alloc: Global,
    ports: &[Port],
    types: &[Ty],
) -> Result<Vec<(Text, Ty)>, AllocError>
    ensures { IfOk result (λ typed. map typed_entry typed.items ≡ named_types (map port_view ports.now) (map type_of types.now)) }
{
    let mut typed = Vec::new(alloc);
    for (number, port) in ports.iter().enumerate() {
        add_type(alloc, &port.name, types.get(number), &mut typed)?;
    }
    Ok(typed)
}
