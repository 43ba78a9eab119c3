ghost use Rattle.std.specs.Prelude.{◌≡◌, ◌++◌, ℕ, map, IfOk, OnOk};
ghost use Rattle.pt_types.specs.Ty.{type_of};
ghost use Rattle.pt_facts.specs.CheckText as text;
ghost use Rattle.pt_facts.specs.CheckText.{number_line, type_line, type_lines, repetitions_lines, depths_lines, typed};

use itoa::Buffer;
use pt_types::{Ty, print};
use pt_value::Text;
use std::alloc::{AllocError, Global};

/// What a check tells of a model: the types of its ports, how often the children of each SDF composite fire in an iteration, and the
/// depths of the children of each DE composite. A text of `types` is the path of an entity with a port of it; the others are paths of
/// children.
#[derive(Drop)]
pub struct Facts {
    pub types: Vec<(Text, Ty)>,
    pub repetitions: Vec<(Text, u64)>,
    pub depths: Vec<(Text, u32)>,
}

/// The text of a check, a line for each fact and one for the end. It takes time linear in its length.
pub fn check_text(alloc: Global, facts: &Facts) -> Result<Vec<u8>, AllocError>
    ensures { IfOk result (λ bytes. bytes.items ≡ text.check_text (map typed facts.now.types.items) facts.now.repetitions.items facts.now.depths.items) }
{
    let mut out = Vec::new(alloc);
    write_types(&facts.types, &mut out)?;
    write_repetitions(&facts.repetitions, &mut out)?;
    write_depths(&facts.depths, &mut out)?;
    out.extend_from_slice(b"end accepted\n")?;
    Ok(out)
}

fn write_types(types: &[(Text, Ty)], out: &mut Vec<u8>) -> Result<(), AllocError>
    ensures { OnOk result (out.new.items ≡ out.old.items ++ type_lines (map typed types.now)) }
{
    for (port, ty) in types {
        write_type(port, ty, out)?;
    }
    Ok(())
}

fn write_type(port: &Text, ty: &Ty, out: &mut Vec<u8>) -> Result<(), AllocError>
    ensures { OnOk result (out.new.items ≡ out.old.items ++ type_line port.now (type_of ty.now)) }
{
    out.extend_from_slice(b"type ")?;
    out.extend_from_slice(port.as_str().as_bytes())?;
    out.push(b' ')?;
    print(ty, out)?;
    out.push(b'\n')?;
    Ok(())
}

fn write_repetitions(repetitions: &[(Text, u64)], out: &mut Vec<u8>) -> Result<(), AllocError>
    ensures { OnOk result (out.new.items ≡ out.old.items ++ repetitions_lines repetitions.now) }
{
    for (child, firings) in repetitions {
        write_line(b"repetitions ", child, *firings, out)?;
    }
    Ok(())
}

fn write_depths(depths: &[(Text, u32)], out: &mut Vec<u8>) -> Result<(), AllocError>
    ensures { OnOk result (out.new.items ≡ out.old.items ++ depths_lines depths.now) }
{
    for (child, depth) in depths {
        write_line(b"depth ", child, u64::from(*depth), out)?;
    }
    Ok(())
}

/// A word with a blank behind it, a path and a number.
fn write_line(word: &[u8], path: &Text, number: u64, out: &mut Vec<u8>) -> Result<(), AllocError>
    ensures { OnOk result (out.new.items ≡ out.old.items ++ number_line word.now path.now number) }
{
    out.extend_from_slice(word)?;
    out.extend_from_slice(path.as_str().as_bytes())?;
    out.push(b' ')?;
    out.extend_from_slice(Buffer::new().format(number).as_bytes())?;
    out.push(b'\n')?;
    Ok(())
}
