ghost use Rattle.std.specs.Prelude.{◌≡◌, ◌++◌, is_ok, if◌then◌else◌};
ghost use Rattle.pt_value.specs.Printed.{separator_before};
ghost use Rattle.pt_types.specs.Printed.{printed};
ghost use Rattle.pt_types.specs.Ty.{type_of};

use crate::ty::Ty;
use std::alloc::AllocError;

/// Puts the text of a type behind the bytes that are there.
pub fn print(ty: &Ty, out: &mut Vec<u8>) -> Result<(), AllocError>
    ensures { out.new.items ≡ (if is_ok result then out.old.items ++ printed (type_of ty.now) else out.old.items) }
{
    if !ty.is_proper() {
        return out.extend_from_slice(b"general");
    }
    let before = out.len();
    let result = ty.write(out);
    if result.is_err() {
        out.truncate(before);
    }
    result
}

/// What stands before the field of number `index`: a comma and a blank before each but the first.
pub(crate) fn write_separator(index: usize, out: &mut Vec<u8>) -> Result<(), AllocError>
    ensures { out.new.items ≡ (if is_ok result then out.old.items ++ separator_before index else out.old.items) }
{
    if index > 0 {
        out.extend_from_slice(b", ")?;
    }
    Ok(())
}
