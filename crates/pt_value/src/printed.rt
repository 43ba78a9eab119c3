ghost use Rattle.std.specs.Prelude.{◌≡◌, ◌++◌, is_ok, if◌then◌else◌, OnOk};
ghost use Rattle.std.specs.Fmt.{signed_decimal};
ghost use Rattle.pt_value.specs.Printed.{printed, quoted, escaped, printed_truth, separator_before, IsExtended};
ghost use Rattle.pt_value.specs.Token.{value_of};

use crate::token::Token;
use itoa::Buffer;
use std::alloc::AllocError;

/// Puts the printed text of a token behind the bytes that are there.
pub fn print(token: &Token, out: &mut Vec<u8>) -> Result<(), AllocError>
    ensures { out.new.items ≡ (if is_ok result then out.old.items ++ printed (value_of token.now) else out.old.items) }
{
    let before = out.len();
    let result = token.write(out);
    if result.is_err() {
        out.truncate(before);
    }
    result
}

pub(crate) fn write_int(n: i64, out: &mut Vec<u8>) -> Result<(), AllocError>
    ensures { out.new.items ≡ (if is_ok result then out.old.items ++ signed_decimal n else out.old.items) }
{
    out.extend_from_slice(Buffer::new().format(n).as_bytes())
}

pub(crate) fn write_bool(b: bool, out: &mut Vec<u8>) -> Result<(), AllocError>
    ensures { out.new.items ≡ (if is_ok result then out.old.items ++ printed_truth b else out.old.items) }
{
    out.extend_from_slice(if b { b"true" } else { b"false" })
}

/// A text in quotes.
pub(crate) fn write_quoted(text: &str, out: &mut Vec<u8>) -> Result<(), AllocError>
    ensures ok { OnOk result (out.new.items ≡ out.old.items ++ quoted text.now) }
    ensures kept { IsExtended out.old.items out.new.items }
{
    out.push(b'"')?;
    for byte in text.as_bytes() {
        write_escaped(*byte, out)?;
    }
    out.push(b'"')?;
    Ok(())
}

fn write_escaped(byte: u8, out: &mut Vec<u8>) -> Result<(), AllocError>
    ensures { out.new.items ≡ (if is_ok result then out.old.items ++ escaped byte else out.old.items) }
{
    match byte {
        b'"' => out.extend_from_slice(b"\\\""),
        b'\\' => out.extend_from_slice(b"\\\\"),
        b'\n' => out.extend_from_slice(b"\\n"),
        b'\t' => out.extend_from_slice(b"\\t"),
        b'\r' => out.extend_from_slice(b"\\r"),
        _ => out.extend_from_slice(&[byte]),
    }
}

/// What stands before the part of number `index`: a comma and a blank before each but the first.
pub(crate) fn write_separator(index: usize, out: &mut Vec<u8>) -> Result<(), AllocError>
    ensures { out.new.items ≡ (if is_ok result then out.old.items ++ separator_before index else out.old.items) }
{
    if index > 0 {
        out.extend_from_slice(b", ")?;
    }
    Ok(())
}
