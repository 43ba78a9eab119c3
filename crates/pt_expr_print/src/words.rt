ghost use Rattle.std.specs.Prelude.{◌≡◌, ◌++◌, OnOk, string_bytes, flat_map, encode_utf8};
ghost use Rattle.std.specs.Fmt.{signed_decimal};
ghost use Rattle.pt_value.specs.Printed.{quoted, escaped, printed_truth, separator_before};
ghost use Rattle.pt_expr_print.specs.Printed.{sign};

use itoa::Buffer;
use pt_language::BinaryOp;
use std::alloc::AllocError;

pub(crate) fn write_int(n: i64, out: &mut String) -> Result<(), AllocError>
    ensures { OnOk result (string_bytes out.new ≡ string_bytes out.old ++ signed_decimal n) }
{
    out.push_str(Buffer::new().format(n))
}

pub(crate) fn write_bool(b: bool, out: &mut String) -> Result<(), AllocError>
    ensures { OnOk result (string_bytes out.new ≡ string_bytes out.old ++ printed_truth b) }
{
    out.push_str(if b { "true" } else { "false" })
}

/// A text in quotes.
pub(crate) fn write_quoted(text: &str, out: &mut String) -> Result<(), AllocError>
    ensures { OnOk result (string_bytes out.new ≡ string_bytes out.old ++ quoted text.now) }
{
    out.push('"')?;
    for c in text.chars() {
        write_escaped(c, out)?;
    }
    out.push('"')
}

/// An operator, with a blank on each side.
pub(crate) fn sign(op: BinaryOp) -> &'static str
    ensures { result.now ≡ sign op }
{
    match op {
        BinaryOp::Or => " || ",
        BinaryOp::And => " && ",
        BinaryOp::Equal => " == ",
        BinaryOp::Unequal => " != ",
        BinaryOp::Less => " < ",
        BinaryOp::LessEqual => " <= ",
        BinaryOp::Greater => " > ",
        BinaryOp::GreaterEqual => " >= ",
        BinaryOp::Add => " + ",
        BinaryOp::Subtract => " - ",
        BinaryOp::Multiply => " * ",
        BinaryOp::Divide => " / ",
        BinaryOp::Remainder => " % ",
    }
}

/// What stands before the part of number `index`: a comma and a blank before each but the first.
pub(crate) fn separator(index: usize) -> &'static str
    ensures { result.now ≡ separator_before index }
{
    if index > 0 { ", " } else { "" }
}

/// A character as it stands between the quotes.
fn write_escaped(c: char, out: &mut String) -> Result<(), AllocError>
    ensures { OnOk result (string_bytes out.new ≡ string_bytes out.old ++ flat_map escaped (encode_utf8 c)) }
{
    match c {
        '"' => out.push_str("\\\""),
        '\\' => out.push_str("\\\\"),
        '\n' => out.push_str("\\n"),
        '\t' => out.push_str("\\t"),
        '\r' => out.push_str("\\r"),
        _ => out.push(c),
    }
}
