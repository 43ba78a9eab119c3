ghost use Rattle.std.specs.Prelude.{◌≡◌, ◌++◌, IfOk, OnOk, string_bytes};
ghost use Rattle.pt_value.specs.Printed.{in_braces};
ghost use Rattle.pt_language.specs.Expr.{tree_of, trees_in, fields_in};
ghost use Rattle.pt_language.specs.Tree.{trees_of, named_of, Cond};
ghost use Rattle.pt_language.specs.Text.{ReadsAs};
ghost use Rattle.pt_expr_print.specs.Printed.{printed, each_printed, each_named, in_parentheses, pair, bare_or_not, is_bare_operand, is_bare_base};
ghost use Rattle.pt_expr_print.specs.Readable.{IsReadable};

use crate::words::{separator, sign, write_bool, write_int, write_quoted};
use pt_language::{Expr, Exprs, NamedExprs};
use pt_value::Text;
use std::alloc::{AllocError, Global};

/// The printed text of a tree that some text reads as. It reads as that tree again.
pub fn print(alloc: Global, tree: &Expr) -> Result<Text, AllocError>
    requires readable { IsReadable (tree_of tree.now) }
    ensures text { IfOk result (λ text. text ≡ printed (tree_of tree.now)) }
    ensures reads { IfOk result (λ text. ReadsAs text (tree_of tree.now)) }
{
    let mut out = String::new(alloc);
    write(tree, &mut out)?;
    Text::of(alloc, out.as_str())
}

#[cycle(writes)]
#[tactic(auto, using(pt_language::specs::Parts::tree_of_array, pt_language::specs::Parts::tree_of_record))]
fn write(tree: &Expr, out: &mut String) -> Result<(), AllocError>
    ensures { OnOk result (string_bytes out.new ≡ string_bytes out.old ++ printed (tree_of tree.now)) }
{
    match tree {
        Expr::Int(n) => write_int(*n, out),
        Expr::Bool(b) => write_bool(*b, out),
        Expr::Words(text) => write_quoted(text.as_str(), out),
        Expr::Name(name) => out.push_str(name.as_str()),
        Expr::List(parts) => write_parts(parts, out),
        Expr::Record(fields) => write_fields(fields, out),
        Expr::Negate(e) => write_call("-", e, out),
        Expr::Not(e) => write_call("!", e, out),
        Expr::Binary(op, a, b) => {
            write_operand(a, out)?;
            out.push_str(sign(*op))?;
            write_operand(b, out)
        }
        Expr::Cond(test, yes, no) => write_choice(test, yes, no, out),
        Expr::Abs(e) => write_call("abs", e, out),
        Expr::Max(a, b) => write_call_of_two("max", a, b, out),
        Expr::Min(a, b) => write_call_of_two("min", a, b, out),
        Expr::Apply(base, index) => {
            write_base(base, out)?;
            write_enclosed(index, out)
        }
        Expr::Field(base, name) => {
            write_base(base, out)?;
            out.push('.')?;
            out.push_str(name.as_str())
        }
        Expr::Length(base) => {
            write_base(base, out)?;
            out.push_str(".length()")
        }
    }
}

/// A tree in parentheses.
#[cycle(writes)]
fn write_enclosed(tree: &Expr, out: &mut String) -> Result<(), AllocError>
    ensures { OnOk result (string_bytes out.new ≡ string_bytes out.old ++ in_parentheses (printed (tree_of tree.now))) }
{
    out.push('(')?;
    write(tree, out)?;
    out.push(')')
}

/// A sign or a function, and its operand in parentheses.
#[cycle(writes)]
fn write_call(function: &str, operand: &Expr, out: &mut String) -> Result<(), AllocError>
    ensures { OnOk result (string_bytes out.new ≡ string_bytes out.old ++ (function.now ++ in_parentheses (printed (tree_of operand.now)))) }
{
    out.push_str(function)?;
    write_enclosed(operand, out)
}

/// A function, and its two operands in parentheses.
#[cycle(writes)]
fn write_call_of_two(
    function: &str,
    first: &Expr,
    second: &Expr,
    out: &mut String,
) -> Result<(), AllocError>
    ensures { OnOk result (string_bytes out.new ≡ string_bytes out.old ++ (function.now ++ in_parentheses (pair (printed (tree_of first.now)) (printed (tree_of second.now))))) }
{
    out.push_str(function)?;
    out.push('(')?;
    write(first, out)?;
    out.push_str(", ")?;
    write(second, out)?;
    out.push(')')
}

/// An operand of a binary operator or of a choice: in parentheses, unless it stands bare.
#[cycle(writes)]
fn write_operand(tree: &Expr, out: &mut String) -> Result<(), AllocError>
    ensures { OnOk result (string_bytes out.new ≡ string_bytes out.old ++ bare_or_not (is_bare_operand (tree_of tree.now)) (printed (tree_of tree.now))) }
{
    if is_bare_operand(tree) {
        write(tree, out)
    } else {
        write_enclosed(tree, out)
    }
}

/// The base of a call or of a field: in parentheses, unless it stands bare.
#[cycle(writes)]
fn write_base(tree: &Expr, out: &mut String) -> Result<(), AllocError>
    ensures { OnOk result (string_bytes out.new ≡ string_bytes out.old ++ bare_or_not (is_bare_base (tree_of tree.now)) (printed (tree_of tree.now))) }
{
    if is_bare_base(tree) {
        write(tree, out)
    } else {
        write_enclosed(tree, out)
    }
}

/// Whether a tree is a literal, a name, an array, a record, a call or a postfix form.
fn is_bare_operand(tree: &Expr) -> bool
    ensures { result ≡ is_bare_operand (tree_of tree.now) }
{
    match tree {
        Expr::Int(_)
        | Expr::Bool(_)
        | Expr::Words(_)
        | Expr::Name(_)
        | Expr::List(_)
        | Expr::Record(_)
        | Expr::Abs(_)
        | Expr::Max(_, _)
        | Expr::Min(_, _)
        | Expr::Apply(_, _)
        | Expr::Field(_, _)
        | Expr::Length(_) => true,
        Expr::Negate(_) | Expr::Not(_) | Expr::Binary(_, _, _) | Expr::Cond(_, _, _) => false,
    }
}

/// The same but for a negative literal.
fn is_bare_base(tree: &Expr) -> bool
    ensures { result ≡ is_bare_base (tree_of tree.now) }
{
    match tree {
        Expr::Int(n) => *n >= 0,
        Expr::Bool(_)
        | Expr::Words(_)
        | Expr::Name(_)
        | Expr::List(_)
        | Expr::Record(_)
        | Expr::Abs(_)
        | Expr::Max(_, _)
        | Expr::Min(_, _)
        | Expr::Apply(_, _)
        | Expr::Field(_, _)
        | Expr::Length(_) => true,
        Expr::Negate(_) | Expr::Not(_) | Expr::Binary(_, _, _) | Expr::Cond(_, _, _) => false,
    }
}

/// `a ? b : c`.
#[cycle(writes)]
fn write_choice(test: &Expr, yes: &Expr, no: &Expr, out: &mut String) -> Result<(), AllocError>
    ensures { OnOk result (string_bytes out.new ≡ string_bytes out.old ++ printed (Cond (tree_of test.now) (tree_of yes.now) (tree_of no.now))) }
{
    write_operand(test, out)?;
    out.push_str(" ? ")?;
    write_operand(yes, out)?;
    out.push_str(" : ")?;
    write_operand(no, out)
}

/// The parts of an array in braces, with commas between them.
#[cycle(writes)]
fn write_parts(parts: &Exprs, out: &mut String) -> Result<(), AllocError>
    ensures { OnOk result (string_bytes out.new ≡ string_bytes out.old ++ in_braces (each_printed (trees_of (trees_in parts.now)))) }
{
    out.push('{')?;
    for (index, part) in parts.as_slice().iter().enumerate() {
        out.push_str(separator(index))?;
        write(part, out)?;
    }
    out.push('}')
}

/// The fields of a record in braces, with commas between them.
#[cycle(writes)]
fn write_fields(fields: &NamedExprs, out: &mut String) -> Result<(), AllocError>
    ensures { OnOk result (string_bytes out.new ≡ string_bytes out.old ++ in_braces (each_named (named_of (fields_in fields.now)))) }
{
    out.push('{')?;
    for (index, field) in fields.as_slice().iter().enumerate() {
        out.push_str(separator(index))?;
        out.push_str(field.name.as_str())?;
        out.push_str(" = ")?;
        write(&field.value, out)?;
    }
    out.push('}')
}
