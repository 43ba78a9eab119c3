ghost use Rattle.std.specs.Prelude.{◌≡◌, ◌++◌, IfOk, OnOk};
ghost use Rattle.pt_language.specs.Expr.{tree_of, trees_in, fields_in};
ghost use Rattle.pt_language.specs.Tree.{trees_of, named_of};
ghost use Rattle.pt_scopes.specs.Texts.{names_in, names_in_parts, names_in_fields};

use pt_language::{Expr, Exprs, NamedExprs};
use pt_value::Text;
use std::alloc::{AllocError, Global};

/// The names in a tree, from left to right.
pub fn names_of(alloc: Global, tree: &Expr) -> Result<Vec<Text>, AllocError>
    ensures { IfOk result (λ names. names.items ≡ names_in (tree_of tree.now)) }
{
    let mut names = Vec::new(alloc);
    add_names(alloc, tree, &mut names)?;
    Ok(names)
}

#[cycle(names)]
#[tactic(auto, using(pt_language::specs::Parts::tree_of_array, pt_language::specs::Parts::tree_of_record))]
fn add_names(alloc: Global, tree: &Expr, names: &mut Vec<Text>) -> Result<(), AllocError>
    ensures { OnOk result (names.new.items ≡ names.old.items ++ names_in (tree_of tree.now)) }
{
    match tree {
        Expr::Int(_) | Expr::Bool(_) | Expr::Words(_) => Ok(()),
        Expr::Name(name) => {
            names.push(name.copy(alloc)?)?;
            Ok(())
        }
        Expr::List(parts) => add_names_of_parts(alloc, parts, names),
        Expr::Record(fields) => add_names_of_fields(alloc, fields, names),
        Expr::Negate(e) | Expr::Not(e) | Expr::Abs(e) | Expr::Field(e, _) | Expr::Length(e) => {
            add_names(alloc, e, names)
        }
        Expr::Binary(_, a, b) | Expr::Max(a, b) | Expr::Min(a, b) | Expr::Apply(a, b) => {
            add_names(alloc, a, names)?;
            add_names(alloc, b, names)
        }
        Expr::Cond(test, yes, no) => {
            add_names(alloc, test, names)?;
            add_names(alloc, yes, names)?;
            add_names(alloc, no, names)
        }
    }
}

#[cycle(names)]
fn add_names_of_parts(alloc: Global, parts: &Exprs, names: &mut Vec<Text>) -> Result<(), AllocError>
    ensures { OnOk result (names.new.items ≡ names.old.items ++ names_in_parts (trees_of (trees_in parts.now))) }
{
    for part in parts.as_slice() {
        add_names(alloc, part, names)?;
    }
    Ok(())
}

#[cycle(names)]
fn add_names_of_fields(
    alloc: Global,
    fields: &NamedExprs,
    names: &mut Vec<Text>,
) -> Result<(), AllocError>
    ensures { OnOk result (names.new.items ≡ names.old.items ++ names_in_fields (named_of (fields_in fields.now))) }
{
    for field in fields.as_slice() {
        add_names(alloc, &field.value, names)?;
    }
    Ok(())
}
