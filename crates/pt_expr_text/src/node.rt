ghost use Rattle.std.specs.Prelude.{◌≡◌, IfOk, map};
ghost use Rattle.pt_language.specs.Expr.{tree_of, entry_of};
ghost use Rattle.pt_language.specs.Tree.{Array, Record, trees_of, named_of, Negate, Not, Binary, Cond, Abs, Max, Min, Apply, Field, Length};

use pt_language::{BinaryOp, Expr, Exprs, NamedExpr, NamedExprs};
use pt_value::Text;
use std::alloc::{AllocError, Global};

/// A node in memory of its own.
fn boxed(alloc: Global, e: Expr) -> Result<Box<Expr>, AllocError>
    ensures { IfOk result (λ b. b.value ≡ e) }
{
    Ok(Box::new(alloc, e)?)
}

/// Two nodes, each in memory of its own.
fn boxed_pair(alloc: Global, a: Expr, b: Expr) -> Result<(Box<Expr>, Box<Expr>), AllocError>
    ensures first { IfOk result (λ pair. pair.0.value ≡ a) }
    ensures second { IfOk result (λ pair. pair.1.value ≡ b) }
{
    match boxed(alloc, a) {
        Ok(a) => second_boxed(alloc, a, b),
        Err(fault) => {
            drop(b);
            Err(fault)
        }
    }
}

fn second_boxed(alloc: Global, a: Box<Expr>, b: Expr) -> Result<(Box<Expr>, Box<Expr>), AllocError>
    ensures first { IfOk result (λ pair. pair.0.value ≡ a.value) }
    ensures second { IfOk result (λ pair. pair.1.value ≡ b) }
{
    match boxed(alloc, b) {
        Ok(b) => Ok((a, b)),
        Err(fault) => {
            drop(a);
            Err(fault)
        }
    }
}

pub(crate) fn negate(alloc: Global, e: Expr) -> Result<Expr, AllocError>
    ensures { IfOk result (λ n. tree_of n ≡ Negate (tree_of e)) }
{
    Ok(Expr::Negate(boxed(alloc, e)?))
}

pub(crate) fn not(alloc: Global, e: Expr) -> Result<Expr, AllocError>
    ensures { IfOk result (λ n. tree_of n ≡ Not (tree_of e)) }
{
    Ok(Expr::Not(boxed(alloc, e)?))
}

pub(crate) fn binary(alloc: Global, op: BinaryOp, a: Expr, b: Expr) -> Result<Expr, AllocError>
    ensures { IfOk result (λ n. tree_of n ≡ Binary op (tree_of a) (tree_of b)) }
{
    let (a, b) = boxed_pair(alloc, a, b)?;
    Ok(Expr::Binary(op, a, b))
}

pub(crate) fn cond(alloc: Global, test: Expr, yes: Expr, no: Expr) -> Result<Expr, AllocError>
    ensures { IfOk result (λ n. tree_of n ≡ Cond (tree_of test) (tree_of yes) (tree_of no)) }
{
    match boxed_pair(alloc, yes, no) {
        Ok((yes, no)) => cond_of(alloc, test, yes, no),
        Err(fault) => {
            drop(test);
            Err(fault)
        }
    }
}

/// The same of branches that have memory of their own.
fn cond_of(alloc: Global, test: Expr, yes: Box<Expr>, no: Box<Expr>) -> Result<Expr, AllocError>
    ensures { IfOk result (λ n. tree_of n ≡ Cond (tree_of test) (tree_of yes.value) (tree_of no.value)) }
{
    match boxed(alloc, test) {
        Ok(test) => Ok(Expr::Cond(test, yes, no)),
        Err(fault) => {
            drop(yes);
            drop(no);
            Err(fault)
        }
    }
}

pub(crate) fn abs(alloc: Global, e: Expr) -> Result<Expr, AllocError>
    ensures { IfOk result (λ n. tree_of n ≡ Abs (tree_of e)) }
{
    Ok(Expr::Abs(boxed(alloc, e)?))
}

pub(crate) fn max(alloc: Global, a: Expr, b: Expr) -> Result<Expr, AllocError>
    ensures { IfOk result (λ n. tree_of n ≡ Max (tree_of a) (tree_of b)) }
{
    let (a, b) = boxed_pair(alloc, a, b)?;
    Ok(Expr::Max(a, b))
}

pub(crate) fn min(alloc: Global, a: Expr, b: Expr) -> Result<Expr, AllocError>
    ensures { IfOk result (λ n. tree_of n ≡ Min (tree_of a) (tree_of b)) }
{
    let (a, b) = boxed_pair(alloc, a, b)?;
    Ok(Expr::Min(a, b))
}

pub(crate) fn apply(alloc: Global, base: Expr, index: Expr) -> Result<Expr, AllocError>
    ensures { IfOk result (λ n. tree_of n ≡ Apply (tree_of base) (tree_of index)) }
{
    let (base, index) = boxed_pair(alloc, base, index)?;
    Ok(Expr::Apply(base, index))
}

pub(crate) fn field(alloc: Global, base: Expr, name: &str) -> Result<Expr, AllocError>
    ensures { IfOk result (λ n. tree_of n ≡ Field (tree_of base) name.now) }
{
    let name = Text::of(alloc, name)?;
    Ok(Expr::Field(boxed(alloc, base)?, name))
}

pub(crate) fn length(alloc: Global, base: Expr) -> Result<Expr, AllocError>
    ensures { IfOk result (λ n. tree_of n ≡ Length (tree_of base)) }
{
    Ok(Expr::Length(boxed(alloc, base)?))
}

pub(crate) fn list(parts: Vec<Expr>) -> Expr
    ensures { tree_of result ≡ Array (trees_of (map tree_of parts.items)) }
{
    Expr::List(Exprs::of(parts))
}

pub(crate) fn record(fields: Vec<NamedExpr>) -> Expr
    ensures { tree_of result ≡ Record (named_of (map entry_of fields.items)) }
{
    Expr::Record(NamedExprs::of(fields))
}
