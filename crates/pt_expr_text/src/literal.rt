ghost use Rattle.std.specs.Prelude.{◌≡◌, ℕ, List, IfOk, OnOk, map, not, true, nat_eq};
ghost use Rattle.std.proofs.Common.{cond};
ghost use denote.Ref.{Bor};
ghost use Rattle.std.specs.Cmp.Lexicographic.{pointwise};
ghost use Rattle.std.specs.HashSet.{contains};
ghost use Rattle.pt_language.specs.Expr.{tree_of, entry_of};
ghost use Rattle.pt_language.specs.ReaderFault.{Gives};
ghost use Rattle.pt_language.specs.Descent.{signed_literal, negative, positive, has_repeated};

use pt_language::{Expr, NamedExpr, ParseFault, Word};
use std::alloc::{AllocError, Global};
use std::collections::HashSet;

/// An integer literal.
pub(crate) fn positive(number: u64) -> Result<Expr, ParseFault>
    ensures { Gives tree_of result (positive number) }
{
    match i64::try_from(number) {
        Ok(n) => Ok(Expr::Int(n)),
        Err(_) => Err(ParseFault::Syntax),
    }
}

/// An integer literal behind a minus.
pub(crate) fn negative(number: u64) -> Result<Expr, ParseFault>
    ensures { Gives tree_of result (negative number) }
{
    if number > 0x8000_0000_0000_0000 {
        return Err(ParseFault::Syntax);
    }
    if number == 0x8000_0000_0000_0000 {
        return Ok(Expr::Int(i64::MIN));
    }
    Ok(Expr::Int(-(number as i64)))
}

/// A literal with its sign.
pub(crate) fn signed_literal(number: u64, rest: &[Word]) -> Result<(Expr, &[Word]), ParseFault>
    ensures { Gives (λ x. (tree_of x.0, x.1.now)) result (signed_literal number rest.now) }
{
    Ok((negative(number)?, rest))
}

/// Whether a name stands twice.
pub(crate) fn has_repeated(alloc: Global, fields: &[NamedExpr]) -> Result<bool, AllocError>
    ensures { IfOk result (λ repeated. repeated ≡ has_repeated (map (λ f. f.0) (map entry_of fields.now))) }
{
    let mut names = HashSet::new(alloc);
    for field in fields {
        if !insert_name(&mut names, field.name.as_str())? {
            return Ok(true);
        }
    }
    Ok(false)
}

/// Adds a name, and says whether it wasn't there.
fn insert_name<'n>(names: &mut HashSet<&'n str>, name: &'n str) -> Result<bool, AllocError>
    ensures added { IfOk result (λ added. added ≡ not (contains (λ x y. pointwise nat_eq x.now y.now) names.old name.entry)) }
    ensures updates { OnOk result ((q : Bor (List ℕ)) → contains (λ x y. pointwise nat_eq x.now y.now) names.new q ≡ cond (pointwise nat_eq name.now q.now) true (contains (λ x y. pointwise nat_eq x.now y.now) names.old q)) }
{
    Ok(names.insert(name)?)
}
