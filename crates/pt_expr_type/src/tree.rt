ghost use Rattle.std.specs.Prelude.{◌≡◌, ◌⊎◌, IfOk, IfErr, map};
ghost use Rattle.pt_types.specs.Ty as ty;
ghost use Rattle.pt_language.specs.Expr.{tree_of, trees_in, fields_in};
ghost use Rattle.pt_language.specs.Tree.{trees_of, named_of};
ghost use Rattle.pt_language.specs.declared.type_fault.TypeFault.TheVariants.{Memory};
ghost use Rattle.pt_language.specs.Answer as answers;
ghost use Rattle.pt_language.specs.Answer.{Gives, Stops};
ghost use Rattle.pt_types.specs.Entry.{typed_entry};
ghost use Rattle.pt_language.specs.TypeFault.{Stands};
ghost use Rattle.pt_language.specs.TreeType.{IsTyped};
ghost use Rattle.pt_expr_type.specs.TypeEnv.{types_in};

use crate::env::TypeEnv;
use crate::operators::{
    applied, calculated, chosen, field, length_of, number, operated, record_of, truth,
};
use pt_language::{Expr, Exprs, NamedExprs, TypeFault};
use pt_types::{Ty, join};
use pt_value::Text;
use std::alloc::{AllocError, Global};

/// The type of an expression where its names have types as in `env`.
///
/// Where a name isn't bound and there is a clash too, either is told.
pub fn type_of(alloc: Global, expr: &Expr, env: &TypeEnv) -> Result<Ty, TypeFault>
    ensures ok { IfOk result (λ t. IsTyped (types_in env.now) (tree_of expr.now) (ty.type_of t)) }
    ensures err { IfErr result (Stands (types_in env.now) (tree_of expr.now)) }
{
    answer(alloc, expr, env)
}

#[cycle(answers)]
#[tactic(auto, using(pt_language::specs::Parts::tree_of_array, pt_language::specs::Parts::tree_of_record))]
fn answer(alloc: Global, expr: &Expr, env: &TypeEnv) -> Result<Ty, TypeFault>
    ensures ok { IfOk result (λ t. answers.answer (types_in env.now) (tree_of expr.now) ≡ Gives (ty.type_of t)) }
    ensures err { IfErr result (λ fault. (fault ≡ Memory) ⊎ (answers.answer (types_in env.now) (tree_of expr.now) ≡ Stops fault)) }
{
    match expr {
        Expr::Int(_) => Ok(Ty::Int),
        Expr::Bool(_) => Ok(Ty::Boolean),
        Expr::Words(_) => Ok(Ty::Words),
        Expr::Name(name) => env.ty(alloc, name.as_str()),
        Expr::List(parts) => Ok(Ty::array(alloc, parts_answer(alloc, parts, env)?)?),
        Expr::Record(fields) => record_of(alloc, named_answer(alloc, fields, env)?),
        Expr::Negate(e) => number(answer(alloc, e, env)?),
        Expr::Not(e) => truth(answer(alloc, e, env)?),
        Expr::Binary(op, a, b) => {
            let first = answer(alloc, a, env)?;
            operated(alloc, *op, first, answer(alloc, b, env)?)
        }
        Expr::Cond(test, a, b) => {
            let test = answer(alloc, test, env)?;
            let first = answer(alloc, a, env)?;
            chosen(alloc, test, first, answer(alloc, b, env)?)
        }
        Expr::Abs(e) => number(answer(alloc, e, env)?),
        Expr::Max(a, b) => {
            let first = answer(alloc, a, env)?;
            calculated(first, answer(alloc, b, env)?)
        }
        Expr::Min(a, b) => {
            let first = answer(alloc, a, env)?;
            calculated(first, answer(alloc, b, env)?)
        }
        Expr::Apply(array, index) => {
            let array = answer(alloc, array, env)?;
            applied(alloc, array, answer(alloc, index, env)?)
        }
        Expr::Field(e, name) => field(alloc, answer(alloc, e, env)?, name.as_str()),
        Expr::Length(e) => length_of(answer(alloc, e, env)?),
    }
}

/// The join of the types of the parts of an array literal.
#[cycle(answers)]
fn parts_answer(alloc: Global, parts: &Exprs, env: &TypeEnv) -> Result<Ty, TypeFault>
    ensures ok { IfOk result (λ t. answers.parts_answer (types_in env.now) (trees_of (trees_in parts.now)) ≡ Gives (ty.type_of t)) }
    ensures err { IfErr result (λ fault. (fault ≡ Memory) ⊎ (answers.parts_answer (types_in env.now) (trees_of (trees_in parts.now)) ≡ Stops fault)) }
{
    let mut joined = Ty::Unknown;
    for part in parts.as_slice() {
        let next = answer(alloc, part, env)?;
        joined = join(alloc, &joined, &next)?;
    }
    Ok(joined)
}

/// The names and types of the fields of a record literal.
#[cycle(answers)]
fn named_answer(
    alloc: Global,
    fields: &NamedExprs,
    env: &TypeEnv,
) -> Result<Vec<(Text, Ty)>, TypeFault>
    ensures ok { IfOk result (λ pairs. answers.named_answer (types_in env.now) (named_of (fields_in fields.now)) ≡ Gives (map typed_entry pairs.items)) }
    ensures err { IfErr result (λ fault. (fault ≡ Memory) ⊎ (answers.named_answer (types_in env.now) (named_of (fields_in fields.now)) ≡ Stops fault)) }
{
    let mut pairs = Vec::with_capacity(alloc, fields.len())?;
    for field in fields.as_slice() {
        let name = field.name.copy(alloc)?;
        pairs
            .push((name, answer(alloc, &field.value, env)?))
            .map_err(AllocError::from)?;
    }
    Ok(pairs)
}
