ghost use Rattle.std.specs.Prelude.{◌≡◌, IfOk, List, ℕ, map};
ghost use Rattle.std.specs.List.{AllZip};
ghost use Rattle.pt_types.specs.Ty as ty;
ghost use Rattle.pt_language.specs.Expr.{tree_of};
ghost use Rattle.pt_typing.specs.Terms.{meaning, names_types, has_type};
ghost use Rattle.pt_typing.specs.Views.{inequality_view, known_entry, tree_view, IsRuleOf};
ghost use Rattle.pt_typing.specs.Least.{IsLeast, assignment};

use crate::numbers::Numbers;
use crate::rule::Bound;
use crate::term::{Inequality, TreeTerm, type_of_variable};
use crate::variable::Variable;
use pt_types::{Ty, least};
use std::alloc::{AllocError, Global};

/// A type for each variable. What isn't there has one type, which the last stands for.
#[derive(Drop)]
pub struct Typing {
    numbers: Numbers,
    types: Vec<Ty>,
}

/// The rules of some inequalities.
fn rules_of<'a>(
    alloc: Global,
    numbers: &'a Numbers,
    inequalities: &'a [Inequality],
) -> Result<Vec<Bound<'a>>, AllocError>
    ensures { IfOk result (λ rules. AllZip (IsRuleOf numbers.now) inequalities.now rules.items) }
{
    let mut rules = Vec::with_capacity(alloc, inequalities.len())?;
    for inequality in inequalities {
        let rule = Bound::of(alloc, numbers, inequality)?;
        rules.push(rule)?;
    }
    Ok(rules)
}

/// The least types of the variables of entities with so many ports that meet all inequalities.
pub fn least_typing(
    alloc: Global,
    port_counts: &[u32],
    inequalities: &[Inequality],
) -> Result<Typing, AllocError>
    ensures { IfOk result (λ t. IsLeast port_counts.now (map inequality_view inequalities.now) (assignment t)) }
{
    let numbers = Numbers::of(alloc, port_counts)?;
    let count = numbers.count()?;
    let rules = rules_of(alloc, &numbers, inequalities)?;
    let types = least(alloc, count, &rules)?;
    drop(rules);
    Ok(Typing { numbers, types })
}

impl Typing {
    /// The type of a variable.
    pub fn ty(&self, alloc: Global, variable: Variable) -> Result<Ty, AllocError>
        ensures { IfOk result (λ t. ty.type_of t ≡ (assignment self.now).types variable) }
    {
        type_of_variable(alloc, &self.numbers, &self.types, variable)
    }

    /// Whether an expression has a type.
    pub fn is_typed(&self, alloc: Global, tree: &TreeTerm) -> Result<bool, AllocError>
        ensures { IfOk result (λ b. b ≡ has_type (names_types (assignment self.now).types tree.now.ports.items (map known_entry tree.now.known.items)) (tree_of tree.now.tree)) }
    {
        tree.is_typed(alloc, &self.numbers, &self.types)
    }
    /// The type of an expression, or general where it has none.
    pub fn tree_ty(&self, alloc: Global, tree: &TreeTerm) -> Result<Ty, AllocError>
        ensures { IfOk result (λ t. ty.type_of t ≡ meaning (assignment self.now).types (tree_view tree.now)) }
    {
        tree.value(alloc, &self.numbers, &self.types)
    }
}
