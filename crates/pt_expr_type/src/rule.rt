ghost use Rattle.std.specs.Prelude.{◌≡◌, IfOk, OnOk, map, List, ℕ, None, slice_get, if◌then◌else◌};
ghost use Rattle.std.specs.Str.{bytes_eq};
ghost use Rattle.pt_types.specs.Ty as ty;
ghost use Rattle.pt_language.specs.Expr.{tree_of};
ghost use Rattle.pt_language.specs.Rule.{numbered};
ghost use Rattle.pt_language.specs.Types.{or_else};
ghost use Rattle.pt_expr_type.specs.TypeEnv.{types_in};

use crate::env::TypeEnv;
use crate::tree::type_of;
use pt_language::{Expr, TypeFault};
use pt_types::{Rule, Ty};
use pt_value::Text;
use std::alloc::{AllocError, Global};

/// A rule by which the type of an expression is below that of its target.
#[derive(Drop)]
pub struct ExprRule {
    /// The number whose type the rule bounds from below.
    pub target: u32,
    pub tree: Expr,
    /// The names of the expression, each with the number of its type.
    pub names: Vec<(Text, u32)>,
    /// The numbers of the names once more, for the solver. One that is missing costs time, and changes no answer.
    pub numbers: Vec<u32>,
}

impl ExprRule {
    /// The rule for a target, an expression and its names.
    pub fn new(
        alloc: Global,
        target: u32,
        tree: Expr,
        names: Vec<(Text, u32)>,
    ) -> Result<ExprRule, AllocError>
        ensures target { IfOk result (λ rule. rule.target ≡ target) }
        ensures tree { IfOk result (λ rule. tree_of rule.tree ≡ tree_of tree) }
        ensures names { IfOk result (λ rule. rule.names.items ≡ names.items) }
        ensures numbers { IfOk result (λ rule. rule.numbers.items ≡ map (λ f. f.1) names.items) }
    {
        let numbers = names.iter().map(|name| name.1).collect(alloc)?;
        Ok(ExprRule {
            target,
            tree,
            names,
            numbers,
        })
    }

    /// The environment in which each name has the type at its number.
    fn environment(&self, alloc: Global, types: &[Ty]) -> Result<TypeEnv, AllocError>
        ensures { IfOk result (λ env. (name : List ℕ) → types_in env name ≡ numbered self.now.names.items (map ty.type_of types.now) name) }
    {
        let mut env = TypeEnv::new(alloc);
        for (name, number) in &self.names {
            bind_number(alloc, name.as_str(), *number, types, &mut env)?;
        }
        Ok(env)
    }
}

/// Binds a name to the type at its number, where there is one.
fn bind_number(
    alloc: Global,
    name: &str,
    number: u32,
    types: &[Ty],
    env: &mut TypeEnv,
) -> Result<(), AllocError>
    ensures { OnOk result ((other : List ℕ) → types_in env.new other ≡ or_else (if bytes_eq name.now other then slice_get (map ty.type_of types.now) number else None) (types_in env.old other)) }
{
    match types.get(number as usize) {
        Some(ty) => env.bind(name, ty.copy(alloc)?),
        None => Ok(()),
    }
}

impl Rule for ExprRule {
    ghost use Rattle.std.specs.Prelude.{map};
    ghost use Rattle.pt_language.specs.Expr.{tree_of};
    ghost use Rattle.pt_language.specs.Rule.{numbered, type_or_general};
    ghost use Rattle.pt_language.specs.RuleGrows.{type_or_general-grows};

    ghost target_of = { λ rule. rule.target };

    ghost value_of = { λ rule types. type_or_general (numbered rule.names.items types) (tree_of rule.tree) };

    ghost grows = { λ rule xs ys below. type_or_general-grows rule.names.items (tree_of rule.tree) xs ys below };

    fn target(&self) -> u32 {
        self.target
    }

    fn value(&self, alloc: Global, types: &[Ty]) -> Result<Ty, AllocError> {
        let env = self.environment(alloc, types)?;
        match type_of(alloc, &self.tree, &env) {
            Ok(ty) => Ok(ty),
            Err(TypeFault::Name) => Ok(Ty::General),
            Err(TypeFault::Clash) => Ok(Ty::General),
            Err(TypeFault::Memory) => Err(AllocError),
        }
    }

    fn is_met(&self, _types: &[Ty], _ty: &Ty) -> bool {
        false
    }

    fn reads(&self) -> &[u32] {
        self.numbers.as_slice()
    }
}
