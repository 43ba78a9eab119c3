ghost use Rattle.std.specs.Prelude.{◌≡◌, ◌++◌, [], ◌∷◌, ℕ, List, IfOk, IfErr, OnOk, None, true, option_map};
ghost use Rattle.pt_value.specs.Token.{value_of};
ghost use Rattle.pt_document.specs.declared.code.Code.TheVariants as code;
ghost use Rattle.pt_expr.specs.Env.{scope_of};
ghost use Rattle.pt_language.specs.Expr.{tree_of};
ghost use Rattle.pt_language.specs.Laws.{Keeps};
ghost use Rattle.pt_language.specs.TreeType.{are_bound};
ghost use Rattle.pt_expr_type.specs.TypeEnv.{types_in};
ghost use Rattle.pt_scopes.specs.Names.{seen_scope};
ghost use Rattle.pt_scopes.specs.Binding.{AreBound, HasStrange, TreeGives, IsTreeValueFault};
ghost use Rattle.pt_scopes.specs.Texts.{HasValue, IsTextFault};
ghost use Rattle.pt_scopes.specs.TextFault.{IsTold};
ghost use Rattle.pt_parameter.specs.Literals.{literal_of};

use crate::reading::read;
use pt_document::Code;
use pt_expr::{Env, eval};
use pt_expr_type::{TypeEnv, type_of, typed_trees_are_sound};
use pt_language::{Expr, TypeFault};
use pt_scopes::{Seen, TextFault, names_of};
use pt_types::type_of_token;
use pt_value::{Text, Token};
use std::alloc::Global;

/// The names of a tree with their tokens and types.
#[derive(Drop)]
struct Binding {
    env: Env,
    types: TypeEnv,
}

impl Binding {
    /// Binds a name to what is seen under it.
    fn bind(&mut self, alloc: Global, seen: &Seen, name: &str) -> Result<(), TextFault>
        ensures ok { OnOk result ((done : List (List ℕ)) → AreBound (seen_scope seen.now) (scope_of self.old.env) (types_in self.old.types) done → AreBound (seen_scope seen.now) (scope_of self.new.env) (types_in self.new.types) (done ++ name.now ∷ [])) }
        ensures told { IfErr result (IsTold (λ cause. (cause ≡ code.ExprName) × (seen_scope seen.now name.now ≡ None))) }
    {
        match seen.get(name) {
            Some(token) => {
                self.types.bind(name, type_of_token(alloc, token)?)?;
                self.env.bind(name, Some(token.copy(alloc)?))?;
                Ok(())
            }
            None => Err(TextFault::Refused(Code::ExprName)),
        }
    }

    /// The names of a tree as they are seen.
    fn of(alloc: Global, seen: &Seen, names: &[Text]) -> Result<Binding, TextFault>
        ensures ok { IfOk result (λ b. AreBound (seen_scope seen.now) (scope_of b.env) (types_in b.types) names.now) }
        ensures told { IfErr result (IsTold (λ cause. (cause ≡ code.ExprName) × HasStrange (seen_scope seen.now) names.now)) }
    {
        let mut binding = Binding {
            env: Env::new(alloc),
            types: TypeEnv::new(alloc),
        };
        for name in names {
            binding.bind(alloc, seen, name.as_str())?;
        }
        Ok(binding)
    }

    /// What a tree comes to, all of whose names are bound.
    fn value(&self, alloc: Global, tree: &Expr) -> Result<Token, TextFault>
        requires keeps { Keeps (types_in self.now.types) (scope_of self.now.env) }
        requires bound { are_bound (types_in self.now.types) (tree_of tree.now) ≡ true }
        ensures ok { IfOk result (λ t. TreeGives (scope_of self.now.env) (types_in self.now.types) (tree_of tree.now) (value_of t)) }
        ensures told { IfErr result (IsTold (IsTreeValueFault (scope_of self.now.env) (types_in self.now.types) (tree_of tree.now))) }
    {
        typed_trees_are_sound();
        match type_of(alloc, tree, &self.types) {
            Ok(_) => Ok(eval(alloc, tree, &self.env)?),
            Err(TypeFault::Clash) => Err(TextFault::Refused(Code::Type)),
            Err(TypeFault::Name) => unreachable!(),
            Err(TypeFault::Memory) => Err(TextFault::Memory),
        }
    }
}

/// What a tree comes to that is the literal of an integer, as most texts read.
fn literal(tree: &Expr) -> Option<Token>
    ensures { option_map value_of result ≡ literal_of (tree_of tree.now) }
{
    match tree {
        Expr::Int(n) => Some(Token::Int(*n)),
        Expr::Bool(_)
        | Expr::Words(_)
        | Expr::Name(_)
        | Expr::List(_)
        | Expr::Record(_)
        | Expr::Negate(_)
        | Expr::Not(_)
        | Expr::Binary(..)
        | Expr::Cond(..)
        | Expr::Abs(_)
        | Expr::Max(..)
        | Expr::Min(..)
        | Expr::Apply(..)
        | Expr::Field(..)
        | Expr::Length(_) => None,
    }
}

/// The token that a text comes to, where its names are those that are seen.
pub fn evaluated(alloc: Global, seen: &Seen, text: &str) -> Result<Token, TextFault>
    ensures ok { IfOk result (λ t. HasValue (seen_scope seen.now) text.now (value_of t)) }
    ensures told { IfErr result (IsTold (IsTextFault (seen_scope seen.now) text.now)) }
{
    let tree = read(alloc, text)?;
    if let Some(token) = literal(&tree) {
        return Ok(token);
    }
    let names = names_of(alloc, &tree)?;
    let binding = Binding::of(alloc, seen, &names)?;
    binding.value(alloc, &tree)
}
