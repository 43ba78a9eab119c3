ghost use Rattle.std.specs.Prelude.{◌≡◌, ◌⊎◌, OnOk, OnErr, IfOk, IfErr, IfSome, None, Some, List, ℕ, option_map, if◌then◌else◌};
ghost use Rattle.std.specs.Str.{bytes_eq};
ghost use Rattle.pt_value.specs.Token.{value_of};
ghost use Rattle.pt_value.specs.Value.{Int, Bool};
ghost use Rattle.pt_language.specs.declared.eval_fault.EvalFault.TheVariants.{Memory};
ghost use Rattle.pt_language.specs.Outcome.{Gives, Stops, Wrong};
ghost use Rattle.pt_language.specs.Scope.{named, port_in, presence};
ghost use Rattle.pt_expr.specs.Env.{scope_of};

use pt_language::EvalFault;
use pt_name_map::NameMap;
use pt_value::Token;
use std::alloc::{AllocError, Global};

/// What stands behind the name of a port where an expression asks whether the port has a token.
const MARK: &str = "_isPresent";

/// The names that an expression may use, with their tokens.
#[derive(Drop)]
pub struct Env {
    bound: NameMap<Option<Token>>,
    alloc: Global,
}

impl Env {
    /// An environment in which no name is bound.
    pub fn new(alloc: Global) -> Env
        ensures { (name : List ℕ) → scope_of result name ≡ None }
    {
        Env {
            bound: NameMap::new(alloc),
            alloc,
        }
    }

    /// Binds a name to a token, or to none where it is a port that has none. What the name had before is replaced.
    pub fn bind(&mut self, name: &str, value: Option<Token>) -> Result<(), AllocError>
        ensures ok { OnOk result ((other : List ℕ) → scope_of self.new other ≡ (if bytes_eq name.now other then Some (option_map value_of value) else scope_of self.old other)) }
        ensures err { OnErr result ((other : List ℕ) → scope_of self.new other ≡ scope_of self.old other) }
    {
        self.bound.put(self.alloc, name, value)
    }

    /// The token that a name stands for.
    pub(crate) fn token(&self, alloc: Global, name: &str) -> Result<Token, EvalFault>
        requires right { ¬ (named (scope_of self.now) name.now ≡ Wrong) }
        ensures ok { IfOk result (λ t. named (scope_of self.now) name.now ≡ Gives (value_of t)) }
        ensures err { IfErr result (λ fault. (fault ≡ Memory) ⊎ (named (scope_of self.now) name.now ≡ Stops fault)) }
    {
        match self.bound.get(name) {
            Some(Some(token)) => Ok(token.copy(alloc)?),
            Some(None) => Err(EvalFault::Absent),
            None => match port(name) {
                Some(port) => Ok(self.presence(port)),
                None => unreachable!(),
            },
        }
    }

    /// The integer that a name stands for.
    pub(crate) fn integer(&self, name: &str) -> Option<i64>
        ensures { IfSome result (λ n. named (scope_of self.now) name.now ≡ Gives (Int n)) }
    {
        match self.bound.get(name) {
            Some(Some(Token::Int(n))) => Some(*n),
            _ => None,
        }
    }

    /// The truth value that a name stands for.
    pub(crate) fn truth_value(&self, name: &str) -> Option<bool>
        ensures { IfSome result (λ b. named (scope_of self.now) name.now ≡ Gives (Bool b)) }
    {
        match self.bound.get(name) {
            Some(Some(Token::Bool(b))) => Some(*b),
            _ => None,
        }
    }

    /// Whether a port has a token.
    fn presence(&self, port: &str) -> Token
        requires right { ¬ (presence (scope_of self.now port.now) ≡ Wrong) }
        ensures { presence (scope_of self.now port.now) ≡ Gives (value_of result) }
    {
        match self.bound.get(port) {
            Some(held) => Token::Bool(held.is_some()),
            None => unreachable!(),
        }
    }
}

/// The port that a name asks about.
fn port(name: &str) -> Option<&str>
    ensures { option_map (λ p. p.now) result ≡ port_in name.now }
{
    name.strip_suffix(MARK)
}
