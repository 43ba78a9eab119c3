ghost use Rattle.std.specs.Prelude.{◌≡◌, OnOk, OnErr, None, Some, List, ℕ, option_map, if◌then◌else◌};
ghost use Rattle.std.specs.Str.{bytes_eq};
ghost use Rattle.pt_value.specs.Token.{value_of};
ghost use Rattle.pt_scopes.specs.Names.{held};

use pt_name_map::NameMap;
use pt_value::Token;
use std::alloc::{AllocError, Global};

/// Parameters of one composite with their tokens.
#[derive(Drop)]
pub struct Names {
    tokens: NameMap<Token>,
}

impl Names {
    /// No parameters.
    pub fn new(alloc: Global) -> Names
        ensures { (name : List ℕ) → held result name ≡ None }
    {
        Names {
            tokens: NameMap::new(alloc),
        }
    }

    /// Adds a parameter, in place of one of the same name.
    pub fn put(&mut self, alloc: Global, name: &str, token: Token) -> Result<(), AllocError>
        ensures ok { OnOk result ((other : List ℕ) → held self.new other ≡ (if bytes_eq name.now other then Some (value_of token) else held self.old other)) }
        ensures err { OnErr result ((other : List ℕ) → held self.new other ≡ held self.old other) }
    {
        self.tokens.put(alloc, name, token)
    }

    /// The token of a parameter.
    pub fn get(&self, name: &str) -> Option<&Token>
        ensures { option_map (λ t. value_of t.now) result ≡ held self.now name.now }
    {
        self.tokens.get(name)
    }
}
