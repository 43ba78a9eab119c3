ghost use Rattle.std.specs.Prelude.{◌≡◌, IfOk};

use std::alloc::{AllocError, Global};
use std::marker::Model;

/// The text of a token, which a contract sees as its bytes. It lies in memory of its own, so that tokens are no larger for it.
#[derive(Debug, Drop)]
pub struct TokenText {
    text: String,
}

impl Model for TokenText {
    ghost use Rattle.std.specs.Prelude.{List, ℕ, string_bytes};

    ghost Value = { List ℕ };

    ghost view = { λ t. string_bytes t.text };
}

impl TokenText {
    pub fn of(alloc: Global, text: &str) -> Result<TokenText, AllocError>
        ensures { IfOk result (λ t. t ≡ text.now) }
    {
        Ok(TokenText {
            text: String::from_str(alloc, text)?,
        })
    }

    pub fn as_str(&self) -> &str
        ensures { result.now ≡ self.now }
    {
        self.text.as_str()
    }

    /// Another text of the same bytes.
    pub fn copy(&self, alloc: Global) -> Result<TokenText, AllocError>
        ensures { IfOk result (λ t. t ≡ self.now) }
    {
        TokenText::of(alloc, self.as_str())
    }
}

impl PartialEq for TokenText {
    ghost use Rattle.std.specs.Prelude.{nat_eq};
    ghost use Rattle.std.specs.Cmp.{partial_equiv_from_equiv};
    ghost use Rattle.std.specs.Cmp.Lexicographic.{pointwise, nat_list_eq_equiv};

    ghost eq = { pointwise nat_eq };

    ghost laws = { partial_equiv_from_equiv nat_list_eq_equiv };

    fn eq(&self, other: &Self) -> bool {
        self.as_str() == other.as_str()
    }
}

impl Eq for TokenText {
    ghost use Rattle.std.specs.Cmp.Lexicographic.{nat_list_eq_equiv};

    ghost laws = { nat_list_eq_equiv };
}
