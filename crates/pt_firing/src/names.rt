ghost use Rattle.std.specs.Prelude.{◌≡◌, IfOk, length};

use pt_value::Text;
use std::alloc::{AllocError, Global};
use std::marker::Model;

/// Names in an order, as those of an actor's declared ports.
#[derive(Drop)]
pub struct Names {
    names: Vec<Text>,
}

impl Model for Names {
    ghost use Rattle.std.specs.Prelude.{List, ℕ};

    ghost Value = { List (List ℕ) };

    ghost view = { λ n. n.names.items };
}

impl Names {
    pub fn of(names: Vec<Text>) -> Names
        ensures { result ≡ names.items }
    {
        Names { names }
    }

    pub fn as_slice(&self) -> &[Text]
        ensures { result.now ≡ self.now }
    {
        self.names.as_slice()
    }

    pub fn len(&self) -> usize
        ensures { result ≡ length self.now }
    {
        self.names.len()
    }

    pub fn copy(&self, alloc: Global) -> Result<Names, AllocError>
        ensures { IfOk result (λ names. names ≡ self.now) }
    {
        let mut names = Vec::with_capacity(alloc, self.names.len())?;
        for name in &self.names {
            let name = name.copy(alloc)?;
            names.push_reserved(name);
        }
        Ok(Names { names })
    }
}
