ghost use Rattle.std.specs.Prelude.{◌≡◌, option_map, IfOk};
ghost use Rattle.pt_firing.specs.Params.{value_under, int_or, int_within, only_within, bool_or, channels_to, names_but};

use crate::names::Names;
use pt_value::{Text, Token};
use std::alloc::{AllocError, Global};
use std::marker::Model;

/// Evaluated parameters by name.
#[derive(Drop)]
pub struct Values {
    values: Vec<(Text, Token)>,
}

impl Model for Values {
    ghost use Rattle.std.specs.Prelude.{List, ℕ};
    ghost use Rattle.std.specs.Coded.{coded_list, coded_ℕ, coded×};
    ghost use Rattle.pt_value.specs.declared.token.Token.{Token};
    ghost use Rattle.pt_value.specs.Token.{coded_token};

    ghost Value = { List (List ℕ × Token) };

    ghost coded = { coded_list (coded× (coded_list coded_ℕ) coded_token) };

    ghost view = { λ v. v.values.items };
}

impl Values {
    pub fn of(values: Vec<(Text, Token)>) -> Values
        ensures { result ≡ values.items }
    {
        Values { values }
    }

    pub fn as_slice(&self) -> &[(Text, Token)]
        ensures { result.now ≡ self.now }
    {
        self.values.as_slice()
    }

    pub fn copy(&self, alloc: Global) -> Result<Values, AllocError>
        ensures { IfOk result (λ values. values ≡ self.now) }
    {
        let mut values = Vec::with_capacity(alloc, self.values.len())?;
        for (name, value) in &self.values {
            values.push((name.copy(alloc)?, value.copy(alloc)?))?;
        }
        Ok(Values { values })
    }

    /// The value under a name.
    pub fn get(&self, name: &str) -> Option<&Token>
        ensures { option_map (λ token. token.now) result ≡ value_under name.now self.now }
    {
        for (key, value) in &self.values {
            if key.as_str() == name {
                return Some(value);
            }
        }
        None
    }

    /// The integer under a name, or another where there is none. `None` is where the value is of another kind.
    pub fn int_or(&self, name: &str, default: i64) -> Option<i64>
        ensures { result ≡ int_or name.now default self.now }
    {
        match self.get(name) {
            None => Some(default),
            Some(Token::Int(n)) => Some(*n),
            Some(_) => None,
        }
    }

    /// The same of an integer from one number to another, both included.
    pub fn int_within(&self, name: &str, default: i64, low: i64, high: i64) -> Option<i64>
        ensures { result ≡ int_within name.now default low high self.now }
    {
        only_within(low, high, self.int_or(name, default))
    }

    /// The truth value under a name, or another where there is none.
    pub fn bool_or(&self, name: &str, default: bool) -> Option<bool>
        ensures { result ≡ bool_or name.now default self.now }
    {
        match self.get(name) {
            None => Some(default),
            Some(Token::Bool(b)) => Some(*b),
            Some(_) => None,
        }
    }
}

/// A number, where it lies in a range.
fn only_within(low: i64, high: i64, number: Option<i64>) -> Option<i64>
    ensures { result ≡ only_within low high number }
{
    match number {
        Some(n) if low <= n && n <= high => Some(n),
        _ => None,
    }
}

/// The number of channels of each port, by the port's name.
#[derive(Drop)]
pub struct Ports {
    ports: Vec<(Text, u32)>,
}

impl Model for Ports {
    ghost use Rattle.std.specs.Prelude.{List, ℕ};

    ghost Value = { List (List ℕ × ℕ) };

    ghost view = { λ p. p.ports.items };
}

impl Ports {
    pub fn of(ports: Vec<(Text, u32)>) -> Ports
        ensures { result ≡ ports.items }
    {
        Ports { ports }
    }

    /// The names of the ports but one, in order.
    pub fn names_but(&self, alloc: Global, other: &str) -> Result<Names, AllocError>
        ensures { IfOk result (λ names. names ≡ names_but other.now self.now) }
    {
        let mut names = Vec::new(alloc);
        for (name, _) in &self.ports {
            if name.as_str() == other {
                continue;
            }
            names.push(name.copy(alloc)?)?;
        }
        Ok(Names::of(names))
    }

    /// The number of channels to a port, none where it isn't listed.
    pub fn channels(&self, name: &str) -> u32
        ensures { result ≡ channels_to name.now self.now }
    {
        for (key, count) in &self.ports {
            if key.as_str() == name {
                return *count;
            }
        }
        0
    }
}
