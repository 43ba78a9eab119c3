ghost use Rattle.std.specs.Prelude.{◌≡◌, OnOk, OnErr, List, ℕ, true, false, if◌then◌else◌, option_map};
ghost use Rattle.std.specs.Str.{bytes_eq};
ghost use Rattle.pt_language.specs.Scope.{port_in};
ghost use Rattle.pt_scopes.specs.PortNames.{has_port, has_presence, names_port_of};

use pt_name_map::NameMap;
use std::alloc::{AllocError, Global};

/// What stands behind the name of a port where an expression asks whether the port has a token.
const MARK: &str = "_isPresent";

/// The names of the ports that an expression may name.
#[derive(Drop)]
pub struct PortNames {
    names: NameMap<bool>,
}

impl PortNames {
    /// No ports.
    pub fn new(alloc: Global) -> PortNames
        ensures { (name : List ℕ) → has_port result name ≡ false }
    {
        PortNames {
            names: NameMap::new(alloc),
        }
    }

    /// Adds a port.
    pub fn add(&mut self, alloc: Global, name: &str) -> Result<(), AllocError>
        ensures ok { OnOk result ((other : List ℕ) → has_port self.new other ≡ (if bytes_eq name.now other then true else has_port self.old other)) }
        ensures err { OnErr result ((other : List ℕ) → has_port self.new other ≡ has_port self.old other) }
    {
        self.names.put(alloc, name, true)
    }

    fn contains(&self, name: &str) -> bool
        ensures { result ≡ has_port self.now name.now }
    {
        self.names.get(name).is_some()
    }

    /// Whether a name is that of a port, or asks whether a port has a token.
    pub fn are_named_by(&self, name: &str) -> bool
        ensures { result ≡ names_port_of self.now name.now }
    {
        self.contains(name) || self.have_presence(port(name))
    }

    fn have_presence(&self, port: Option<&str>) -> bool
        ensures { result ≡ has_presence self.now (option_map (λ p. p.now) port.entry) }
    {
        match port {
            Some(port) => self.contains(port),
            None => false,
        }
    }
}

/// The port that a name asks about.
fn port(name: &str) -> Option<&str>
    ensures { option_map (λ p. p.now) result ≡ port_in name.now }
{
    name.strip_suffix(MARK)
}
