ghost use Rattle.std.specs.Prelude.{◌≡◌, ◌⊎◌, OnOk, OnErr, IfOk, IfErr, None, Some, List, ℕ, option_map, if◌then◌else◌};
ghost use Rattle.std.specs.Str.{bytes_eq};
ghost use Rattle.pt_types.specs.Ty.{type_of};
ghost use Rattle.pt_language.specs.Scope.{port_in};
ghost use Rattle.pt_language.specs.declared.type_fault.TypeFault.TheVariants.{Memory};
ghost use Rattle.pt_language.specs.Answer.{Gives, Stops, looked_up};
ghost use Rattle.pt_language.specs.Types.{type_under, presence_type};
ghost use Rattle.pt_expr_type.specs.TypeEnv.{types_in};

use pt_language::TypeFault;
use pt_name_map::NameMap;
use pt_types::Ty;
use std::alloc::{AllocError, Global};

/// What stands behind the name of a port where an expression asks whether the port has a token.
const MARK: &str = "_isPresent";

/// The names that an expression may use, with their types.
#[derive(Drop)]
pub struct TypeEnv {
    bound: NameMap<Ty>,
    alloc: Global,
}

impl TypeEnv {
    /// An environment in which no name is bound.
    pub fn new(alloc: Global) -> TypeEnv
        ensures { (name : List ℕ) → types_in result name ≡ None }
    {
        TypeEnv {
            bound: NameMap::new(alloc),
            alloc,
        }
    }

    /// Binds a name to a type. What the name had before is replaced.
    pub fn bind(&mut self, name: &str, ty: Ty) -> Result<(), AllocError>
        ensures ok { OnOk result ((other : List ℕ) → types_in self.new other ≡ (if bytes_eq name.now other then Some (type_of ty) else types_in self.old other)) }
        ensures err { OnErr result ((other : List ℕ) → types_in self.new other ≡ types_in self.old other) }
    {
        self.bound.put(self.alloc, name, ty)
    }

    /// The type that a name stands for.
    pub(crate) fn ty(&self, alloc: Global, name: &str) -> Result<Ty, TypeFault>
        ensures ok { IfOk result (λ t. looked_up (type_under (types_in self.now) name.now) ≡ Gives (type_of t)) }
        ensures err { IfErr result (λ fault. (fault ≡ Memory) ⊎ (looked_up (type_under (types_in self.now) name.now) ≡ Stops fault)) }
    {
        match self.bound.get(name) {
            Some(ty) => Ok(ty.copy(alloc)?),
            None => match port(name) {
                Some(port) => self.presence(port),
                None => Err(TypeFault::Name),
            },
        }
    }

    /// The type of the question whether a port has a token.
    fn presence(&self, port: &str) -> Result<Ty, TypeFault>
        ensures ok { IfOk result (λ t. looked_up (presence_type (types_in self.now) (Some port.now)) ≡ Gives (type_of t)) }
        ensures err { IfErr result (λ fault. looked_up (presence_type (types_in self.now) (Some port.now)) ≡ Stops fault) }
    {
        if self.bound.get(port).is_some() {
            Ok(Ty::Boolean)
        } else {
            Err(TypeFault::Name)
        }
    }
}

/// The port that a name asks about.
fn port(name: &str) -> Option<&str>
    ensures { option_map (λ p. p.now) result ≡ port_in name.now }
{
    name.strip_suffix(MARK)
}
