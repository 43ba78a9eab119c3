ghost use Rattle.std.specs.Prelude.{◌≡◌, ◌++◌, IfOk, OnOk, map, option_map};
ghost use Rattle.std.specs.List.{list_all};
ghost use Rattle.pt_value.specs.Token.{value_of};
ghost use Rattle.pt_datatypes.specs.Token.{type_of_value};
ghost use Rattle.pt_language.specs.Expr.{tree_of};
ghost use Rattle.pt_language.specs.Scope.{port_in};
ghost use Rattle.pt_net.specs.Net.{entity_view};
ghost use Rattle.pt_scopes.specs.Texts.{names_in};
ghost use Rattle.pt_scopes.specs.Valued as valued;
ghost use Rattle.pt_typing.specs.Views.{known_entry, tree_view};
ghost use Rattle.pt_inequalities.specs.Inequalities.{with_type, known};
ghost use Rattle.pt_inequalities.specs.ModalScopes.{modal_scope, values_in, value_types, is_port, is_in_scope, port_at, port_named, port_asked, ports_named, modal_term};
ghost use Rattle.pt_frames.specs.Views.{frames_view};
ghost use Rattle.pt_charts.specs.Views.{scope_view};

use pt_frames::{Frames, PortNumbers, names_of_tokens};
use pt_language::Expr;
use pt_net::NetEntity;
use pt_scopes::{EntityValues, Names, names_of};
use pt_types::{Ty, type_of_token};
use pt_typing::{TreeTerm, Variable};
use pt_value::{Text, Token};
use std::alloc::{AllocError, Global};

/// What stands behind the name of a port where an expression asks whether the port has a token.
const MARK: &str = "_isPresent";

/// What guards and actions of a Modal entity may name: its ports, its Variables, and the parameters that are seen in it.
#[derive(Drop)]
pub struct ModalScope<'a> {
    pub number: u32,
    pub ports: PortNumbers,
    pub variables: Names,
    pub frames: &'a Frames,
}

/// The port that a name asks about.
fn port_of(name: &str) -> Option<&str>
    ensures { option_map (λ p. p.now) result ≡ port_in name.now }
{
    name.strip_suffix(MARK)
}

/// Adds a name where it is that of a port.
fn add_port(
    alloc: Global,
    entity: u32,
    name: &str,
    port: Option<usize>,
    list: &mut Vec<(Text, Variable)>,
) -> Result<(), AllocError>
    ensures { OnOk result (list.new.items ≡ list.old.items ++ port_at entity name.now port) }
{
    match port {
        Some(port) => {
            let name = Text::of(alloc, name)?;
            list.push((name, Variable::Port(entity as usize, port)))
                .map_err(AllocError::from)?;
            Ok(())
        }
        None => Ok(()),
    }
}

/// Adds a name where it has a token, with the type of that.
fn add_type(
    alloc: Global,
    name: &str,
    token: Option<&Token>,
    list: &mut Vec<(Text, Ty)>,
) -> Result<(), AllocError>
    ensures { OnOk result (map known_entry list.new.items ≡ map known_entry list.old.items ++ with_type name.now (option_map type_of_value (option_map (λ t. value_of t.now) token.entry))) }
{
    match token {
        Some(token) => {
            let ty = type_of_token(alloc, token)?;
            let name = Text::of(alloc, name)?;
            list.push((name, ty)).map_err(AllocError::from)?;
            Ok(())
        }
        None => Ok(()),
    }
}

/// The number of an entity; one that doesn't fit 32 bits is told as want of memory.
fn short_number(number: usize) -> Result<u32, AllocError>
    ensures { IfOk result (λ n. n ≡ number) }
{
    u32::try_from(number).map_err(|_| AllocError)
}

impl<'a> ModalScope<'a> {
    /// What may be named in an entity.
    pub fn of(
        alloc: Global,
        frames: &'a Frames,
        number: usize,
        entity: &NetEntity,
        values: &EntityValues,
    ) -> Result<ModalScope<'a>, AllocError>
        ensures { IfOk result (λ s. scope_view s ≡ modal_scope (frames_view frames.now) number (entity_view entity.now) (valued.entity_view values.now)) }
    {
        let number = short_number(number)?;
        let ports = PortNumbers::of_ports(alloc, &entity.ports)?;
        match names_of_tokens(alloc, &entity.variables, &values.variables) {
            Ok(variables) => Ok(ModalScope {
                number,
                ports,
                variables,
                frames,
            }),
            Err(fault) => {
                drop(ports);
                Err(fault)
            }
        }
    }

    /// Adds the port of a name.
    fn add_named(
        &self,
        alloc: Global,
        name: &str,
        list: &mut Vec<(Text, Variable)>,
    ) -> Result<(), AllocError>
        ensures { OnOk result (list.new.items ≡ list.old.items ++ port_named (scope_view self.now) name.now) }
    {
        add_port(alloc, self.number, name, self.ports.get(name), list)
    }

    /// Adds the port that a name asks about.
    fn add_asked(
        &self,
        alloc: Global,
        name: Option<&str>,
        list: &mut Vec<(Text, Variable)>,
    ) -> Result<(), AllocError>
        ensures { OnOk result (list.new.items ≡ list.old.items ++ port_asked (scope_view self.now) (option_map (λ n. n.now) name.entry)) }
    {
        match name {
            Some(name) => self.add_named(alloc, name, list),
            None => Ok(()),
        }
    }

    /// Adds the ports that a name names and asks about.
    fn add_ports(
        &self,
        alloc: Global,
        name: &str,
        list: &mut Vec<(Text, Variable)>,
    ) -> Result<(), AllocError>
        ensures { OnOk result (list.new.items ≡ list.old.items ++ (port_named (scope_view self.now) name.now ++ port_asked (scope_view self.now) (port_in name.now))) }
    {
        self.add_named(alloc, name, list)?;
        self.add_asked(alloc, port_of(name), list)
    }

    /// The ports that some names name or ask about.
    fn ports(&self, alloc: Global, names: &[Text]) -> Result<Vec<(Text, Variable)>, AllocError>
        ensures { IfOk result (λ list. list.items ≡ ports_named (scope_view self.now) names.now) }
    {
        let mut list = Vec::new(alloc);
        for name in names {
            self.add_ports(alloc, name.as_str(), &mut list)?;
        }
        Ok(list)
    }

    /// The token under a name that is no port's.
    fn token(&self, name: &str) -> Option<&Token>
        ensures { option_map (λ t. value_of t.now) result ≡ values_in (scope_view self.now) name.now }
    {
        match self.variables.get(name) {
            Some(token) => Some(token),
            None => self.frames.seen(None, Some(self.number), name),
        }
    }

    /// Whether a name is that of a port.
    fn is_port(&self, name: Option<&str>) -> bool
        ensures { result ≡ is_port (scope_view self.now) (option_map (λ n. n.now) name.entry) }
    {
        match name {
            Some(name) => self.ports.get(name).is_some(),
            None => false,
        }
    }

    /// Whether a name is in scope.
    fn has(&self, name: &str) -> bool
        ensures { result ≡ is_in_scope (scope_view self.now) name.now }
    {
        self.is_port(Some(name)) || self.is_port(port_of(name)) || self.token(name).is_some()
    }

    /// Whether all names of an expression are in scope.
    pub(crate) fn has_names_of(&self, alloc: Global, tree: &Expr) -> Result<bool, AllocError>
        ensures { IfOk result (λ b. b ≡ list_all (is_in_scope (scope_view self.now)) (names_in (tree_of tree.now))) }
    {
        let names = names_of(alloc, tree)?;
        Ok(self.has_all(&names))
    }

    fn has_all(&self, names: &[Text]) -> bool
        ensures { result ≡ list_all (is_in_scope (scope_view self.now)) names.now }
    {
        for name in names {
            if !self.has(name.as_str()) {
                return false;
            }
        }
        true
    }

    /// Those of some names that have tokens, with the types of these.
    fn known(&self, alloc: Global, names: &[Text]) -> Result<Vec<(Text, Ty)>, AllocError>
        ensures { IfOk result (λ list. map known_entry list.items ≡ known (value_types (scope_view self.now)) names.now) }
    {
        let mut list = Vec::new(alloc);
        for name in names {
            let name = name.as_str();
            add_type(alloc, name, self.token(name), &mut list)?;
        }
        Ok(list)
    }

    /// The term of an expression.
    pub fn tree(&self, alloc: Global, tree: &Expr) -> Result<TreeTerm, AllocError>
        ensures { IfOk result (λ t. tree_view t ≡ modal_term (scope_view self.now) (tree_of tree.now)) }
    {
        let names = names_of(alloc, tree)?;
        Ok(TreeTerm {
            tree: tree.copy(alloc)?,
            ports: self.ports(alloc, &names)?,
            known: self.known(alloc, &names)?,
        })
    }
}
