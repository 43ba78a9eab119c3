ghost use Rattle.std.specs.Prelude.{◌≡◌, IfOk, IfErr, OnOk, ℕ, List, None, true, if◌then◌else◌, [], map, option_map, codes};
ghost use Rattle.std.specs.Str.{bytes_eq};
ghost use Rattle.pt_document.specs.View.{port_view};
ghost use Rattle.pt_net.specs.Net as net;
ghost use Rattle.pt_scopes.specs.Given.{held_view, names_port};
ghost use Rattle.pt_scopes.specs.Given as given;
ghost use Rattle.pt_scopes.specs.Names.{seen_scope};
ghost use Rattle.pt_scopes.specs.PortNames.{has_port, names_port_of};
ghost use Rattle.pt_value.specs.Token.{value_of};
ghost use Rattle.pt_scopes.specs.Scopes.{Bindings};
ghost use Rattle.pt_scopes.specs.Scopes as scopes;
ghost use Rattle.pt_scopes.specs.Frames.{Means};
ghost use Rattle.pt_scopes.specs.Sites.{is_input_port, inputs_of};
ghost use Rattle.pt_scopes.specs.Valued.{entity_view, AreOfDirector};
ghost use Rattle.pt_values.specs.Ports.{AgreeOnTrees};
ghost use Rattle.pt_scopes.specs.ClassParameters.{AreParametersOf, IsClassFault};
ghost use Rattle.pt_scopes.specs.Told.{IsToldAt, chain_scope, IsOwn, IsEntityIn, IsDirectorFault, IsFaultWhere};

use crate::classes::{Owner, class_parameters};
use crate::constants::rates;
use crate::parameters::{in_turn, variables};
use pt_document::{Direction, DocFault, Port};
use pt_net::NetEntity;
use pt_scopes::{EntityValues, Names, ParameterValue, PortNames, Seen};
use pt_value::Token;
use std::alloc::{AllocError, Global};

/// Whether the parameters of an entity of this class are seen in it.
fn is_composite_class(class: &str) -> bool
    ensures { result ≡ scopes.is_composite_class class.now }
{
    class == "Composite" || class == "Modal"
}

/// Adds the name of a port, where it is an input.
fn add_input(alloc: Global, names: &mut PortNames, port: &Port) -> Result<(), AllocError>
    ensures { OnOk result ((name : List ℕ) → has_port names.new name ≡ (if is_input_port (port_view port.now) then (if bytes_eq port.now.name name then true else has_port names.old name) else has_port names.old name)) }
{
    match port.direction {
        Direction::Input => names.add(alloc, port.name.as_str()),
        Direction::Output => Ok(()),
    }
}

/// The names of the ports that the expression of an actor may name.
fn inputs_of(alloc: Global, entity: &NetEntity) -> Result<PortNames, AllocError>
    ensures { IfOk result (λ names. names_port_of names ≡ names_port (inputs_of (net.entity_view entity.now))) }
{
    let mut names = PortNames::new(alloc);
    for port in &entity.ports {
        add_input(alloc, &mut names, port)?;
    }
    Ok(names)
}

/// Whether actors of this class have expressions.
fn has_trees(class: &str) -> bool
    ensures { result ≡ bytes_eq class.now (codes "Expression") }
{
    class == "Expression"
}

/// The names of the ports of an actor, where its parameters are such as may name them.
fn ports_seen(alloc: Global, entity: &NetEntity) -> Result<PortNames, AllocError>
    ensures { IfOk result (λ names. AgreeOnTrees entity.now.class (names_port_of names) (names_port (inputs_of (net.entity_view entity.now)))) }
{
    if has_trees(entity.class.as_str()) {
        inputs_of(alloc, entity)
    } else {
        Ok(no_ports(alloc))
    }
}

/// No names of ports.
fn no_ports(alloc: Global) -> PortNames
    ensures { names_port_of result ≡ names_port [] }
{
    PortNames::new(alloc)
}

/// Tokens as what parameters have.
fn held(alloc: Global, tokens: Vec<Token>) -> Result<Vec<ParameterValue>, AllocError>
    ensures { IfOk result (λ values. map held_view values.items ≡ map given.Token (map value_of tokens.items)) }
{
    let mut values = Vec::with_capacity(alloc, tokens.len())?;
    for token in tokens {
        values.push(ParameterValue::Token(token))?;
    }
    Ok(values)
}

/// What the parameters of an actor have, which see those of a chain of composites.
fn actor_parameters(
    alloc: Global,
    frames: &[Names],
    chain: &[u32],
    entity: &NetEntity,
) -> Result<Vec<ParameterValue>, DocFault>
    ensures ok { IfOk result (λ values. AreParametersOf (names_port (inputs_of (net.entity_view entity.now))) (chain_scope frames.now chain.now) None entity.now.class (net.entity_view entity.now).parameters (map held_view values.items)) }
    ensures told { IfErr result (IsToldAt entity.now.path (IsClassFault (names_port (inputs_of (net.entity_view entity.now))) (chain_scope frames.now chain.now) None entity.now.class (net.entity_view entity.now).parameters)) }
{
    let path = entity.path.as_str();
    let class = entity.class.as_str();
    let parameters = entity.parameters.as_slice();
    let own = Names::new(alloc);
    let seen = Seen {
        own: &own,
        frames,
        chain,
    };
    let ports = ports_seen(alloc, entity)?;
    let owner = Owner {
        class,
        parent: None,
    };
    class_parameters(alloc, path, &ports, &seen, &owner, parameters)
}

/// What the parameters of an entity have, and those of them that are seen in it.
fn own_parameters(
    alloc: Global,
    frames: &[Names],
    chain: &[u32],
    entity: &NetEntity,
) -> Result<(Names, Vec<ParameterValue>), DocFault>
    ensures ok { IfOk result (λ r. (around : Bindings) → Means frames.now chain.now around → IsOwn around frames.now chain.now (net.entity_view entity.now) r.0 (map held_view r.1.items)) }
    ensures told { IfErr result (IsFaultWhere frames.now chain.now (net.entity_view entity.now)) }
{
    if is_composite_class(entity.class.as_str()) {
        let path = entity.path.as_str();
        let (own, tokens) = in_turn(alloc, path, frames, chain, &entity.parameters)?;
        Ok((own, held(alloc, tokens)?))
    } else {
        let values = actor_parameters(alloc, frames, chain, entity)?;
        Ok((Names::new(alloc), values))
    }
}

/// What the parameters of the director of an entity have.
fn director_parameters(
    alloc: Global,
    seen: &Seen,
    entity: &NetEntity,
) -> Result<Vec<ParameterValue>, DocFault>
    ensures ok { IfOk result (λ values. AreOfDirector entity.now.parent (option_map net.director_view entity.now.director) (seen_scope seen.now) (map held_view values.items)) }
    ensures told { IfErr result (IsToldAt entity.now.path (IsDirectorFault entity.now.parent (option_map net.director_view entity.now.director) (seen_scope seen.now))) }
{
    match &entity.director {
        Some(director) => {
            let path = entity.path.as_str();
            let class = director.class.as_str();
            let parameters = director.parameters.as_slice();
            let ports = no_ports(alloc);
            let owner = Owner {
                class,
                parent: entity.parent,
            };
            class_parameters(alloc, path, &ports, seen, &owner, parameters)
        }
        None => Ok(Vec::new(alloc)),
    }
}

/// What the texts of an entity come to, where those of a chain of composites are seen, and its parameters that are seen in it.
pub fn entity_values(
    alloc: Global,
    frames: &[Names],
    chain: &[u32],
    entity: &NetEntity,
) -> Result<(Names, EntityValues), DocFault>
    ensures ok { IfOk result (λ r. (around : Bindings) → Means frames.now chain.now around → IsEntityIn around frames.now chain.now (net.entity_view entity.now) r.0 (entity_view r.1)) }
    ensures told { IfErr result (IsFaultWhere frames.now chain.now (net.entity_view entity.now)) }
{
    let (own, parameters) = own_parameters(alloc, frames, chain, entity)?;
    let path = entity.path.as_str();
    let seen = Seen {
        own: &own,
        frames,
        chain,
    };
    let director = director_parameters(alloc, &seen, entity)?;
    let variables = variables(alloc, path, &seen, &entity.variables)?;
    let rates = rates(alloc, path, &entity.ports)?;
    let values = EntityValues {
        parameters,
        director,
        variables,
        rates,
    };
    Ok((own, values))
}
