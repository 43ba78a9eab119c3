ghost use Rattle.std.specs.Prelude.{◌≡◌, IfOk, OnOk, Some, map, option_map, slice_get};
ghost use Rattle.pt_value.specs.Token.{value_of};
ghost use Rattle.pt_datatypes.specs.Datatype.{Unknown};
ghost use Rattle.pt_types.specs.Ty.{type_of};
ghost use Rattle.pt_document.specs.View.{properties_view, input_view};
ghost use Rattle.pt_net.specs.Net.{entity_view};
ghost use Rattle.pt_scopes.specs.Valued as valued;
ghost use Rattle.pt_typing.specs.Views.{inequality_view};
ghost use Rattle.pt_inequalities.specs.Rows.{seeding};
ghost use Rattle.pt_inequalities.specs.Frames.{frames_of};
ghost use Rattle.pt_inequalities.specs.Inequalities.{of_channel, is_given, of_standard, of_standards, of_entity, of_entities, joined_one, joined_with, supply_view, of_supply, of_inputs, top_inputs, inequalities};
ghost use Rattle.pt_frames.specs.Views.{frames_view, port_numbers};
ghost use Rattle.pt_places.specs.Views.{IsAdded};

use crate::place::{Place, add};
use crate::seeds::{joined_with, standard_type};
use pt_document::{Input, Property};
use pt_frames::{Frames, PortNumbers, values_at};
use pt_inequalities::{SEEDS, SeedRow};
use pt_net::{Channel, Net, NetEntity};
use pt_scopes::{EntityValues, Values, name_of, standard_of};
use pt_types::Ty;
use pt_typing::{Inequality, Term, Variable};
use pt_value::Token;
use std::alloc::{AllocError, Global};

/// What is at the source of each channel is below what is at its place.
fn add_channels(channels: &[Channel], inequalities: &mut Vec<Inequality>) -> Result<(), AllocError>
    ensures { OnOk result (IsAdded inequalities.old.items inequalities.new.items (map of_channel channels.now)) }
{
    for channel in channels {
        let source = Variable::Port(channel.from.entity as usize, channel.from.port as usize);
        let place = Variable::Port(channel.to.entity as usize, channel.to.port as usize);
        add(inequalities, place, Term::Same(source))?;
    }
    Ok(())
}

/// Whether one of these parameters has the name.
fn is_given(parameters: &[Property], name: &str) -> bool
    ensures { result ≡ is_given (properties_view parameters.now) name.now }
{
    for property in parameters {
        if name_of(property) == name {
            return true;
        }
    }
    false
}

/// What stands for a parameter that isn't given is of the type of the row.
fn add_standard(
    place: &Place,
    row: &SeedRow<&'static str>,
    inequalities: &mut Vec<Inequality>,
) -> Result<(), AllocError>
    ensures { OnOk result (IsAdded inequalities.old.items inequalities.new.items (of_standard place.now.number place.now.entity.now.class (properties_view place.now.entity.now.parameters.items) (seeding row.now))) }
{
    let class = place.entity.class.as_str();
    if row.class == class && !is_given(&place.entity.parameters, row.parameter) {
        let ty = standard_type(standard_of(class, row.parameter));
        add(inequalities, Variable::Row(place.number), Term::Fixed(ty))
    } else {
        Ok(())
    }
}

fn add_standards(
    place: &Place,
    rows: &'static [SeedRow<&'static str>],
    inequalities: &mut Vec<Inequality>,
) -> Result<(), AllocError>
    ensures { OnOk result (IsAdded inequalities.old.items inequalities.new.items (of_standards place.now.number place.now.entity.now.class (properties_view place.now.entity.now.parameters.items) (map seeding rows.now))) }
{
    for row in rows {
        add_standard(place, row, inequalities)?;
    }
    Ok(())
}

/// What is within an entity.
#[tactic(auto, unfolding(pt_inequalities::specs::Rows::seedings))]
fn add_place(
    alloc: Global,
    place: &Place,
    inequalities: &mut Vec<Inequality>,
) -> Result<(), AllocError>
    ensures { OnOk result (IsAdded inequalities.old.items inequalities.new.items (of_entity (frames_view place.now.frames.now) place.now.number (entity_view place.now.entity.now) (Some (valued.entity_view place.now.values.now)))) }
{
    place.add_ports(alloc, inequalities)?;
    place.add_parameters(alloc, inequalities)?;
    add_standards(place, &SEEDS, inequalities)
}

fn add_entity(
    alloc: Global,
    frames: &Frames,
    entity: &NetEntity,
    values: Option<&EntityValues>,
    number: usize,
    inequalities: &mut Vec<Inequality>,
) -> Result<(), AllocError>
    ensures { OnOk result (IsAdded inequalities.old.items inequalities.new.items (of_entity (frames_view frames.now) number (entity_view entity.now) (option_map (λ v. valued.entity_view v.now) values.entry))) }
{
    match values {
        Some(values) => {
            let place = Place {
                number,
                entity,
                values,
                frames,
            };
            add_place(alloc, &place, inequalities)
        }
        None => Ok(()),
    }
}

fn add_entities(
    alloc: Global,
    frames: &Frames,
    entities: &[NetEntity],
    values: &[EntityValues],
    inequalities: &mut Vec<Inequality>,
) -> Result<(), AllocError>
    ensures { OnOk result (IsAdded inequalities.old.items inequalities.new.items (of_entities (frames_view frames.now) 0 (map entity_view entities.now) (map valued.entity_view values.now))) }
{
    for (number, entity) in entities.iter().enumerate() {
        add_entity(
            alloc,
            frames,
            entity,
            values_at(values, number),
            number,
            inequalities,
        )?;
    }
    Ok(())
}

/// The join of a type with that of a token that is there.
fn with_supplied(alloc: Global, ty: &Ty, token: &Option<Token>) -> Result<Ty, AllocError>
    ensures { IfOk result (λ t. type_of t ≡ joined_one (type_of ty.now) (option_map value_of token.now)) }
{
    match token {
        Some(token) => joined_with(alloc, ty, token),
        None => ty.copy(alloc),
    }
}

/// The join of the types of the tokens that are there.
fn joined(alloc: Global, tokens: &[Option<Token>]) -> Result<Ty, AllocError>
    ensures { IfOk result (λ t. type_of t ≡ joined_with Unknown (map (option_map value_of) tokens.now)) }
{
    let mut ty = Ty::Unknown;
    for token in tokens {
        ty = with_supplied(alloc, &ty, token)?;
    }
    Ok(ty)
}

/// What comes to an input of this number.
fn supply_at(supplies: &[Vec<Option<Token>>], index: usize) -> Option<&Vec<Option<Token>>>
    ensures { option_map (λ ts. supply_view ts.now) result ≡ slice_get (map supply_view supplies.now) index }
{
    supplies.get(index)
}

/// The tokens of an input are below its port.
fn add_supply(
    alloc: Global,
    port: Option<usize>,
    tokens: Option<&Vec<Option<Token>>>,
    inequalities: &mut Vec<Inequality>,
) -> Result<(), AllocError>
    ensures { OnOk result (IsAdded inequalities.old.items inequalities.new.items (of_supply port (option_map (λ ts. supply_view ts.now) tokens.entry))) }
{
    let Some(port) = port else {
        return Ok(());
    };
    match tokens {
        Some(tokens) => {
            let ty = joined(alloc, tokens)?;
            add(inequalities, Variable::Port(0, port), Term::Fixed(ty))
        }
        None => Ok(()),
    }
}

fn add_inputs(
    alloc: Global,
    ports: &PortNumbers,
    inputs: &[Input],
    supplies: &[Vec<Option<Token>>],
    inequalities: &mut Vec<Inequality>,
) -> Result<(), AllocError>
    ensures { OnOk result (IsAdded inequalities.old.items inequalities.new.items (of_inputs (port_numbers ports.now) (map input_view inputs.now) (map supply_view supplies.now))) }
{
    for (index, input) in inputs.iter().enumerate() {
        let port = ports.get(input.port.as_str());
        add_supply(alloc, port, supply_at(supplies, index), inequalities)?;
    }
    Ok(())
}

/// The tokens of the inputs of a net are below their ports.
fn add_supplied(
    alloc: Global,
    net: &Net,
    values: &Values,
    inequalities: &mut Vec<Inequality>,
) -> Result<(), AllocError>
    ensures { OnOk result (IsAdded inequalities.old.items inequalities.new.items (of_inputs (top_inputs (map entity_view net.now.entities.items)) (map input_view net.now.inputs.items) (map supply_view values.now.inputs.items))) }
{
    let ports = PortNumbers::of(alloc, &net.entities)?;
    let added = add_inputs(alloc, &ports, &net.inputs, &values.inputs, inequalities);
    drop(ports);
    added
}

/// The inequalities between the types of a net with these frames, but those of its Modal entities and of the types that ports declare.
pub fn inequalities_of(
    alloc: Global,
    frames: &Frames,
    net: &Net,
    values: &Values,
) -> Result<Vec<Inequality>, AllocError>
    requires { frames_view frames.now ≡ frames_of net.now values.now }
    ensures { IfOk result (λ qs. map inequality_view qs.items ≡ inequalities net.now values.now) }
{
    let mut list = Vec::with_capacity(alloc, net.channels.len())?;
    add_channels(&net.channels, &mut list)?;
    add_entities(alloc, frames, &net.entities, &values.entities, &mut list)?;
    add_supplied(alloc, net, values, &mut list)?;
    Ok(list)
}
