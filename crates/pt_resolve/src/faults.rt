ghost use Rattle.std.specs.Prelude.{◌≡◌, IfOk, ℕ, None, Some, map, option_map, slice_get};
ghost use Rattle.pt_types.specs.Ty.{type_of};
ghost use Rattle.pt_document.specs.View.{port_view};
ghost use Rattle.pt_net.specs.Net.{NetEntityTree, entity_view};
ghost use Rattle.pt_scopes.specs.Given.{held_view};
ghost use Rattle.pt_scopes.specs.Valued as valued;
ghost use Rattle.pt_typing.specs.declared.variable.Variable.TheVariants as variable;
ghost use Rattle.pt_typing.specs.Least.{assignment};
ghost use Rattle.pt_inequalities.specs.Rows.{port_row, port_type};
ghost use Rattle.pt_inequalities.specs.Frames.{frames_of, seen_types};
ghost use Rattle.pt_resolve.specs.Faults.{is_above, IsBroken};
ghost use Rattle.pt_resolve.specs.Broken.{has_port_above, lacks_type, has_untyped, breaks, first_broken};
ghost use Rattle.pt_resolve.specs.ModalFaults.{IsFailing};
ghost use Rattle.pt_frames.specs.Views.{frames_view};
ghost use Rattle.pt_places.specs.Views.{types_at, class_rows};

use crate::bounds::has_port_over;
use crate::modal_faults::first_failing;
use pt_charts::charts_of;
use pt_document::Port;
use pt_frames::{Frames, values_at};
use pt_inequalities::{PortType, PortTypeRow};
use pt_net::{Net, NetEntity};
use pt_places::{Place, port_type_by, rows_of};
use pt_scopes::{EntityValues, ParameterValue, Values};
use pt_types::{Ty, below};
use pt_typing::{Typing, Variable};
use std::alloc::{AllocError, Global};

/// Whether what passes at a port is general, or above what the row of its class allows.
fn is_above(row: PortType, ty: &Ty) -> bool
    ensures { result ≡ is_above row (type_of ty.now) }
{
    match row {
        PortType::Int => !below(ty, &Ty::Int),
        PortType::Boolean => !below(ty, &Ty::Boolean),
        PortType::Words => !below(ty, &Ty::Words),
        PortType::Free
        | PortType::Row
        | PortType::RowArray
        | PortType::Tree
        | PortType::Assembled
        | PortType::Field => !ty.is_proper(),
    }
}

/// Whether a port is general, or above what its row allows: the port `index` of the entity `number`, whose class has these rows.
fn is_port_above(
    alloc: Global,
    typing: &Typing,
    number: usize,
    rows: &'static [PortTypeRow<&'static str>],
    class: &str,
    index: usize,
    port: &Port,
) -> Result<bool, AllocError>
    requires { map port_row rows.now ≡ class_rows class.now }
    ensures { IfOk result (λ b. b ≡ is_above (port_type class.now (port_view port.now)) ((assignment typing.now).types (variable.Port number index))) }
{
    let ty = typing.ty(alloc, Variable::Port(number, index))?;
    Ok(is_above(port_type_by(rows, class, port), &ty))
}

/// Whether one of the ports of an entity is general, or above what its row allows.
fn has_port_above(
    alloc: Global,
    typing: &Typing,
    number: usize,
    class: &str,
    ports: &[Port],
) -> Result<bool, AllocError>
    ensures { IfOk result (λ b. b ≡ has_port_above (assignment typing.now) number class.now 0 (map port_view ports.now)) }
{
    let rows = rows_of(class);
    for (index, port) in ports.iter().enumerate() {
        if is_port_above(alloc, typing, number, rows, class, index, port)? {
            return Ok(true);
        }
    }
    Ok(false)
}

/// Whether a parameter is an expression without a type.
fn lacks_type(
    alloc: Global,
    typing: &Typing,
    place: &Place,
    value: &ParameterValue,
) -> Result<bool, AllocError>
    ensures { IfOk result (λ b. b ≡ lacks_type (assignment typing.now) place.now.number (entity_view place.now.entity.now) (types_at place.now) (held_view value.now)) }
{
    match value {
        ParameterValue::Tree(tree) => {
            let term = place.tree(alloc, tree)?;
            Ok(!typing.is_typed(alloc, &term)?)
        }
        ParameterValue::Token(_) | ParameterValue::Word => Ok(false),
    }
}

/// Whether a parameter of an entity is an expression without a type.
fn has_untyped(alloc: Global, typing: &Typing, place: &Place) -> Result<bool, AllocError>
    ensures { IfOk result (λ b. b ≡ has_untyped (assignment typing.now) place.now.number (entity_view place.now.entity.now) (types_at place.now) (Some (valued.entity_view place.now.values.now))) }
{
    for value in &place.values.parameters {
        if lacks_type(alloc, typing, place, value)? {
            return Ok(true);
        }
    }
    Ok(false)
}

/// Whether a parameter is an expression without a type, where an entity without values has none.
fn has_untyped_at(
    alloc: Global,
    frames: &Frames,
    typing: &Typing,
    number: usize,
    entity: &NetEntity,
    values: Option<&EntityValues>,
) -> Result<bool, AllocError>
    ensures { IfOk result (λ b. b ≡ has_untyped (assignment typing.now) number (entity_view entity.now) (seen_types (frames_view frames.now) entity.now.within entity.now.parent) (option_map (λ v. valued.entity_view v.now) values.entry)) }
{
    match values {
        Some(values) => {
            let place = Place {
                number,
                entity,
                values,
                frames,
            };
            has_untyped(alloc, typing, &place)
        }
        None => Ok(false),
    }
}

/// Whether the typing breaks at an entity.
fn breaks(
    alloc: Global,
    frames: &Frames,
    typing: &Typing,
    number: usize,
    entity: &NetEntity,
    values: Option<&EntityValues>,
) -> Result<bool, AllocError>
    ensures { IfOk result (λ b. b ≡ breaks (frames_view frames.now) (assignment typing.now) number (entity_view entity.now) (option_map (λ v. valued.entity_view v.now) values.entry)) }
{
    if has_port_above(alloc, typing, number, entity.class.as_str(), &entity.ports)? {
        return Ok(true);
    }
    if has_port_over(alloc, typing, number, &entity.ports)? {
        return Ok(true);
    }
    has_untyped_at(alloc, frames, typing, number, entity, values)
}

/// The first of some entities at which the typing breaks.
fn first_broken(
    alloc: Global,
    frames: &Frames,
    typing: &Typing,
    entities: &[NetEntity],
    values: &[EntityValues],
) -> Result<Option<usize>, AllocError>
    ensures { IfOk result (λ found. found ≡ first_broken (frames_view frames.now) (assignment typing.now) 0 (map entity_view entities.now) (map valued.entity_view values.now)) }
{
    for (number, entity) in entities.iter().enumerate() {
        let own = values_at(values, number);
        if breaks(alloc, frames, typing, number, entity, own)? {
            return Ok(Some(number));
        }
    }
    Ok(None)
}

/// The number of a Modal entity in which the typing breaks in a guard or an action, if there is one.
fn failing(
    alloc: Global,
    frames: &Frames,
    typing: &Typing,
    entities: &[NetEntity],
    values: &[EntityValues],
) -> Result<Option<usize>, AllocError>
    ensures { IfOk result (λ found. IsFailing (frames_view frames.now) (assignment typing.now) (map entity_view entities.now) (map valued.entity_view values.now) found) }
{
    let charts = charts_of(alloc, frames, entities, values)?;
    let found = first_failing(alloc, typing, &charts);
    drop(charts);
    match found? {
        Some(number) => Ok(Some(number as usize)),
        None => Ok(None),
    }
}

/// The number of an entity at which the typing of a net with these frames breaks, if there is one: a port is general, above what its row
/// allows, or not below what it declares; an expression, a guard or an action has no type; a guard is no truth value; or a set
/// action gives what its Variable doesn't hold.
pub(crate) fn broken_entity(
    alloc: Global,
    frames: &Frames,
    net: &Net,
    values: &Values,
    typing: &Typing,
) -> Result<Option<usize>, AllocError>
    requires frames { frames_view frames.now ≡ frames_of net.now values.now }
    ensures some { IfOk result (λ found. (k : ℕ) → found ≡ Some k → (e : NetEntityTree) × (slice_get (map entity_view net.now.entities.items) k ≡ Some e) × IsBroken net.now values.now (assignment typing.now) e) }
    ensures none { IfOk result (λ found. found ≡ None → (e : NetEntityTree) → IsBroken net.now values.now (assignment typing.now) e → ⊥) }
{
    match first_broken(alloc, frames, typing, &net.entities, &values.entities)? {
        Some(number) => Ok(Some(number)),
        None => failing(alloc, frames, typing, &net.entities, &values.entities),
    }
}
