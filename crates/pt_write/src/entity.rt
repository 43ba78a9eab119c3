// Entities, which may have entities of their own.
ghost use Rattle.std.specs.Prelude.{◌≡◌, codes, OnOk};
ghost use Rattle.pt_document.specs.Document.{parts};
ghost use Rattle.pt_document.specs.View.{entity_view};
ghost use Rattle.pt_write.specs.Written.{tokens, slot_tokens};
ghost use Rattle.pt_write.specs.Document.{values, states_slot, state_value, entity_value};
ghost use Rattle.pt_write.specs.Appends.{Appends, outside_tokens, wiring_tokens, machine_tokens};

use crate::fields::{
    begin_object, close_list, end_object, list_field, open_list, optional_list_field,
    optional_text_field, text_field,
};
use json::Writer;
use pt_document::{Entity, State};
use pt_value::Text;
use std::alloc::AllocError;

/// What comes before the entities within it.
fn write_outside(out: &mut Writer, entity: &Entity) -> Result<(), AllocError>
    ensures { OnOk result (Appends out.old out.new (outside_tokens (parts (entity_view entity.now)))) }
{
    begin_object(out)?;
    text_field(out, "name", entity.name.as_str())?;
    text_field(out, "class", entity.class.as_str())?;
    optional_list_field(out, "properties", &entity.properties)?;
    optional_list_field(out, "ports", &entity.ports)?;
    Ok(())
}

fn write_wiring(out: &mut Writer, entity: &Entity) -> Result<(), AllocError>
    ensures { OnOk result (Appends out.old out.new (wiring_tokens (parts (entity_view entity.now)))) }
{
    optional_list_field(out, "relations", &entity.relations)?;
    optional_list_field(out, "links", &entity.links)?;
    Ok(())
}

/// States, which have to be there where there is an initial one.
fn states_field(
    out: &mut Writer,
    initial: &Option<Text>,
    states: &[State],
) -> Result<(), AllocError>
    ensures { OnOk result (Appends out.old out.new (slot_tokens (codes "states") (states_slot initial.now (values state_value states.now)))) }
{
    match initial {
        Some(_) => list_field(out, "states", states),
        None => optional_list_field(out, "states", states),
    }
}

fn write_machine(out: &mut Writer, entity: &Entity) -> Result<(), AllocError>
    ensures { OnOk result (Appends out.old out.new (machine_tokens (parts (entity_view entity.now)))) }
{
    states_field(out, &entity.initial, &entity.states)?;
    optional_text_field(out, "initial", &entity.initial)?;
    optional_list_field(out, "transitions", &entity.transitions)?;
    end_object(out)?;
    Ok(())
}

pub fn write_entity(out: &mut Writer, entity: &Entity) -> Result<(), AllocError>
    ensures { OnOk result (Appends out.old out.new (tokens (entity_value (entity_view entity.now)))) }
{
    write_outside(out, entity)?;
    open_list(out, "entities", entity.entities.is_empty())?;
    for child in &entity.entities {
        write_entity(out, child)?;
    }
    close_list(out, entity.entities.is_empty())?;
    write_wiring(out, entity)?;
    write_machine(out, entity)?;
    Ok(())
}
