// The parts of an entity.
ghost use Rattle.std.specs.Prelude.{◌≡◌, ◌∷◌, OnOk};
ghost use Rattle.json.specs.Token.{begin_object};
ghost use Rattle.pt_document.specs.View.{transition_view};
ghost use Rattle.pt_write.specs.Written.{tokens, slot_tokens, fields_tokens};
ghost use Rattle.pt_write.specs.Document.{two_texts, is_input, is_output, effect_fields};
ghost use Rattle.pt_write.specs.Appends.{Appends, way_tokens};

use crate::fields::{
    Part, begin_object, end_object, optional_list_field, optional_text_field, optional_truth_field,
    text_field, truth_field,
};
use json::Writer;
use pt_document::{Direction, Link, OutputAction, Port, Relation, SetAction, State, Transition};
use std::alloc::AllocError;

fn is_input(direction: Direction) -> bool
    ensures { result ≡ is_input direction }
{
    matches!(direction, Direction::Input)
}

fn is_output(direction: Direction) -> bool
    ensures { result ≡ is_output direction }
{
    matches!(direction, Direction::Output)
}

impl Part for Port {
    ghost use Rattle.std.specs.Prelude.{map, refl};
    ghost use Rattle.pt_document.specs.View.{port_view};
    ghost use Rattle.pt_write.specs.Document.{values, port_value};

    ghost value = { λ p. port_value (port_view p) };

    ghost values = { λ ps. values port_value (map port_view ps) };

    fn write(&self, out: &mut Writer) -> Result<(), AllocError> {
        begin_object(out)?;
        text_field(out, "name", self.name.as_str())?;
        optional_truth_field(out, "input", is_input(self.direction))?;
        optional_truth_field(out, "output", is_output(self.direction))?;
        optional_text_field(out, "type", &self.declared)?;
        optional_list_field(out, "properties", &self.properties)?;
        end_object(out)?;
        Ok(())
    }

    ghost of_none = { refl };

    ghost of_more = { λ p ps. refl };
}

/// An object of two texts.
fn two_texts(
    out: &mut Writer,
    first_key: &str,
    first: &str,
    second_key: &str,
    second: &str,
) -> Result<(), AllocError>
    ensures { OnOk result (Appends out.old out.new
        (begin_object ∷ fields_tokens (two_texts first_key.now first.now second_key.now second.now))) }
{
    begin_object(out)?;
    text_field(out, first_key, first)?;
    text_field(out, second_key, second)?;
    end_object(out)?;
    Ok(())
}

impl Part for Relation {
    ghost use Rattle.std.specs.Prelude.{refl};
    ghost use Rattle.pt_write.specs.Document.{values, relation_value};

    ghost value = { relation_value };

    ghost values = { λ rs. values relation_value rs };

    fn write(&self, out: &mut Writer) -> Result<(), AllocError> {
        begin_object(out)?;
        text_field(out, "name", self.name.as_str())?;
        end_object(out)?;
        Ok(())
    }

    ghost of_none = { refl };

    ghost of_more = { λ r rs. refl };
}

impl Part for Link {
    ghost use Rattle.std.specs.Prelude.{refl};
    ghost use Rattle.pt_write.specs.Document.{values, link_value};

    ghost value = { link_value };

    ghost values = { λ ls. values link_value ls };

    fn write(&self, out: &mut Writer) -> Result<(), AllocError> {
        match self {
            Link::Port { port, relation } => {
                two_texts(out, "port", port.as_str(), "relation", relation.as_str())
            }
            Link::Relations { first, second } => {
                two_texts(
                    out,
                    "relation1",
                    first.as_str(),
                    "relation2",
                    second.as_str(),
                )
            }
        }
    }

    ghost of_none = { refl };

    ghost of_more = { λ l ls. refl };
}

impl Part for State {
    ghost use Rattle.std.specs.Prelude.{refl};
    ghost use Rattle.pt_write.specs.Document.{values, state_value};

    ghost value = { state_value };

    ghost values = { λ ss. values state_value ss };

    fn write(&self, out: &mut Writer) -> Result<(), AllocError> {
        begin_object(out)?;
        text_field(out, "name", self.name.as_str())?;
        optional_text_field(out, "refinement", &self.refinement)?;
        end_object(out)?;
        Ok(())
    }

    ghost of_none = { refl };

    ghost of_more = { λ s ss. refl };
}

impl Part for OutputAction {
    ghost use Rattle.std.specs.Prelude.{refl};
    ghost use Rattle.pt_write.specs.Document.{values, output_value};

    ghost value = { output_value };

    ghost values = { λ xs. values output_value xs };

    fn write(&self, out: &mut Writer) -> Result<(), AllocError> {
        two_texts(
            out,
            "port",
            self.port.as_str(),
            "value",
            self.value.as_str(),
        )
    }

    ghost of_none = { refl };

    ghost of_more = { λ x xs. refl };
}

impl Part for SetAction {
    ghost use Rattle.std.specs.Prelude.{refl};
    ghost use Rattle.pt_write.specs.Document.{values, set_value};

    ghost value = { set_value };

    ghost values = { λ xs. values set_value xs };

    fn write(&self, out: &mut Writer) -> Result<(), AllocError> {
        two_texts(
            out,
            "name",
            self.name.as_str(),
            "value",
            self.value.as_str(),
        )
    }

    ghost of_none = { refl };

    ghost of_more = { λ x xs. refl };
}

/// Where a transition leads and when it may be taken.
fn write_way(out: &mut Writer, transition: &Transition) -> Result<(), AllocError>
    ensures { OnOk result (Appends out.old out.new (way_tokens (transition_view transition.now))) }
{
    begin_object(out)?;
    text_field(out, "from", transition.from.as_str())?;
    text_field(out, "to", transition.to.as_str())?;
    text_field(out, "guard", transition.guard.as_str())?;
    Ok(())
}

/// How it is taken and what it does.
fn write_effect(out: &mut Writer, transition: &Transition) -> Result<(), AllocError>
    ensures { OnOk result (Appends out.old out.new (fields_tokens (effect_fields (transition_view transition.now)))) }
{
    optional_truth_field(out, "preemptive", transition.preemptive)?;
    truth_field(out, "history", transition.history)?;
    optional_list_field(out, "output", &transition.output)?;
    optional_list_field(out, "set", &transition.set)?;
    end_object(out)?;
    Ok(())
}

impl Part for Transition {
    ghost use Rattle.std.specs.Prelude.{map, refl};
    ghost use Rattle.pt_document.specs.View.{transition_view};
    ghost use Rattle.pt_write.specs.Document.{values, transition_value};

    ghost value = { λ t. transition_value (transition_view t) };

    ghost values = { λ ts. values transition_value (map transition_view ts) };

    fn write(&self, out: &mut Writer) -> Result<(), AllocError> {
        write_way(out, self)?;
        write_effect(out, self)?;
        Ok(())
    }

    ghost of_none = { refl };

    ghost of_more = { λ t ts. refl };
}
