// What comes to a model and what is recorded of it.
ghost use Rattle.std.specs.Prelude.{◌≡◌, OnOk};
ghost use Rattle.pt_document.specs.View.{supply_view};
ghost use Rattle.pt_write.specs.Written.{tokens, fields_tokens};
ghost use Rattle.pt_write.specs.Document.{supply_field};
ghost use Rattle.pt_write.specs.Appends.{Appends};

use crate::fields::{Part, begin_object, end_object, list_field, text_field, whole_field};
use json::Writer;
use pt_document::{Event, Input, Supply};
use pt_value::Text;
use std::alloc::AllocError;

impl Part for Text {
    ghost use Rattle.std.specs.Prelude.{refl};
    ghost use Rattle.pt_write.specs.Written.{text};
    ghost use Rattle.pt_write.specs.Document.{values};

    ghost value = { text };

    ghost values = { λ ts. values text ts };

    fn write(&self, out: &mut Writer) -> Result<(), AllocError> {
        out.string(self.as_str())?;
        Ok(())
    }

    ghost of_none = { refl };

    ghost of_more = { λ t ts. refl };
}

impl Part for Option<Text> {
    ghost use Rattle.std.specs.Prelude.{refl};
    ghost use Rattle.pt_write.specs.Document.{values, token_value};

    ghost value = { token_value };

    ghost values = { λ ts. values token_value ts };

    fn write(&self, out: &mut Writer) -> Result<(), AllocError> {
        match self {
            Some(text) => out.string(text.as_str())?,
            None => out.null()?,
        }
        Ok(())
    }

    ghost of_none = { refl };

    ghost of_more = { λ t ts. refl };
}

impl Part for Event {
    ghost use Rattle.std.specs.Prelude.{refl};
    ghost use Rattle.pt_write.specs.Document.{values, event_value};

    ghost value = { event_value };

    ghost values = { λ es. values event_value es };

    fn write(&self, out: &mut Writer) -> Result<(), AllocError> {
        begin_object(out)?;
        whole_field(out, "time", self.time)?;
        whole_field(out, "step", self.step)?;
        text_field(out, "value", self.value.as_str())?;
        end_object(out)?;
        Ok(())
    }

    ghost of_none = { refl };

    ghost of_more = { λ e es. refl };
}

fn write_supply(out: &mut Writer, supply: &Supply) -> Result<(), AllocError>
    ensures { OnOk result (Appends out.old out.new (fields_tokens (supply_field (supply_view supply.now)))) }
{
    match supply {
        Supply::Tokens(tokens) => list_field(out, "tokens", tokens)?,
        Supply::Events(events) => list_field(out, "events", events)?,
    }
    end_object(out)?;
    Ok(())
}

impl Part for Input {
    ghost use Rattle.std.specs.Prelude.{map, refl};
    ghost use Rattle.pt_document.specs.View.{input_view};
    ghost use Rattle.pt_write.specs.Document.{values, input_value};

    ghost value = { λ i. input_value (input_view i) };

    ghost values = { λ xs. values input_value (map input_view xs) };

    fn write(&self, out: &mut Writer) -> Result<(), AllocError> {
        begin_object(out)?;
        text_field(out, "port", self.port.as_str())?;
        write_supply(out, &self.supply)?;
        Ok(())
    }

    ghost of_none = { refl };

    ghost of_more = { λ i xs. refl };
}
