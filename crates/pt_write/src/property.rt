// Properties, which may have properties of their own.
ghost use Rattle.std.specs.Prelude.{◌≡◌, OnOk};
ghost use Rattle.pt_document.specs.View.{property_view};
ghost use Rattle.pt_write.specs.Written.{tokens};
ghost use Rattle.pt_write.specs.Document.{property_value};
ghost use Rattle.pt_write.specs.Appends.{Appends, saying_tokens};

use crate::fields::{
    Part, begin_object, close_list, end_object, open_list, optional_text_field, text_field,
};
use json::Writer;
use pt_document::Property;
use std::alloc::AllocError;

/// What a property says, but for the properties in it.
fn write_saying(out: &mut Writer, property: &Property) -> Result<(), AllocError>
    ensures { OnOk result (Appends out.old out.new (saying_tokens (property_view property.now))) }
{
    begin_object(out)?;
    text_field(out, "name", property.name.as_str())?;
    optional_text_field(out, "value", &property.value)?;
    optional_text_field(out, "class", &property.class)?;
    Ok(())
}

fn write_property(out: &mut Writer, property: &Property) -> Result<(), AllocError>
    ensures { OnOk result (Appends out.old out.new (tokens (property_value (property_view property.now)))) }
{
    write_saying(out, property)?;
    open_list(out, "properties", property.properties.is_empty())?;
    for inner in &property.properties {
        write_property(out, inner)?;
    }
    close_list(out, property.properties.is_empty())?;
    end_object(out)?;
    Ok(())
}

impl Part for Property {
    ghost use Rattle.std.specs.Prelude.{map, refl};
    ghost use Rattle.pt_document.specs.View.{property_view};
    ghost use Rattle.pt_write.specs.Document.{values, property_value};

    ghost value = { λ p. property_value (property_view p) };

    ghost values = { λ ps. values property_value (map property_view ps) };

    fn write(&self, out: &mut Writer) -> Result<(), AllocError> {
        write_property(out, self)
    }

    ghost of_none = { refl };

    ghost of_more = { λ p ps. refl };
}
