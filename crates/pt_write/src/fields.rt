// What is written at a field, for all objects alike.
ghost use Rattle.std.specs.Prelude.{◌≡◌, ℕ, List, [], ◌∷◌, ◌++◌, Bool, OnOk};
ghost use Rattle.json.specs.Token.{begin_object, end_object, begin_array, end_array};
ghost use Rattle.pt_write.specs.Written.{Value, Values, no_values, value_then, given, whole, truth, tokens, items_tokens, slot_tokens};
ghost use Rattle.pt_write.specs.Document.{text_slot, optional_text, optional_truth, optional_list, list_slot};
ghost use Rattle.pt_write.specs.Appends.{Appends, opening, closing};

use json::Writer;
use pt_value::Text;
use std::alloc::AllocError;

pub fn begin_object(out: &mut Writer) -> Result<(), AllocError>
    ensures { OnOk result (Appends out.old out.new (begin_object ∷ [])) }
{
    out.begin_object()?;
    Ok(())
}

pub fn end_object(out: &mut Writer) -> Result<(), AllocError>
    ensures { OnOk result (Appends out.old out.new (end_object ∷ [])) }
{
    out.end_object()?;
    Ok(())
}

/// A text at a field.
pub fn text_field(out: &mut Writer, key: &str, text: &str) -> Result<(), AllocError>
    ensures { OnOk result (Appends out.old out.new (slot_tokens key.now (text_slot text.now))) }
{
    out.key(key)?;
    out.string(text)?;
    Ok(())
}

/// A text at a field, if there is one.
pub fn optional_text_field(
    out: &mut Writer,
    key: &str,
    text: &Option<Text>,
) -> Result<(), AllocError>
    ensures { OnOk result (Appends out.old out.new (slot_tokens key.now (optional_text text.now))) }
{
    match text {
        Some(text) => text_field(out, key, text.as_str()),
        None => Ok(()),
    }
}

/// A truth value at a field.
pub fn truth_field(out: &mut Writer, key: &str, is_true: bool) -> Result<(), AllocError>
    ensures { OnOk result (Appends out.old out.new (slot_tokens key.now (given (truth is_true)))) }
{
    out.key(key)?;
    out.boolean(is_true)?;
    Ok(())
}

/// A truth value at a field, which is left out where it is false.
pub fn optional_truth_field(out: &mut Writer, key: &str, is_true: bool) -> Result<(), AllocError>
    ensures { OnOk result (Appends out.old out.new (slot_tokens key.now (optional_truth is_true))) }
{
    if is_true {
        truth_field(out, key, true)
    } else {
        Ok(())
    }
}

/// A whole number at a field.
pub fn whole_field(out: &mut Writer, key: &str, number: u64) -> Result<(), AllocError>
    ensures { OnOk result (Appends out.old out.new (slot_tokens key.now (given (whole number)))) }
{
    out.key(key)?;
    out.u64(number)?;
    Ok(())
}

/// The begin of a list at a field, unless it is empty.
pub fn open_list(out: &mut Writer, key: &str, is_empty: bool) -> Result<(), AllocError>
    ensures { OnOk result (Appends out.old out.new (opening key.now is_empty)) }
{
    if is_empty {
        return Ok(());
    }
    out.key(key)?;
    out.begin_array()?;
    Ok(())
}

/// The end of a list, unless it is empty.
pub fn close_list(out: &mut Writer, is_empty: bool) -> Result<(), AllocError>
    ensures { OnOk result (Appends out.old out.new (closing is_empty)) }
{
    if is_empty {
        return Ok(());
    }
    out.end_array()?;
    Ok(())
}

/// What stands in a list.
pub trait Part {
    /// What is written for it, and for a list.
    ghost value: { Self → Value };

    ghost values: { List Self → Values };

    fn write(&self, out: &mut Writer) -> Result<(), AllocError>
        ensures { OnOk result (Appends out.old out.new (tokens (value self.now))) };

    ghost of_none: { values [] ≡ no_values };

    ghost of_more: { (part : Self) (parts : List Self) → values (part ∷ parts) ≡ value_then (value part) (values parts) };
}

fn write_items<P: Part>(out: &mut Writer, parts: &[P]) -> Result<(), AllocError>
    ensures { OnOk result (Appends out.old out.new (items_tokens (P.values parts.now))) }
{
    for part in parts {
        part.write(out)?;
    }
    Ok(())
}

/// A list at a field, which is left out where it is empty.
pub fn optional_list_field<P: Part>(
    out: &mut Writer,
    key: &str,
    parts: &[P],
) -> Result<(), AllocError>
    ensures { OnOk result (Appends out.old out.new (slot_tokens key.now (optional_list (P.values parts.now)))) }
{
    let is_empty = parts.is_empty();
    open_list(out, key, is_empty)?;
    write_items(out, parts)?;
    close_list(out, is_empty)?;
    Ok(())
}

/// A list at a field.
pub fn list_field<P: Part>(out: &mut Writer, key: &str, parts: &[P]) -> Result<(), AllocError>
    ensures { OnOk result (Appends out.old out.new (slot_tokens key.now (list_slot (P.values parts.now)))) }
{
    open_list(out, key, false)?;
    write_items(out, parts)?;
    close_list(out, false)?;
    Ok(())
}
