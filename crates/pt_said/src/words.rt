// The words of a type's text.
ghost use Rattle.std.specs.Prelude.{◌≡◌, Some, None, if◌then◌else◌, option_map};
ghost use Rattle.pt_document.specs.TypeTexts as texts;

use pt_document::is_field_name;
use std::str::from_utf8;

/// These bytes as the name of a field.
pub(crate) fn field_name<'a>(bytes: &'a [u8]) -> Option<&'a str>
    ensures { option_map (λ n. n.now) result ≡ (if texts.is_field_name bytes.now then Some bytes.now else None) }
{
    match from_utf8(bytes) {
        Ok(name) => {
            if is_field_name(name.as_bytes()) {
                Some(name)
            } else {
                None
            }
        }
        Err(_) => None,
    }
}
