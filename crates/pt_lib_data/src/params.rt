// Parameters that are texts.
ghost use Rattle.std.specs.Prelude.{◌≡◌, option_map};
ghost use Rattle.pt_lib_data.specs.Params.{text_or};

use pt_firing::Values;
use pt_value::Token;

/// The text under a name, or another where there is none. `None` is where the value is of another kind.
pub(crate) fn text_or<'a>(values: &'a Values, name: &str, default: &'a str) -> Option<&'a str>
    ensures { option_map (λ t. t.now) result ≡ text_or name.now default.now values.now }
{
    match values.get(name) {
        None => Some(default),
        Some(Token::Text(text)) => Some(text.as_str()),
        Some(_) => None,
    }
}
