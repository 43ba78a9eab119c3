ghost use Rattle.std.specs.Prelude.{◌≡◌, option_map, codes};
ghost use Rattle.std.specs.Str.{bytes_eq};
ghost use Rattle.pt_document.specs.Document.{property_name};
ghost use Rattle.pt_document.specs.View.{property_view, properties_view};
ghost use Rattle.pt_start.specs.Places as places;

use crate::given::token_at;
use pt_document::Property;
use pt_scopes::ParameterValue;
use pt_value::Token;

fn is_named(property: &Property, name: &str) -> bool
    ensures { result ≡ bytes_eq (property_name (property_view property.now)) name.now }
{
    property.name.as_str() == name
}

/// The token of the first parameter of a name.
fn token_named<'a>(
    properties: &[Property],
    values: &'a [ParameterValue],
    name: &str,
) -> Option<&'a Token>
    ensures { option_map (λ t. t.now) result ≡ places.token_named (properties_view properties.now) values.now name.now }
{
    for (number, property) in properties.iter().enumerate() {
        if is_named(property, name) {
            return token_at(values, number);
        }
    }
    None
}

fn is_positive(token: Option<&Token>) -> bool
    ensures { result ≡ places.is_positive (option_map (λ t. t.now) token.entry) }
{
    match token {
        Some(Token::Int(n)) => 0 < *n,
        Some(Token::Bool(_) | Token::Text(_) | Token::Array(_) | Token::Record(_)) | None => false,
    }
}

fn is_truth(token: Option<&Token>) -> bool
    ensures { result ≡ places.is_truth (option_map (λ t. t.now) token.entry) }
{
    match token {
        Some(Token::Bool(b)) => *b,
        Some(Token::Int(_) | Token::Text(_) | Token::Array(_) | Token::Record(_)) | None => false,
    }
}

fn is_sequence(class: &str) -> bool
    ensures { result ≡ bytes_eq class.now (codes "Sequence") }
{
    class == "Sequence"
}

fn limited_by(limit: Option<&Token>, is_sequence: bool, repeat: Option<&Token>) -> bool
    ensures { result ≡ places.limited_by (option_map (λ t. t.now) limit.entry) is_sequence (option_map (λ t. t.now) repeat.entry) }
{
    is_positive(limit) || (is_sequence && !is_truth(repeat))
}

/// Whether an actor of this class with these parameters is a source that fires only so often.
pub fn is_limited(class: &str, properties: &[Property], values: &[ParameterValue]) -> bool
    ensures { result ≡ places.is_limited class.now (properties_view properties.now) values.now }
{
    let limit = token_named(properties, values, "firingCountLimit");
    let repeat = token_named(properties, values, "repeat");
    limited_by(limit, is_sequence(class), repeat)
}
