ghost use Rattle.std.specs.Prelude.{◌≡◌, map, option_map};
ghost use Rattle.std.specs.Str.{bytes_eq};
ghost use Rattle.pt_document.specs.Document.{property_name};
ghost use Rattle.pt_document.specs.View.{property_view, properties_view};
ghost use Rattle.pt_net.specs.Net.{director_view};
ghost use Rattle.pt_scopes.specs.Given.{held_view};
ghost use Rattle.pt_scopes.specs.Agreement as agreement;
ghost use Rattle.pt_stated.specs.Numbers as spec;

use crate::count::count;
use pt_document::Property;
use pt_net::NetDirector;
use pt_scopes::{ParameterValue, Standard, standard_of};
use pt_value::Token;

/// How many tokens a channel of a process network has room for: at first, and at most.
#[derive(Clone, Copy, Debug)]
pub struct Capacities {
    pub initial: usize,
    pub maximum: usize,
}

fn is_named(property: &Property, name: &str) -> bool
    ensures { result ≡ bytes_eq (property_name (property_view property.now)) name.now }
{
    property.name.as_str() == name
}

/// What parameters are given under a name.
fn given<'a>(
    properties: &[Property],
    values: &'a [ParameterValue],
    name: &str,
) -> Option<&'a ParameterValue>
    ensures { option_map (λ h. held_view h.now) result ≡ agreement.given (agreement.named (properties_view properties.now) (map held_view values.now)) name.now }
{
    for (index, property) in properties.iter().enumerate() {
        if is_named(property, name) {
            return values.get(index);
        }
    }
    None
}

/// The integer that stands for a parameter that isn't given.
fn standard_integer(standard: Standard) -> i64
    ensures { result ≡ agreement.standard_integer standard }
{
    match standard {
        Standard::Integer(n) => n,
        Standard::Nothing | Standard::Truth(_) | Standard::Single(_) | Standard::FirstWord => 0,
    }
}

/// An integer that is given, or else the other one.
fn integer_in(value: Option<&ParameterValue>, other: i64) -> i64
    ensures { result ≡ agreement.integer_in (agreement.value_in (option_map (λ h. held_view h.now) value.entry)) other }
{
    match value {
        Some(ParameterValue::Token(Token::Int(n))) => *n,
        Some(
            ParameterValue::Token(
                Token::Bool(_) | Token::Text(_) | Token::Array(_) | Token::Record(_),
            ),
        ) => other,
        Some(ParameterValue::Tree(_) | ParameterValue::Word) | None => other,
    }
}

/// What a parameter of a director has, or where it isn't given what stands for it, as a number of tokens.
pub fn capacity(director: &NetDirector, values: &[ParameterValue], name: &str) -> usize
    ensures { result ≡ spec.capacity (director_view director.now) values.now name.now }
{
    let value = given(&director.parameters, values, name);
    let standard = standard_integer(standard_of(director.class.as_str(), name));
    count(integer_in(value, standard))
}
