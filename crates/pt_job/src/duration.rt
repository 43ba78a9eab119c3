ghost use Rattle.std.specs.Prelude.{◌≡◌, option_map, position, slice_get};
ghost use Rattle.pt_document.specs.View.{property_view, properties_view};
ghost use Rattle.pt_net.specs.Net.{director_view};
ghost use Rattle.pt_scopes.specs.Scopes.{net_view};
ghost use Rattle.pt_job.specs.Iterations as spec;

use pt_document::Property;
use pt_net::{Net, NetDirector};
use pt_scopes::{ParameterValue, Values};
use pt_value::Token;

/// An integer from nought on, as a number.
fn count(number: i64) -> Option<u64>
    ensures { result ≡ spec.count number }
{
    if number < 0 {
        None
    } else {
        Some(number.unsigned_abs())
    }
}

fn count_of(token: &Token) -> Option<u64>
    ensures { result ≡ spec.count_of token.now }
{
    match token {
        Token::Int(number) => count(*number),
        Token::Bool(_) | Token::Text(_) | Token::Array(_) | Token::Record(_) => None,
    }
}

/// The number that the parameter of this place has.
fn count_at(values: &[ParameterValue], place: usize) -> Option<u64>
    ensures { result ≡ spec.count_in (slice_get values.now place) }
{
    match values.get(place) {
        Some(ParameterValue::Token(token)) => count_of(token),
        Some(ParameterValue::Tree(_) | ParameterValue::Word) | None => None,
    }
}

fn sets(property: &Property, name: &str) -> bool
    ensures { result ≡ spec.sets name.now (property_view property.now) }
{
    property.name.as_str() == name
}

/// The place of the parameter of this name.
fn place_of(properties: &[Property], name: &str) -> Option<usize>
    ensures { result ≡ position (λ p. spec.sets name.now (property_view p)) properties.now }
{
    properties.iter().position(|property| sets(property, name))
}

fn number_in(properties: &[Property], values: &[ParameterValue], name: &str) -> Option<u64>
    ensures { result ≡ spec.number_in name.now (properties_view properties.now) values.now }
{
    match place_of(properties, name) {
        Some(place) => count_at(values, place),
        None => None,
    }
}

fn number_by(director: &Option<NetDirector>, values: &[ParameterValue], name: &str) -> Option<u64>
    ensures { result ≡ spec.number_by name.now (option_map director_view director.now) values.now }
{
    match director {
        Some(director) => number_in(&director.parameters, values, name),
        None => None,
    }
}

/// The integer of the parameter of this name of the top's director, or `None` where it has none that is from nought on.
fn number_of(net: &Net, values: &Values, name: &str) -> Option<u64>
    ensures { result ≡ spec.number_of name.now (net_view net.now) values.now }
{
    match (net.entities.first(), values.entities.first()) {
        (Some(top), Some(given)) => number_by(&top.director, &given.director, name),
        (Some(_), None) | (None, _) => None,
    }
}

/// How many iterations or ticks the top makes: what its director has as `iterations`.
pub fn iterations(net: &Net, values: &Values) -> Option<u64>
    ensures { result ≡ spec.iterations (net_view net.now) values.now }
{
    number_of(net, values, "iterations")
}

/// The last time at which the top fires, if there is one: what its director has as `stopTime`.
pub fn stop_time(net: &Net, values: &Values) -> Option<u64>
    ensures { result ≡ spec.stop_time (net_view net.now) values.now }
{
    number_of(net, values, "stopTime")
}
