ghost use Rattle.std.specs.Prelude.{◌≡◌, map, length, option_map};
ghost use Rattle.std.specs.List.{list_all};
ghost use Rattle.pt_value.specs.Token.{value_of};
ghost use Rattle.std.specs.Str.{bytes_eq};
ghost use Rattle.pt_document.specs.Document.{property_name};
ghost use Rattle.pt_document.specs.View.{property_view};
ghost use Rattle.pt_scopes.specs.Given.{held_view};
ghost use Rattle.pt_scopes.specs.Agreement as agreement;
ghost use Rattle.pt_parameter.specs.ParametersView.{parameters_view};

use pt_document::Property;
use pt_scopes::{ParameterValue, Standard, standard_of};
use pt_value::Token;

/// The most tokens that an actor gives in one firing.
const MOST_TOKENS: i64 = 1_000_000;

/// The parameters of an entity or a director of a class, with what they have.
#[derive(Clone, Copy)]
pub struct Parameters<'a> {
    pub class: &'a str,
    pub properties: &'a [Property],
    pub values: &'a [ParameterValue],
}

fn is_named(property: &Property, name: &str) -> bool
    ensures { result ≡ bytes_eq (property_name (property_view property.now)) name.now }
{
    property.name.as_str() == name
}

/// The token of what a parameter has, if it is one.
fn token_in(value: Option<&ParameterValue>) -> Option<&Token>
    ensures { option_map (λ t. value_of t.now) result ≡ agreement.value_in (option_map (λ h. held_view h.now) value.entry) }
{
    match value {
        Some(ParameterValue::Token(token)) => Some(token),
        Some(ParameterValue::Tree(_) | ParameterValue::Word) | None => None,
    }
}

/// The integer that stands for a parameter that isn't given.
fn standard_integer(standard: Standard) -> i64
    ensures { result ≡ agreement.standard_integer standard }
{
    match standard {
        Standard::Integer(n) => n,
        Standard::Nothing | Standard::Truth(_) | Standard::Single(_) | Standard::FirstWord => 0,
    }
}

impl<'a> Parameters<'a> {
    /// What is given under a name.
    fn given(&self, name: &str) -> Option<&'a ParameterValue>
        ensures { option_map (λ h. held_view h.now) result ≡ agreement.given (parameters_view self.now) name.now }
    {
        for (index, property) in self.properties.iter().enumerate() {
            if is_named(property, name) {
                return self.values.get(index);
            }
        }
        None
    }

    /// The integer that a parameter has. What stands for one that isn't given is looked for only then.
    fn integer(&self, name: &str) -> i64
        ensures { result ≡ agreement.integer_of self.now.class.now (parameters_view self.now) name.now }
    {
        match token_in(self.given(name)) {
            Some(Token::Int(n)) => *n,
            Some(Token::Bool(_) | Token::Text(_) | Token::Array(_) | Token::Record(_)) | None =>
                standard_integer(standard_of(self.class, name)),
        }
    }

    /// Whether the one is at most the other.
    fn is_at_most(&self, lesser: &str, greater: &str) -> bool
        ensures { result ≡ agreement.is_at_most self.now.class.now (parameters_view self.now) lesser.now greater.now }
    {
        self.integer(lesser) <= self.integer(greater)
    }

    /// Whether the phase is that of a token among those of the factor.
    fn has_phase(&self) -> bool
        ensures { result ≡ agreement.has_phase self.now.class.now (parameters_view self.now) }
    {
        let phase = self.integer("phase");
        0 <= phase && phase < self.integer("factor")
    }

    /// Whether few enough tokens are given in one firing.
    fn has_few_tokens(&self) -> bool
        ensures { result ≡ agreement.has_few_tokens self.now.class.now (parameters_view self.now) }
    {
        let times = self.integer("numberOfTimes");
        times.saturating_mul(self.integer("blockSize")) <= MOST_TOKENS
    }

    /// Whether each offset is within the period, and has a value.
    fn has_events(&self) -> bool
        ensures { result ≡ agreement.has_events self.now.class.now (parameters_view self.now) }
    {
        let offsets = token_in(self.given("offsets"));
        let values = token_in(self.given("values"));
        let period = self.integer("period");
        let standard = standard_of(self.class, "offsets");
        are_below(offsets, standard, period)
            && count_in(offsets, standard) == count_in(values, standard_of(self.class, "values"))
    }

    /// Whether the parameters agree with one another.
    pub fn agree(&self) -> bool
        ensures { result ≡ agreement.agree self.now.class.now (parameters_view self.now) }
    {
        match self.class {
            "DownSample" | "UpSample" => self.has_phase(),
            "Repeat" => self.has_few_tokens(),
            "Limiter" => self.is_at_most("bottom", "top"),
            "DiscreteClock" => self.has_events(),
            "PN" => self.is_at_most("initialQueueCapacity", "maximumQueueCapacity"),
            _ => true,
        }
    }
}

/// The elements of an array.
fn elements(token: &Token) -> Option<&[Token]>
    ensures { option_map (λ s. map value_of s.now) result ≡ agreement.elements (value_of token.now) }
{
    match token {
        Token::Array(items) => Some(items.as_slice()),
        Token::Int(_) | Token::Bool(_) | Token::Text(_) | Token::Record(_) => None,
    }
}

/// The elements of an array that is given.
fn given_elements(token: Option<&Token>) -> Option<&[Token]>
    ensures { option_map (λ s. map value_of s.now) result ≡ agreement.given_elements (option_map (λ t. value_of t.now) token.entry) }
{
    match token {
        Some(token) => elements(token),
        None => None,
    }
}

/// How many elements an array has that is given, or else the one that stands for it.
fn count_in(token: Option<&Token>, standard: Standard) -> usize
    ensures { result ≡ length (agreement.elements_in (option_map (λ t. value_of t.now) token.entry) (agreement.standard_elements standard)) }
{
    match given_elements(token) {
        Some(elements) => elements.len(),
        None => match standard {
            Standard::Single(_) => 1,
            Standard::Nothing | Standard::Integer(_) | Standard::Truth(_) | Standard::FirstWord =>
                0,
        },
    }
}

/// Whether each element of such an array is an integer below the bound.
fn are_below(token: Option<&Token>, standard: Standard, bound: i64) -> bool
    ensures { result ≡ list_all (agreement.is_integer_below bound) (agreement.elements_in (option_map (λ t. value_of t.now) token.entry) (agreement.standard_elements standard)) }
{
    match given_elements(token) {
        Some(elements) => all_below(elements, bound),
        None => match standard {
            Standard::Single(n) => n < bound,
            Standard::Nothing | Standard::Integer(_) | Standard::Truth(_) | Standard::FirstWord =>
                true,
        },
    }
}

fn all_below(elements: &[Token], bound: i64) -> bool
    ensures { result ≡ list_all (agreement.is_integer_below bound) (map value_of elements.now) }
{
    for element in elements {
        if !is_integer_below(element, bound) {
            return false;
        }
    }
    true
}

fn is_integer_below(token: &Token, bound: i64) -> bool
    ensures { result ≡ agreement.is_integer_below bound (value_of token.now) }
{
    match token {
        Token::Int(n) => *n < bound,
        Token::Bool(_) | Token::Text(_) | Token::Array(_) | Token::Record(_) => false,
    }
}
