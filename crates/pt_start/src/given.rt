ghost use Rattle.std.specs.Prelude.{◌≡◌, ◌++◌, IfOk, OnOk, Some, option_map, slice_get};
ghost use Rattle.pt_document.specs.Document.{property_name};
ghost use Rattle.pt_document.specs.View.{property_view, properties_view};
ghost use Rattle.pt_language.specs.Expr.{tree_of};
ghost use Rattle.pt_scopes.specs.declared.parameter_value.ParameterValue.TheVariants.{Word};
ghost use Rattle.pt_scopes.specs.Scopes.{text_of};
ghost use Rattle.pt_start.specs.Started.{own_tokens, given_tree};
ghost use Rattle.pt_start.specs.Frames.{with_token, token_in};
ghost use Rattle.pt_start.specs.Own.{own_token};

use pt_document::Property;
use pt_language::Expr;
use pt_scopes::ParameterValue;
use pt_value::{Text, Token, TokenText};
use std::alloc::{AllocError, Global};

/// The name of a property.
pub fn name_of(property: &Property) -> &Text
    ensures { result.now ≡ property_name (property_view property.now) }
{
    &property.name
}

/// The token of the parameter of this number, if it has one.
pub fn token_at(values: &[ParameterValue], number: usize) -> Option<&Token>
    ensures { option_map (λ t. t.now) result ≡ token_in (slice_get values.now number) }
{
    match values.get(number) {
        Some(ParameterValue::Token(token)) => Some(token),
        Some(ParameterValue::Tree(_) | ParameterValue::Word) | None => None,
    }
}

/// Adds a name with its token, if it has one.
pub fn add_token(
    alloc: Global,
    name: &Text,
    token: Option<&Token>,
    tokens: &mut Vec<(Text, Token)>,
) -> Result<(), AllocError>
    ensures { OnOk result (tokens.new.items ≡ tokens.old.items ++ with_token name.now (option_map (λ t. t.now) token.entry)) }
{
    match token {
        Some(token) => {
            tokens.push((name.copy(alloc)?, token.copy(alloc)?))?;
            Ok(())
        }
        None => Ok(()),
    }
}

/// The text of a property.
fn text_of(property: &Property) -> &str
    ensures { result.now ≡ text_of (property_view property.now) }
{
    match &property.value {
        Some(text) => text.as_str(),
        None => "",
    }
}

/// Adds the name of a property with its text.
fn add_text(
    alloc: Global,
    property: &Property,
    tokens: &mut Vec<(Text, Token)>,
) -> Result<(), AllocError>
    ensures { OnOk result (tokens.new.items ≡ tokens.old.items ++ own_token (property_view property.now) (Some Word)) }
{
    let text = TokenText::of(alloc, text_of(property))?;
    tokens.push((property.name.copy(alloc)?, Token::Text(text)))?;
    Ok(())
}

/// Adds a parameter with its token, or with its text where that is taken as it is written.
fn add_own(
    alloc: Global,
    property: &Property,
    value: Option<&ParameterValue>,
    tokens: &mut Vec<(Text, Token)>,
) -> Result<(), AllocError>
    ensures { OnOk result (tokens.new.items ≡ tokens.old.items ++ own_token (property_view property.now) (option_map (λ v. v.now) value.entry)) }
{
    match value {
        Some(ParameterValue::Token(token)) => {
            add_token(alloc, name_of(property), Some(token), tokens)
        }
        Some(ParameterValue::Word) => add_text(alloc, property, tokens),
        Some(ParameterValue::Tree(_)) | None => Ok(()),
    }
}

/// The own parameters of an actor by name: those that have tokens, and as texts those that are taken as they are written.
pub fn own_tokens(
    alloc: Global,
    properties: &[Property],
    values: &[ParameterValue],
) -> Result<Vec<(Text, Token)>, AllocError>
    ensures { IfOk result (λ tokens. tokens.items ≡ own_tokens (properties_view properties.now) values.now) }
{
    let mut tokens = Vec::with_capacity(alloc, properties.len())?;
    for (number, property) in properties.iter().enumerate() {
        add_own(alloc, property, values.get(number), &mut tokens)?;
    }
    Ok(tokens)
}

/// The tree of an expression, if there is one.
pub fn given_tree(values: &[ParameterValue]) -> Option<&Expr>
    ensures { option_map (λ e. tree_of e.now) result ≡ given_tree values.now }
{
    for value in values {
        if let ParameterValue::Tree(tree) = value {
            return Some(tree);
        }
    }
    None
}
