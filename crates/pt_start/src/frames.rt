ghost use Rattle.std.specs.Prelude.{◌≡◌, ℕ, ◌++◌, List, IfOk, OnOk, Some, option_map};
ghost use Rattle.pt_value.specs.declared.token.Token.{Token};
ghost use Rattle.pt_document.specs.View.{properties_view};
ghost use Rattle.pt_scopes.specs.Scopes.{is_composite_class};
ghost use Rattle.pt_start.specs.Started.{given_tokens};
ghost use Rattle.pt_start.specs.Frames.{Hold, with_token, named_tokens, IsKept, AreKept, IsTransparentKept, AreTransparentKept};

use crate::given::{name_of, token_at};
use pt_document::Property;
use pt_net::{NetEntity, Transparent};
use pt_scopes::{EntityValues, Names, ParameterValue};
use pt_value::{Text, Token};
use std::alloc::{AllocError, Global};

/// Puts the token of a name, if it has one, before what is there.
fn put_token(
    alloc: Global,
    name: &Text,
    token: Option<&Token>,
    names: &mut Names,
) -> Result<(), AllocError>
    ensures { OnOk result ((ps : List (List ℕ × Token)) → Hold names.old ps → Hold names.new (ps ++ with_token name.now (option_map (λ t. t.now) token.entry))) }
{
    match token {
        Some(token) => {
            names.put(alloc, name.as_str(), token.copy(alloc)?)?;
            Ok(())
        }
        None => Ok(()),
    }
}

/// The parameters of an opaque composite, by name.
fn names_given(
    alloc: Global,
    properties: &[Property],
    values: &[ParameterValue],
) -> Result<Names, AllocError>
    ensures { IfOk result (λ names. Hold names (given_tokens (properties_view properties.now) values.now)) }
{
    let mut names = Names::new(alloc);
    for (number, property) in properties.iter().enumerate() {
        put_token(
            alloc,
            name_of(property),
            token_at(values, number),
            &mut names,
        )?;
    }
    Ok(names)
}

/// The parameters of a transparent composite, by name.
fn names_with(alloc: Global, properties: &[Property], values: &[Token]) -> Result<Names, AllocError>
    ensures { IfOk result (λ names. Hold names (named_tokens (properties_view properties.now) values.now)) }
{
    let mut names = Names::new(alloc);
    for (number, property) in properties.iter().enumerate() {
        put_token(alloc, name_of(property), values.get(number), &mut names)?;
    }
    Ok(names)
}

/// A composite has parameters that others see.
fn is_composite(class: &str) -> bool
    ensures { result ≡ is_composite_class class.now }
{
    class == "Composite" || class == "Modal"
}

fn names_of_entity(
    alloc: Global,
    entity: &NetEntity,
    held: Option<&EntityValues>,
) -> Result<Names, AllocError>
    ensures { IfOk result (λ names. IsKept (Some entity.now) (option_map (λ v. v.now) held.entry) (Some names)) }
{
    let Some(held) = held else {
        return Ok(Names::new(alloc));
    };
    if is_composite(entity.class.as_str()) {
        names_given(alloc, &entity.parameters, &held.parameters)
    } else {
        Ok(Names::new(alloc))
    }
}

/// The parameters of each entity that is a composite, by name.
pub fn opaque_names(
    alloc: Global,
    entities: &[NetEntity],
    values: &[EntityValues],
) -> Result<Vec<Names>, AllocError>
    ensures { IfOk result (λ names. AreKept entities.now values.now names.items) }
{
    let mut names = Vec::with_capacity(alloc, entities.len())?;
    for (number, entity) in entities.iter().enumerate() {
        names.push(names_of_entity(alloc, entity, values.get(number))?)?;
    }
    Ok(names)
}

fn names_of_transparent(
    alloc: Global,
    composite: &Transparent,
    held: Option<&Vec<Token>>,
) -> Result<Names, AllocError>
    ensures { IfOk result (λ names. IsTransparentKept (Some composite.now) (option_map (λ v. v.now) held.entry) (Some names)) }
{
    match held {
        Some(held) => names_with(alloc, &composite.parameters, held),
        None => Ok(Names::new(alloc)),
    }
}

/// The parameters of each transparent composite, by name.
pub fn transparent_names(
    alloc: Global,
    composites: &[Transparent],
    values: &[Vec<Token>],
) -> Result<Vec<Names>, AllocError>
    ensures { IfOk result (λ names. AreTransparentKept composites.now values.now names.items) }
{
    let mut names = Vec::with_capacity(alloc, composites.len())?;
    for (number, composite) in composites.iter().enumerate() {
        names.push(names_of_transparent(alloc, composite, values.get(number))?)?;
    }
    Ok(names)
}
