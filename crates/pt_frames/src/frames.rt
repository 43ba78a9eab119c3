ghost use Rattle.std.specs.Prelude.{◌≡◌, IfOk, OnOk, List, ℕ, map, option_map, slice_get};
ghost use Rattle.pt_value.specs.Token.{value_of};
ghost use Rattle.pt_document.specs.View.{properties_view};
ghost use Rattle.pt_scopes.specs.Names.{held};
ghost use Rattle.pt_inequalities.specs.Frames.{with_value, with_given, no_names, values_held, some_value, held_of, given_of, values_of_tokens, frames_of, entity_frames, transparent_frames, innermost, seen_within, seen};
ghost use Rattle.pt_frames.specs.Views.{frame_view, frames_view};

use pt_document::Property;
use pt_net::{Net, NetEntity, Transparent};
use pt_scopes::{EntityValues, Names, ParameterValue, Values, name_of};
use pt_value::Token;
use std::alloc::{AllocError, Global};

/// How many entities stand in one another at most.
const MOST_LEVELS: usize = 16;

/// The composite round an entity or a transparent composite, and the tokens of its parameters.
#[derive(Drop)]
pub struct Frame {
    within: Option<u32>,
    parent: Option<u32>,
    names: Names,
}

/// The frames of the entities and of the transparent composites of a net.
#[derive(Drop)]
pub struct Frames {
    entities: Vec<Frame>,
    transparent: Vec<Frame>,
}

/// Adds the token of a parameter, where it has one.
fn add_value(
    alloc: Global,
    names: &mut Names,
    name: &str,
    token: Option<&Token>,
) -> Result<(), AllocError>
    ensures { OnOk result ((other : List ℕ) → held names.new other ≡ with_value (held names.old) name.now (option_map (λ t. value_of t.now) token.entry) other) }
{
    match token {
        Some(token) => names.put(alloc, name, token.copy(alloc)?),
        None => Ok(()),
    }
}

/// The token that a parameter comes to.
fn token_at(values: &[ParameterValue], index: usize) -> Option<&Token>
    ensures { option_map (λ t. value_of t.now) result ≡ held_of (slice_get values.now index) }
{
    match values.get(index) {
        Some(ParameterValue::Token(token)) => Some(token),
        Some(ParameterValue::Tree(_)) | Some(ParameterValue::Word) | None => None,
    }
}

/// The token of this number.
fn token_in(tokens: &[Token], index: usize) -> Option<&Token>
    ensures { option_map (λ t. value_of t.now) result ≡ slice_get (map value_of tokens.now) index }
{
    tokens.get(index)
}

/// The tokens under the names of the parameters that are evaluated.
fn names_given(
    alloc: Global,
    properties: &[Property],
    values: &[ParameterValue],
) -> Result<Names, AllocError>
    ensures { IfOk result (λ names. (name : List ℕ) → held names name ≡ with_given no_names (properties_view properties.now) (map values_held values.now) name) }
{
    let mut names = Names::new(alloc);
    for (index, property) in properties.iter().enumerate() {
        add_value(
            alloc,
            &mut names,
            name_of(property),
            token_at(values, index),
        )?;
    }
    Ok(names)
}

/// The tokens under the names of the parameters of a transparent composite.
pub fn names_of_tokens(
    alloc: Global,
    properties: &[Property],
    tokens: &[Token],
) -> Result<Names, AllocError>
    ensures { IfOk result (λ names. (name : List ℕ) → held names name ≡ with_given no_names (properties_view properties.now) (map some_value tokens.now) name) }
{
    let mut names = Names::new(alloc);
    for (index, property) in properties.iter().enumerate() {
        add_value(
            alloc,
            &mut names,
            name_of(property),
            token_in(tokens, index),
        )?;
    }
    Ok(names)
}

/// The tokens under the names of the parameters of an entity.
fn names_at(
    alloc: Global,
    properties: &[Property],
    values: &[EntityValues],
    number: usize,
) -> Result<Names, AllocError>
    ensures { IfOk result (λ names. (name : List ℕ) → held names name ≡ with_given no_names (properties_view properties.now) (given_of (slice_get values.now number)) name) }
{
    match values.get(number) {
        Some(own) => names_given(alloc, properties, &own.parameters),
        None => names_given(alloc, properties, &[]),
    }
}

/// The tokens under the names of the parameters of a transparent composite.
fn token_names_at(
    alloc: Global,
    properties: &[Property],
    tokens: &[Vec<Token>],
    number: usize,
) -> Result<Names, AllocError>
    ensures { IfOk result (λ names. (name : List ℕ) → held names name ≡ with_given no_names (properties_view properties.now) (values_of_tokens (slice_get tokens.now number)) name) }
{
    match tokens.get(number) {
        Some(own) => names_of_tokens(alloc, properties, own),
        None => names_of_tokens(alloc, properties, &[]),
    }
}

fn entity_frames(
    alloc: Global,
    entities: &[NetEntity],
    values: &[EntityValues],
) -> Result<Vec<Frame>, AllocError>
    ensures { IfOk result (λ frames. map frame_view frames.items ≡ entity_frames entities.now values.now) }
{
    let mut frames = Vec::with_capacity(alloc, entities.len())?;
    for (number, entity) in entities.iter().enumerate() {
        let names = names_at(alloc, &entity.parameters, values, number)?;
        frames.push(Frame {
            within: entity.within,
            parent: entity.parent,
            names,
        })?;
    }
    Ok(frames)
}

fn transparent_frames(
    alloc: Global,
    composites: &[Transparent],
    tokens: &[Vec<Token>],
) -> Result<Vec<Frame>, AllocError>
    ensures { IfOk result (λ frames. map frame_view frames.items ≡ transparent_frames composites.now tokens.now) }
{
    let mut frames = Vec::with_capacity(alloc, composites.len())?;
    for (number, composite) in composites.iter().enumerate() {
        let names = token_names_at(alloc, &composite.parameters, tokens, number)?;
        frames.push(Frame {
            within: composite.within,
            parent: composite.parent,
            names,
        })?;
    }
    Ok(frames)
}

impl Frames {
    /// The frames of a net.
    pub fn of(alloc: Global, net: &Net, values: &Values) -> Result<Frames, AllocError>
        ensures { IfOk result (λ frames. frames_view frames ≡ frames_of net.now values.now) }
    {
        Ok(Frames {
            entities: entity_frames(alloc, &net.entities, &values.entities)?,
            transparent: transparent_frames(alloc, &net.transparent, &values.transparent)?,
        })
    }

    /// The innermost composite.
    fn innermost(&self, within: Option<u32>, parent: Option<u32>) -> Option<&Frame>
        ensures { option_map (λ f. frame_view f.now) result ≡ innermost (frames_view self.now) within parent }
    {
        match within {
            Some(transparent) => self.transparent.get(transparent as usize),
            None => match parent {
                Some(entity) => self.entities.get(entity as usize),
                None => None,
            },
        }
    }

    /// The token under a name in the nearest composite that has it, out over so many at most.
    fn seen_within(
        &self,
        levels: usize,
        within: Option<u32>,
        parent: Option<u32>,
        name: &str,
    ) -> Option<&Token>
        ensures { option_map (λ t. value_of t.now) result ≡ seen_within levels (frames_view self.now) within parent name.now }
    {
        if levels == 0 {
            return None;
        }
        match self.innermost(within, parent) {
            None => None,
            Some(frame) => match frame.names.get(name) {
                Some(token) => Some(token),
                None => self.seen_within(levels - 1, frame.within, frame.parent, name),
            },
        }
    }

    /// The token of the nearest parameter of a name.
    pub fn seen(&self, within: Option<u32>, parent: Option<u32>, name: &str) -> Option<&Token>
        ensures { option_map (λ t. value_of t.now) result ≡ seen (frames_view self.now) within parent name.now }
    {
        self.seen_within(MOST_LEVELS, within, parent, name)
    }
}
