ghost use Rattle.std.specs.Prelude.{◌≡◌, ◌++◌, [], ◌∷◌, map, filter, IfOk, OnOk};
ghost use Rattle.pt_document.specs.View as view;
ghost use Rattle.pt_net.specs.Net as net;

use crate::copied::copies;
use pt_document::{
    Event, Input, OutputAction, Port, Property, SetAction, State, Supply, Transition, is_layout,
};
use pt_value::Text;
use std::alloc::{AllocError, Global};

/// The same text.
pub fn text(alloc: Global, old: &Text) -> Result<Text, AllocError>
    ensures { IfOk result (λ new. new ≡ old.now) }
{
    old.copy(alloc)
}

/// The same text, if there is one.
pub fn optional_text(alloc: Global, old: &Option<Text>) -> Result<Option<Text>, AllocError>
    ensures { IfOk result (λ new. new ≡ old.now) }
{
    match old {
        Some(old) => Ok(Some(text(alloc, old)?)),
        None => Ok(None),
    }
}

/// The same texts.
pub fn texts(alloc: Global, old: &[Text]) -> Result<Vec<Text>, AllocError>
    ensures { IfOk result (λ new. new.items ≡ old.now) }
{
    copies(alloc, old)
}

/// What a property says, but for the properties in it.
#[derive(Drop)]
struct Saying {
    name: Text,
    value: Option<Text>,
    class: Option<Text>,
}

fn saying_of(
    alloc: Global,
    name: &Text,
    value: &Option<Text>,
    class: &Option<Text>,
) -> Result<Saying, AllocError>
    ensures name { IfOk result (λ new. new.name ≡ name.now) }
    ensures value { IfOk result (λ new. new.value ≡ value.now) }
    ensures class { IfOk result (λ new. new.class ≡ class.now) }
{
    Ok(Saying {
        name: text(alloc, name)?,
        value: optional_text(alloc, value)?,
        class: optional_text(alloc, class)?,
    })
}

pub fn property(alloc: Global, old: &Property) -> Result<Property, AllocError>
    ensures { IfOk result (λ new. view.property_view new ≡ view.property_view old.now) }
{
    let mut properties = Vec::with_capacity(alloc, old.properties.len())?;
    for inner in &old.properties {
        properties.push(property(alloc, inner)?)?;
    }
    match saying_of(alloc, &old.name, &old.value, &old.class) {
        Ok(saying) => Ok(Property {
            name: saying.name,
            value: saying.value,
            class: saying.class,
            properties,
        }),
        Err(fault) => {
            drop(properties);
            Err(fault)
        }
    }
}

fn is_parameter(old: &Property) -> bool
    ensures { result ≡ net.is_parameter (view.property_view old.now) }
{
    !is_layout(old.name.as_str()) && old.class.is_none()
}

fn is_variable(old: &Property) -> bool
    ensures { result ≡ net.is_variable (view.property_view old.now) }
{
    !is_layout(old.name.as_str())
        && old
            .class
            .as_ref()
            .is_some_and(|class| class.as_str() == "Variable")
}

/// The parameters among these properties.
pub fn parameters(alloc: Global, old: &[Property]) -> Result<Vec<Property>, AllocError>
    ensures { IfOk result (λ new. view.properties_view new.items ≡ filter net.is_parameter (view.properties_view old.now)) }
{
    let mut new = Vec::with_capacity(alloc, old.len())?;
    for item in old {
        if is_parameter(item) {
            new.push(property(alloc, item)?)?;
        }
    }
    Ok(new)
}

/// The Variables among these properties.
pub fn variables(alloc: Global, old: &[Property]) -> Result<Vec<Property>, AllocError>
    ensures { IfOk result (λ new. view.properties_view new.items ≡ filter net.is_variable (view.properties_view old.now)) }
{
    let mut new = Vec::new(alloc);
    for item in old {
        if is_variable(item) {
            new.push(property(alloc, item)?)?;
        }
    }
    Ok(new)
}

fn properties(alloc: Global, old: &[Property]) -> Result<Vec<Property>, AllocError>
    ensures { IfOk result (λ new. view.properties_view new.items ≡ view.properties_view old.now) }
{
    copies(alloc, old)
}

/// The same port.
pub fn port(alloc: Global, old: &Port) -> Result<Port, AllocError>
    ensures { IfOk result (λ new. view.port_view new ≡ view.port_view old.now) }
{
    Ok(Port {
        name: text(alloc, &old.name)?,
        direction: old.direction,
        declared: optional_text(alloc, &old.declared)?,
        properties: properties(alloc, &old.properties)?,
    })
}

/// The same states.
pub fn states(alloc: Global, old: &[State]) -> Result<Vec<State>, AllocError>
    ensures { IfOk result (λ new. new.items ≡ old.now) }
{
    copies(alloc, old)
}

fn output_actions(alloc: Global, old: &[OutputAction]) -> Result<Vec<OutputAction>, AllocError>
    ensures { IfOk result (λ new. new.items ≡ old.now) }
{
    copies(alloc, old)
}

fn set_actions(alloc: Global, old: &[SetAction]) -> Result<Vec<SetAction>, AllocError>
    ensures { IfOk result (λ new. new.items ≡ old.now) }
{
    copies(alloc, old)
}

/// The states that a transition joins, and its guard.
#[derive(Drop)]
pub struct Guarded {
    pub from: Text,
    pub to: Text,
    pub guard: Text,
}

pub fn guarded_of(alloc: Global, old: &Transition) -> Result<Guarded, AllocError>
    ensures from { IfOk result (λ new. new.from ≡ old.now.from) }
    ensures to { IfOk result (λ new. new.to ≡ old.now.to) }
    ensures guard { IfOk result (λ new. new.guard ≡ old.now.guard) }
{
    Ok(Guarded {
        from: text(alloc, &old.from)?,
        to: text(alloc, &old.to)?,
        guard: text(alloc, &old.guard)?,
    })
}

/// The actions of a transition.
#[derive(Drop)]
pub struct Actions {
    pub output: Vec<OutputAction>,
    pub set: Vec<SetAction>,
}

pub fn actions_of(alloc: Global, old: &Transition) -> Result<Actions, AllocError>
    ensures output { IfOk result (λ new. new.output.items ≡ old.now.output.items) }
    ensures set { IfOk result (λ new. new.set.items ≡ old.now.set.items) }
{
    Ok(Actions {
        output: output_actions(alloc, &old.output)?,
        set: set_actions(alloc, &old.set)?,
    })
}

/// The same transitions.
pub fn transitions(alloc: Global, old: &[Transition]) -> Result<Vec<Transition>, AllocError>
    ensures { IfOk result (λ new. map view.transition_view new.items ≡ map view.transition_view old.now) }
{
    copies(alloc, old)
}

fn tokens(alloc: Global, old: &[Option<Text>]) -> Result<Vec<Option<Text>>, AllocError>
    ensures { IfOk result (λ new. new.items ≡ old.now) }
{
    copies(alloc, old)
}

fn events(alloc: Global, old: &[Event]) -> Result<Vec<Event>, AllocError>
    ensures { IfOk result (λ new. new.items ≡ old.now) }
{
    copies(alloc, old)
}

pub fn supply(alloc: Global, old: &Supply) -> Result<Supply, AllocError>
    ensures { IfOk result (λ new. view.supply_view new ≡ view.supply_view old.now) }
{
    match old {
        Supply::Tokens(old) => Ok(Supply::Tokens(tokens(alloc, old)?)),
        Supply::Events(old) => Ok(Supply::Events(events(alloc, old)?)),
    }
}

/// The same inputs.
pub fn inputs(alloc: Global, old: &[Input]) -> Result<Vec<Input>, AllocError>
    ensures { IfOk result (λ new. map view.input_view new.items ≡ map view.input_view old.now) }
{
    copies(alloc, old)
}
