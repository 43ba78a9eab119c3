// Parts that the entities of a generated model are made of.
ghost use Rattle.std.specs.Prelude.{◌≡◌, [], ◌∷◌, map, IfOk};
ghost use Rattle.pt_document.specs.View.{property_view, properties_view, port_view, entity_view, entities_view};
ghost use Rattle.pt_gen.specs.Generated as generated;

use pt_document::{Direction, Entity, Link, Port, Property, Relation};
use pt_value::Text;
use std::alloc::{AllocError, Global};

/// A text with a number behind it.
pub fn numbered(alloc: Global, text: &str, number: u32) -> Result<Text, AllocError>
    ensures { IfOk result (λ t. t ≡ generated.numbered text.now number) }
{
    let whole = format!(in alloc; "{text}{number}")?;
    Text::of(alloc, whole.as_str())
}

/// A parameter with the text of its value.
pub fn parameter(alloc: Global, name: &str, value: &str) -> Result<Property, AllocError>
    ensures { IfOk result (λ p. property_view p ≡ generated.parameter name.now value.now) }
{
    let name = Text::of(alloc, name)?;
    let value = Text::of(alloc, value)?;
    Ok(Property {
        name,
        value: Some(value),
        class: None,
        properties: Vec::new(alloc),
    })
}

/// A director of this class, without parameters, as the one property of its composite.
fn directors(alloc: Global, class: &str) -> Result<Vec<Property>, AllocError>
    ensures { IfOk result (λ ps. properties_view ps.items ≡ generated.director class.now ∷ []) }
{
    let name = Text::of(alloc, "director")?;
    let class = Text::of(alloc, class)?;
    let director = Property {
        name,
        value: None,
        class: Some(class),
        properties: Vec::new(alloc),
    };
    Ok(vec![in alloc; director]?)
}

/// A port without a declared type.
pub fn port(alloc: Global, name: &str, direction: Direction) -> Result<Port, AllocError>
    ensures { IfOk result (λ p. port_view p ≡ generated.port name.now direction) }
{
    Ok(Port {
        name: Text::of(alloc, name)?,
        direction,
        declared: None,
        properties: Vec::new(alloc),
    })
}

/// A composite with a director of this class and nothing in it.
pub fn empty_composite(
    alloc: Global,
    name: Text,
    director: &str,
    ports: Vec<Port>,
) -> Result<Entity, AllocError>
    ensures { IfOk result (λ e. entity_view e
        ≡ generated.composite name (generated.director director.now ∷ []) (map port_view ports.items) [] [] []) }
{
    let class = Text::of(alloc, "Composite")?;
    let properties = directors(alloc, director)?;
    Ok(Entity {
        name,
        class,
        properties,
        ports,
        entities: Vec::new(alloc),
        relations: Vec::new(alloc),
        links: Vec::new(alloc),
        states: Vec::new(alloc),
        initial: None,
        transitions: Vec::new(alloc),
    })
}

/// What is in a composite.
#[derive(Drop)]
pub struct Inside {
    pub entities: Vec<Entity>,
    pub relations: Vec<Relation>,
    pub links: Vec<Link>,
}

/// The composite with this in it.
pub fn filled(empty: Entity, inside: Inside) -> Entity
    ensures { entity_view result
        ≡ generated.filled (entity_view empty) (entities_view inside.entities.items) inside.relations.items inside.links.items }
{
    Entity {
        entities: inside.entities,
        relations: inside.relations,
        links: inside.links,
        ..empty
    }
}

/// A library actor.
pub fn actor(
    alloc: Global,
    name: Text,
    class: &str,
    parameters: Vec<Property>,
) -> Result<Entity, AllocError>
    ensures { IfOk result (λ e. entity_view e
        ≡ generated.actor name class.now (properties_view parameters.items)) }
{
    match Text::of(alloc, class) {
        Ok(class) => Ok(Entity {
            name,
            class,
            properties: parameters,
            ports: Vec::new(alloc),
            entities: Vec::new(alloc),
            relations: Vec::new(alloc),
            links: Vec::new(alloc),
            states: Vec::new(alloc),
            initial: None,
            transitions: Vec::new(alloc),
        }),
        Err(fault) => {
            drop(parameters);
            Err(fault)
        }
    }
}
