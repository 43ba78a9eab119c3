// Entities, which may have entities of their own.
ghost use Rattle.std.specs.Prelude.{◌≡◌, [], codes, map, option_map, IfOk};
ghost use Rattle.serde_json.specs.Find.{get};
ghost use Rattle.pt_json.specs.View.{view, items_view};
ghost use Rattle.pt_document.specs.Classes.{kind_view};
ghost use Rattle.pt_document.specs.Document.{entity, to_entities};
ghost use Rattle.pt_document.specs.Outcome.{Gives};
ghost use Rattle.pt_moml.specs.Rules as rules;
ghost use Rattle.pt_moml.specs.Reading.{entity_fields, kind_at, ports_field, relations_field, states_field, initial_field, wiring_at, machine_at, parts_at, own_at, entity_from, entity_at, entities_field, entity_items};
ghost use Rattle.pt_document.specs.View.{port_view, entity_view, entities_view};
ghost use Rattle.pt_moml.specs.StageView.{wiring_view, machine_view, own_view};

use crate::fields::{
    MOST_ROOM, Named, has_fields, list, list_or_empty, name_of, names_differ, required,
};
use crate::property::properties_of;
use crate::rules::parts_fit;
use pt_document::{
    Code, DocFault, Entity, Kind, Link, Port, Property, Relation, State, Transition, kind_named,
    path_below, refused,
};
use pt_json::Value;
use pt_value::Text;
use std::alloc::Global;

/// The ports of an entity and what joins those of its entities.
#[derive(Drop)]
struct Wiring {
    ports: Vec<Port>,
    relations: Vec<Relation>,
    links: Vec<Link>,
}

/// The states and transitions of a Modal entity.
#[derive(Drop)]
struct Machine {
    states: Vec<State>,
    initial: Option<Text>,
    transitions: Vec<Transition>,
}

/// What an entity has beside its entities.
#[derive(Drop)]
struct Own {
    name: Text,
    class: Text,
    properties: Vec<Property>,
    wiring: Wiring,
    machine: Machine,
}

impl Named for Entity {
    ghost use Rattle.std.specs.Prelude.{map, refl};
    ghost use Rattle.pt_document.specs.Document.{entity_name};
    ghost use Rattle.pt_document.specs.View.{entity_view, entities_view};

    ghost name = { λ e. entity_name (entity_view e) };

    ghost names = { λ es. map entity_name (entities_view es) };

    ghost of_none = { refl };

    ghost of_more = { λ e es. refl };

    fn name(&self) -> &str {
        self.name.as_str()
    }
}

/// The fields that an entity of this kind may have.
fn fields_of(kind: Kind) -> &'static [&'static str]
    ensures { map (λ k. k.now) result.now ≡ entity_fields (kind_view kind) }
{
    match kind {
        Kind::Composite => &[
            "name",
            "class",
            "properties",
            "ports",
            "entities",
            "relations",
            "links",
        ],
        Kind::Modal => &[
            "name",
            "class",
            "properties",
            "ports",
            "entities",
            "states",
            "initial",
            "transitions",
        ],
        Kind::Actor(class) => {
            if class.declares.is_some() {
                &["name", "class", "properties", "ports"]
            } else {
                &["name", "class", "properties"]
            }
        }
    }
}

fn kind_of(alloc: Global, here: &str, class: &str) -> Result<Kind, DocFault>
    ensures { Gives kind_view result (kind_at here.now class.now) }
{
    match kind_named(class) {
        Some(kind) => Ok(kind),
        None => Err(refused(alloc, Code::Class, here)),
    }
}

#[tactic(auto, unfolding(crate::specs::Reading::named))]
fn ports_of(alloc: Global, here: &str, field: Option<&Value>) -> Result<Vec<Port>, DocFault>
    ensures { Gives (λ v. map port_view v.items) result
        (ports_field here.now (option_map (λ v. view v.now) field.entry)) }
{
    let ports = list_or_empty(alloc, here, field)?;
    names_differ(alloc, here, &ports)?;
    Ok(ports)
}

#[tactic(auto, unfolding(crate::specs::Reading::named))]
fn relations_of(alloc: Global, here: &str, field: Option<&Value>) -> Result<Vec<Relation>, DocFault>
    ensures { Gives (λ v. v.items) result
        (relations_field here.now (option_map (λ v. view v.now) field.entry)) }
{
    let relations = list_or_empty(alloc, here, field)?;
    names_differ(alloc, here, &relations)?;
    Ok(relations)
}

#[tactic(auto, unfolding(crate::specs::Reading::states_field, crate::specs::Reading::named))]
fn states_of(
    alloc: Global,
    here: &str,
    kind: Kind,
    field: Option<&Value>,
) -> Result<Vec<State>, DocFault>
    ensures { Gives (λ v. v.items) result
        (states_field here.now (kind_view kind) (option_map (λ v. view v.now) field.entry)) }
{
    match kind {
        Kind::Modal => {
            let states = list(alloc, here, field)?;
            names_differ(alloc, here, &states)?;
            Ok(states)
        }
        _ => Ok(Vec::new(alloc)),
    }
}

#[tactic(auto, unfolding(crate::specs::Reading::initial_field))]
fn initial_of(
    alloc: Global,
    here: &str,
    kind: Kind,
    field: Option<&Value>,
) -> Result<Option<Text>, DocFault>
    ensures { Gives (λ t. t) result
        (initial_field here.now (kind_view kind) (option_map (λ v. view v.now) field.entry)) }
{
    match kind {
        Kind::Modal => Ok(Some(required(alloc, here, field)?)),
        _ => Ok(None),
    }
}

#[tactic(auto, unfolding(crate::specs::Reading::wiring_at))]
fn wiring_of(alloc: Global, here: &str, value: &Value) -> Result<Wiring, DocFault>
    ensures { Gives wiring_view result (wiring_at here.now (view value.now)) }
{
    let ports = ports_of(alloc, here, value.get("ports"))?;
    let relations = relations_of(alloc, here, value.get("relations"))?;
    let links = list_or_empty(alloc, here, value.get("links"))?;
    Ok(Wiring {
        ports,
        relations,
        links,
    })
}

#[tactic(auto, unfolding(crate::specs::Reading::machine_at))]
fn machine_of(alloc: Global, here: &str, kind: Kind, value: &Value) -> Result<Machine, DocFault>
    ensures { Gives machine_view result (machine_at here.now (kind_view kind) (view value.now)) }
{
    let states = states_of(alloc, here, kind, value.get("states"))?;
    let initial = initial_of(alloc, here, kind, value.get("initial"))?;
    let transitions = list_or_empty(alloc, here, value.get("transitions"))?;
    Ok(Machine {
        states,
        initial,
        transitions,
    })
}

/// What an entity of this name and class has beside its entities.
fn parts_of(
    alloc: Global,
    here: &str,
    name: Text,
    class: Text,
    kind: Kind,
    value: &Value,
) -> Result<Own, DocFault>
    ensures { Gives own_view result
        (parts_at here.now name class (kind_view kind) (view value.now)) }
{
    has_fields(alloc, here, value, fields_of(kind))?;
    let properties = properties_of(alloc, here, value.get("properties"))?;
    let wiring = wiring_of(alloc, here, value)?;
    let machine = machine_of(alloc, here, kind, value)?;
    Ok(Own {
        name,
        class,
        properties,
        wiring,
        machine,
    })
}

/// The same parts, if their properties and ports are as the kind wants them.
fn fitting(alloc: Global, here: &str, kind: Kind, own: Own) -> Result<Own, DocFault>
    ensures rules { Gives (λ _. tt) result
        (rules.parts_fit here.now (kind_view kind) (own_view own).properties (own_view own).ports) }
    ensures same { IfOk result (λ same. own_view same ≡ own_view own) }
{
    match parts_fit(alloc, here, kind, &own.properties, &own.wiring.ports) {
        Ok(()) => Ok(own),
        Err(fault) => {
            drop(own);
            Err(fault)
        }
    }
}

/// What an entity of this name has beside its entities, as its class wants it.
#[tactic(auto, unfolding(crate::specs::Reading::own_at))]
fn own_of(alloc: Global, here: &str, name: Text, value: &Value) -> Result<Own, DocFault>
    ensures { Gives own_view result (own_at here.now name (view value.now)) }
{
    let class = required(alloc, here, value.get("class"))?;
    let kind = kind_of(alloc, here, class.as_str())?;
    let own = parts_of(alloc, here, name, class, kind, value)?;
    fitting(alloc, here, kind, own)
}

fn with_entities(own: Own, entities: Vec<Entity>) -> Entity
    ensures { entity_view result
        ≡ entity (own_view own) (to_entities (entities_view entities.items)) }
{
    Entity {
        name: own.name,
        class: own.class,
        properties: own.properties,
        ports: own.wiring.ports,
        entities,
        relations: own.wiring.relations,
        links: own.wiring.links,
        states: own.machine.states,
        initial: own.machine.initial,
        transitions: own.machine.transitions,
    }
}

#[cycle(entities)]
fn entity_of(alloc: Global, path: &str, value: &Value) -> Result<Entity, DocFault>
    ensures { Gives entity_view result (entity_at path.now (view value.now)) }
{
    let name = name_of(alloc, path, value.get("name"))?;
    let here = path_below(alloc, path, name.as_str())?;
    entity_of_name(alloc, here.as_str(), name, value)
}

/// The entity of this path and name.
#[cycle(entities)]
pub fn entity_of_name(
    alloc: Global,
    here: &str,
    name: Text,
    value: &Value,
) -> Result<Entity, DocFault>
    ensures { Gives entity_view result
        (entity_from here.now name (view value.now) (entities_field here.now (get (codes "entities") (view value.now)))) }
{
    let own = own_of(alloc, here, name, value)?;
    match entities_of(alloc, here, value.get("entities")) {
        Ok(entities) => Ok(with_entities(own, entities)),
        Err(fault) => {
            drop(own);
            Err(fault)
        }
    }
}

#[cycle(entities)]
#[tactic(auto, unfolding(crate::specs::Reading::entities_in, crate::specs::Reading::named))]
fn entities_of(alloc: Global, here: &str, field: Option<&Value>) -> Result<Vec<Entity>, DocFault>
    ensures { Gives (λ v. entities_view v.items) result
        (entities_field here.now (option_map (λ v. view v.now) field.entry)) }
{
    match field {
        Some(Value::Array(items)) => {
            let entities = read_entities(alloc, here, items)?;
            names_differ(alloc, here, &entities)?;
            Ok(entities)
        }
        Some(_) => Err(refused(alloc, Code::Shape, here)),
        None => Ok(Vec::new(alloc)),
    }
}

#[cycle(entities)]
fn read_entities(alloc: Global, here: &str, items: &[Value]) -> Result<Vec<Entity>, DocFault>
    ensures { Gives (λ v. entities_view v.items) result
        (entity_items here.now [] (items_view items.now)) }
{
    let mut found = Vec::with_capacity(alloc, items.len().min(MOST_ROOM))?;
    for item in items {
        found.push(entity_of(alloc, here, item)?)?;
    }
    Ok(found)
}
