use pt_value::Text;

/// A parameter, a director with its parameters, or a Variable. One whose name begins with `_` is there for
/// graphical editors alone and has no meaning.
#[derive(Debug, Drop)]
pub struct Property {
    pub name: Text,
    pub value: Option<Text>,
    pub class: Option<Text>,
    pub properties: Vec<Property>,
}

/// Whether tokens come in or go out through a port.
#[derive(Clone, Copy, Debug, PartialEq, Eq)]
pub enum Direction {
    Input,
    Output,
}

/// A port that an entity declares, with the text of its declared type.
#[derive(Debug, Drop)]
pub struct Port {
    pub name: Text,
    pub direction: Direction,
    pub declared: Option<Text>,
    pub properties: Vec<Property>,
}

/// A relation, which joins the ports that are linked to it.
#[derive(Debug, Drop)]
pub struct Relation {
    pub name: Text,
}

/// A link of a port to a relation, or of two relations.
#[derive(Debug, Drop)]
pub enum Link {
    Port { port: Text, relation: Text },
    Relations { first: Text, second: Text },
}

/// A state of a Modal entity, with the name of its refinement.
#[derive(Debug, Drop)]
pub struct State {
    pub name: Text,
    pub refinement: Option<Text>,
}

/// What a transition gives on an output port.
#[derive(Debug, Drop)]
pub struct OutputAction {
    pub port: Text,
    pub value: Text,
}

/// What a transition writes into a Variable.
#[derive(Debug, Drop)]
pub struct SetAction {
    pub name: Text,
    pub value: Text,
}

/// A transition of a Modal entity.
#[derive(Debug, Drop)]
pub struct Transition {
    pub from: Text,
    pub to: Text,
    pub guard: Text,
    pub preemptive: bool,
    pub history: bool,
    pub output: Vec<OutputAction>,
    pub set: Vec<SetAction>,
}

/// An actor, a composite or a modal model.
#[derive(Debug, Drop)]
pub struct Entity {
    pub name: Text,
    pub class: Text,
    pub properties: Vec<Property>,
    pub ports: Vec<Port>,
    pub entities: Vec<Entity>,
    pub relations: Vec<Relation>,
    pub links: Vec<Link>,
    pub states: Vec<State>,
    pub initial: Option<Text>,
    pub transitions: Vec<Transition>,
}

/// A token that comes to the top at a time in ticks and a microstep.
#[derive(Debug, Drop)]
pub struct Event {
    pub time: u64,
    pub step: u64,
    pub value: Text,
}

/// What comes to an input port of the top: tokens in order, `None` for an absent one, or events.
#[derive(Debug, Drop)]
pub enum Supply {
    Tokens(Vec<Option<Text>>),
    Events(Vec<Event>),
}

/// The tokens of an input port of the top.
#[derive(Debug, Drop)]
pub struct Input {
    pub port: Text,
    pub supply: Supply,
}

/// A model, the tokens that come to it and the ports that are recorded.
#[derive(Debug, Drop)]
pub struct Job {
    pub model: Entity,
    pub inputs: Vec<Input>,
    pub records: Vec<Text>,
}
