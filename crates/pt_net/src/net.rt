use pt_document::{Input, Port, Property, State, Transition};
use pt_value::Text;

/// One end of a channel: a port of an entity, and the number of the channel among those that end there. It is 0 at the
/// end where tokens come from.
#[derive(Clone, Copy, Debug, PartialEq, Eq)]
pub struct End {
    pub entity: u32,
    pub port: u32,
    pub index: u32,
}

/// A channel from a source to a place, in the composite round both.
#[derive(Clone, Copy, Debug, PartialEq, Eq)]
pub struct Channel {
    pub composite: u32,
    pub from: End,
    pub to: End,
}

/// A port of an entity of the net.
#[derive(Clone, Copy, Debug, PartialEq, Eq)]
pub struct NetPort {
    pub entity: u32,
    pub port: u32,
}

/// A port that links join. A transparent composite has its number among those.
#[derive(Clone, Copy, Debug, PartialEq, Eq)]
pub enum JointPort {
    Entity { entity: u32, port: u32 },
    Transparent { composite: u32, port: u32 },
}

/// What a link joins: a port and a relation, or two relations, which are numbered in the order of the document. An input
/// takes tokens from a relation outside and gives them to one inside, an output the other way round.
#[derive(Clone, Copy, Debug, PartialEq, Eq)]
pub enum Joint {
    Takes { port: JointPort, relation: u32 },
    Gives { port: JointPort, relation: u32 },
    Bond { first: u32, second: u32 },
}

/// The director of an opaque composite, by the class of its property.
#[derive(Debug, Drop)]
pub struct NetDirector {
    pub class: Text,
    pub parameters: Vec<Property>,
}

/// A library actor or an opaque composite. `parent` is the composite round it. Where it stands in a transparent
/// composite, `within` is the number of that one.
#[derive(Debug, Drop)]
pub struct NetEntity {
    pub path: Text,
    pub class: Text,
    pub director: Option<NetDirector>,
    pub parent: Option<u32>,
    pub within: Option<u32>,
    pub ports: Vec<Port>,
    pub parameters: Vec<Property>,
    pub variables: Vec<Property>,
    pub states: Vec<State>,
    pub initial: Option<Text>,
    pub transitions: Vec<Transition>,
}

/// A transparent composite, which only joins what is outside with what is inside. No channel ends at its ports; a type
/// that one declares holds of what passes there. Its parameters are in the scope of all that is in it. `parent` and
/// `within` are as in a [`NetEntity`].
#[derive(Debug, Drop)]
pub struct Transparent {
    pub path: Text,
    pub parent: Option<u32>,
    pub within: Option<u32>,
    pub ports: Vec<Port>,
    pub parameters: Vec<Property>,
}

/// A model as its library actors and opaque composites, in the order of the document with the top first, and the
/// channels between their ports. The channels of each composite are in the order of their numbers. `joints` has what each
/// link joins, in the order of the document, and `recorded` the port that each text of `records` names.
#[derive(Debug, Drop)]
pub struct Net {
    pub entities: Vec<NetEntity>,
    pub transparent: Vec<Transparent>,
    pub channels: Vec<Channel>,
    pub relation_count: u32,
    pub joints: Vec<Joint>,
    pub inputs: Vec<Input>,
    pub records: Vec<Text>,
    pub recorded: Vec<NetPort>,
}
