ghost use Rattle.std.specs.Prelude.{◌≡◌, map, option_map, true};
ghost use Rattle.pt_document.specs.Classes.{class_of, class_in, class_row, director_of, director_in, director_row, kind_view, kind_of, classes, directors};
ghost use Rattle.pt_document.specs.Names.{are_distinct};

use crate::job::Direction;
use crate::tables::{CLASSES, DIRECTORS};

/// How many channels a port has.
#[derive(Clone, Copy, Debug, PartialEq, Eq)]
pub enum Arity {
    /// One.
    Single,
    /// One or none.
    Optional,
    /// One or more.
    Many,
    /// Any number.
    ManyOrNone,
}

/// Whether a parameter has to be given.
#[derive(Clone, Copy, Debug, PartialEq, Eq)]
pub enum Need {
    Optional,
    Required,
    RequiredAtTop,
}

#[derive(Clone, Copy, Debug, PartialEq, Eq)]
pub enum Director {
    Sdf,
    Pn,
    Rendezvous,
    Sr,
    De,
}

/// A port of a class, with a name of type `N`.
#[derive(Clone, Copy, Debug)]
pub struct PortRow<N> {
    pub name: N,
    pub direction: Direction,
    pub arity: Arity,
}

/// A parameter of a class. The value of a raw one is a text of its own form and no expression.
#[derive(Clone, Copy, Debug)]
pub struct ParameterRow<N> {
    pub name: N,
    pub need: Need,
    pub is_raw: bool,
}

/// A class of library actors: the ports that are there and those that its entities declare, the least number
/// of channels to its inputs together, its parameters, and the directors under which it may stand.
#[derive(Debug)]
pub struct ClassRow<N, P, Q, D> {
    pub name: N,
    pub ports: P,
    /// The direction of declared ports, where an entity may declare ports.
    pub declares: Option<Direction>,
    /// Whether an entity declares one port at least.
    pub is_declaring: bool,
    pub least_channels: u8,
    pub parameters: Q,
    pub directors: D,
}

/// A director, by the class of its property, with its parameters.
#[derive(Clone, Copy, Debug)]
pub struct DirectorRow<N, Q> {
    pub name: N,
    pub director: Director,
    pub parameters: Q,
}

pub type ClassPort = PortRow<&'static str>;

pub type ClassParameter = ParameterRow<&'static str>;

pub type Class = ClassRow<
    &'static str,
    &'static [ClassPort],
    &'static [ClassParameter],
    &'static [Director],
>;

pub type DirectorClass = DirectorRow<&'static str, &'static [ClassParameter]>;

/// What an entity of a class is.
#[derive(Clone, Copy, Debug)]
pub enum Kind {
    Composite,
    Modal,
    Actor(&'static Class),
}

fn class_among(rows: &'static [Class], name: &str) -> Option<&'static Class>
    ensures { option_map (λ c. class_of c.now) result ≡ class_in (map class_of rows.now) name.now }
{
    for row in rows {
        if row.name == name {
            return Some(row);
        }
    }
    None
}

/// The class of library actors that has this name.
#[tactic(auto, unfolding(crate::specs::Classes::class_row, crate::specs::Classes::classes))]
pub fn class_named(name: &str) -> Option<&'static Class>
    ensures { option_map (λ c. class_of c.now) result ≡ class_row name.now }
{
    class_among(&CLASSES, name)
}

fn director_among(rows: &'static [DirectorClass], name: &str) -> Option<&'static DirectorClass>
    ensures { option_map (λ c. director_of c.now) result
        ≡ director_in (map director_of rows.now) name.now }
{
    for row in rows {
        if row.name == name {
            return Some(row);
        }
    }
    None
}

/// The director whose properties have this class.
#[tactic(auto, unfolding(crate::specs::Classes::director_row, crate::specs::Classes::directors))]
pub fn director_named(name: &str) -> Option<&'static DirectorClass>
    ensures { option_map (λ c. director_of c.now) result ≡ director_row name.now }
{
    director_among(&DIRECTORS, name)
}

/// A law of the tables: each class has a name of its own, and so has each director.
#[tactic(auto, unfolding(crate::specs::Classes::classes, crate::specs::Classes::directors))]
pub fn rows_have_names_of_their_own()
    ensures classes { are_distinct (map (λ c. c.name) classes) ≡ true }
    ensures directors { are_distinct (map (λ d. d.name) directors) ≡ true }
{}

/// What an entity of this class is, if there is such a class.
#[tactic(auto, unfolding(crate::specs::Classes::kind_of))]
pub fn kind_named(class: &str) -> Option<Kind>
    ensures { option_map kind_view result ≡ kind_of class.now }
{
    match class {
        "Composite" => Some(Kind::Composite),
        "Modal" => Some(Kind::Modal),
        _ => Some(Kind::Actor(class_named(class)?)),
    }
}
