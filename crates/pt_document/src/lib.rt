//! A document as the program holds it: its job, the tables of classes and directors, names, and refusals.
#![tactic(auto)]

mod classes;
mod code;
mod job;
mod names;
mod refusal;
mod tables;
mod type_text;

pub use classes::{
    Arity, Class, ClassParameter, ClassPort, ClassRow, Director, DirectorClass, DirectorRow, Kind,
    Need, ParameterRow, PortRow, class_named, director_named, kind_named,
    rows_have_names_of_their_own,
};
pub use code::Code;
pub use job::{
    Direction, Entity, Event, Input, Job, Link, OutputAction, Port, Property, Relation, SetAction,
    State, Supply, Transition,
};
pub use names::{NameSet, is_layout, is_name, is_one_of, is_reserved, path_below, refused_below};
pub use refusal::{DocFault, Refusal, refused};
pub use tables::{CLASSES, DIRECTORS};
pub use type_text::{behind, is_field_name, is_type_text, leading_name};
