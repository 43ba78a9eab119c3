//! The library actors that compare, and that make and take apart arrays, records and texts: a class a module.
#![tactic(auto)]

mod array_element;
mod array_to_sequence;
mod comparator;
mod data_actor;
mod discard;
mod elements_to_array;
mod equals;
mod function;
mod laws;
mod limiter;
mod logic_function;
mod logical_not;
mod params;
mod places;
mod record_assembler;
mod record_disassembler;
mod reply;
mod sequence_to_array;
mod string_length;

pub use comparator::Relation;
pub use data_actor::DataActor;
pub use function::{Class, Function};
pub use laws::{
    needs_are_bounded, rates_are_bounded, rates_are_given, rows_are_lawful, steady_actors_stay,
};
pub use limiter::Limiter;
pub use logic_function::Gate;
