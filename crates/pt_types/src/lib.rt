//! The types of what passes at a port: their order, their joins, and the least types that meet given rules.
#![tactic(auto)]

mod due;
mod element;
mod laws;
mod printed;
mod readers;
mod record;
mod rules;
mod token;
mod ty;

pub use element::ElementTy;
pub use laws::{joins_are_least, parts_stand_for_types, types_are_ordered, types_grow};
pub use printed::print;
pub use record::{FieldTy, RecordTy};
pub use rules::{Rule, least};
pub use token::{is_of, type_of_token};
pub use ty::{Ty, below, join};
