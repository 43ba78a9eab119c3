//! The parts of the core of the DE director: its plan, the wakes and turns of the children, the rows of the one that fires, and what comes to channels.
#![tactic(auto)]

mod agenda;
mod known;
mod net;
mod rows;
mod telling;
mod turns;

pub use agenda::Agenda;
pub use known::{own_outputs, partial_at};
pub use net::Net;
pub use rows::Rows;
pub use telling::tell_reader;
pub use turns::Turns;
