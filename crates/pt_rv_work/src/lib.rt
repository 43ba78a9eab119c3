//! What the processes of a core of the Rendezvous director do, one by one, makes its calls and its meetings. Laws alone.
#![tactic(auto)]

mod laws;

pub use laws::{barriers_are_seen, meetings_are_seen, processes_are_seen};
