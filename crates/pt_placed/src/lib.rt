//! Laws of the needs of a net: what each entity of a net in order needs at its start is a count for each of its places. Each is the contract of a public function, which has no code.
#![tactic(auto)]

mod laws;

pub use laws::{
    actors_are_counted, actors_are_not_over, actors_are_placed, composites_are_counted,
    composites_are_met, composites_are_wired, trees_are_counted, trees_are_placed,
};
