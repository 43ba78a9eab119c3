//! Laws of the net of a document: what the builder of trees needs of it is there. Each is the contract of a public function, which has no code.
#![tactic(auto)]

mod laws;

pub use laws::{
    channels_begin_at_outputs, children_are_steady, composites_are_directed,
    composites_have_channels, directed_nets_are_in_order, directors_are_of_composites,
    entities_are_shallow, tops_are_there, tops_have_iterations,
};
