//! Laws of the tree that is built from the net of a job: each entity has one node. Each is the contract of a public function, which has no code.
#![tactic(auto)]

mod laws;

pub use laws::{
    actors_of_documents_are_leaves, nets_are_nested, paths_are_distinct, ports_are_numbered,
    ports_have_places, texts_are_at_paths,
};
