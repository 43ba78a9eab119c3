//! Laws of the library actors of a document's net: a library has the class of each, and each starts. They are the contracts of public functions, which have no code.
#![tactic(auto)]

mod laws;

pub use laws::{classes_are_of_libraries, library_actors_start};
