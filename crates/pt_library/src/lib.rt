//! The library actors: those of each library, in one enum.
#![tactic(auto)]

mod integers;
mod laws;
mod library_actor;

pub use laws::{
    any_needs_stay, classes_are_of_one_library, delays_are_whole, delays_stay, delays_tell_early,
    places_stay, rates_are_counts, rates_are_given, rows_are_lawful, steady_needs_are_counts,
    told_actors_are_steady, told_actors_are_strict,
};
pub use library_actor::LibraryActor;
