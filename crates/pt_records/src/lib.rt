//! What an engine keeps of each path beside the state of its nodes, and how it grows with the log of the meaning: laws alone.
#![tactic(auto)]

mod counts;
mod growth;
mod shut;
mod so_far;

pub use counts::{counts_grow, numbers_go_on, stays_wired};
pub use growth::{children_grow, meetings_by_example, nodes_grow};
pub use shut::{middles_are_shut, pauses_are_shut, runs_are_shut, steps_are_shut};
pub use so_far::{
    sdf_is_done, sdf_is_left_off, sdf_is_left_off_within, sdf_is_stuck, sdf_is_unrated,
    so_far_begins, so_far_goes_on,
};
