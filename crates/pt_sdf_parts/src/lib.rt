//! The parts of the core of SDF: its plan with tables, and what its calls do to the channels and to what is lent.
#![tactic(auto)]

mod feeds;
mod gathering;
mod lanes;
mod number;
mod numbers;
mod outlets;
mod plan;
mod rooms;
mod scattering;
mod skip;
mod tables;
mod turns;
mod unfed;

pub use feeds::Feed;
pub use gathering::{Span, gather, lighten};
pub use lanes::{Inlet, Lane, Outlet};
pub use number::{give_number, give_numbers, skip_inlet, skip_rows};
pub use numbers::{
    are_all_of_one, are_rows_of_one, first_numbers, make_room, numbers_in_front, put_on_each,
    rows_in_front,
};
pub use outlets::hand_out;
pub use plan::CorePlan;
pub use rooms::{fill_rooms, rooms_for};
pub use scattering::{copies_of, scatter};
pub use skip::skip_places;
pub use tables::{Tables, advance, copies_of_lists, empty_lists, fits_rates, make_ready, turns_of};
pub use turns::iterations;
pub use unfed::use_up;
