//! The library actors of timed models: a class a module, and one enum of them all.
#![tactic(auto)]

mod arrivals;
mod boxed_items;
mod current_time;
mod discrete_clock;
mod examples;
mod latest;
mod laws;
mod pending;
mod period;
mod register;
mod sampler;
mod server;
mod signal;
mod single_event;
mod time_delay;
mod timed_actor;

pub use current_time::CurrentTime;
pub use discrete_clock::DiscreteClock;
pub use examples::timed_examples;
pub use laws::{
    actors_stay, delays_are_whole, delays_tell_early, needs_are_one, rows_are_lawful,
    strict_actors_wait,
};
pub use pending::Pending;
pub use period::Period;
pub use register::Register;
pub use sampler::Sampler;
pub use server::Server;
pub use single_event::SingleEvent;
pub use time_delay::TimeDelay;
pub use timed_actor::{Class, TimedActor};
