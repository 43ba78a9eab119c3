//! The library actors of synchronous and timed models: a class a module, and one enum of them all.
#![tactic(auto)]

mod absent;
mod current;
mod examples;
mod fallback;
mod laws;
mod merge;
mod non_strict_delay;
mod non_strict_logic_gate;
mod non_strict_mux;
mod pre;
mod signal;
mod time_actor;
mod when;

pub use absent::Absent;
pub use current::Current;
pub use examples::time_examples;
pub use fallback::Default;
pub use laws::{
    known_inputs_tell_the_step, needs_are_one, rows_are_lawful, signals_are_given,
    steady_actors_stay, strict_actors_wait,
};
pub use merge::Merge;
pub use non_strict_delay::NonStrictDelay;
pub use non_strict_logic_gate::{Gate, NonStrictLogicGate};
pub use non_strict_mux::NonStrictMux;
pub use pre::Pre;
pub use time_actor::{Class, TimeActor};
pub use when::When;
