//! What a firing takes, gives and answers, and where one is stuck.
#![tactic(auto)]

mod actor;
mod answer;
mod ask;
mod fault;
mod gate;
mod inputs;
mod int_inputs;
mod int_rows;
mod names;
mod need;
mod one_each;
mod outputs;
mod params;
mod partial;
mod step;
mod strict;
mod tokens;

pub use actor::{Actor, Fires};
pub use answer::{Answer, Blocked, Place, Rows};
pub use ask::{Ask, Meeting};
pub use fault::RunFault;
pub use gate::{Gate, OpenGate};
pub use inputs::Inputs;
pub use int_inputs::IntInputs;
pub use int_rows::IntRows;
pub use names::Names;
pub use need::{Counts, Need};
pub use one_each::OneEach;
pub use outputs::Outputs;
pub use params::{Ports, Values};
pub use partial::{Partial, TriState};
pub use step::{Step, StepFault};
pub use strict::strict_early;
pub use tokens::{IntoTokens, Tokens};
