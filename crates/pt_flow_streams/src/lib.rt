//! The library actors of dataflow that pass, choose, delay and repeat tokens, and the sources of given tokens, a class a module.
#![tactic(auto)]

mod boolean_select;
mod boolean_switch;
mod constant;
mod down_sample;
mod repeat;
mod sample_delay;
mod sequence;
mod up_sample;

pub use boolean_select::{BooleanSelect, Turn};
pub use boolean_switch::BooleanSwitch;
pub use constant::Const;
pub use down_sample::DownSample;
pub use repeat::Repeat;
pub use sample_delay::SampleDelay;
pub use sequence::Sequence;
pub use up_sample::UpSample;
