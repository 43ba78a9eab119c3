//! The library actors of dataflow that compute with numbers, a class a module.
#![tactic(auto)]

mod absolute_value;
mod accumulator;
mod add_subtract;
mod counter;
mod exact_sum;
mod extreme;
mod multiply_divide;
mod ramp;
mod scale;

pub use absolute_value::AbsoluteValue;
pub use accumulator::Accumulator;
pub use add_subtract::AddSubtract;
pub use counter::Counter;
pub use extreme::{Extreme, Side};
pub use multiply_divide::MultiplyDivide;
pub use ramp::Ramp;
pub use scale::Scale;
