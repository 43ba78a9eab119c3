//! What the children of a composite give and start with: whether they are steady, their rates, what they need at their start, and the first tokens of their channels.
#![tactic(auto)]

mod rates;
mod starts;
mod steady;
mod tokens;

pub use rates::rates_of;
pub use starts::starts_of;
pub use steady::are_steady;
pub use tokens::{first_counts, first_lists, first_tokens};
