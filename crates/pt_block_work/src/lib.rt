//! The firings of several iterations of an SDF top, child by child, where these take and give integers alone and no channel keeps a token.
#![tactic(auto)]

mod inputs;
mod offsets;
mod row;
mod work;

pub use offsets::offsets_of;
pub use row::Row;
pub use work::{clear, fire_all};
