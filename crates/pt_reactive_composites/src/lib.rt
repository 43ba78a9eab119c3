//! The composites of SR and DE, which react at a tag.
#![tactic(auto)]

mod de;
mod sr;

pub use de::de_composite;
pub use sr::sr_composite;
