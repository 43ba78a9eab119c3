//! What the text of a parameter comes to: in which scope, and in which form.
#![tactic(auto)]

mod agreement;
mod evaluation;
mod giving;
mod reading;

pub use agreement::Parameters;
pub use evaluation::evaluated;
pub use giving::{given, tree};
