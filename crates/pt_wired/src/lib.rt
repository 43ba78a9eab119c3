//! How the channels of a composite run round its children: what each needs at its places, whether the wiring fits them, which may give an early answer, and in which order few of them wait.
#![tactic(auto)]

mod needs;
mod nonstrict;
mod order;
mod outputs;
mod wired;

pub use needs::needs_of;
pub use nonstrict::nonstrict_of;
pub use order::order_of;
pub use outputs::outputs_of;
pub use wired::is_wired;
