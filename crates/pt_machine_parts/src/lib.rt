//! The parts of a Modal entity that its machine is made of, looked up by their names, or the cause for which they don't fit.
#![tactic(auto)]

mod children;
mod claims;
mod fault;
mod initial;
mod modal;
mod modes;
mod names;
mod numbers;
mod ports;
mod typed;

pub use children::check_children;
pub use fault::ModalFault;
pub use initial::initial_of;
pub use modal::{ModalEntity, Own, OwnPorts};
pub use modes::modes_of;
pub use numbers::{Numbers, short_number};
pub use ports::all_ports;
pub use typed::{typed_along, typed_variables};
