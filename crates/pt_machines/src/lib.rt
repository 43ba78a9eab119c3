//! The machine of each Modal entity of a net, or one that has none, with the cause.
#![tactic(auto)]

mod actions;
mod chart;
mod children;
mod fault;
mod ground;
mod machine;
mod machines;
mod modals;
mod site;
mod texts;
mod transitions;

pub use fault::NetFault;
pub use machines::machines_in;
