//! The inside of each composite of a net: its children, how many places each has, and where each channel begins.
#![tactic(auto)]

mod children;
mod inside;
mod numbers;
mod ports;
mod source;

pub use inside::Insides;
pub use numbers::Numbers;
pub use ports::port_numbers;
pub use source::{Source, Sources, number_at};
