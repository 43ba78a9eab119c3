//! The words of the command line.
#![tactic(auto)]

mod command;
mod fault;
mod line;
mod number;
mod parts;
mod reserved;

pub use fault::WordsFault;
pub use line::{Line, Task, lines_are_within, read, words_are_one_line};
