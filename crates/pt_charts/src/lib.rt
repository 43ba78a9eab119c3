//! The guards and actions of Modal entities: what they may name, what they read as, and which can't be read.
#![tactic(auto)]

mod charts;
mod modal_scope;
mod modal_texts;
mod readable;

pub use charts::{Chart, charts_of};
pub use modal_scope::ModalScope;
pub use modal_texts::{ActionTree, TransitionTrees};
pub use readable::{readable_texts_are_clean, unreadable};
