//! What a builder of trees is told of each entity of a net: its start, its wiring and labels, the channels within it, what is recorded of it, and what it states.
#![tactic(auto)]

mod entities;
mod labels;
mod machines;
mod networks;
mod numbering;
mod records;
mod wiring;
mod within;

pub use entities::{director_of, entity_in, is_undirected, start_in};
pub use labels::labels_of;
pub use machines::machine_at;
pub use networks::{declared_of, stated_at};
pub use numbering::{numbers_at, record_lists};
pub use records::records_of;
pub use wiring::{inputs_of, narrow_sources, outputs_of};
pub use within::{Within, within_all, within_at};
