//! What the library actors of dataflow have in common: parameters, port types, numbers and rates.
#![tactic(auto)]

mod limit;
mod needs;
mod number;
mod numbered;
mod params;
mod port_types;
mod rates;
mod type_table;

pub use limit::{Limit, is_called};
pub use needs::has_no_places;
pub use number::sum_between;
pub use numbered::Numbered;
pub use params::Params;
pub use port_types::PortTypes;
pub use rates::{factor_and_phase, first_list, push_copies, times_and_size};
