//! What the texts of a net come to in their scopes: what the program holds of it, the forms of parameters, and the laws.
#![tactic(auto)]

mod fault;
mod form;
mod forms;
mod laws;
mod names;
mod parameter_value;
mod port_names;
mod scope;
mod scopes;
mod tables;
mod tree_names;
mod values;

pub use fault::TextFault;
pub use form::{Form, FormRow, ParameterForm, Standard};
pub use forms::{fits, form_of, standard_of};
pub use laws::{nets_are_ordered, valued_nets_are_clean, values_are_unique};
pub use names::Names;
pub use parameter_value::ParameterValue;
pub use port_names::PortNames;
pub use scope::Seen;
pub use scopes::{Inside, Scopes};
pub use tables::{FORMS, RATE};
pub use tree_names::names_of;
pub use values::{EntityValues, Values, name_of};
