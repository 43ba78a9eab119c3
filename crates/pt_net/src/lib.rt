//! The net of a document, as the program holds it, and what its channels are.
#![tactic(auto)]

mod net;
mod path_text;
mod wire;

pub use net::{Channel, End, Joint, JointPort, Net, NetDirector, NetEntity, NetPort, Transparent};
pub use path_text::shown;
pub use wire::Wire;
