use crate::port_types::PortTypes;
use pt_firing::{Ports, Values};
use pt_language::Expr;
use pt_value::Text;

/// What an actor is started from: its class, its evaluated parameters, the number of channels of each port, and the ports' types.
///
/// For an Expression there is a tree, and among the values are the parameters in the scope of the tree. The types matter to it alone.
#[derive(Drop)]
pub struct Params {
    pub class: Text,
    pub values: Values,
    pub ports: Ports,
    pub types: PortTypes,
    pub tree: Option<Expr>,
}
