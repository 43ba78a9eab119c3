ghost use Rattle.std.specs.Prelude.{IfOk};
ghost use Rattle.pt_typing.specs.Least.{assignment};
ghost use Rattle.pt_node.specs.Shown.{shown_node};
ghost use Rattle.pt_check.specs.Facts.{AreFacts};

use crate::children::put_children;
use crate::types::types_of;
use pt_facts::Facts;
use pt_net::Net;
use pt_node::Node;
use pt_typing::Typing;
use std::alloc::{AllocError, Global};

/// What a check tells of a net with these types and this tree of nodes. It takes time linear in the net, in the tree and in the types.
pub fn facts_of(alloc: Global, net: &Net, typing: &Typing, top: &Node) -> Result<Facts, AllocError>
    ensures { IfOk result (AreFacts net.now (assignment typing.now) (shown_node top.now)) }
{
    let mut repetitions = Vec::new(alloc);
    let mut depths = Vec::new(alloc);
    put_children(alloc, top, &mut repetitions, &mut depths)?;
    Ok(Facts {
        types: types_of(alloc, net, typing)?,
        repetitions,
        depths,
    })
}
