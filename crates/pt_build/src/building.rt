ghost use Rattle.std.specs.Prelude.{IfOk, IfErr};
ghost use Rattle.pt_node.specs.Shown.{shown_node};
ghost use Rattle.pt_node.specs.View.{node_of};
ghost use Rattle.pt_trees.specs.Fresh.{IsFresh};
ghost use Rattle.pt_trees.specs.Trees.{IsTree, AreStarted};
ghost use Rattle.pt_trees.specs.Built.{IsBuilt, BuildFaultStands};
ghost use Rattle.pt_builder.specs.Starts.{starts_of};

use crate::nodes::top;
use pt_builder::Builder;
use pt_chart::Written;
use pt_library::LibraryActor;
use pt_net::Net;
use pt_node::Node;
use pt_stated::Stated;
use pt_trees::BuildFault;
use std::alloc::Global;

/// The tree of a net at its start, whose library actors start as these, whose process networks state these, and whose Modal entities have these machines, by the numbers of their entities.
pub fn build(
    alloc: Global,
    net: &Net,
    starts: &[Option<LibraryActor>],
    stated: &[Option<Stated>],
    machines: &[Option<Written>],
) -> Result<Node, BuildFault>
    requires { AreStarted (starts_of starts.now stated.now machines.now) }
    ensures tree { IfOk result (λ node. IsTree net.now (starts_of starts.now stated.now machines.now) 0 (node_of (shown_node node))) }
    ensures built { IfOk result (λ node. IsBuilt net.now (starts_of starts.now stated.now machines.now) 0 (shown_node node)) }
    ensures fresh { IfOk result (λ node. IsFresh (shown_node node)) }
    ensures stands { IfErr result (BuildFaultStands net.now (starts_of starts.now stated.now machines.now)) }
{
    let builder = Builder::of(alloc, net, starts, stated, machines)?;
    top(alloc, &builder)
}
