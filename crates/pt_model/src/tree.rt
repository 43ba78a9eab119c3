ghost use Rattle.std.specs.Prelude.{◌≡◌, IfOk, IfErr};
ghost use Rattle.pt_typing.specs.Least.{assignment};
ghost use Rattle.pt_trees.specs.Fresh.{IsFresh};
ghost use Rattle.pt_node.specs.declared.node.Node.{out-Node};
ghost use Rattle.pt_node.specs.declared.body.Body.TheVariants.{Composite};
ghost use Rattle.pt_node.specs.Shown.{shown_node};
ghost use Rattle.pt_node.specs.View.{node_of};
ghost use Rattle.pt_trees.specs.Trees.{IsTree};
ghost use Rattle.pt_trees.specs.Built.{IsBuilt};
ghost use Rattle.pt_order.specs.Laws.{IsNetOfDocument};
ghost use Rattle.pt_elaboration.specs.Begun.{starts_in};
ghost use Rattle.pt_elaboration.specs.Resolved.{IsStarted};
ghost use Rattle.pt_elaboration.specs.Refused.{FaultStands};
ghost use Rattle.pt_model.specs.Model.{IsCompositeBody};

use pt_build::build;
use pt_directors::Director;
use pt_document::DocFault;
use pt_elaboration::Started;
use pt_net::Net;
use pt_node::{Body, Node};
use pt_stated::{processes_are_stated, stated_is_lawful};
use pt_trees::BuildFault;
use std::alloc::Global;

/// The tree of a net whose entities start as these.
pub(crate) fn tree_of(alloc: Global, net: &Net, started: &Started) -> Result<Node, DocFault>
    requires document { IsNetOfDocument net.now }
    requires started { IsStarted net.now started.now.values (assignment started.now.typing) (starts_in started.now) }
    ensures tree { IfOk result (λ node. IsTree net.now (starts_in started.now) 0 (node_of (shown_node node))) }
    ensures built { IfOk result (λ node. IsBuilt net.now (starts_in started.now) 0 (shown_node node)) }
    ensures fresh { IfOk result (λ node. IsFresh (shown_node node)) }
    ensures stands { IfErr result (FaultStands net.now) }
{
    stated_is_lawful();
    processes_are_stated();
    match build(
        alloc,
        net,
        &started.starts,
        &started.stated,
        &started.machines,
    ) {
        Ok(top) => Ok(top),
        Err(BuildFault::Refused(refusal)) => Err(DocFault::Refused(refusal)),
        Err(BuildFault::Unbuilt) => unreachable!(),
        Err(BuildFault::Memory) => Err(DocFault::Memory),
    }
}

/// The director of a composite.
pub(crate) fn director_of(node: &Node) -> &Director
    requires { IsCompositeBody (out-Node node.now).body }
    ensures { (out-Node node.now).body ≡ Composite result.now }
{
    match &node.body {
        Body::Composite(director) => director.get(),
        Body::Actor(_) => unreachable!(),
    }
}
