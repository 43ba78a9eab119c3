ghost use Rattle.std.specs.Prelude.{◌≡◌, IfOk, map};
ghost use Rattle.pt_meaning.specs.NodeFacts as facts;
ghost use Rattle.pt_process.specs.Process.{need_in, IsKept};
ghost use Rattle.pt_library.specs.LibraryActor.{rows};
ghost use Rattle.pt_node.specs.Shown.{shown, shown_node};
ghost use Rattle.pt_node.specs.View.{node_of};
ghost use Rattle.pt_trees.specs.Composite.{trees_of};
ghost use Rattle.pt_inside.specs.Kept.{AreKept};

use pt_firing::{Counts, Need};
use pt_node::Node;
use std::alloc::{AllocError, Global};

/// What a node needs now, or `None` where it is over. It doesn't wait for a token at any one place.
fn start_of(alloc: Global, node: &Node) -> Result<Option<Counts>, AllocError>
    requires { IsKept (facts.need_of rows (node_of (shown_node node.now))) }
    ensures { IfOk result (λ start. need_in start ≡ facts.need_of rows (node_of (shown_node node.now))) }
{
    match node.need() {
        Need::All(counts) => {
            let counts = counts.copy(alloc)?;
            Ok(Some(counts))
        }
        Need::Over => Ok(None),
        Need::Any => Ok(None),
    }
}

/// What each child needs now, where none waits for a token at any one place.
pub fn starts_of(alloc: Global, children: &[Node]) -> Result<Vec<Option<Counts>>, AllocError>
    requires { AreKept (trees_of (map shown children.now)) }
    ensures { IfOk result (λ starts. map need_in starts.items ≡ map (facts.need_of rows) (trees_of (map shown children.now))) }
{
    let mut starts = Vec::with_capacity(alloc, children.len())?;
    for child in children {
        let start = start_of(alloc, child)?;
        starts.push(start)?;
    }
    Ok(starts)
}
