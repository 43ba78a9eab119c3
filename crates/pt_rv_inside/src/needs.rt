ghost use Rattle.std.specs.Prelude.{◌≡◌, IfOk, map};
ghost use Rattle.pt_meaning.specs.NodeFacts as facts;
ghost use Rattle.pt_library.specs.LibraryActor.{rows};
ghost use Rattle.pt_node.specs.Shown.{shown, shown_node};
ghost use Rattle.pt_node.specs.View.{node_of};
ghost use Rattle.pt_puts.specs.Need.{need_in};
ghost use Rattle.pt_trees.specs.Composite.{trees_of};

use pt_firing::Need;
use pt_node::Node;
use pt_puts::KeptNeed;
use std::alloc::{AllocError, Global};

/// What a node needs now, as it is kept.
fn kept_need_of(alloc: Global, node: &Node) -> Result<KeptNeed, AllocError>
    ensures { IfOk result (λ need. need_in need ≡ facts.need_of rows (node_of (shown_node node.now))) }
{
    match node.need() {
        Need::All(counts) => {
            let counts = counts.copy(alloc)?;
            Ok(KeptNeed::Counts(counts))
        }
        Need::Over => Ok(KeptNeed::Over),
        Need::Any => Ok(KeptNeed::Any),
    }
}

/// What each child needs now.
pub fn kept_needs_of(alloc: Global, children: &[Node]) -> Result<Vec<KeptNeed>, AllocError>
    ensures { IfOk result (λ needs. map need_in needs.items ≡ map (facts.need_of rows) (trees_of (map shown children.now))) }
{
    let mut needs = Vec::with_capacity(alloc, children.len())?;
    for child in children {
        let need = kept_need_of(alloc, child)?;
        needs.push(need)?;
    }
    Ok(needs)
}
