ghost use Rattle.std.specs.Prelude.{◌≡◌, ℕ, ◌++◌, ◌+◌, List, Option, Some, None, IfOk, MatchOption, length, map, true, false};
ghost use Rattle.pt_meaning.specs.NodeFacts.{facts_of};
ghost use Rattle.pt_meaning.specs.Running.{total};
ghost use Rattle.pt_sdf_parts.specs.ByNeed.{needs_of, planned};
ghost use Rattle.pt_library.specs.LibraryActor.{rows};
ghost use Rattle.pt_node.specs.Shown.{shown, shown_node};
ghost use Rattle.pt_node.specs.View.{node_of};
ghost use Rattle.pt_trees.specs.Composite.{trees_of};
ghost use Rattle.pt_wired.specs.Needs.{IsAdded, AreNeeds};

use pt_firing::Need;
use pt_node::Node;
use std::alloc::{AllocError, Global};

/// Puts the numbers of tokens that a child needs behind others, where it needs one at each of so many places.
fn add_needs(needs: &mut Vec<usize>, child: &Node, count: usize) -> Result<bool, AllocError>
    ensures { IfOk result (IsAdded (node_of (shown_node child.now)) count needs.old.items needs.new.items) }
{
    let Need::All(counts) = child.need() else {
        return Ok(false);
    };
    if counts.len() != count {
        return Ok(false);
    }
    needs.extend_from_slice(counts.as_slice())?;
    Ok(true)
}

/// How many tokens each child needs at each of its places, one after another; `None` where a child has other places.
pub fn needs_of(
    alloc: Global,
    children: &[Node],
    places: &[usize],
) -> Result<Option<Vec<usize>>, AllocError>
    ensures { IfOk result (AreNeeds (trees_of (map shown children.now)) places.now) }
{
    if children.len() != places.len() {
        return Ok(None);
    }
    let mut needs = Vec::new(alloc);
    for (number, child) in children.iter().enumerate() {
        if !add_needs(&mut needs, child, places[number])? {
            return Ok(None);
        }
    }
    Ok(Some(needs))
}
