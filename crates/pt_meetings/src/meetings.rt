ghost use Rattle.std.specs.Prelude.{◌≡◌, OnOk, All, false};
ghost use Rattle.pt_node.specs.Shown.{shown_node};
ghost use Rattle.pt_node.specs.Unmet.{RecordsNone};
ghost use Rattle.pt_node.specs.View.{outline_of};
ghost use Rattle.pt_meetings.specs.Sites.{CanBeTold, sites_in};
ghost use Rattle.pt_meetings.specs.Standing.{StandsFor, HasOwnTexts};
ghost use Rattle.pt_meetings.specs.Written.{AreWrittenLists, AreWrittenIn};

use crate::table::Table;
use pt_net::Net;
use pt_node::Node;
use std::alloc::{AllocError, Global};

/// Whether a node or any within it records meetings.
fn records_any(node: &Node) -> bool
    ensures { result ≡ false → RecordsNone (shown_node node.now) }
{
    if node.meetings.as_slice().is_some() {
        return true;
    }
    for child in &node.children {
        if records_any(child) {
            return true;
        }
    }
    false
}

/// Writes the lists of all nodes that record meetings.
fn write_all(alloc: Global, net: &Net, top: &Node, out: &mut Vec<u8>) -> Result<(), AllocError>
    requires stands { StandsFor net.now.entities.items 0 (outline_of (shown_node top.now)) }
    requires told { All (CanBeTold net.now) (sites_in net.now.entities.items 0 (shown_node top.now)) }
    ensures { OnOk result (AreWrittenLists net.now (shown_node top.now) out.old.items out.new.items) }
{
    let table = Table::of(alloc, net)?;
    table.write(alloc, 0, top, out)?;
    Ok(())
}

/// The same. The net is looked at only where a node records meetings.
fn write_lists(alloc: Global, net: &Net, top: &Node, out: &mut Vec<u8>) -> Result<(), AllocError>
    requires stands { StandsFor net.now.entities.items 0 (outline_of (shown_node top.now)) }
    requires told { All (CanBeTold net.now) (sites_in net.now.entities.items 0 (shown_node top.now)) }
    ensures { OnOk result (AreWrittenLists net.now (shown_node top.now) out.old.items out.new.items) }
{
    if records_any(top) {
        write_all(alloc, net, top, out)
    } else {
        Ok(())
    }
}

/// Writes the meetings that the nodes of a tree have recorded, as a report tells them: a list for each node that records any, in the order of the document. It takes time linear in the tree, and where a node records meetings in the net, in the meetings and in the text.
pub fn write_meetings_of(
    alloc: Global,
    net: &Net,
    top: &Node,
    out: &mut Vec<u8>,
) -> Result<(), AllocError>
    requires stands { StandsFor net.now.entities.items 0 (outline_of (shown_node top.now)) }
    requires apart { HasOwnTexts (outline_of (shown_node top.now)) }
    requires told { All (CanBeTold net.now) (sites_in net.now.entities.items 0 (shown_node top.now)) }
    ensures { OnOk result (AreWrittenIn net.now (shown_node top.now) out.old.items out.new.items) }
{
    write_lists(alloc, net, top, out)?;
    Ok(())
}
