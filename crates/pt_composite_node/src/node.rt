ghost use Rattle.std.specs.Prelude.{◌≡◌, map, None};
ghost use Rattle.pt_node.specs.Shown.{shown, shown_node};
ghost use Rattle.pt_composite_node.specs.Nodes.{built};

use pt_directors::{Boxed, Director};
use pt_node::{Body, Node};
use pt_past::{Labels, MeetingRecord, Past, Records};
use pt_value::Text;

/// The node of a composite that has not fired, whose director makes no meetings.
pub fn composite_node(
    director: Boxed<Director>,
    children: Vec<Node>,
    path: Text,
    records: Records,
    labels: Labels,
) -> Node
    ensures { shown_node result ≡ built director None (map shown children.items) path records labels }
{
    let meetings = MeetingRecord::unrecorded();
    recording_node(director, meetings, children, path, records, labels)
}

/// The node of a composite that has not fired, with this record of its meetings.
pub fn recording_node(
    director: Boxed<Director>,
    meetings: MeetingRecord,
    children: Vec<Node>,
    path: Text,
    records: Records,
    labels: Labels,
) -> Node
    ensures { shown_node result ≡ built director meetings (map shown children.items) path records labels }
{
    Node {
        past: Past {
            made: 0,
            last: None,
        },
        body: Body::Composite(director),
        children,
        records,
        path,
        labels,
        meetings,
        live: true,
    }
}
