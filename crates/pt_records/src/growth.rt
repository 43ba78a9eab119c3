// The laws of what is kept, by the logs of firings.

ghost use Rattle.pt_records.specs.Growth.{NodesGrow, ChildrenGrow};
ghost use Rattle.pt_records.specs.MadeExample.{MadeExamples};

/// What is kept of a node goes on by nothing, by one log after another, and by the node's own record.
pub fn nodes_grow<T>()
    ensures { NodesGrow T }
{}

/// What is kept of the children of a composite goes on child by child, and what is kept of the composite by all of their logs.
pub fn children_grow<T, S>()
    ensures { ChildrenGrow T S }
{}

/// The meetings of a Rendezvous composite as they are recorded, worked by hand.
pub fn meetings_by_example()
    ensures { MadeExamples }
{}
