ghost use Rattle.pt_node.specs.Unmet.{NothingMeets};

/// Where a node records no meetings, nor any within it, each list of meetings has all that were recorded.
pub fn nothing_meets()
    ensures { NothingMeets }
{}
