ghost use Rattle.pt_order.specs.Laws.{NetsAreInOrder};

/// The net of a document in which no link is at fault is in order, where a tree is built of it: its channels stand in the order of
/// their places and begin at ports that are there, its actors have the ports of their classes, and in a composite with a director there
/// is one channel to each of its outputs and to each input of a composite or a Modal entity, whose ports have names that differ.
pub fn nets_are_in_order()
    ensures { NetsAreInOrder }
{}
