ghost use Rattle.pt_buildable.specs.Laws.{TopsAreThere, EntitiesAreShallow, DirectorsAreOfComposites, TopsHaveIterations, CompositesAreDirected, DirectedNetsAreInOrder, CompositesHaveChannels, ChildrenAreSteady, ChannelsBeginAtOutputs};

/// The net of a document has its top.
pub fn tops_are_there()
    ensures { TopsAreThere }
{}

/// In it an entity stands below at most fifteen composites.
pub fn entities_are_shallow()
    ensures { EntitiesAreShallow }
{}

/// Only composites of it have directors.
pub fn directors_are_of_composites()
    ensures { DirectorsAreOfComposites }
{}

/// A top with the director SDF or SR has a number of iterations.
pub fn tops_have_iterations()
    ensures { TopsHaveIterations }
{}

/// Where the top has a director, each composite has one or is a Modal entity.
pub fn composites_are_directed()
    ensures { CompositesAreDirected }
{}

/// Such a net is in order.
pub fn directed_nets_are_in_order()
    ensures { DirectedNetsAreInOrder }
{}

/// Each channel of a composite of a net in order begins at what is there, and there is one for each place and each own output, and there are few.
pub fn composites_have_channels()
    ensures { CompositesHaveChannels }
{}

/// Under SDF each child needs and gives the same at each firing, unless it isn't known of some composite of processes what it states.
pub fn children_are_steady()
    ensures { ChildrenAreSteady }
{}

/// A channel that begins at a child which answers early begins at one of its outputs.
pub fn channels_begin_at_outputs()
    ensures { ChannelsBeginAtOutputs }
{}
