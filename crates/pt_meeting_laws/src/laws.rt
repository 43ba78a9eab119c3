ghost use Rattle.pt_meeting_laws.specs.There.{MeetingsAreThere};

/// Whatever meetings are given, those that a job's meaning tells of a path are on the channels of the Rendezvous composite there, or of its children.
pub fn meetings_are_there<T, A>()
    ensures { MeetingsAreThere T A }
{}
