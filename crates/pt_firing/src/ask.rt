use crate::fault::RunFault;
use pt_time::Tag;

/// A meeting of a Rendezvous composite: on the channel, or of the Barrier, a child, on all its channels at once.
#[derive(Clone, Copy, PartialEq, Eq, Debug)]
pub enum Meeting {
    Channel(u32),
    Barrier(u32),
}

/// What a director's core asks for next. A number names a child, or a process.
#[derive(Clone, Copy, PartialEq, Eq, Debug)]
pub enum Ask {
    /// Fire the child at the tag.
    Fire(u32, Tag),
    /// Ask the child for an early answer at the tag.
    Early(u32, Tag),
    /// Bring the child back to its start.
    Reset(u32),
    /// Let the process take its next token.
    Get(u32),
    /// Let the process give its next token.
    Put(u32),
    /// Let a full channel grow.
    Grow,
    /// This meeting is made.
    Meet(Meeting),
    /// Wait for a child that is away.
    Await,
    Finished,
    /// The child is stuck, or the composite itself where none is named.
    Faulted(RunFault, Option<u32>),
    Full,
}
