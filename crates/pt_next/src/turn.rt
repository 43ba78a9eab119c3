// What a job asks of its top next.
ghost use Rattle.std.specs.Prelude.{◌≡◌, ◌+◌, ◌<◌, ◌^◌, IfOk};
ghost use Rattle.pt_node.specs.Shown.{shown_node};
ghost use Rattle.pt_node.specs.Live.{IsFit};
ghost use Rattle.pt_node.specs.View.{node_of};
ghost use Rattle.pt_trees.specs.Run.{schedule};
ghost use Rattle.pt_trees.specs.Top.{IsWhole};
ghost use Rattle.pt_next.specs.Turn.{IsNext, IsPastLimit, ended_by};

use crate::{de, once, sdf, sr};
use pt_firing::{Place, RunFault, Tokens};
use pt_node::Node;
use pt_time::Tag;
use pt_trees::{Ended, Top};
use std::alloc::{AllocError, Global};

/// The tag of each firing of an SDF top, and of the one of a PN or a Rendezvous top.
pub(crate) const ORIGIN: Tag = Tag { time: 0, step: 0 };

/// An end of a job.
#[derive(Clone, Copy)]
pub enum End {
    /// All iterations are made.
    Iterations,
    /// The inputs have no more tokens.
    Inputs,
    /// The next tag is past the stop time.
    Stop,
    /// There is no next tag.
    Idle,
    /// The one firing is made, and nothing within can go on.
    Deadlock,
}

/// A firing of the top: its tag, and the tokens of each own input.
#[derive(Drop)]
pub struct Firing {
    pub tag: Tag,
    pub inputs: Vec<Tokens>,
}

/// What a job asks of its top: a firing, or the end.
#[derive(Drop)]
pub enum Turn {
    Fire(Firing),
    Ends(End),
    /// Nothing, since the next tag is past the last one that a tag may have.
    Limit,
}

/// What the job asks of its top after so many firings, the last of them at this tag. Only a job of DE looks at the top, which has a wake.
pub fn next_turn(
    alloc: Global,
    job: &Top,
    fired: u64,
    last: &Option<Tag>,
    top: &Node,
) -> Result<Turn, AllocError>
    requires whole { IsWhole job.now }
    requires number { fired + 1 < 2 ^ 64 }
    requires fit { IsFit (shown_node top.now) }
    ensures { IfOk result (IsNext (schedule job.now) fired last.now (node_of (shown_node top.now))) }
{
    match job {
        Top::Sdf(job) => sdf::next_turn(alloc, job, fired),
        Top::Sr(job) => sr::next_turn(alloc, job, fired),
        Top::De(job) => de::next_turn(alloc, job, last, top.next()),
        Top::Once(job) => once::next_turn(alloc, job, fired),
    }
}

/// The top, stuck since its next tag is past the limit.
pub fn past_limit(alloc: Global, top: &Node, fired: u64) -> Result<Place, AllocError>
    ensures { IfOk result (IsPastLimit (shown_node top.now) fired) }
{
    Ok(Place {
        path: top.path.copy(alloc)?,
        firing: fired,
        kind: RunFault::TimeLimit,
    })
}

/// How an end is told.
pub fn end_told(end: End) -> Ended
    ensures { result ≡ ended_by end }
{
    match end {
        End::Iterations => Ended::Iterations,
        End::Inputs => Ended::Inputs,
        End::Stop => Ended::Stop,
        End::Idle => Ended::Idle,
        End::Deadlock => Ended::Deadlock,
    }
}
