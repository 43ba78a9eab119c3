use pt_firing::{Blocked, Place};

/// How a run of the top ended.
#[derive(Debug, Drop)]
pub enum Ended {
    /// All iterations are made.
    Iterations,
    /// An input has fewer tokens left than an iteration takes.
    Inputs,
    /// The next firing is past the stop time.
    Stop,
    /// Nothing is due any more.
    Idle,
    /// Each process of the top waits for tokens, or is over.
    Deadlock,
    /// A place is stuck.
    Fault(Place),
    /// A process network is in a jam.
    Full(Blocked),
    /// So many firings were made, at least as many as the budget allows.
    Spent(u64),
}
