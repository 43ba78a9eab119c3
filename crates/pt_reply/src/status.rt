/// How a run of the program went. The numbers are the program's exit statuses, from 0.
#[derive(Clone, Copy, Debug, PartialEq, Eq)]
pub enum Status {
    /// The model ran to its end.
    Done,
    /// The words of the command line are refused.
    Words,
    /// The document is refused.
    Document,
    /// A firing is stuck.
    Fault,
    /// The budget of firings is spent.
    Budget,
    /// Reading failed.
    Read,
    /// Writing failed.
    Write,
    /// Memory ran out.
    Memory,
    /// A process network is full.
    Queue,
    /// The document is too long.
    Length,
}
