/// What is written of a run.
#[derive(Clone, Copy, Debug, PartialEq, Eq)]
pub enum Form {
    /// Its report: each token of each trace.
    Report,
    /// A summary: how many firings there were, and the last token of each trace.
    Summary,
}
