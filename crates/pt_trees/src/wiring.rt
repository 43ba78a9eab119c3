use pt_chart::Written;
use pt_core::Source;
use pt_firing::Counts;
use pt_stated::Stated;

/// What a composite is round, but for its children: where its channels begin, how many places each child has, how many
/// own inputs and outputs there are, and what is stated. Channels are numbered by the places where they end: those of the
/// children in order, then the own outputs.
#[derive(Drop)]
pub struct Wiring {
    pub sources: Vec<Source>,
    pub places: Counts,
    pub inputs: u32,
    pub outputs: u32,
    /// What it states of its ports and of its channels, where its children are processes.
    pub stated: Option<Stated>,
    /// How many tokens a firing of each child is to give on each of its outputs, where the child is a composite of processes or
    /// a Modal entity.
    pub declared: Vec<Option<Counts>>,
    /// Its machine as it is written, where it is a Modal entity.
    pub machine: Option<Written>,
}
