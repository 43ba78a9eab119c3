use pt_core::Source;
use pt_firing::Counts;
use pt_time::Tag;

/// What is within a DE composite. Channels are numbered by the places where they end: those of the children in order,
/// then the own outputs.
#[derive(Debug, Drop)]
pub struct DeInside {
    /// Where each channel begins.
    pub sources: Vec<Source>,
    /// How many places each child has.
    pub places: Counts,
    /// How many own inputs there are.
    pub inputs: u32,
    /// Of each channel whether it ends at a delay: a place of which nothing that comes there has a part in what the child
    /// gives at the same tag.
    pub delayed: Vec<bool>,
    /// Whether each child answers early, once all its places but its delays are known.
    pub early: Vec<bool>,
    /// Whether each child takes its lists whole.
    pub whole: Vec<bool>,
    /// The wake of each child at its start.
    pub starts: Vec<Option<Tag>>,
}
