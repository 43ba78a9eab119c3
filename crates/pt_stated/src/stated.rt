use crate::capacities::Capacities;
use pt_firing::Counts;

/// What a composite of processes states: how many tokens a firing of it takes from each of its own inputs, and is to give on
/// each of its own outputs, and the capacities of its channels, where these hold tokens, as those of a process network do.
#[derive(Debug, Drop)]
pub struct Stated {
    pub takes: Counts,
    pub gives: Counts,
    pub capacities: Option<Capacities>,
}
