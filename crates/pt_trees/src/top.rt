use pt_firing::{Counts, Tokens};
use pt_time::Tag;
use pt_value::Token;

/// What a job asks of an SDF top: how many iterations, and the tokens of each own input, of which an iteration takes so many.
#[derive(Drop)]
pub struct SdfJob {
    pub iterations: u64,
    pub takes: Counts,
    pub inputs: Vec<Tokens>,
}

/// What a job asks of an SR top: how many ticks, and for each own input a token for each tick, none where it is absent.
#[derive(Drop)]
pub struct SrJob {
    pub iterations: u64,
    pub inputs: Vec<Vec<Option<Token>>>,
}

/// What a job asks of a DE top: the last time at which it fires, if there is one, and for each own input its events, in order of
/// their tags.
#[derive(Drop)]
pub struct DeJob {
    pub stop: Option<u64>,
    pub inputs: Vec<Vec<(Tag, Token)>>,
}

/// What a job asks of a top of PN or Rendezvous, which fires once: all tokens of each own input.
#[derive(Drop)]
pub struct OnceJob {
    pub inputs: Vec<Tokens>,
}

/// What a job asks of its top, by the director of the top.
#[derive(Drop)]
pub enum Top {
    Sdf(SdfJob),
    Sr(SrJob),
    De(DeJob),
    Once(OnceJob),
}
