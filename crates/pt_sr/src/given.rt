ghost use Rattle.std.specs.Prelude.{◌≡◌, ℕ, ◌<◌, ◌++◌, [], ◌∷◌, List, Option, Some, length, map, get_or, slice_set, IfOk, OnOk, if◌then◌else◌};
ghost use Rattle.pt_value.specs.declared.token.Token.{Token};
ghost use Rattle.pt_meaning.specs.Streams.{at};
ghost use Rattle.pt_sr.specs.State.{all_of, known_of};
ghost use Rattle.pt_sr.specs.Feeds.{no_feed, target_of, MovesOnce};
ghost use Rattle.pt_sr.specs.Given.{gifts, learn_on};

use crate::feeds::Feed;
use crate::signals::Signals;
use crate::worklist::Worklist;
use pt_firing::{Inputs, Outputs, Partial, Tokens};
use pt_value::Token;
use std::alloc::{AllocError, Global};

/// Stages what each feed gives of the outputs of a firing, the last first. A token is moved for the first feed of its port, and copied for the others.
pub(crate) fn stage_outputs(
    alloc: Global,
    staged: &mut Vec<Option<Tokens>>,
    feeds: &[Feed],
    mut outputs: Outputs,
) -> Result<(), AllocError>
    requires { MovesOnce feeds.now }
    ensures { OnOk result (staged.new.items ≡ gifts (all_of outputs) feeds.now) }
{
    staged.clear();
    for k in (0..feeds.len()).rev() {
        let tokens = taken(alloc, &mut outputs, feeds[k])?;
        staged.push(Some(tokens))?;
    }
    Ok(())
}

/// The tokens of the port of a feed: the port's own, or a copy.
fn taken(alloc: Global, outputs: &mut Outputs, feed: Feed) -> Result<Tokens, AllocError>
    ensures tokens { IfOk result (λ tokens. tokens ≡ at outputs.old feed.port) }
    ensures left { OnOk result (outputs.new ≡ (if feed.moves then slice_set outputs.old feed.port [] else outputs.old)) }
{
    let port = feed.port as usize;
    if port >= outputs.ports() {
        return Ok(Tokens::new());
    }
    if feed.moves {
        return Ok(outputs.take(port));
    }
    copy_of(alloc, outputs.list(port))
}

/// Stages what each feed gives of an early answer, the last first.
pub(crate) fn stage_partial(
    alloc: Global,
    staged: &mut Vec<Option<Tokens>>,
    feeds: &[Feed],
    early: &Partial,
) -> Result<(), AllocError>
    ensures { OnOk result (staged.new.items ≡ gifts (known_of early.now) feeds.now) }
{
    staged.clear();
    for k in (0..feeds.len()).rev() {
        let told = told_early(alloc, early, feeds[k])?;
        staged.push(told)?;
    }
    Ok(())
}

/// A copy of the tokens of the port of a feed, where they are known.
fn told_early(alloc: Global, early: &Partial, feed: Feed) -> Result<Option<Tokens>, AllocError>
    ensures { IfOk result (λ given. given ≡ known_of early.now feed.port) }
{
    let port = feed.port as usize;
    if port >= early.places() {
        return Ok(None);
    }
    early.get(port).known_tokens(alloc)
}

/// Stages copies of what arrives at each own input, the last first.
pub(crate) fn stage_inputs(
    alloc: Global,
    staged: &mut Vec<Option<Tokens>>,
    feeds: &[Feed],
    inputs: &Inputs<'_>,
) -> Result<(), AllocError>
    ensures { OnOk result (staged.new.items ≡ gifts (all_of inputs.now) feeds.now) }
{
    staged.clear();
    for k in (0..feeds.len()).rev() {
        let tokens = arrived(alloc, inputs, feeds[k])?;
        staged.push(Some(tokens))?;
    }
    Ok(())
}

/// A copy of what arrived at the own input of a feed.
fn arrived(alloc: Global, inputs: &Inputs<'_>, feed: Feed) -> Result<Tokens, AllocError>
    ensures { IfOk result (λ tokens. tokens ≡ at inputs.now feed.port) }
{
    let port = feed.port as usize;
    if port >= inputs.places() {
        return Ok(Tokens::new());
    }
    copy_of(alloc, inputs.list(port))
}

pub(crate) fn copy_of(alloc: Global, tokens: &[Token]) -> Result<Tokens, AllocError>
    ensures { IfOk result (λ copy. copy ≡ tokens.now) }
{
    let mut copy = Tokens::new();
    for token in tokens {
        copy.push(alloc, token.copy(alloc)?)?;
    }
    Ok(copy)
}

/// Moves what was staged to the channels of the feeds, where they are unknown, and wakes the children that read them.
pub(crate) fn deliver(
    signals: &mut Signals,
    worklist: &mut Worklist,
    staged: &mut Vec<Option<Tokens>>,
    feeds: &[Feed],
)
    requires there { (k : ℕ) → k < length feeds.now → (get_or feeds.now k no_feed).channel < length signals.old }
    ensures { (given : ℕ → Option (List Token)) → staged.old.items ≡ gifts given feeds.now → signals.new ≡ learn_on given (map target_of feeds.now) signals.old }
{
    for k in 0..feeds.len() {
        let channel = feeds[k].channel;
        let news = signals.learn(channel as usize, next_gift(staged));
        worklist.note(channel, news);
    }
}

/// What was staged last.
fn next_gift(staged: &mut Vec<Option<Tokens>>) -> Option<Tokens>
    ensures { (rest : List (Option (List Token))) (gift : Option (List Token)) → staged.old.items ≡ rest ++ gift ∷ [] → (result ≡ gift) × (staged.new.items ≡ rest) }
{
    match staged.pop() {
        Some(gift) => gift,
        None => None,
    }
}
