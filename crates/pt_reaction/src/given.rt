ghost use Rattle.std.specs.Prelude.{◌≡◌, ℕ, ◌<◌, ◌≤◌, [], ◌∷◌, ◌++◌, length, get_or, map, slice_set, IfOk, OnOk, if◌then◌else◌};
ghost use Rattle.pt_meaning.specs.Streams.{at};
ghost use Rattle.pt_reaction.specs.Channels.{spare_at};
ghost use Rattle.pt_reaction.specs.Feeds.{no_feed, MovesOnce};
ghost use Rattle.pt_reaction.specs.Given.{gifts, known_on};

use crate::channels::Channels;
use crate::feeds::Feed;
use pt_firing::{Inputs, Outputs, Partial, Tokens};
use pt_value::Token;
use std::alloc::{AllocError, Global};

/// Stages what each feed gives of the outputs of a firing, the last first, and makes room for it. A token is moved for the first feed of its port, and copied for the others.
pub fn stage_outputs(
    alloc: Global,
    staged: &mut Vec<Tokens>,
    channels: &mut Channels,
    feeds: &[Feed],
    mut outputs: Outputs,
) -> Result<(), AllocError>
    requires there { (k : ℕ) → k < length feeds.now → (get_or feeds.now k no_feed).channel < length channels.old.lists }
    requires moves { MovesOnce feeds.now }
    ensures lists { channels.new.lists ≡ channels.old.lists }
    ensures staged { OnOk result (staged.new.items ≡ gifts (at outputs) feeds.now) }
    ensures room { OnOk result ((k : ℕ) → k < length feeds.now → length (at outputs (get_or feeds.now k no_feed).port) ≤ spare_at channels.new.spares (get_or feeds.now k no_feed).channel) }
{
    staged.clear();
    for k in (0..feeds.len()).rev() {
        let feed = feeds[k];
        let tokens = taken(alloc, &mut outputs, feed)?;
        stage(alloc, staged, channels, feed, tokens)?;
    }
    Ok(())
}

/// Stages what each feed gives of an early answer, where an output that isn't known gives nothing.
pub fn stage_partial(
    alloc: Global,
    staged: &mut Vec<Tokens>,
    channels: &mut Channels,
    feeds: &[Feed],
    early: &Partial,
) -> Result<(), AllocError>
    requires there { (k : ℕ) → k < length feeds.now → (get_or feeds.now k no_feed).channel < length channels.old.lists }
    ensures lists { channels.new.lists ≡ channels.old.lists }
    ensures staged { OnOk result (staged.new.items ≡ gifts (known_on early.now) feeds.now) }
    ensures room { OnOk result ((k : ℕ) → k < length feeds.now → length (known_on early.now (get_or feeds.now k no_feed).port) ≤ spare_at channels.new.spares (get_or feeds.now k no_feed).channel) }
{
    staged.clear();
    for k in (0..feeds.len()).rev() {
        let feed = feeds[k];
        let tokens = told_early(alloc, early, feed)?;
        stage(alloc, staged, channels, feed, tokens)?;
    }
    Ok(())
}

/// Stages copies of what arrives at each own input.
pub fn stage_inputs(
    alloc: Global,
    staged: &mut Vec<Tokens>,
    channels: &mut Channels,
    feeds: &[Feed],
    inputs: &Inputs<'_>,
) -> Result<(), AllocError>
    requires there { (k : ℕ) → k < length feeds.now → (get_or feeds.now k no_feed).channel < length channels.old.lists }
    ensures lists { channels.new.lists ≡ channels.old.lists }
    ensures staged { OnOk result (staged.new.items ≡ gifts (at inputs.now) feeds.now) }
    ensures room { OnOk result ((k : ℕ) → k < length feeds.now → length (at inputs.now (get_or feeds.now k no_feed).port) ≤ spare_at channels.new.spares (get_or feeds.now k no_feed).channel) }
{
    staged.clear();
    for k in (0..feeds.len()).rev() {
        let feed = feeds[k];
        let tokens = arrived(alloc, inputs, feed)?;
        stage(alloc, staged, channels, feed, tokens)?;
    }
    Ok(())
}

/// Puts what a feed gives behind what was staged, and makes room for it on its channel.
fn stage(
    alloc: Global,
    staged: &mut Vec<Tokens>,
    channels: &mut Channels,
    feed: Feed,
    tokens: Tokens,
) -> Result<(), AllocError>
    requires { feed.channel < length channels.old.lists }
    ensures lists { channels.new.lists ≡ channels.old.lists }
    ensures staged { OnOk result (staged.new.items ≡ staged.old.items ++ tokens ∷ []) }
    ensures room { OnOk result (length tokens ≤ spare_at channels.new.spares feed.channel) }
    ensures keeps { (d : ℕ) → spare_at channels.old.spares d ≤ spare_at channels.new.spares d }
{
    channels.reserve(alloc, feed.channel as usize, tokens.len())?;
    staged.push(tokens)?;
    Ok(())
}

/// The tokens of the port of a feed: the port's own, or a copy.
fn taken(alloc: Global, outputs: &mut Outputs, feed: Feed) -> Result<Tokens, AllocError>
    ensures tokens { IfOk result (λ tokens. tokens ≡ at outputs.old feed.port) }
    ensures left { OnOk result (outputs.new ≡ (if feed.moves then slice_set outputs.old feed.port [] else outputs.old)) }
{
    let port = feed.port as usize;
    if port >= outputs.ports() {
        return Ok(Tokens::new());
    }
    if feed.moves {
        return Ok(outputs.take(port));
    }
    copy_of(alloc, outputs.list(port))
}

/// A copy of the tokens of the port of a feed, none where they aren't known.
fn told_early(alloc: Global, early: &Partial, feed: Feed) -> Result<Tokens, AllocError>
    ensures { IfOk result (λ given. given ≡ known_on early.now feed.port) }
{
    let port = feed.port as usize;
    if port >= early.places() {
        return Ok(Tokens::new());
    }
    early.get(port).tokens(alloc)
}

/// A copy of what arrived at the own input of a feed.
fn arrived(alloc: Global, inputs: &Inputs<'_>, feed: Feed) -> Result<Tokens, AllocError>
    ensures { IfOk result (λ tokens. tokens ≡ at inputs.now feed.port) }
{
    let port = feed.port as usize;
    if port >= inputs.places() {
        return Ok(Tokens::new());
    }
    copy_of(alloc, inputs.list(port))
}

/// Copies of some tokens.
pub fn copy_of(alloc: Global, tokens: &[Token]) -> Result<Tokens, AllocError>
    ensures { IfOk result (λ copy. copy ≡ tokens.now) }
{
    let mut copy = Tokens::new();
    for token in tokens {
        copy.push(alloc, token.copy(alloc)?)?;
    }
    Ok(copy)
}
