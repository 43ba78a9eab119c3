ghost use Rattle.std.specs.Prelude.{◌≡◌, ℕ, ◌+◌, ◌^◌, ◌<◌, ◌≤◌, [], ◌++◌, length, map, get_or, OnOk, is_ok, if◌then◌else◌, slice_set, take, drop, IfOk, false};
ghost use Rattle.pt_recv.specs.Lines.{list_at, spare_at, lowered};
ghost use Rattle.pt_meaning.specs.Streams.{at};
ghost use Rattle.pt_sdf_parts.specs.ByNeed.{skip_at};
ghost use Rattle.pt_sdf_parts.specs.Feeds.{no_feed, target_of, put_back, copies_for, AreThere, AreApart, MovesOnce};

use crate::feeds::Feed;
use crate::skip::skip_places;
use pt_firing::{Inputs, Outputs, Tokens};
use pt_recv::{Channels, Queue};
use pt_value::Token;
use std::alloc::{AllocError, Global};

/// Takes away what `n` places from this one on need, and puts what a row gave on the channels that it feeds. A token is moved to the first channel of its port, and copied for the others. After an `Err` the channels are as before.
pub fn scatter(
    alloc: Global,
    channels: &mut Channels,
    staged: &mut Queue,
    feeds: &[Feed],
    outputs: Outputs,
    needs: &[usize],
    from: usize,
    n: usize,
) -> Result<(), AllocError>
    requires there { AreThere (length channels.old.lists) (length outputs) feeds.now }
    requires apart { AreApart feeds.now }
    requires moves { MovesOnce feeds.now }
    requires empty { staged.old.list ≡ [] }
    requires few { length channels.old.lists < 2 ^ 32 }
    requires places { from + n ≤ length channels.old.lists }
    requires needed { from + n ≤ length needs.now }
    requires enough { (k : ℕ) → k < n → get_or needs.now (from + k) 0 ≤ length (list_at channels.old.lists (from + k)) }
    ensures lists { channels.new.lists ≡ (if is_ok result then put_back (map target_of feeds.now) outputs (skip_at from (take n (drop from needs.now)) channels.old.lists) else channels.old.lists) }
    ensures empty { staged.new.list ≡ [] }
{
    if prepare(alloc, channels, staged, feeds, &outputs).is_err() {
        staged.clear();
        return Err(AllocError);
    }
    skip_places(channels, needs, from, n);
    deliver(channels, staged, feeds, outputs);
    Ok(())
}

/// Makes room on the channels, and the copies, so that the moves after it can't fail.
fn prepare(
    alloc: Global,
    channels: &mut Channels,
    staged: &mut Queue,
    feeds: &[Feed],
    outputs: &Outputs,
) -> Result<(), AllocError>
    requires there { AreThere (length channels.old.lists) (length outputs.now) feeds.now }
    requires empty { staged.old.list ≡ [] }
    ensures lists { channels.new.lists ≡ channels.old.lists }
    ensures staged { OnOk result (staged.new.list ≡ copies_for (length feeds.now) feeds.now outputs.now) }
    ensures room { OnOk result ((k : ℕ) → k < length feeds.now → length (at outputs.now (get_or feeds.now k no_feed).port) ≤ spare_at channels.new.spares (get_or feeds.now k no_feed).channel) }
{
    for k in (0..feeds.len()).rev() {
        let feed = feeds[k];
        let tokens = outputs.list(feed.port as usize);
        prepare_one(alloc, channels, staged, feed, tokens)?;
    }
    Ok(())
}

/// Makes room for what one feed takes, and its copies.
fn prepare_one(
    alloc: Global,
    channels: &mut Channels,
    staged: &mut Queue,
    feed: Feed,
    tokens: &[Token],
) -> Result<(), AllocError>
    requires { feed.channel < length channels.old.lists }
    ensures lists { channels.new.lists ≡ channels.old.lists }
    ensures staged { OnOk result (staged.new.list ≡ staged.old.list ++ (if feed.moves then [] else tokens.now)) }
    ensures room { OnOk result (length tokens.now ≤ spare_at channels.new.spares feed.channel) }
    ensures keeps { (c : ℕ) → spare_at channels.old.spares c ≤ spare_at channels.new.spares c }
{
    channels.ready(feed.channel, tokens.len())?;
    if feed.moves {
        return Ok(());
    }
    stage(alloc, staged, tokens)
}

/// Puts copies of some tokens behind those that are staged.
fn stage(alloc: Global, staged: &mut Queue, tokens: &[Token]) -> Result<(), AllocError>
    ensures { OnOk result (staged.new.list ≡ staged.old.list ++ tokens.now) }
{
    for token in tokens {
        if staged.put(token.copy(alloc)?).is_err() {
            return Err(AllocError);
        }
    }
    Ok(())
}

/// Puts the tokens on the channels, in room that was made.
fn deliver(channels: &mut Channels, staged: &mut Queue, feeds: &[Feed], mut outputs: Outputs)
    requires there { AreThere (length channels.old.lists) (length outputs) feeds.now }
    requires apart { AreApart feeds.now }
    requires moves { MovesOnce feeds.now }
    requires staged { staged.old.list ≡ copies_for (length feeds.now) feeds.now outputs }
    requires room { (k : ℕ) → k < length feeds.now → length (at outputs (get_or feeds.now k no_feed).port) ≤ spare_at channels.old.spares (get_or feeds.now k no_feed).channel }
    ensures lists { channels.new.lists ≡ put_back (map target_of feeds.now) outputs channels.old.lists }
    ensures empty { staged.new.list ≡ [] }
{
    for k in (0..feeds.len()).rev() {
        deliver_one(channels, staged, feeds[k], &mut outputs);
    }
}

/// Puts the tokens of one feed's port on its channel.
fn deliver_one(channels: &mut Channels, staged: &mut Queue, feed: Feed, outputs: &mut Outputs)
    requires given { feed.channel < length channels.old.lists }
    requires port { feed.port < length outputs.old }
    requires room { length (at outputs.old feed.port) ≤ spare_at channels.old.spares feed.channel }
    requires copied { feed.moves ≡ false → take (length (at outputs.old feed.port)) staged.old.list ≡ at outputs.old feed.port }
    ensures lists { channels.new.lists ≡ slice_set channels.old.lists feed.channel (list_at channels.old.lists feed.channel ++ at outputs.old feed.port) }
    ensures staged { staged.new.list ≡ (if feed.moves then staged.old.list else drop (length (at outputs.old feed.port)) staged.old.list) }
    ensures outputs { outputs.new ≡ (if feed.moves then slice_set outputs.old feed.port [] else outputs.old) }
    ensures others { (d : ℕ) → (d ≡ feed.channel → ⊥) → spare_at channels.new.spares d ≡ spare_at channels.old.spares d }
{
    let port = feed.port as usize;
    if feed.moves {
        put_all(channels, feed.channel, outputs.take(port));
        return;
    }
    let n = outputs.list(port).len();
    unstage(channels, feed.channel, staged, n);
}

/// Moves the tokens to the back of a channel that has room for them.
fn put_all(channels: &mut Channels, c: u32, tokens: Tokens)
    requires given { c < length channels.old.lists }
    requires room { length tokens ≤ spare_at channels.old.spares c }
    ensures lists { channels.new.lists ≡ slice_set channels.old.lists c (list_at channels.old.lists c ++ tokens) }
    ensures others { (d : ℕ) → (d ≡ c → ⊥) → spare_at channels.new.spares d ≡ spare_at channels.old.spares d }
{
    for token in tokens {
        channels.put(c, token);
    }
}

/// Moves the first staged tokens to the back of a channel that has room for them.
fn unstage(channels: &mut Channels, c: u32, staged: &mut Queue, n: usize)
    requires given { c < length channels.old.lists }
    requires there { n ≤ length staged.old.list }
    requires room { n ≤ spare_at channels.old.spares c }
    ensures lists { channels.new.lists ≡ slice_set channels.old.lists c (list_at channels.old.lists c ++ take n staged.old.list) }
    ensures staged { staged.new.list ≡ drop n staged.old.list }
    ensures others { (d : ℕ) → (d ≡ c → ⊥) → spare_at channels.new.spares d ≡ spare_at channels.old.spares d }
{
    for _ in 0..n {
        unstage_one(channels, c, staged);
    }
}

/// Moves the first staged token.
fn unstage_one(channels: &mut Channels, c: u32, staged: &mut Queue)
    requires given { c < length channels.old.lists }
    requires room { 0 < spare_at channels.old.spares c }
    requires there { 0 < length staged.old.list }
    ensures lists { channels.new.lists ≡ slice_set channels.old.lists c (list_at channels.old.lists c ++ take 1 staged.old.list) }
    ensures staged { staged.new.list ≡ drop 1 staged.old.list }
    ensures spares { channels.new.spares ≡ lowered channels.old.spares c }
{
    if let Some(token) = staged.take() {
        channels.put(c, token);
    }
}

/// Copies of what has arrived.
pub fn copies_of(alloc: Global, inputs: &Inputs<'_>) -> Result<Outputs, AllocError>
    ensures { IfOk result (λ outputs. outputs ≡ inputs.now) }
{
    if inputs.places() == 0 {
        return Ok(Outputs::none(0));
    }
    if inputs.places() == 1 {
        return Ok(Outputs::first(1, copy_of(alloc, inputs.list(0))?));
    }
    let mut lists = Vec::with_capacity(alloc, inputs.places())?;
    for place in 0..inputs.places() {
        let copy = copy_of(alloc, inputs.list(place))?;
        lists.push_reserved(copy);
    }
    Ok(Outputs::of(lists))
}

fn copy_of(alloc: Global, tokens: &[Token]) -> Result<Tokens, AllocError>
    ensures { IfOk result (λ copy. copy ≡ tokens.now) }
{
    let mut copy = Tokens::new();
    for token in tokens {
        copy.push(alloc, token.copy(alloc)?)?;
    }
    Ok(copy)
}
