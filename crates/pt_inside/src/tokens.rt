ghost use Rattle.std.specs.Prelude.{◌≡◌, ◌++◌, ◌+◌, ◌<◌, ◌^◌, [], length, map, slice_set, IfOk, OnOk};
ghost use Rattle.pt_meaning.specs.Start.{first_held, first_of, first_of_node};
ghost use Rattle.std.specs.Prelude.{Some};
ghost use Rattle.pt_recv.specs.Lines.{list_at};
ghost use Rattle.pt_core.specs.Source.{source_of};
ghost use Rattle.pt_library.specs.LibraryActor.{rows};
ghost use Rattle.pt_node.specs.Shown.{shown, shown_node};
ghost use Rattle.pt_node.specs.View.{node_of};
ghost use Rattle.pt_trees.specs.Sdf.{first_counts};
ghost use Rattle.pt_trees.specs.Composite.{trees_of};

use pt_core::Source;
use pt_firing::{Actor, Counts, Tokens};
use pt_node::{Body, Node};
use pt_recv::Channels;
use pt_value::Token;
use std::alloc::{AllocError, Global};

/// The first tokens of a node: those of a library actor.
fn first_of_node(node: &Node) -> &[Token]
    ensures { result.now ≡ first_of_node rows (Some (node_of (shown_node node.now))) }
{
    match &node.body {
        Body::Actor(held) => held.start.first(),
        Body::Composite(_) => &[],
    }
}

/// The first tokens on the channels of a source.
fn first_of<'a>(children: &'a [Node], source: Source) -> &'a [Token]
    ensures { result.now ≡ first_of rows (trees_of (map shown children.now)) (source_of source) }
{
    let Source::Output(child, _) = source else {
        return &[];
    };
    match children.get(child as usize) {
        Some(node) => first_of_node(node),
        None => &[],
    }
}

/// How many tokens stand on each channel at the start.
pub fn first_counts(
    alloc: Global,
    children: &[Node],
    sources: &[Source],
) -> Result<Counts, AllocError>
    ensures { IfOk result (λ counts. counts ≡ first_counts (trees_of (map shown children.now)) (map source_of sources.now)) }
{
    let mut counts = Vec::with_capacity(alloc, sources.len())?;
    for source in sources {
        counts.push(first_of(children, *source).len())?;
    }
    Ok(Counts::of(counts))
}

/// Puts copies of some tokens on a channel.
fn put_copies(
    alloc: Global,
    channels: &mut Channels,
    channel: u32,
    tokens: &[Token],
) -> Result<(), AllocError>
    requires { channel < length channels.old.lists }
    ensures { OnOk result (channels.new.lists ≡ slice_set channels.old.lists channel (list_at channels.old.lists channel ++ tokens.now)) }
{
    channels.ready(channel, tokens.len())?;
    for token in tokens {
        let token = token.copy(alloc)?;
        channels.put(channel, token);
    }
    Ok(())
}

/// Copies of some tokens.
fn copies_of(alloc: Global, tokens: &[Token]) -> Result<Tokens, AllocError>
    ensures { IfOk result (λ copies. copies ≡ tokens.now) }
{
    let mut copies = Vec::with_capacity(alloc, tokens.len())?;
    for token in tokens {
        let token = token.copy(alloc)?;
        copies.push(token)?;
    }
    Ok(Tokens::of(copies))
}

/// The first tokens of each channel.
pub fn first_lists(
    alloc: Global,
    children: &[Node],
    sources: &[Source],
) -> Result<Vec<Tokens>, AllocError>
    ensures { IfOk result (λ lists. lists.items ≡ first_held rows (trees_of (map shown children.now)) (map source_of sources.now)) }
{
    let mut lists = Vec::with_capacity(alloc, sources.len())?;
    for source in sources {
        let tokens = first_of(children, *source);
        let copies = copies_of(alloc, tokens)?;
        lists.push(copies)?;
    }
    Ok(lists)
}

/// The channels with their first tokens.
pub fn first_tokens(
    alloc: Global,
    children: &[Node],
    sources: &[Source],
) -> Result<Channels, AllocError>
    requires { length sources.now < 2 ^ 32 }
    ensures { IfOk result (λ channels. channels.lists ≡ first_held rows (trees_of (map shown children.now)) (map source_of sources.now)) }
{
    let count = sources.len() as u32;
    let mut channels = Channels::new(alloc, count)?;
    for channel in 0..count {
        let tokens = first_of(children, sources[channel as usize]);
        put_copies(alloc, &mut channels, channel, tokens)?;
    }
    Ok(channels)
}
