ghost use Rattle.std.specs.Prelude.{◌≡◌, ℕ, ◌+◌, ◌^◌, ◌<◌, ◌≤◌, [], ◌++◌, length, get_or, set, take, drop, slice_get, IfOk, OnOk, OnErr, Some};
ghost use Rattle.pt_meaning.specs.Process.{emptied};
ghost use Rattle.pt_recv.specs.Lines.{list_at, spare_at, popped, raised};
ghost use Rattle.pt_pn.specs.Outlets.{no_line, HaveRoom};

use pt_firing::{Outputs, Tokens};
use pt_reaction::Line;
use pt_recv::Channels;
use pt_value::Token;
use std::alloc::{AllocError, Global};

/// Takes all tokens of the channels from a number on. After an `Err` they are as before.
pub(crate) fn hand_out(
    alloc: Global,
    queues: &mut Channels,
    from: usize,
    channels: usize,
) -> Result<Outputs, AllocError>
    requires few { channels < 2 ^ 32 }
    requires counted { channels ≡ length queues.old.lists }
    requires within { from ≤ channels }
    ensures given { IfOk result (λ outputs. outputs ≡ drop from queues.old.lists) }
    ensures left { OnOk result (queues.new.lists ≡ take from queues.old.lists ++ emptied (drop from queues.old.lists)) }
    ensures kept { OnErr result (queues.new.lists ≡ queues.old.lists) }
    ensures spares { length queues.new.spares ≡ length queues.old.spares }
    ensures more { (d : ℕ) → spare_at queues.old.spares d ≤ spare_at queues.new.spares d }
{
    let mut rooms = rooms_for(alloc, queues, from, channels)?;
    let mut lists = Vec::with_capacity(alloc, channels - from)?;
    for k in 0..channels - from {
        let tokens = drain_to(queues, (from + k) as u32, &mut rooms, k);
        lists.push_reserved(tokens);
    }
    drop(rooms);
    Ok(Outputs::of(lists))
}

/// An empty line for each of these channels, with room for its tokens.
fn rooms_for(
    alloc: Global,
    queues: &Channels,
    from: usize,
    channels: usize,
) -> Result<Vec<Line>, AllocError>
    requires few { channels < 2 ^ 32 }
    requires counted { channels ≡ length queues.now.lists }
    requires within { from ≤ channels }
    ensures counted { IfOk result (λ rooms. from + length rooms.items ≡ channels) }
    ensures rooms { IfOk result (λ rooms. HaveRoom queues.now.lists from 0 rooms.items) }
{
    let mut rooms = Vec::with_capacity(alloc, channels - from)?;
    for channel in from..channels {
        let room = room_for(alloc, queues.len(channel as u32))?;
        rooms.push(room)?;
    }
    Ok(rooms)
}

/// An empty line with room for so many tokens.
fn room_for(alloc: Global, tokens: usize) -> Result<Line, AllocError>
    ensures empty { IfOk result (λ line. line.list ≡ []) }
    ensures room { IfOk result (λ line. tokens ≤ line.spare) }
{
    let mut line = Line::new();
    line.reserve(alloc, tokens)?;
    Ok(line)
}

/// Takes all tokens of a channel, by way of the line at a number.
fn drain_to(queues: &mut Channels, channel: u32, rooms: &mut Vec<Line>, k: usize) -> Tokens
    requires there { channel < length queues.old.lists }
    requires within { k < length rooms.old.items }
    requires empty { (get_or rooms.old.items k no_line).list ≡ [] }
    requires room { length (list_at queues.old.lists channel) ≤ (get_or rooms.old.items k no_line).spare }
    ensures taken { result ≡ list_at queues.old.lists channel }
    ensures left { queues.new.lists ≡ set queues.old.lists channel [] }
    ensures spares { length queues.new.spares ≡ length queues.old.spares }
    ensures more { (d : ℕ) → spare_at queues.old.spares d ≤ spare_at queues.new.spares d }
    ensures counted { length rooms.new.items ≡ length rooms.old.items }
    ensures others { (j : ℕ) → k < j → get_or rooms.new.items j no_line ≡ get_or rooms.old.items j no_line }
{
    let room = &mut rooms[k];
    drain(queues, channel, room);
    room.take()
}

/// Moves all tokens of a channel to a line that is empty and has room for them.
fn drain(queues: &mut Channels, channel: u32, line: &mut Line)
    requires there { channel < length queues.old.lists }
    requires empty { line.old.list ≡ [] }
    requires room { length (list_at queues.old.lists channel) ≤ line.old.spare }
    ensures moved { line.new.list ≡ list_at queues.old.lists channel }
    ensures left { queues.new.lists ≡ set queues.old.lists channel [] }
    ensures spares { length queues.new.spares ≡ length queues.old.spares }
    ensures more { (d : ℕ) → spare_at queues.old.spares d ≤ spare_at queues.new.spares d }
{
    for _ in 0..queues.len(channel) {
        let token = next_token(queues, channel);
        line.put(token);
    }
}

/// Takes the first token of a channel.
pub(crate) fn next_token(queues: &mut Channels, channel: u32) -> Token
    requires there { channel < length queues.old.lists }
    requires some { 0 < length (list_at queues.old.lists channel) }
    ensures first { slice_get (list_at queues.old.lists channel) 0 ≡ Some result }
    ensures lists { queues.new.lists ≡ popped queues.old.lists channel }
    ensures spares { queues.new.spares ≡ raised queues.old.spares channel }
{
    match queues.take(channel) {
        Some(token) => token,
        None => unreachable!(),
    }
}
