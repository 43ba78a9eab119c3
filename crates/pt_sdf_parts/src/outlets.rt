ghost use Rattle.std.specs.Prelude.{◌≡◌, ℕ, ◌+◌, ◌*◌, ◌^◌, ◌<◌, ◌≤◌, length, min, drop, get_or, IfOk, None, is_ok, if◌then◌else◌};
ghost use Rattle.pt_recv.specs.Lines.{list_at};
ghost use Rattle.pt_meaning.specs.Kahn.{firsts};
ghost use Rattle.pt_meaning.specs.Sdf.{times};
ghost use Rattle.pt_sdf_parts.specs.ByNeed.{skip_at};
ghost use Rattle.pt_sdf_parts.specs.Rooms.{HasRoom};

use crate::gathering::take_first;
use crate::rooms::room_for;
use pt_firing::Outputs;
use pt_recv::Channels;
use pt_value::Token;
use std::alloc::{AllocError, Global};

/// Takes from the channels to the own outputs, which are those from `from` on, what so many iterations give. After an `Err` they are as before.
pub fn hand_out(
    alloc: Global,
    channels: &mut Channels,
    gives: &[usize],
    turns: usize,
    from: usize,
) -> Result<Outputs, AllocError>
    requires few { length channels.old.lists < 2 ^ 32 }
    requires counted { from + length gives.now ≤ length channels.old.lists }
    ensures given { IfOk result (λ outputs. outputs ≡ firsts (times turns gives.now) (drop from channels.old.lists)) }
    ensures left { channels.new.lists ≡ (if is_ok result then skip_at from (times turns gives.now) channels.old.lists else channels.old.lists) }
{
    if gives.is_empty() {
        return Ok(Outputs::none(0));
    }
    if gives.len() == 1 {
        let n = owed_on(channels, from as u32, gives[0], turns);
        let room = room_for(alloc, n)?;
        return Ok(Outputs::first(1, take_first(channels, from as u32, n, room)));
    }
    let mut rooms = rooms_owed(alloc, channels, gives, turns, from)?;
    let mut lists = Vec::with_capacity(alloc, gives.len())?;
    for k in 0..gives.len() {
        let c = (from + k) as u32;
        let n = owed_on(channels, c, gives[k], turns);
        let room = rooms[k].take();
        lists.push_reserved(take_first(channels, c, n, room));
    }
    Ok(Outputs::of(lists))
}

/// How many tokens a channel gives in so many iterations: all that it has, where these are fewer.
pub(crate) fn owed_on(channels: &Channels, c: u32, gives: usize, turns: usize) -> usize
    requires { c < length channels.now.lists }
    ensures { result ≡ min (turns * gives) (length (list_at channels.now.lists c)) }
{
    let held = channels.len(c);
    match turns.checked_mul(gives) {
        Some(owed) => owed.min(held),
        None => held,
    }
}

/// Room for what each of these channels gives.
fn rooms_owed(
    alloc: Global,
    channels: &Channels,
    gives: &[usize],
    turns: usize,
    from: usize,
) -> Result<Vec<Option<Vec<Token>>>, AllocError>
    requires few { length channels.now.lists < 2 ^ 32 }
    requires counted { from + length gives.now ≤ length channels.now.lists }
    ensures counted { IfOk result (λ rooms. length rooms.items ≡ length gives.now) }
    ensures made { IfOk result (λ rooms. (k : ℕ) → k < length gives.now → HasRoom (min (turns * get_or gives.now k 0) (length (list_at channels.now.lists (from + k)))) (get_or rooms.items k None)) }
{
    let mut rooms = Vec::with_capacity(alloc, gives.len())?;
    for k in 0..gives.len() {
        let room = room_for(alloc, owed_on(channels, (from + k) as u32, gives[k], turns))?;
        rooms.push_reserved(room);
    }
    Ok(rooms)
}
