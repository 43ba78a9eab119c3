ghost use Rattle.std.specs.Prelude.{◌≡◌, ℕ, ◌+◌, ◌<◌, ◌≤◌, length, get_or, IfOk, OnOk, IsTrue, None};
ghost use Rattle.pt_sdf_parts.specs.Rooms.{HasRoom, HaveRooms};

use pt_value::Token;
use std::alloc::{AllocError, Global};

/// Room for so many tokens. One or none needs no room.
#[inline(never)]
pub(crate) fn room_for(alloc: Global, n: usize) -> Result<Option<Vec<Token>>, AllocError>
    ensures { IfOk result (λ room. HasRoom n room) }
{
    if n < 2 {
        return Ok(None);
    }
    Ok(Some(Vec::with_capacity(alloc, n)?))
}

/// Room for each of these numbers of tokens.
pub fn rooms_for(alloc: Global, needs: &[usize]) -> Result<Vec<Option<Vec<Token>>>, AllocError>
    ensures counted { IfOk result (λ rooms. length rooms.items ≡ length needs.now) }
    ensures made { IfOk result (λ rooms. HaveRooms needs.now rooms.items 0 (length needs.now)) }
{
    let mut rooms = Vec::with_capacity(alloc, needs.len())?;
    for n in needs {
        let room = room_for(alloc, *n)?;
        rooms.push_reserved(room);
    }
    Ok(rooms)
}

/// Makes room again at `n` places from this one on. After an `Err` no place has less room than before.
#[inline(always)]
pub fn fill_rooms(
    alloc: Global,
    rooms: &mut Vec<Option<Vec<Token>>>,
    needs: &[usize],
    from: usize,
    n: usize,
) -> Result<(), AllocError>
    requires places { from + n ≤ length rooms.old.items }
    requires needed { from + n ≤ length needs.now }
    ensures counted { length rooms.new.items ≡ length rooms.old.items }
    ensures kept { (c : ℕ) → HasRoom (get_or needs.now c 0) (get_or rooms.old.items c None) → HasRoom (get_or needs.now c 0) (get_or rooms.new.items c None) }
    ensures made { OnOk result (HaveRooms needs.now rooms.new.items from n) }
{
    if n == 1 {
        // The common case, which needs no walk.
        return fill_room(alloc, &mut rooms[from], needs[from]);
    }
    for k in 0..n {
        let c = from + k;
        fill_room(alloc, &mut rooms[c], needs[c])?;
    }
    Ok(())
}

/// Makes room for so many tokens. Where none is needed and none is there, it stays so; after an `Err` there is no less than before.
#[inline(always)]
fn fill_room(alloc: Global, room: &mut Option<Vec<Token>>, n: usize) -> Result<(), AllocError>
    ensures kept { HasRoom n room.old → HasRoom n room.new }
    ensures made { OnOk result (HasRoom n room.new) }
{
    if n < 2 && room.is_none() {
        return Ok(());
    }
    refill(alloc, room, n)
}

/// Makes room for so many tokens. After an `Err` there is no less than before.
#[inline(never)]
fn refill(alloc: Global, room: &mut Option<Vec<Token>>, n: usize) -> Result<(), AllocError>
    ensures kept { HasRoom n room.old → HasRoom n room.new }
    ensures made { OnOk result (HasRoom n room.new) }
{
    if has_room(room, n) {
        return Ok(());
    }
    *room = room_for(alloc, n)?;
    Ok(())
}

/// Whether room for so many tokens is there.
fn has_room(room: &Option<Vec<Token>>, n: usize) -> bool
    ensures { IsTrue result → HasRoom n room.now }
{
    match room {
        Some(tokens) => n <= tokens.capacity() && tokens.is_empty(),
        None => n < 2,
    }
}
