ghost use Rattle.std.specs.Prelude.{◌≡◌, ℕ, ◌+◌, ◌^◌, ◌<◌, ◌≤◌, ◌⊎◌, ◌++◌, [], ◌∷◌, length, take, drop, get_or, slice_set, Some, None, IfSome, vec_len, vec_capacity};
ghost use Rattle.pt_value.specs.declared.token.Token.TheVariants.{Int};
ghost use Rattle.pt_recv.specs.Lines.{list_at, popped};
ghost use Rattle.pt_meaning.specs.Kahn.{firsts};
ghost use Rattle.pt_sdf_parts.specs.ByNeed.{skip_at};
ghost use Rattle.pt_sdf_parts.specs.Rooms.{HasRoom, HaveRooms};

use pt_firing::Tokens;
use pt_recv::Channels;
use pt_value::Token;
use std::mem;

/// Takes the first `n` tokens of a channel into room that was made. It takes no memory.
pub(crate) fn take_first(
    channels: &mut Channels,
    c: u32,
    n: usize,
    room: Option<Vec<Token>>,
) -> Tokens
    requires given { c < length channels.old.lists }
    requires enough { n ≤ length (list_at channels.old.lists c) }
    requires room { HasRoom n room }
    ensures taken { result ≡ take n (list_at channels.old.lists c) }
    ensures lists { channels.new.lists ≡ slice_set channels.old.lists c (drop n (list_at channels.old.lists c)) }
{
    let Some(mut tokens) = room else {
        return take_one(channels, c, n);
    };
    for _ in 0..n {
        move_first(channels, c, &mut tokens);
    }
    Tokens::of(tokens)
}

/// Moves the first token of a channel behind those that are taken, where there is room.
fn move_first(channels: &mut Channels, c: u32, tokens: &mut Vec<Token>)
    requires given { c < length channels.old.lists }
    requires room { vec_len tokens.old < vec_capacity tokens.old }
    ensures taken { tokens.new.items ≡ tokens.old.items ++ take 1 (list_at channels.old.lists c) }
    ensures lists { channels.new.lists ≡ popped channels.old.lists c }
    ensures capacity { vec_capacity tokens.new ≡ vec_capacity tokens.old }
{
    if let Some(token) = channels.take(c) {
        tokens.push_reserved(token);
    }
}

/// Takes the first token of a channel, or none.
fn take_one(channels: &mut Channels, c: u32, n: usize) -> Tokens
    requires given { c < length channels.old.lists }
    requires few { n ≤ 1 }
    ensures taken { result ≡ take n (list_at channels.old.lists c) }
    ensures lists { channels.new.lists ≡ slice_set channels.old.lists c (drop n (list_at channels.old.lists c)) }
{
    if n == 0 {
        return Tokens::new();
    }
    match channels.take(c) {
        Some(token) => Tokens::one(token),
        None => Tokens::new(),
    }
}

/// Places from one on, up to another.
#[derive(Clone, Copy, Debug)]
pub struct Span {
    pub from: usize,
    pub to: usize,
}

impl Span {
    /// No place.
    pub const NONE: Span = Span { from: 0, to: 0 };
}

/// Takes what `n` places from this one on need, and lends it in the lists of these places.
#[inline(always)]
pub fn gather(
    channels: &mut Channels,
    rooms: &mut Vec<Option<Vec<Token>>>,
    lent: &mut Vec<Tokens>,
    heavy: &mut Span,
    needs: &[usize],
    from: usize,
    n: usize,
)
    requires few { length channels.old.lists < 2 ^ 32 }
    requires places { from + n ≤ length channels.old.lists }
    requires needed { from + n ≤ length needs.now }
    requires roomy { from + n ≤ length rooms.old.items }
    requires lists { from + n ≤ length lent.old.items }
    requires enough { (k : ℕ) → k < n → get_or needs.now (from + k) 0 ≤ length (list_at channels.old.lists (from + k)) }
    requires room { HaveRooms needs.now rooms.old.items from n }
    ensures lent { take n (drop from lent.new.items) ≡ firsts (take n (drop from needs.now)) (take n (drop from channels.old.lists)) }
    ensures left { channels.new.lists ≡ skip_at from (take n (drop from needs.now)) channels.old.lists }
    ensures others { (c : ℕ) → (c < from) ⊎ (from + n ≤ c) ⊎ (get_or needs.now c 0 ≤ 1) → get_or rooms.new.items c None ≡ get_or rooms.old.items c None }
    ensures rooms { length rooms.new.items ≡ length rooms.old.items }
    ensures counted { length lent.new.items ≡ length lent.old.items }
{
    lighten(lent, heavy);
    let all = Span { from, to: from + n };
    if n == 1 {
        // The common case, which needs no walk.
        lend(
            channels,
            from as u32,
            needs[from],
            &mut rooms[from],
            &mut lent[from],
            heavy,
            all,
        );
        return;
    }
    for k in 0..n {
        let c = from + k;
        lend(
            channels,
            c as u32,
            needs[c],
            &mut rooms[c],
            &mut lent[c],
            heavy,
            all,
        );
    }
}

/// Lets go of what was lent before, where it isn't numbers alone.
#[inline(always)]
pub fn lighten(lent: &mut Vec<Tokens>, heavy: &mut Span)
    ensures { length lent.new.items ≡ length lent.old.items }
{
    if heavy.from < heavy.to {
        clear(lent, *heavy);
        *heavy = Span::NONE;
    }
}

/// Lets go of what was lent at these places, and keeps the room for it.
#[inline(never)]
fn clear(lent: &mut Vec<Tokens>, span: Span)
    ensures { length lent.new.items ≡ length lent.old.items }
{
    for c in span.from..span.to.min(lent.len()) {
        lent[c].clear();
    }
}

/// Lends a number. What was lent at this place is a number or nothing, which has nothing to let go of.
#[inline(always)]
fn set_number(place: &mut Tokens, number: i64)
    ensures { place.new ≡ Int number ∷ [] }
{
    mem::forget(mem::replace(place, Tokens::one(Token::Int(number))));
}

/// Lends the first `n` tokens of a channel, in place of what was lent before. A single number is the common case, and is written in place.
/// Where it is anything else, all places of its child are heavy.
#[inline(always)]
fn lend(
    channels: &mut Channels,
    c: u32,
    n: usize,
    room: &mut Option<Vec<Token>>,
    place: &mut Tokens,
    heavy: &mut Span,
    all: Span,
)
    requires given { c < length channels.old.lists }
    requires enough { n ≤ length (list_at channels.old.lists c) }
    requires room { HasRoom n room.old }
    ensures taken { place.new ≡ take n (list_at channels.old.lists c) }
    ensures room { n ≤ 1 → room.new ≡ room.old }
    ensures lists { channels.new.lists ≡ slice_set channels.old.lists c (drop n (list_at channels.old.lists c)) }
{
    if n == 1 {
        if let Some(number) = channels.take_number(c) {
            set_number(place, number);
            return;
        }
    }
    *heavy = all;
    lend_any(channels, c, n, room, place);
}

/// The same for any number of tokens of any kind.
#[inline(never)]
fn lend_any(
    channels: &mut Channels,
    c: u32,
    n: usize,
    room: &mut Option<Vec<Token>>,
    place: &mut Tokens,
)
    requires given { c < length channels.old.lists }
    requires enough { n ≤ length (list_at channels.old.lists c) }
    requires room { HasRoom n room.old }
    ensures taken { place.new ≡ take n (list_at channels.old.lists c) }
    ensures room { n ≤ 1 → room.new ≡ room.old }
    ensures lists { channels.new.lists ≡ slice_set channels.old.lists c (drop n (list_at channels.old.lists c)) }
{
    if n < 2 {
        *place = take_one(channels, c, n);
        return;
    }
    *place = match room_again(place, n) {
        Some(tokens) => take_first(channels, c, n, Some(tokens)),
        None => take_first(channels, c, n, room.take()),
    };
}

/// The room that was lent at this place before, where it is enough for so many tokens.
fn room_again(place: &mut Tokens, n: usize) -> Option<Vec<Token>>
    ensures { IfSome result (λ room. HasRoom n (Some room)) }
{
    let room = place.take_room()?;
    if room.capacity() < n {
        return None;
    }
    Some(room)
}
