ghost use Rattle.std.specs.Prelude.{◌≡◌, ℕ, ◌+◌, ◌-◌, ◌*◌, ◌^◌, ◌<◌, ◌≤◌, List, [], ◌∷◌, ◌++◌, length, map, slice_set, take, drop, get_or, OnOk, IfSome, IsTrue};
ghost use Rattle.pt_value.specs.declared.token.Token.{Token};
ghost use Rattle.pt_value.specs.declared.token.Token.TheVariants.{Int};
ghost use Rattle.pt_recv.specs.Lines.{list_at, spare_at};
ghost use Rattle.pt_meaning.specs.Kahn.{firsts};
ghost use Rattle.pt_meaning.specs.Rounds.{has_rates};
ghost use Rattle.pt_firing.specs.IntInputs.{one_at_each};
ghost use Rattle.pt_sdf_parts.specs.Feeds.{no_feed, target_of, put_back, AreThere, AreApart};
ghost use Rattle.pt_sdf_parts.specs.Lanes.{NeedsOneEach};
ghost use Rattle.pt_sdf_parts.specs.InFront.{AreInFront};

use crate::feeds::Feed;
use pt_firing::{IntInputs, IntRows};
use pt_recv::Channels;
use std::alloc::AllocError;

/// Whether the rates are those of an actor that gives so many tokens on its one port.
pub fn are_all_of_one(rates: &[usize], n: usize) -> bool
    ensures { (tokens : List Token) → length tokens ≡ n → result ≡ has_rates rates.now (tokens ∷ []) }
{
    rates.len() == 1 && rates[0] == n
}

/// The first `need` tokens of a channel, where they are integers that stand in front.
#[inline(always)]
pub fn numbers_in_front(channels: &Channels, c: u32, need: usize) -> Option<IntInputs<'_>>
    requires { c < length channels.now.lists }
    ensures { IfSome result (λ inputs. inputs ≡ take need (list_at channels.now.lists c) ∷ []) }
{
    let numbers = channels.numbers(c);
    if need > numbers.len() {
        return None;
    }
    Some(IntInputs::all_at_one(&numbers[..need]))
}

/// Whether the rates are those of an actor that gives so many tokens on its one port, and there are those of so many firings.
pub fn are_rows_of_one(rates: &[usize], rate: usize, firings: usize, n: usize) -> bool
    ensures rate { IsTrue result → rates.now ≡ rate ∷ [] }
    ensures all { IsTrue result → n ≡ firings * rate }
{
    rates.len() == 1 && rates[0] == rate && firings.checked_mul(rate) == Some(n)
}

/// What those of at most so many firings take, each of which needs so many tokens of a channel, where these are integers that stand in front.
#[inline(always)]
pub fn rows_in_front(channels: &Channels, c: u32, need: usize, most: usize) -> IntRows<'_>
    requires { c < length channels.now.lists }
    ensures { AreInFront need (list_at channels.now.lists c) result }
{
    let numbers = channels.numbers(c);
    let firings = most.min(times_within(numbers.len(), need));
    IntRows::at_one_place(numbers, need, firings)
}

/// How often so many are among `n`, and never where they are none.
fn times_within(n: usize, need: usize) -> usize
    ensures { result * need ≤ n }
{
    match need {
        0 => 0,
        1 => n,
        _ => n / need,
    }
}

/// Puts the first tokens of these channels into the buffer, where they are integers that stand in front, and memory suffices.
pub fn first_numbers(
    channels: &Channels,
    needs: &[usize],
    from: usize,
    n: usize,
    row: &mut Vec<i64>,
) -> bool
    requires few { length channels.now.lists < 2 ^ 32 }
    requires places { from + n ≤ length channels.now.lists }
    requires needed { from + n ≤ length needs.now }
    requires one { NeedsOneEach needs.now from n }
    ensures { IsTrue result → one_at_each row.new.items ≡ firsts (take n (drop from needs.now)) (take n (drop from channels.now.lists)) }
{
    row.clear();
    for k in 0..n {
        let numbers = channels.numbers((from + k) as u32);
        if numbers.is_empty() || row.push(numbers[0]).is_err() {
            return false;
        }
    }
    true
}

/// Makes room for so many tokens on each channel, so that the moves after it can't fail.
pub fn make_room(channels: &mut Channels, feeds: &[Feed], n: usize) -> Result<(), AllocError>
    requires there { AreThere (length channels.old.lists) 1 feeds.now }
    ensures lists { channels.new.lists ≡ channels.old.lists }
    ensures room { OnOk result ((k : ℕ) → k < length feeds.now → n ≤ spare_at channels.new.spares (get_or feeds.now k no_feed).channel) }
{
    for k in (0..feeds.len()).rev() {
        make_room_on(channels, feeds[k].channel, n)?;
    }
    Ok(())
}

/// Makes room for so many tokens on a channel.
fn make_room_on(channels: &mut Channels, c: u32, n: usize) -> Result<(), AllocError>
    requires { c < length channels.old.lists }
    ensures lists { channels.new.lists ≡ channels.old.lists }
    ensures room { OnOk result (n ≤ spare_at channels.new.spares c) }
    ensures keeps { (d : ℕ) → spare_at channels.old.spares d ≤ spare_at channels.new.spares d }
{
    channels.ready(c, n)
}

/// Puts the numbers on each channel, in room that was made.
pub fn put_on_each(channels: &mut Channels, feeds: &[Feed], numbers: &[i64])
    requires there { AreThere (length channels.old.lists) 1 feeds.now }
    requires apart { AreApart feeds.now }
    requires room { (k : ℕ) → k < length feeds.now → length numbers.now ≤ spare_at channels.old.spares (get_or feeds.now k no_feed).channel }
    ensures { channels.new.lists ≡ put_back (map target_of feeds.now) (map Int numbers.now ∷ []) channels.old.lists }
{
    for k in (0..feeds.len()).rev() {
        put_on_one(channels, feeds[k].channel, numbers);
    }
}

/// Puts the numbers on a channel, in room that was made. A single number is the common case, and a matter of one store.
#[inline(always)]
fn put_on_one(channels: &mut Channels, c: u32, numbers: &[i64])
    requires given { c < length channels.old.lists }
    requires room { length numbers.now ≤ spare_at channels.old.spares c }
    ensures lists { channels.new.lists ≡ slice_set channels.old.lists c (list_at channels.old.lists c ++ map Int numbers.now) }
    ensures spares { channels.new.spares ≡ slice_set channels.old.spares c (spare_at channels.old.spares c - length numbers.now) }
{
    match numbers {
        [number] => channels.put_number(c, *number),
        _ => channels.put_numbers(c, numbers),
    }
}
