// Firings that take and give integers alone, of which no lists of tokens are made.

ghost use Rattle.std.specs.Prelude.{◌≡◌, ℕ, ◌<◌, [], ◌∷◌, length, map, get_or, slice_set, IfSome, IsTrue};
ghost use Rattle.pt_value.specs.declared.token.Token.TheVariants.{Int};
ghost use Rattle.pt_meaning.specs.Machine.{partial_at};
ghost use Rattle.pt_meaning.specs.Streams.{at};
ghost use Rattle.pt_firing.specs.IntInputs.{one_at_each};
ghost use Rattle.pt_sr.specs.State.{all_of, learnt};
ghost use Rattle.pt_sr.specs.Feeds.{no_feed, target_of};
ghost use Rattle.pt_sr.specs.Given.{learn_on};

use crate::feeds::Feed;
use crate::signals::Signals;
use crate::worklist::Worklist;
use pt_firing::{IntInputs, Tokens};
use pt_value::Token;
use std::slice;

/// What a child takes, where each list has one integer. `row` is a buffer for several.
#[inline(always)]
pub(crate) fn int_inputs_of<'a>(lists: &'a [Tokens], row: &'a mut Vec<i64>) -> Option<IntInputs<'a>>
    ensures { IfSome result (λ inputs. inputs ≡ lists.now) }
{
    if let [tokens] = lists {
        return alone(tokens);
    }
    if first_numbers(lists, row) {
        return Some(IntInputs::one_at_each(row));
    }
    None
}

/// The same of the only list.
#[inline(always)]
fn alone(tokens: &Tokens) -> Option<IntInputs<'_>>
    ensures { IfSome result (λ inputs. inputs ≡ tokens.now ∷ []) }
{
    match tokens.as_slice() {
        [Token::Int(number)] => Some(IntInputs::all_at_one(slice::from_ref(number))),
        _ => None,
    }
}

/// Puts the one integer of each list into the buffer, if each has one, and memory suffices.
#[inline(never)]
fn first_numbers(lists: &[Tokens], row: &mut Vec<i64>) -> bool
    ensures { IsTrue result → one_at_each row.new.items ≡ lists.now }
{
    row.clear();
    for k in 0..lists.len() {
        let Some(number) = number_of(&lists[k]) else {
            return false;
        };
        if row.push(number).is_err() {
            return false;
        }
    }
    true
}

/// The one integer of a list.
fn number_of(tokens: &Tokens) -> Option<i64>
    ensures { IfSome result (λ number. tokens.now ≡ Int number ∷ []) }
{
    match tokens.as_slice() {
        [Token::Int(number)] => Some(*number),
        _ => None,
    }
}

/// Gives a number to the channels of the feeds of the first port, and no token to those of others, where they are unknown, and wakes the children that read them.
#[inline(always)]
pub(crate) fn give_number(
    signals: &mut Signals,
    worklist: &mut Worklist,
    feeds: &[Feed],
    number: i64,
)
    requires there { (k : ℕ) → k < length feeds.now → (get_or feeds.now k no_feed).channel < length signals.old }
    ensures { signals.new ≡ learn_on (all_of ((Int number ∷ []) ∷ [])) (map target_of feeds.now) signals.old }
{
    match feeds {
        [feed] => give_to(signals, worklist, feed.channel, feed.port, number),
        _ => give_to_each(signals, worklist, feeds, number),
    }
}

/// The same of any number of feeds.
#[inline(never)]
fn give_to_each(signals: &mut Signals, worklist: &mut Worklist, feeds: &[Feed], number: i64)
    requires there { (k : ℕ) → k < length feeds.now → (get_or feeds.now k no_feed).channel < length signals.old }
    ensures { signals.new ≡ learn_on (all_of ((Int number ∷ []) ∷ [])) (map target_of feeds.now) signals.old }
{
    for k in 0..feeds.len() {
        give_to(signals, worklist, feeds[k].channel, feeds[k].port, number);
    }
}

/// The same of one feed.
#[inline(always)]
fn give_to(signals: &mut Signals, worklist: &mut Worklist, channel: u32, port: u32, number: i64)
    requires there { channel < length signals.old }
    ensures { signals.new ≡ slice_set signals.old channel (learnt (partial_at signals.old channel) (all_of ((Int number ∷ []) ∷ []) port)) }
{
    let news = signals.learn(channel as usize, Some(given(port, number)));
    worklist.note(channel, news);
}

/// What a child that gave a number on its first port gave on a port.
#[inline(always)]
fn given(port: u32, number: i64) -> Tokens
    ensures { result ≡ at ((Int number ∷ []) ∷ []) port }
{
    if port == 0 {
        Tokens::one(Token::Int(number))
    } else {
        Tokens::new()
    }
}
