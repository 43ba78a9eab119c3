ghost use Rattle.std.specs.Prelude.{◌≡◌, ◌↔◌, ℕ, List, ◌<◌, ◌≤◌, [], ◌∷◌, ◌++◌, length, get_or, IsTrue};
ghost use Rattle.pt_meaning.specs.Streams.{at};
ghost use Rattle.pt_de_due.specs.Due.{put};
ghost use Rattle.pt_reaction.specs.Channels.{spare_at};
ghost use Rattle.pt_reaction.specs.Feeds.{no_feed};
ghost use Rattle.pt_value.specs.declared.token.Token.{Token};

use pt_firing::Tokens;
use pt_reaction::{Channels, Feed};

/// What was staged last.
pub(crate) fn next_gift(staged: &mut Vec<Tokens>) -> Tokens
    ensures { (rest : List (List Token)) (gift : List Token) → staged.old.items ≡ rest ++ gift ∷ [] → (result ≡ gift) × (staged.new.items ≡ rest) }
{
    match staged.pop() {
        Some(gift) => gift,
        None => Tokens::new(),
    }
}

/// Puts tokens behind the others of a channel.
pub(crate) fn put_all(channels: &mut Channels, channel: usize, tokens: Tokens)
    requires there { channel < length channels.old.lists }
    requires room { length tokens ≤ spare_at channels.old.spares channel }
    ensures lists { channels.new.lists ≡ put channel tokens channels.old.lists }
    ensures others { (d : ℕ) → (d ≡ channel → ⊥) → spare_at channels.new.spares d ≡ spare_at channels.old.spares d }
{
    for token in tokens {
        channels.put(channel, token);
    }
}

/// Whether the channels of some feeds have no token.
pub(crate) fn are_empty(channels: &Channels, feeds: &[Feed]) -> bool
    requires { (k : ℕ) → k < length feeds.now → (get_or feeds.now k no_feed).channel < length channels.now.lists }
    ensures { IsTrue result ↔ ((k : ℕ) → k < length feeds.now → at channels.now.lists (get_or feeds.now k no_feed).channel ≡ []) }
{
    for k in 0..feeds.len() {
        if !channels.is_empty(feeds[k].channel as usize) {
            return false;
        }
    }
    true
}
