// What a child gives that is one integer at most, on its one port: it comes to its channels in place.

ghost use Rattle.std.specs.Prelude.{◌≡◌, ◌↔◌, ◌<◌, [], ◌∷◌, length, get_or, IsTrue};

use crate::gifts::are_empty;
use crate::reaction::Reaction;
use pt_de_parts::tell_reader;
use pt_time::Tag;
use pt_value::Token;

impl Reaction {
    ghost use Rattle.pt_meaning.specs.Streams.{at};
    ghost use Rattle.pt_meaning.specs.Machine.{Known};
    ghost use Rattle.pt_value.specs.declared.token.Token.TheVariants.{Int};
    ghost use Rattle.pt_de_laws.specs.State.{Open, Waits, Over, after_told, after_heard};
    ghost use Rattle.pt_de_laws.specs.Chain.{with_tokens};
    ghost use Rattle.pt_de_due.specs.Due.{put};
    ghost use Rattle.pt_reaction.specs.Feeds.{targets};
    ghost use Rattle.pt_reaction.specs.Given.{put_on};
    ghost use Rattle.pt_de_reaction.specs.Reaction.{no_target};
    ghost use Rattle.pt_de_reaction.specs.Signals.{HasRoom, signal_of};

    /// Whether the first token on each port of a child takes no memory: no channel that it feeds has a token.
    #[inline(always)]
    pub fn has_room(&self, child: usize) -> bool
        requires { child < length self.now.state.plan.net.places }
        ensures { IsTrue result ↔ HasRoom self.now.state child }
    {
        are_empty(&self.channels, self.net.feeds(child))
    }

    /// Takes the integer, if any, that a child gave on its one port which was asked for its turn, and its wake. It takes no memory.
    #[inline(always)]
    pub fn told_signal(&mut self, child: usize, given: Option<i64>, wake: Option<Tag>)
        requires there { child < length self.old.state.plan.net.places }
        requires running { self.old.state.stage ≡ Open }
        requires over { get_or self.old.state.turns child Waits ≡ Over }
        requires room { HasRoom self.old.state child }
        ensures { self.new.state ≡ after_told child (signal_of given ∷ []) wake self.old.state }
    {
        self.set_wake(child, wake);
        if self.is_early(child) {
            return;
        }
        let Some(number) = given else {
            return;
        };
        self.give(child, number);
    }

    /// Takes the integer, if any, that a child gave early on its one port, which is all that is known of it. It takes no memory.
    #[inline(always)]
    pub fn hears_signal(&mut self, child: usize, early: Option<i64>)
        requires there { child < length self.old.state.plan.net.places }
        requires running { self.old.state.stage ≡ Open }
        requires waits { get_or self.old.state.turns child Over ≡ Waits }
        requires room { HasRoom self.old.state child }
        ensures { self.new.state ≡ after_heard child (Known (signal_of early) ∷ []) self.old.state }
    {
        self.note_answer(child);
        let Some(number) = early else {
            return;
        };
        self.give(child, number);
    }

    /// Puts an integer on each channel that the first port of a child feeds.
    #[inline(always)]
    fn give(&mut self, child: usize, number: i64)
        requires there { child < length self.old.state.plan.net.places }
        requires running { self.old.state.stage ≡ Open }
        requires room { HasRoom self.old.state child }
        ensures { self.new.state ≡ with_tokens (put_on (at ((Int number ∷ []) ∷ [])) (targets (length self.old.state.plan.net.places) child 0 self.old.state.plan.net.sources) self.old.state.tokens) self.old.state }
    {
        for k in 0..self.fed(child) {
            self.give_one(child, k, number);
        }
    }

    /// Puts an integer on the channel of the feed at a number, if its port is the first.
    #[inline(always)]
    fn give_one(&mut self, child: usize, k: usize, number: i64)
        requires there { child < length self.old.state.plan.net.places }
        requires feed { k < length (targets (length self.old.state.plan.net.places) child 0 self.old.state.plan.net.sources) }
        requires running { self.old.state.stage ≡ Open }
        requires empty { at self.old.state.tokens (get_or (targets (length self.old.state.plan.net.places) child 0 self.old.state.plan.net.sources) k no_target).channel ≡ [] }
        ensures { self.new.state ≡ with_tokens (put (get_or (targets (length self.old.state.plan.net.places) child 0 self.old.state.plan.net.sources) k no_target).channel (at ((Int number ∷ []) ∷ []) (get_or (targets (length self.old.state.plan.net.places) child 0 self.old.state.plan.net.sources) k no_target).port) self.old.state.tokens) self.old.state }
    {
        let feed = self.feed(child, k);
        if feed.port > 0 {
            return;
        }
        self.put_first(feed.channel as usize, Token::Int(number));
    }

    /// Puts the first token on a channel, and tells the child at whose place it ends.
    #[inline(always)]
    fn put_first(&mut self, channel: usize, token: Token)
        requires there { channel < length self.old.state.plan.net.sources }
        requires running { self.old.state.stage ≡ Open }
        requires empty { at self.old.state.tokens channel ≡ [] }
        ensures { self.new.state ≡ with_tokens (put channel (token ∷ []) self.old.state.tokens) self.old.state }
    {
        self.channels.put_first(channel, token);
        tell_reader(
            &self.net,
            &self.turns,
            &mut self.agenda,
            &mut self.last,
            channel,
        );
    }
}
