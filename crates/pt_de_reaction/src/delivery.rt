// The way of tokens from a row of feeds to the channels.

ghost use Rattle.std.specs.Prelude.{◌≡◌, ℕ, List, ◌<◌, ◌≤◌, [], ◌∷◌, ◌++◌, length, get_or, OnOk};
ghost use Rattle.pt_value.specs.declared.token.Token.{Token};

use crate::gifts::{next_gift, put_all};
use crate::reaction::Reaction;
use pt_de_parts::tell_reader;
use pt_firing::{Inputs, Tokens};
use pt_reaction::{Feed, stage_inputs};
use std::alloc::{AllocError, Global};

impl Reaction {
    ghost use Rattle.pt_meaning.specs.Streams.{at};
    ghost use Rattle.pt_value.specs.declared.token.Token.{Token};
    ghost use Rattle.pt_de_laws.specs.State.{Open};
    ghost use Rattle.pt_de_laws.specs.Chain.{with_tokens};
    ghost use Rattle.pt_de_laws.specs.Lawful.{IsLawful};
    ghost use Rattle.pt_de_due.specs.Due.{put};
    ghost use Rattle.pt_reaction.specs.Channels.{spare_at};
    ghost use Rattle.pt_reaction.specs.Feeds.{target_of, targets};
    ghost use Rattle.pt_reaction.specs.Given.{put_on};
    ghost use Rattle.pt_de_reaction.specs.Reaction.{IsStaged, no_target};

    /// Stages what comes to the own inputs.
    #[inline(never)]
    pub(crate) fn stage_own(
        &mut self,
        alloc: Global,
        inputs: &Inputs<'_>,
        staged: &mut Vec<Tokens>,
    ) -> Result<(), AllocError>
        ensures state { self.new.state ≡ self.old.state }
        ensures lawful { IsLawful self.old.state.plan self.old.state.roles }
        ensures staged { OnOk result (IsStaged (at inputs.now) (targets (length self.old.state.plan.net.places) (length self.old.state.plan.net.places) 0 self.old.state.plan.net.sources) staged.new.items self.new.spares) }
    {
        let net = &self.net;
        let feeds = net.feeds(net.children());
        stage_inputs(alloc, staged, &mut self.channels, feeds, inputs)
    }

    /// Moves what was staged to the channels of a row of feeds.
    #[inline(never)]
    pub(crate) fn deliver(&mut self, row: usize, staged: &mut Vec<Tokens>)
        requires there { row ≤ length self.old.state.plan.net.places }
        requires running { self.old.state.stage ≡ Open }
        requires staged { (given : ℕ → List Token) × IsStaged given (targets (length self.old.state.plan.net.places) row 0 self.old.state.plan.net.sources) staged.old.items self.old.spares }
        ensures { (given : ℕ → List Token) → IsStaged given (targets (length self.old.state.plan.net.places) row 0 self.old.state.plan.net.sources) staged.old.items self.old.spares → self.new.state ≡ with_tokens (put_on given (targets (length self.old.state.plan.net.places) row 0 self.old.state.plan.net.sources) self.old.state.tokens) self.old.state }
    {
        for k in 0..self.fed(row) {
            self.deliver_one(row, k, staged);
        }
    }

    /// Moves what was staged last to the channel of the feed at a number.
    fn deliver_one(&mut self, row: usize, k: usize, staged: &mut Vec<Tokens>)
        requires there { row ≤ length self.old.state.plan.net.places }
        requires feed { k < length (targets (length self.old.state.plan.net.places) row 0 self.old.state.plan.net.sources) }
        requires running { self.old.state.stage ≡ Open }
        requires staged { (rest : List (List Token)) × (gift : List Token) × (staged.old.items ≡ rest ++ gift ∷ []) × (length gift ≤ spare_at self.old.spares (get_or (targets (length self.old.state.plan.net.places) row 0 self.old.state.plan.net.sources) k no_target).channel) }
        ensures state { (rest : List (List Token)) (gift : List Token) → staged.old.items ≡ rest ++ gift ∷ [] → self.new.state ≡ with_tokens (put (get_or (targets (length self.old.state.plan.net.places) row 0 self.old.state.plan.net.sources) k no_target).channel gift self.old.state.tokens) self.old.state }
        ensures staged { (rest : List (List Token)) (gift : List Token) → staged.old.items ≡ rest ++ gift ∷ [] → staged.new.items ≡ rest }
        ensures others { (d : ℕ) → (d ≡ (get_or (targets (length self.old.state.plan.net.places) row 0 self.old.state.plan.net.sources) k no_target).channel → ⊥) → spare_at self.new.spares d ≡ spare_at self.old.spares d }
    {
        let feed = self.feed(row, k);
        let gift = next_gift(staged);
        self.put(feed.channel as usize, gift);
    }

    /// How many channels a row feeds.
    #[inline(always)]
    pub(crate) fn fed(&self, row: usize) -> usize
        requires { row ≤ length self.now.state.plan.net.places }
        ensures { result ≡ length (targets (length self.now.state.plan.net.places) row 0 self.now.state.plan.net.sources) }
    {
        self.net.feeds(row).len()
    }

    /// The feed at a number.
    pub(crate) fn feed(&self, row: usize, k: usize) -> Feed
        requires there { row ≤ length self.now.state.plan.net.places }
        requires feed { k < length (targets (length self.now.state.plan.net.places) row 0 self.now.state.plan.net.sources) }
        ensures feed { target_of result ≡ get_or (targets (length self.now.state.plan.net.places) row 0 self.now.state.plan.net.sources) k no_target }
        ensures there { result.channel < length self.now.state.plan.net.sources }
    {
        self.net.feeds(row)[k]
    }

    /// Puts tokens behind the others of a channel, and tells the child at whose place it ends.
    fn put(&mut self, channel: usize, tokens: Tokens)
        requires there { channel < length self.old.state.plan.net.sources }
        requires running { self.old.state.stage ≡ Open }
        requires room { length tokens ≤ spare_at self.old.spares channel }
        ensures state { self.new.state ≡ with_tokens (put channel tokens self.old.state.tokens) self.old.state }
        ensures others { (d : ℕ) → (d ≡ channel → ⊥) → spare_at self.new.spares d ≡ spare_at self.old.spares d }
    {
        if tokens.is_empty() {
            return;
        }
        put_all(&mut self.channels, channel, tokens);
        tell_reader(
            &self.net,
            &self.turns,
            &mut self.agenda,
            &mut self.last,
            channel,
        );
    }
}
