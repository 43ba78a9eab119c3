// What a child gives: once it was asked for its turn, or early.

ghost use Rattle.std.specs.Prelude.{◌≡◌, ◌<◌, length, get_or, false, OnOk, OnErr};

use crate::reaction::Reaction;
use pt_firing::{Outputs, Partial, Tokens};
use pt_reaction::{stage_outputs, stage_partial};
use pt_time::Tag;
use std::alloc::{AllocError, Global};

impl Reaction {
    ghost use Rattle.pt_meaning.specs.Streams.{at};
    ghost use Rattle.pt_de_laws.specs.State.{Open, Waits, Answered, Over, after_told, after_heard};
    ghost use Rattle.pt_de_due.specs.Due.{IsShaped, with_turn, with_wake};
    ghost use Rattle.pt_reaction.specs.Feeds.{targets};
    ghost use Rattle.pt_reaction.specs.Given.{known_on};
    ghost use Rattle.pt_de_reaction.specs.Reaction.{IsStaged};

    /// Takes what a child gave that was asked for its turn, and its wake. After an `Err` the reaction is as before.
    pub fn told(
        &mut self,
        alloc: Global,
        child: usize,
        outputs: Outputs,
        wake: Option<Tag>,
        staged: &mut Vec<Tokens>,
    ) -> Result<(), AllocError>
        requires there { child < length self.old.state.plan.net.places }
        requires running { self.old.state.stage ≡ Open }
        requires over { get_or self.old.state.turns child Waits ≡ Over }
        ensures told { OnOk result (self.new.state ≡ after_told child outputs wake self.old.state) }
        ensures kept { OnErr result (self.new.state ≡ self.old.state) }
    {
        if self.is_early(child) {
            self.set_wake(child, wake);
            return Ok(());
        }
        self.stage_given(alloc, child, outputs, staged)?;
        self.set_wake(child, wake);
        self.deliver(child, staged);
        Ok(())
    }

    /// Whether a child has delays, so that it answers early.
    #[inline(always)]
    pub(crate) fn is_early(&self, child: usize) -> bool
        requires { child < length self.now.state.plan.net.places }
        ensures { result ≡ get_or self.now.state.roles.early child false }
    {
        self.net.is_early(child)
    }

    /// Stages what a child gave.
    fn stage_given(
        &mut self,
        alloc: Global,
        child: usize,
        outputs: Outputs,
        staged: &mut Vec<Tokens>,
    ) -> Result<(), AllocError>
        requires { child < length self.old.state.plan.net.places }
        ensures state { self.new.state ≡ self.old.state }
        ensures shaped { IsShaped self.old.state }
        ensures staged { OnOk result (IsStaged (at outputs) (targets (length self.old.state.plan.net.places) child 0 self.old.state.plan.net.sources) staged.new.items self.new.spares) }
    {
        let feeds = self.net.feeds(child);
        stage_outputs(alloc, staged, &mut self.channels, feeds, outputs)
    }

    /// Gives a child that was asked for its turn a wake.
    #[inline(always)]
    pub(crate) fn set_wake(&mut self, child: usize, wake: Option<Tag>)
        requires there { child < length self.old.state.plan.net.places }
        requires running { self.old.state.stage ≡ Open }
        requires over { get_or self.old.state.turns child Waits ≡ Over }
        ensures state { self.new.state ≡ with_wake child wake self.old.state }
        ensures shaped { IsShaped self.old.state }
        ensures spares { self.new.spares ≡ self.old.spares }
    {
        self.agenda.set_wake(child, wake);
    }

    /// Takes what a child gave early. After an `Err` the reaction is as before.
    pub fn hears(
        &mut self,
        alloc: Global,
        child: usize,
        early: &Partial,
        staged: &mut Vec<Tokens>,
    ) -> Result<(), AllocError>
        requires there { child < length self.old.state.plan.net.places }
        requires running { self.old.state.stage ≡ Open }
        requires waits { get_or self.old.state.turns child Over ≡ Waits }
        ensures heard { OnOk result (self.new.state ≡ after_heard child early.now self.old.state) }
        ensures kept { OnErr result (self.new.state ≡ self.old.state) }
    {
        self.stage_early(alloc, child, early, staged)?;
        self.note_answer(child);
        self.deliver(child, staged);
        Ok(())
    }

    /// Stages what a child gave early.
    fn stage_early(
        &mut self,
        alloc: Global,
        child: usize,
        early: &Partial,
        staged: &mut Vec<Tokens>,
    ) -> Result<(), AllocError>
        requires { child < length self.old.state.plan.net.places }
        ensures state { self.new.state ≡ self.old.state }
        ensures shaped { IsShaped self.old.state }
        ensures staged { OnOk result (IsStaged (known_on early.now) (targets (length self.old.state.plan.net.places) child 0 self.old.state.plan.net.sources) staged.new.items self.new.spares) }
    {
        let feeds = self.net.feeds(child);
        stage_partial(alloc, staged, &mut self.channels, feeds, early)
    }

    /// Notes that a child has answered early.
    #[inline(always)]
    pub(crate) fn note_answer(&mut self, child: usize)
        requires there { child < length self.old.state.plan.net.places }
        requires running { self.old.state.stage ≡ Open }
        requires waits { get_or self.old.state.turns child Over ≡ Waits }
        ensures state { self.new.state ≡ with_turn child Answered self.old.state }
        ensures shaped { IsShaped self.old.state }
        ensures spares { self.new.spares ≡ self.old.spares }
    {
        self.turns.answer(child);
        self.agenda.remove(child);
        self.last.insert(child);
    }
}
