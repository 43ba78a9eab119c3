// What comes next in a reaction, and what has come to the child that is asked.

ghost use Rattle.std.specs.Prelude.{◌≡◌, ◌<◌, ◌≤◌, ◌∷◌, length, get_or, false, IfOk};

use crate::reaction::{Next, Reaction};
use pt_de_parts::{Rows, partial_at};
use pt_firing::Partial;
use std::alloc::{AllocError, Global};

impl Reaction {
    ghost use Rattle.pt_de_laws.specs.State.{Open, Waits, Over, IsFirst, NoneIsDue, asked, in_stage, partial_of, inputs_of, rows_for};
    ghost use Rattle.pt_de_reaction.specs.Reaction.{Comes};

    /// What comes next: a child that is due, where none that is due is less deep; then the children with delays.
    #[inline(always)]
    pub fn next(&self) -> Next
        requires { self.now.state.stage ≡ Open }
        ensures { Comes self.now.state result }
    {
        match self.agenda.first() {
            Some(child) => self.of_due(child),
            None => self.next_last(),
        }
    }

    /// What comes of a child that is due and first.
    #[inline(always)]
    fn of_due(&self, child: usize) -> Next
        requires { IsFirst self.now.state child }
        ensures { Comes self.now.state result }
    {
        let number = self.number(child);
        if self.is_early(child) {
            Next::Early(number)
        } else {
            Next::Fire(number)
        }
    }

    /// What comes next where no child is due.
    #[inline(always)]
    fn next_last(&self) -> Next
        requires running { self.now.state.stage ≡ Open }
        requires none { NoneIsDue self.now.state }
        ensures { Comes self.now.state result }
    {
        match self.last.first() {
            Some(child) => Next::Fire(self.number(child)),
            None => Next::Finished,
        }
    }

    /// The number of a child as the core tells it.
    fn number(&self, child: usize) -> u32
        requires { child < length self.now.state.plan.net.places }
        ensures { result ≡ child }
    {
        let _few = self.net.children();
        child as u32
    }

    /// Takes what came to a child that is asked for its turn.
    #[inline(always)]
    pub fn take_turn(&mut self, child: usize, rows: &mut Rows)
        requires there { child < length self.old.state.plan.net.places }
        requires running { self.old.state.stage ≡ Open }
        requires room { get_or self.old.state.plan.net.places child 0 ≤ rows.old.width }
        ensures state { self.new.state ≡ in_stage Open (asked child self.old.state) }
        ensures over { get_or self.new.state.turns child Waits ≡ Over }
        ensures rows { rows.new.row ∷ rows.new.rest ≡ rows_for (get_or self.old.state.roles.whole child false) (inputs_of self.old.state child) }
        ensures width { rows.new.width ≡ rows.old.width }
    {
        let first = self.net.first(child);
        let end = self.net.behind(child);
        let whole = self.net.takes_whole(child);
        rows.take(&mut self.channels, first, end, whole);
        self.turns.end(child);
        self.agenda.remove(child);
        self.last.remove(child);
    }

    /// What is known of the inputs of a child that is asked for an early answer.
    pub fn partial(&self, alloc: Global, child: usize) -> Result<Partial, AllocError>
        requires { child < length self.now.state.plan.net.places }
        ensures { IfOk result (λ partial. partial ≡ partial_of self.now.state child) }
    {
        let first = self.net.first(child);
        let end = self.net.behind(child);
        partial_at(alloc, &self.net, &self.channels, first, end)
    }
}
