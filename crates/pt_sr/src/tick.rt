ghost use Rattle.std.specs.Prelude.{◌≡◌, ℕ, ◌<◌, length, get_or};
ghost use Rattle.pt_sr.specs.State.{unheard};

use crate::feeds::{Feed, feeds_of};
use crate::given::{deliver, stage_inputs, stage_outputs, stage_partial};
use crate::numbers::{give_number, int_inputs_of};
use crate::offsets::{offsets_of, unheard_of};
use crate::plan::CorePlan;
use crate::signals::{Signals, lower, lowered_flags, some_lists};
use crate::worklist::Worklist;
use pt_firing::{Counts, Inputs, IntInputs, Outputs, Partial, Tokens};
use std::alloc::{AllocError, Global};
use std::marker::Model;

/// A tick under way: what is known of each channel, and what the children have done.
#[derive(Drop)]
pub(crate) struct Tick {
    plan: CorePlan,
    /// Where the places of each child begin, and where those of all end.
    offsets: Vec<usize>,
    /// The channels that each child feeds, and behind them those that the own inputs feed.
    feeds: Vec<Vec<Feed>>,
    signals: Signals,
    fired: Vec<bool>,
    heard: Vec<usize>,
    // Room for what a row of feeds gives.
    staged: Vec<Option<Tokens>>,
}

impl Model for Tick {
    ghost use Rattle.pt_value.specs.declared.token.Token.{Token};
    ghost use Rattle.pt_value.specs.Token.{coded_token};
    ghost use Rattle.pt_sr.specs.State.{TickState};
    ghost use Rattle.pt_sr.specs.StateCode.{coded_tick};

    ghost Value = { TickState Token };

    ghost coded = { coded_tick };

    ghost use Rattle.pt_sr.specs.Tick.{seen_in, IsSound};

    ghost view = { seen_in };

    ghost invariant = { IsSound };
}

/// How a child stands.
#[derive(Clone, Copy, Debug)]
enum Look {
    Fired,
    /// It may fire.
    Ready,
    /// It may be asked for an early answer.
    Tells,
    /// Nothing is to be learnt of it now.
    Waits,
}

/// What comes next in a tick.
#[derive(Clone, Copy, Debug)]
pub(crate) enum Next {
    Fire(u32),
    Early(u32),
    Finished,
    Stuck,
}

impl Tick {
    ghost use Rattle.std.specs.Prelude.{◌≡◌, ℕ, ◌-◌, ◌^◌, ◌<◌, ◌≤◌, [], ◌∷◌, length, replicate, get_or, true, false, IfOk, IfSome, MatchOption, OnOk, OnErr, Option, Some, None};
    ghost use Rattle.pt_meaning.specs.Machine as machine;
    ghost use Rattle.pt_meaning.specs.Running.{total};
    ghost use Rattle.pt_meaning.specs.Valuation.{tokens_of};
    ghost use Rattle.pt_value.specs.declared.token.Token.TheVariants.{Int};
    ghost use Rattle.pt_sr.specs.Plan.{plan_of, IsLawful};
    ghost use Rattle.pt_sr.specs.State.{unbegun, restarted_tick, begun_tick, fired_tick, asked_tick, heard_tick, inputs_of, unknown_in, outlets_of, HasTold, MayTell};
    ghost use Rattle.pt_sr.specs.Tick.{LooksAt, IsPassed, IsSettled, Comes};

    /// The tick of this plan before anything is known.
    pub(crate) fn new(alloc: Global, plan: CorePlan) -> Result<Tick, AllocError>
        requires lawful { IsLawful (plan_of plan) plan.nonstrict.items plan.takes }
        ensures { IfOk result (λ tick. tick ≡ unbegun (plan_of plan) plan.nonstrict.items) }
    {
        let offsets = offsets_of(alloc, plan.places.as_slice())?;
        let feeds = feeds_of(alloc, &plan)?;
        let signals = Signals::unknown(alloc, plan.sources.len())?;
        let fired = lowered_flags(alloc, plan.places.len())?;
        let heard = unheard_of(alloc, plan.places.as_slice())?;
        Ok(Tick {
            offsets,
            feeds,
            signals,
            fired,
            heard,
            staged: Vec::new(alloc),
            plan,
        })
    }

    /// How many children there are.
    pub(crate) fn children(&self) -> usize
        ensures count { result ≡ length self.now.plan.net.places }
        ensures few { result < 2 ^ 32 }
    {
        self.plan.places.len()
    }

    /// How many places each child has.
    pub(crate) fn places(&self) -> &[usize]
        ensures { result.now ≡ self.now.plan.net.places }
    {
        self.plan.places.as_slice()
    }

    /// One for each own input.
    pub(crate) fn takes(&self) -> &Counts
        ensures { result.now ≡ replicate self.now.plan.inputs 1 }
    {
        &self.plan.takes
    }

    /// How many own outputs there are.
    pub(crate) fn outlets(&self) -> usize
        ensures { result ≡ length self.now.plan.net.sources - total self.now.plan.net.places }
    {
        let end = self.offsets[self.plan.places.len()];
        self.plan.sources.len() - end
    }

    /// Begins: the own inputs become known. After an `Err` the tick is as before.
    pub(crate) fn begin(
        &mut self,
        alloc: Global,
        inputs: &Inputs<'_>,
        worklist: &mut Worklist,
    ) -> Result<(), AllocError>
        requires { self.old ≡ restarted_tick self.old }
        ensures begun { OnOk result (self.new ≡ begun_tick inputs.now self.old) }
        ensures kept { OnErr result (self.new ≡ self.old) }
    {
        let row = &self.feeds[self.plan.places.len()];
        stage_inputs(alloc, &mut self.staged, row, inputs)?;
        deliver(&mut self.signals, worklist, &mut self.staged, row);
        Ok(())
    }

    /// Takes what the firing of a child gave. After an `Err` the tick is as before.
    pub(crate) fn told(
        &mut self,
        alloc: Global,
        child: usize,
        outputs: Outputs,
        worklist: &mut Worklist,
    ) -> Result<(), AllocError>
        requires { child < length self.old.plan.net.places }
        ensures told { OnOk result (self.new ≡ fired_tick child outputs self.old) }
        ensures kept { OnErr result (self.new ≡ self.old) }
    {
        let row = &self.feeds[child];
        stage_outputs(alloc, &mut self.staged, row, outputs)?;
        deliver(&mut self.signals, worklist, &mut self.staged, row);
        self.fired[child] = true;
        Ok(())
    }

    /// Takes the number that a child gave as the one token on its one port, which has fired by that. It takes no memory.
    #[inline(always)]
    pub(crate) fn told_number(&mut self, giver: usize, number: i64, worklist: &mut Worklist)
        requires { giver < length self.old.plan.net.places }
        ensures { self.new ≡ fired_tick giver ((Int number ∷ []) ∷ []) self.old }
    {
        let row = &self.feeds[giver];
        give_number(&mut self.signals, worklist, row, number);
        self.fired[giver] = true;
    }

    /// Notes that a child is asked for an early answer.
    pub(crate) fn listen(&mut self, child: usize)
        requires { child < length self.old.plan.net.places }
        ensures { self.new ≡ asked_tick child self.old }
    {
        self.heard[child] = self.unknown_of(child);
    }

    /// Takes what a child gave early. After an `Err` the tick is as before.
    pub(crate) fn hears(
        &mut self,
        alloc: Global,
        child: usize,
        early: &Partial,
        worklist: &mut Worklist,
    ) -> Result<(), AllocError>
        requires { child < length self.old.plan.net.places }
        ensures heard { OnOk result (self.new ≡ heard_tick child early.now self.old) }
        ensures kept { OnErr result (self.new ≡ self.old) }
    {
        let row = &self.feeds[child];
        stage_partial(alloc, &mut self.staged, row, early)?;
        deliver(&mut self.signals, worklist, &mut self.staged, row);
        Ok(())
    }

    /// The inputs of a child: none where it is absent or unknown.
    #[inline(always)]
    pub(crate) fn inputs(&self, child: usize) -> &[Tokens]
        requires { child < length self.now.plan.net.places }
        ensures { result.now ≡ tokens_of (inputs_of self.now child) }
    {
        let from = self.offsets[child];
        let n = self.plan.places.as_slice()[child];
        some_lists(self.signals.tokens(), from, n)
    }

    /// The inputs of a child, where each is one integer. `row` is a buffer.
    #[inline(always)]
    pub(crate) fn int_inputs<'a>(
        &'a self,
        child: usize,
        row: &'a mut Vec<i64>,
    ) -> Option<IntInputs<'a>>
        requires { child < length self.now.plan.net.places }
        ensures { IfSome result (λ inputs. inputs ≡ tokens_of (inputs_of self.now child)) }
    {
        int_inputs_of(self.inputs(child), row)
    }

    /// What is known of the inputs of a child.
    pub(crate) fn partial(&self, alloc: Global, child: usize) -> Result<Partial, AllocError>
        requires { child < length self.now.plan.net.places }
        ensures { IfOk result (λ partial. partial ≡ inputs_of self.now child) }
    {
        let from = self.offsets[child];
        let n = self.plan.places.as_slice()[child];
        self.signals.partial(alloc, from, n)
    }

    /// Takes out the own outputs and forgets all. After an `Err` the tick is as before.
    pub(crate) fn hand_out(&mut self, alloc: Global) -> Result<Outputs, AllocError>
        ensures given { IfOk result (λ outputs. outputs ≡ tokens_of (outlets_of self.old)) }
        ensures left { OnOk result (self.new ≡ restarted_tick self.old) }
        ensures kept { OnErr result (self.new ≡ self.old) }
    {
        let from = self.offsets[self.plan.places.len()];
        let outputs = self.signals.hand_out(alloc, from)?;
        lower(&mut self.fired);
        unhear(&mut self.heard, self.plan.places.as_slice());
        Ok(outputs)
    }

    /// Forgets all.
    pub(crate) fn forget(&mut self)
        ensures { self.new ≡ restarted_tick self.old }
    {
        self.signals.forget();
        lower(&mut self.fired);
        unhear(&mut self.heard, self.plan.places.as_slice());
    }

    pub(crate) fn copy(&self, alloc: Global) -> Result<Tick, AllocError>
        ensures { IfOk result (λ tick. tick ≡ self.now) }
    {
        let plan = self.plan.copy(alloc)?;
        let offsets = Vec::from_slice(alloc, &self.offsets)?;
        let feeds = feeds_of(alloc, &plan)?;
        let signals = self.signals.copy(alloc)?;
        let fired = Vec::from_slice(alloc, &self.fired)?;
        let heard = Vec::from_slice(alloc, &self.heard)?;
        Ok(Tick {
            offsets,
            feeds,
            signals,
            fired,
            heard,
            staged: Vec::new(alloc),
            plan,
        })
    }

    /// What comes next: a child from the worklist of which something is to be learnt, or else any. It looks at all children only where the worklist is empty.
    #[inline(always)]
    pub(crate) fn next(&self, worklist: &mut Worklist) -> Next
        ensures { Comes self.now result }
    {
        if let Some(child) = self.taken(worklist) {
            if let Some(next) = self.reacts(child) {
                return next;
            }
            worklist.wait(child, self.unknown_of(child as usize));
        }
        self.next_of(worklist)
    }

    /// The same, where the worklist has no such child in front.
    #[inline(never)]
    fn next_of(&self, worklist: &mut Worklist) -> Next
        ensures { Comes self.now result }
    {
        for _ in 0..worklist.len() {
            if let Some(child) = self.taken(worklist) {
                match self.reacts(child) {
                    Some(next) => return next,
                    None => worklist.wait(child, self.unknown_of(child as usize)),
                }
            }
        }
        self.scan()
    }

    /// Takes a child out of the worklist.
    #[inline(always)]
    fn taken(&self, worklist: &mut Worklist) -> Option<u32>
        ensures { IfSome result (λ child. child < length self.now.plan.net.places) }
    {
        let child = worklist.take()?;
        if (child as usize) < self.children() {
            return Some(child);
        }
        None
    }

    /// What comes next, by a look at the children.
    #[inline(never)]
    fn scan(&self) -> Next
        ensures { Comes self.now result }
    {
        match self.first_unfired() {
            Some(unfired) => self.first_reaction(unfired),
            None => Next::Finished,
        }
    }

    /// What comes of the first child that something comes of, where this one hasn't fired.
    fn first_reaction(&self, unfired: usize) -> Next
        requires there { unfired < length self.now.plan.net.places }
        requires unfired { get_or self.now.fired unfired false ≡ false }
        ensures { Comes self.now result }
    {
        for child in 0..self.children() {
            match self.reacts(child as u32) {
                Some(next) => return next,
                None => {}
            }
        }
        Next::Stuck
    }

    /// What may come of a child, if anything may.
    #[inline(always)]
    fn reacts(&self, child: u32) -> Option<Next>
        requires { child < length self.now.plan.net.places }
        ensures { MatchOption result (IsPassed self.now child) (λ next. Comes self.now next) }
    {
        match self.look(child as usize) {
            Look::Ready => Some(Next::Fire(child)),
            Look::Tells => Some(Next::Early(child)),
            Look::Fired => None,
            Look::Waits => None,
        }
    }

    /// The first child that hasn't fired.
    fn first_unfired(&self) -> Option<usize>
        ensures some { IfSome result (λ child. (child < length self.now.plan.net.places) × (get_or self.now.fired child false ≡ false)) }
        ensures none { result ≡ None → (i : ℕ) → i < length self.now.plan.net.places → get_or self.now.fired i false ≡ true }
    {
        for child in 0..self.fired.len() {
            let fired = self.fired[child];
            if !fired {
                return Some(child);
            }
        }
        None
    }

    #[inline(always)]
    fn look(&self, child: usize) -> Look
        requires { child < length self.now.plan.net.places }
        ensures { LooksAt self.now child result }
    {
        let fired = self.fired[child];
        if fired {
            return Look::Fired;
        }
        let unknown = self.unknown_of(child);
        if unknown == 0 {
            return Look::Ready;
        }
        let nonstrict = self.plan.nonstrict[child];
        if !nonstrict {
            return Look::Waits;
        }
        let heard = self.heard[child];
        if heard <= unknown {
            return Look::Waits;
        }
        let told = self.has_told(child);
        if told {
            return Look::Waits;
        }
        Look::Tells
    }

    /// How many inputs of a child are unknown.
    #[inline(always)]
    fn unknown_of(&self, child: usize) -> usize
        requires { child < length self.now.plan.net.places }
        ensures { result ≡ unknown_in (inputs_of self.now child) }
    {
        let from = self.offsets[child];
        let n = self.plan.places.as_slice()[child];
        self.signals.unknown_in(from, n)
    }

    /// Whether each channel that a child feeds is known.
    #[inline(never)]
    fn has_told(&self, child: usize) -> bool
        requires { child < length self.now.plan.net.places }
        ensures all { result ≡ true → HasTold self.now child }
        ensures some { result ≡ false → MayTell self.now child }
    {
        let row = &self.feeds[child];
        for k in 0..row.len() {
            let feed = row[k];
            let known = self.signals.is_known(feed.channel as usize);
            if !known {
                return false;
            }
        }
        true
    }
}

/// Sets for each child one more than its places.
fn unhear(heard: &mut Vec<usize>, places: &[usize])
    requires counted { length heard.old.items ≡ length places.now }
    requires small { (i : ℕ) → i < length places.now → get_or places.now i 0 < usize.MAX }
    ensures { heard.new.items ≡ unheard places.now }
{
    for child in 0..places.len() {
        heard[child] = places[child] + 1;
    }
}
