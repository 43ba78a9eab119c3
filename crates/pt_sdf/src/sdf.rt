ghost use Rattle.std.specs.Prelude.{◌≡◌, ◌↔◌, ◌<◌, length, IfOk, IsTrue, OnOk, OnErr, Option, Some};

use pt_firing::{Ask, Counts, Inputs, IntInputs, Outputs, RunFault, Tokens};
use pt_recv::{Channels, Queue};
use pt_sdf_parts::{
    CorePlan, Inlet, Span, Tables, copies_of, first_numbers, gather, hand_out, iterations, lighten,
    numbers_in_front, rooms_for, scatter, turns_of, use_up,
};
use pt_time::Tag;
use pt_value::Token;
use std::alloc::{AllocError, Global};
use std::marker::Model;

mod bare;
mod made;
mod stretch;
mod telling;

use made::{at_first, copied_ready, parts_again};

/// The tag of a core that hasn't begun.
const ORIGIN: Tag = Tag { time: 0, step: 0 };

/// Where a firing of the composite stands.
#[derive(Clone, Copy, Debug)]
pub(crate) enum Stage {
    Idle,
    Open,
    /// The inputs of this child still stand on their channels.
    Asked(u32),
    /// They were moved to their lent lists.
    Handed(u32),
    Wrong(u32),
    Closed,
}

impl Stage {
    ghost use Rattle.std.specs.Prelude.{◌≡◌};
    ghost use Rattle.pt_sdf.specs.Core.{unmoved};

    /// At how many of the `n` places of the child that was asked for its tokens still stand on the channels.
    fn unmoved(self, n: usize) -> usize
        ensures { result ≡ unmoved self n }
    {
        match self {
            Stage::Asked(_) => n,
            Stage::Idle | Stage::Open | Stage::Handed(_) | Stage::Wrong(_) | Stage::Closed => 0,
        }
    }
}

/// The core of an SDF composite. It never calls a child: it asks for firings and is told what they gave.
///
/// A firing of the composite is `begin`, then `ask` and `told` in turn, and at `Finished` the call `finish`.
/// Between `ask` and `told` the inputs of the child may be looked at: as integers by `int_inputs`, or, once `hand` has moved them, as tokens by `lent`.
pub struct Core {
    plan: CorePlan,
    tables: Tables,
    first: Channels,
    channels: Channels,
    // Room for the tokens of each place of each child that needs several, until the first firing of the child lends it.
    rooms: Vec<Option<Vec<Token>>>,
    // What was lent last at each place of each child.
    lent: Vec<Tokens>,
    // At these places something else than a number may be lent, which is to be let go of.
    heavy: Span,
    staged: Queue,
    tag: Tag,
    turns: usize,
    // The iterations that aren't finished; and of the first of these the stretch that is under way, and how many of its firings were asked for and told.
    left: usize,
    at: usize,
    done: u32,
    stage: Stage,
}

// Written by hand, so that letting go of a core is one call in the proofs above.
impl Drop for Core {
    fn drop(self) {
        let Core {
            plan: _,
            tables: _,
            first: _,
            channels: _,
            rooms: _,
            lent: _,
            heavy: _,
            staged: _,
            tag: _,
            turns: _,
            left: _,
            at: _,
            done: _,
            stage: _,
        } = self;
    }
}

impl Model for Core {
    ghost use Rattle.pt_value.specs.Token.{coded_token};
    ghost use Rattle.pt_sdf.specs.Clauses.{State};
    ghost use Rattle.pt_sdf.specs.StateCode.{coded_state};

    ghost Value = { State };

    ghost coded = { coded_state coded_token };

    ghost use Rattle.pt_sdf.specs.Core.{seen_in, IsWhole};

    ghost view = { seen_in };

    ghost invariant = { IsWhole };
}

impl Core {
    ghost use Rattle.std.specs.Prelude.{◌≡◌, ◌↔◌, ◌<◌, [], length, IfOk, IfSome, IsSome, IsTrue, OnOk, OnErr, Option, Some, None};
    ghost use Rattle.pt_meaning.specs.Kahn.{firsts};
    ghost use Rattle.pt_sdf.specs.State.{Idle, Open, Closed, asked_child, lent_in, handed, started, restarted, begun, closed, owed, own_of, IsHanded};
    ghost use Rattle.pt_sdf.specs.Clauses.{MayAsk, IsAsked};
    ghost use Rattle.pt_sdf_parts.specs.Plan.{plan_of, order_of};
    ghost use Rattle.pt_sdf_parts.specs.Lawful.{IsLawful};

    /// A core of this plan, with these first tokens on its channels.
    pub fn new(alloc: Global, plan: CorePlan, first: Channels) -> Result<Core, AllocError>
        requires lawful { IsLawful (plan_of plan) plan.needs (order_of plan) plan.room first.lists }
        ensures { IfOk result (λ core. core ≡ started (plan_of plan) plan.needs first.lists) }
    {
        match at_first(alloc, &plan, &first) {
            Ok((made, lent)) => Ok(Core {
                tables: made.tables,
                channels: made.channels,
                rooms: made.rooms,
                lent,
                heavy: Span::NONE,
                staged: Queue::new(alloc),
                tag: ORIGIN,
                turns: 0,
                left: 0,
                at: 0,
                done: 0,
                stage: Stage::Idle,
                first,
                plan,
            }),
            // Let go by calls, which keeps what that takes out of the proof.
            Err(fault) => {
                drop(first);
                drop(plan);
                Err(fault)
            }
        }
    }

    /// Begins a firing of the composite at a tag, on a list for each own input. After an `Err` the core is as before.
    pub fn begin(&mut self, alloc: Global, tag: Tag, inputs: &Inputs<'_>) -> Result<(), AllocError>
        requires idle { self.old.stage ≡ Idle }
        requires inputs { length inputs.now ≡ length self.old.plan.takes }
        ensures begun { OnOk result (self.new ≡ begun tag inputs.now self.old) }
        ensures kept { OnErr result (self.new ≡ self.old) }
    {
        let arrived = copies_of(alloc, inputs)?;
        let arrivals = &self.tables.feeds[self.plan.places.len()];
        scatter(
            alloc,
            &mut self.channels,
            &mut self.staged,
            arrivals,
            arrived,
            &[],
            0,
            0,
        )?;
        self.turns = iterations(&self.channels, arrivals, self.plan.takes.as_slice());
        self.left = turns_of(&self.plan.order, self.turns);
        self.at = 0;
        self.done = 0;
        self.tag = tag;
        self.stage = Stage::Open;
        Ok(())
    }

    /// What comes next. It takes no memory and moves no token.
    #[inline(always)]
    pub fn ask(&mut self) -> Ask
        requires { MayAsk self.old.stage }
        ensures { IsAsked self.old result self.new }
    {
        match self.stage {
            Stage::Wrong(child) => Ask::Faulted(RunFault::Rate, Some(child)),
            Stage::Open => self.ask_next(),
            Stage::Idle | Stage::Asked(_) | Stage::Handed(_) | Stage::Closed => unreachable!(),
        }
    }

    #[inline(always)]
    fn ask_next(&mut self) -> Ask
        requires { self.old.stage ≡ Open }
        ensures { IsAsked self.old result self.new }
    {
        if self.left == 0 {
            self.stage = Stage::Closed;
            return Ask::Finished;
        }
        let child = self.plan.order[self.at].child;
        self.stage = Stage::Asked(child);
        Ask::Fire(child, self.tag)
    }

    /// The inputs of the child just asked for, where they are integers that stand in front of their channels: one at each place, for which `row` is a buffer, or some at its only place.
    /// No token is made or moved. `None` says nothing of the inputs.
    #[inline(always)]
    pub fn int_inputs<'a>(&'a self, row: &'a mut Vec<i64>) -> Option<IntInputs<'a>>
        requires { IsSome (asked_child self.now.stage) }
        ensures { IfSome result (λ inputs. inputs ≡ lent_in self.now.stage) }
    {
        let Stage::Asked(child) = self.stage else {
            return None;
        };
        match self.tables.lanes[child as usize].inlet {
            Inlet::Alone(c, need) => numbers_in_front(&self.channels, c, need),
            Inlet::Nothing => Some(IntInputs::one_at_each(&[])),
            Inlet::Each => {
                let from = self.tables.offsets[child as usize];
                let n = self.plan.places.as_slice()[child as usize];
                if first_numbers(&self.channels, self.plan.needs.as_slice(), from, n, row) {
                    return Some(IntInputs::one_at_each(row));
                }
                None
            }
            Inlet::Several => None,
        }
    }

    /// Moves the inputs of the child just asked for out of their channels, so that they can be lent. It takes no memory.
    pub fn hand(&mut self)
        requires { IsSome (asked_child self.old.stage) }
        ensures { self.new ≡ handed self.old }
    {
        if let Stage::Asked(child) = self.stage {
            let from = self.tables.offsets[child as usize];
            let n = self.plan.places.as_slice()[child as usize];
            gather(
                &mut self.channels,
                &mut self.rooms,
                &mut self.lent,
                &mut self.heavy,
                self.plan.needs.as_slice(),
                from,
                n,
            );
            self.stage = Stage::Handed(child);
        }
    }

    /// The inputs of the child just asked for, once they were handed over. It takes no memory.
    pub fn lent(&self) -> Inputs<'_>
        requires { IsHanded self.now.stage }
        ensures { result ≡ lent_in self.now.stage }
    {
        match self.stage {
            Stage::Handed(child) => {
                let from = self.tables.offsets[child as usize];
                let n = self.plan.places.as_slice()[child as usize];
                Inputs::of(&self.lent[from..from + n])
            }
            Stage::Idle | Stage::Open | Stage::Asked(_) | Stage::Wrong(_) | Stage::Closed => {
                unreachable!()
            }
        }
    }

    /// Hands out the own outputs, and lets go of what the iterations take from own inputs that feed nothing. After an `Err` the core is as before.
    pub fn finish(&mut self, alloc: Global) -> Result<Outputs, AllocError>
        requires { self.old.stage ≡ Closed }
        ensures core { OnOk result (self.new ≡ closed self.old) }
        ensures given { IfOk result (λ outputs. outputs ≡ firsts (owed self.old) (own_of self.old)) }
        ensures kept { OnErr result (self.new ≡ self.old) }
    {
        // Each place of a child has a list that it lends, and a channel; behind these are the channels to the own outputs.
        let from = self.lent.len();
        let outputs = hand_out(
            alloc,
            &mut self.channels,
            self.plan.gives.as_slice(),
            self.turns,
            from,
        )?;
        use_up(
            &mut self.channels,
            &self.plan.sources,
            self.plan.takes.as_slice(),
            self.turns,
            from + self.plan.gives.len(),
        );
        self.stage = Stage::Idle;
        Ok(outputs)
    }

    /// Brings back the core's start. After an `Err` the core is as before.
    pub fn reset(&mut self, alloc: Global) -> Result<(), AllocError>
        ensures reset { OnOk result (self.new ≡ restarted self.old) }
        ensures kept { OnErr result (self.new ≡ self.old) }
    {
        let rooms = rooms_for(alloc, self.plan.needs.as_slice())?;
        self.channels = copied_ready(alloc, &self.first, self.plan.room.as_slice())?;
        self.rooms = rooms;
        self.tag = ORIGIN;
        self.turns = 0;
        self.left = 0;
        self.at = 0;
        self.done = 0;
        self.stage = Stage::Idle;
        Ok(())
    }

    /// Another core in the same state.
    pub fn copy(&self, alloc: Global) -> Result<Core, AllocError>
        ensures { IfOk result (λ core. core ≡ self.now) }
    {
        let plan = self.plan.copy(alloc)?;
        match parts_again(alloc, &plan, &self.first, &self.channels, &self.lent) {
            Ok(copied) => Ok(Core {
                tables: copied.made.tables,
                channels: copied.made.channels,
                rooms: copied.made.rooms,
                lent: copied.lent,
                heavy: self.heavy,
                staged: Queue::new(alloc),
                tag: self.tag,
                turns: self.turns,
                left: self.left,
                at: self.at,
                done: self.done,
                stage: self.stage,
                first: copied.first,
                plan,
            }),
            Err(fault) => {
                drop(plan);
                Err(fault)
            }
        }
    }

    /// Whether no firing of the composite is under way.
    pub fn is_idle(&self) -> bool
        ensures { IsTrue result ↔ (self.now.stage ≡ Idle) }
    {
        matches!(self.stage, Stage::Idle)
    }

    /// How often each child fires in an iteration.
    pub fn repetitions(&self) -> &Counts
        ensures { result.now ≡ self.now.plan.repetitions }
    {
        &self.plan.repetitions
    }

    /// How many tokens an iteration takes from each own input.
    pub fn takes(&self) -> &Counts
        ensures { result.now ≡ self.now.plan.takes }
    {
        &self.plan.takes
    }

    /// How many tokens an iteration gives on each own output.
    pub fn gives(&self) -> &Counts
        ensures { result.now ≡ self.now.plan.gives }
    {
        &self.plan.gives
    }
}
