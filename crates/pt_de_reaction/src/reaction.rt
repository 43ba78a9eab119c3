ghost use Rattle.std.specs.Prelude.{◌≡◌, length, IfOk, OnOk, OnErr};

use pt_de_parts::{Agenda, Net, Turns, own_outputs};
use pt_firing::{Inputs, Outputs, Tokens};
use pt_reaction::Channels;
use pt_time::Tag;
use pt_wakes::DueChildren;
use std::alloc::{AllocError, Global};
use std::marker::Model;

/// The tag where no reaction is under way.
const ORIGIN: Tag = Tag { time: 0, step: 0 };

/// A reaction at a tag: what each channel has, and what the children have done.
pub struct Reaction {
    pub(crate) net: Net,
    pub(crate) agenda: Agenda,
    // The children that fire after all others.
    pub(crate) last: DueChildren,
    pub(crate) turns: Turns,
    pub(crate) channels: Channels,
    tag: Tag,
    under_way: bool,
}

// Written by hand, so that letting go of a reaction is one call in the proofs above.
impl Drop for Reaction {
    fn drop(self) {
        let Reaction {
            net: _,
            agenda: _,
            last: _,
            turns: _,
            channels: _,
            tag: _,
            under_way: _,
        } = self;
    }
}

impl Model for Reaction {
    ghost use Rattle.pt_de_reaction.specs.Reaction.{Flow, coded_flow, flow_in, IsReaction};

    ghost Value = { Flow };

    ghost coded = { coded_flow };

    ghost view = { flow_in };

    ghost invariant = { IsReaction };
}

/// What comes next in a reaction.
#[derive(Clone, Copy, Debug)]
pub enum Next {
    Fire(u32),
    Early(u32),
    Finished,
}

impl Reaction {
    ghost use Rattle.pt_meaning.specs.Tag as tags;
    ghost use Rattle.pt_de_laws.specs.State.{Idle, Open, IsOver, started, restarted, begun, closed, own_of};
    ghost use Rattle.pt_de_laws.specs.Lawful.{IsLawful};
    ghost use Rattle.pt_de_due.specs.Due.{opened};

    /// No reaction, of children at their start.
    pub fn new(alloc: Global, net: Net) -> Result<Reaction, AllocError>
        requires { IsLawful net.plan net.roles }
        ensures { IfOk result (λ reaction. reaction.state ≡ started net.plan net.roles) }
    {
        let agenda = Agenda::new(alloc, net.starts(), net.depths())?;
        let last = DueChildren::new(alloc, net.depths())?;
        let turns = Turns::new(alloc, net.children())?;
        let channels = Channels::new(alloc, net.channels())?;
        Ok(Reaction {
            net,
            agenda,
            last,
            turns,
            channels,
            tag: ORIGIN,
            under_way: false,
        })
    }

    /// The tag of the reaction.
    pub fn tag(&self) -> Tag
        ensures { result ≡ self.now.state.tag }
    {
        self.tag
    }

    /// The depth of each child: of two that are due in one reaction the one of less depth has its turn first.
    pub fn depths(&self) -> &[u32]
        ensures { result.now ≡ self.now.state.roles.depths }
    {
        self.net.depths()
    }

    /// Begins a reaction with the tokens of the own inputs. After an `Err` it is as before. `staged` is a buffer.
    #[inline(always)]
    pub fn begin(
        &mut self,
        alloc: Global,
        tag: Tag,
        inputs: &Inputs<'_>,
        staged: &mut Vec<Tokens>,
    ) -> Result<(), AllocError>
        requires { self.old.state.stage ≡ Idle }
        ensures begun { OnOk result (self.new.state ≡ begun tag inputs.now self.old.state) }
        ensures kept { OnErr result (self.new.state ≡ self.old.state) }
    {
        let row = self.children();
        if self.fed(row) == 0 {
            self.start(tag);
            return Ok(());
        }
        self.stage_own(alloc, inputs, staged)?;
        self.start(tag);
        self.deliver(row, staged);
        Ok(())
    }

    /// How many children there are.
    #[inline(always)]
    pub(crate) fn children(&self) -> usize
        ensures { result ≡ length self.now.state.plan.net.places }
    {
        self.net.children()
    }

    /// Begins a reaction to which nothing has come yet.
    #[inline(always)]
    fn start(&mut self, tag: Tag)
        requires { self.old.state.stage ≡ Idle }
        ensures state { self.new.state ≡ opened tag self.old.state }
        ensures lawful { IsLawful self.old.state.plan self.old.state.roles }
        ensures spares { self.new.spares ≡ self.old.spares }
    {
        self.agenda.wake(tag);
        self.tag = tag;
        self.under_way = true;
    }

    /// Hands out the own outputs, and ends the reaction. After an `Err` it is as before.
    #[inline(always)]
    pub fn hand_out(&mut self, alloc: Global) -> Result<Outputs, AllocError>
        requires running { self.old.state.stage ≡ Open }
        requires over { IsOver self.old.state }
        ensures state { OnOk result (self.new.state ≡ closed self.old.state) }
        ensures given { IfOk result (λ outputs. outputs ≡ own_of self.old.state) }
        ensures kept { OnErr result (self.new.state ≡ self.old.state) }
    {
        let outputs = own_outputs(
            alloc,
            &mut self.channels,
            self.net.end(),
            self.net.channels(),
        )?;
        self.channels.clear();
        self.turns.clear();
        self.tag = ORIGIN;
        self.under_way = false;
        Ok(outputs)
    }

    /// The least wake.
    pub fn least(&self) -> Option<Tag>
        requires { self.now.state.stage ≡ Idle }
        ensures { result ≡ tags.least self.now.state.wakes }
    {
        self.agenda.least()
    }

    /// Brings back the start. After an `Err` it is as before.
    pub fn reset(&mut self, alloc: Global) -> Result<(), AllocError>
        ensures reset { OnOk result (self.new.state ≡ restarted self.old.state) }
        ensures kept { OnErr result (self.new.state ≡ self.old.state) }
    {
        let agenda = Agenda::new(alloc, self.net.starts(), self.net.depths())?;
        let last = DueChildren::new(alloc, self.net.depths())?;
        self.agenda = agenda;
        self.last = last;
        self.channels.clear();
        self.turns.clear();
        self.tag = ORIGIN;
        self.under_way = false;
        Ok(())
    }

    pub fn copy(&self, alloc: Global) -> Result<Reaction, AllocError>
        ensures { IfOk result (λ reaction. reaction.state ≡ self.now.state) }
    {
        let net = self.net.copy(alloc)?;
        let agenda = self.agenda.copy(alloc)?;
        let last = self.last.copy(alloc)?;
        let turns = self.turns.copy(alloc)?;
        let channels = self.channels.copy(alloc)?;
        Ok(Reaction {
            net,
            agenda,
            last,
            turns,
            channels,
            tag: self.tag,
            under_way: self.under_way,
        })
    }
}
