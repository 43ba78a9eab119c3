ghost use Rattle.std.specs.Prelude.{◌≡◌, IfOk, IfSome, IfNone, replicate, length};

use crate::first::{FirstStep, first_step};
use crate::modes::Modes;
use pt_firing::{Counts, Inputs, Outputs};
use pt_time::Tag;
use pt_transitions::{Chart, Reaction};
use std::alloc::{AllocError, Global};
use std::marker::Model;

/// What a core knows of its composite: the chart, and the wake of each refinement at its start, which it has again once it is reset.
pub struct CorePlan {
    chart: Chart,
    starts: Vec<Option<Tag>>,
    // One token for each own input.
    takes: Counts,
}

// Written by hand, so that letting go of a plan is one call in the proofs above.
impl Drop for CorePlan {
    fn drop(self) {
        let CorePlan {
            chart: _,
            starts: _,
            takes: _,
        } = self;
    }
}

impl Model for CorePlan {
    ghost use Rattle.pt_chart.specs.Machine.{Machine, coded_machine};
    ghost use Rattle.pt_modal_laws.specs.State.{ModalPlan};
    ghost use Rattle.pt_modal_laws.specs.StateCode.{coded_plan};

    ghost Value = { ModalPlan Machine };

    ghost coded = { coded_plan coded_machine };

    ghost use Rattle.pt_modal.specs.Plan.{plan_in, HasTakes};

    ghost view = { plan_in };

    ghost invariant = { HasTakes };
}

impl CorePlan {
    ghost use Rattle.std.specs.Prelude.{false};
    ghost use Rattle.pt_meaning.specs.Modal.{first_modes, shown};
    ghost use Rattle.pt_chart.specs.Chart.{chart_of};
    ghost use Rattle.pt_transitions.specs.Moves.{reaction_view};
    ghost use Rattle.pt_chart.specs.Reacted.{reacted};
    ghost use Rattle.pt_modal.specs.First.{first_step};
    ghost use Rattle.pt_modal.specs.Signals.{PassesAlone};
    ghost use Rattle.pt_modal.specs.Views.{first_view};

    /// The plan of a composite with this chart, whose refinements have these wakes at their start.
    pub fn of(alloc: Global, chart: Chart, starts: Vec<Option<Tag>>) -> Result<CorePlan, AllocError>
        ensures { IfOk result (λ plan. plan ≡ record { machine = chart; starts = starts.items }) }
    {
        let takes = Counts::of(vec![in alloc; 1usize; chart.inputs()]?);
        Ok(CorePlan {
            chart,
            starts,
            takes,
        })
    }

    /// How many tokens a reaction takes at most from each own input: one.
    pub(crate) fn takes(&self) -> &Counts
        ensures { result.now ≡ replicate (chart_of self.now.machine).inputs 1 }
    {
        &self.takes
    }

    /// The wakes of the refinements at their start.
    pub(crate) fn starts(&self) -> &[Option<Tag>]
        ensures { result.now ≡ self.now.starts }
    {
        self.starts.as_slice()
    }

    /// The refinement of a state.
    pub(crate) fn refinement(&self, mode: u32) -> Option<u32>
        ensures { result ≡ (chart_of self.now.machine).refinement mode }
    {
        self.chart.refinement(mode)
    }

    /// Where the machine begins.
    pub(crate) fn first_modes(&self, alloc: Global) -> Result<Modes, AllocError>
        ensures { IfOk result (λ modes. modes ≡ first_modes (chart_of self.now.machine) (length self.now.starts)) }
    {
        Modes::first(alloc, &self.chart, self.starts.len())
    }

    /// What comes first in a reaction on these inputs.
    pub(crate) fn first_step(
        &mut self,
        alloc: Global,
        modes: &Modes,
        inputs: &Inputs<'_>,
    ) -> Result<FirstStep, AllocError>
        ensures first { IfOk result (λ step. first_view step ≡ first_step (chart_of self.old.machine) modes.now inputs.now) }
        ensures kept { self.new ≡ self.old }
    {
        first_step(alloc, &mut self.chart, modes, inputs)
    }

    /// What comes of the guards that aren't preemptive, once a refinement gave this.
    pub(crate) fn follow(
        &mut self,
        alloc: Global,
        modes: &Modes,
        inputs: &Inputs<'_>,
        refinement: u32,
        outputs: &Outputs,
    ) -> Result<Reaction, AllocError>
        ensures reaction { IfOk result (λ r. reaction_view r ≡ reacted (chart_of self.old.machine) false modes.now.mode modes.now.values inputs.now (shown ((chart_of self.old.machine).out_ports refinement) outputs.now)) }
        ensures kept { self.new ≡ self.old }
    {
        let given = self.chart.shown(alloc, refinement, outputs)?;
        self.chart
            .follow(alloc, modes.mode(), modes.values(), inputs, given)
    }

    /// A whole reaction in which no refinement is left, entered or fired, and the one own output has one integer at most. After `None` the modes are as before.
    #[inline(always)]
    pub(crate) fn signal(&self, modes: &mut Modes, inputs: &Inputs<'_>) -> Option<Option<i64>>
        ensures kept { IfNone result (modes.new ≡ modes.old) }
        ensures goes { IfSome result (λ given. PassesAlone (chart_of self.now.machine) inputs.now given modes.old modes.new) }
    {
        modes.signal(&self.chart, inputs)
    }

    pub(crate) fn copy(&self, alloc: Global) -> Result<CorePlan, AllocError>
        ensures { IfOk result (λ plan. plan ≡ self.now) }
    {
        let starts = Vec::from_slice(alloc, &self.starts)?;
        let takes = self.takes.copy(alloc)?;
        Ok(CorePlan {
            chart: self.chart.copy(alloc)?,
            starts,
            takes,
        })
    }
}
