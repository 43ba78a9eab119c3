ghost use Rattle.std.specs.Prelude.{◌≡◌, IfOk};
ghost use Rattle.pt_chart.specs.Chart.{chart_of};
ghost use Rattle.pt_modal.specs.First.{by_refinement, first_step, kept_for};
ghost use Rattle.pt_modal.specs.Views.{first_view};

use crate::modes::Modes;
use pt_firing::{Inputs, Tokens};
use pt_transitions::{Chart, Reaction, copied_inputs};
use std::alloc::{AllocError, Global};

/// What comes first in a reaction.
#[derive(Drop)]
pub(crate) enum FirstStep {
    /// The refinement is to fire on these lists.
    Fires(u32, Vec<Tokens>),
    /// It isn't, and this comes of the guards.
    Comes(Reaction),
}

impl FirstStep {
    /// What is kept of the own inputs: all where the refinement is to fire, and nothing where it is known what comes of the guards.
    pub(crate) fn kept(&self, alloc: Global, inputs: &Inputs<'_>) -> Result<Vec<Tokens>, AllocError>
        ensures { IfOk result (λ lists. lists.items ≡ kept_for (first_view self.now) inputs.now) }
    {
        match self {
            FirstStep::Fires(_, _) => copied_inputs(alloc, inputs),
            FirstStep::Comes(_) => Ok(Vec::new(alloc)),
        }
    }
}

/// What comes first: by the preemptive guards, and by the others where the state has no refinement.
pub(crate) fn first_step(
    alloc: Global,
    chart: &mut Chart,
    modes: &Modes,
    inputs: &Inputs<'_>,
) -> Result<FirstStep, AllocError>
    ensures first { IfOk result (λ f. first_view f ≡ first_step (chart_of chart.old) modes.now inputs.now) }
    ensures kept { chart.new ≡ chart.old }
{
    match chart.preempt(alloc, modes.mode(), modes.values(), inputs)? {
        Reaction::Stays(unfired) => calm(alloc, chart, modes, inputs, unfired),
        Reaction::Moves(taken) => Ok(FirstStep::Comes(Reaction::Moves(taken))),
        Reaction::Stops(fault) => Ok(FirstStep::Comes(Reaction::Stops(fault))),
    }
}

/// What comes first where no preemptive guard is enabled.
fn calm(
    alloc: Global,
    chart: &mut Chart,
    modes: &Modes,
    inputs: &Inputs<'_>,
    unfired: Vec<Tokens>,
) -> Result<FirstStep, AllocError>
    ensures first { IfOk result (λ f. first_view f ≡ by_refinement (chart_of chart.old) modes.now inputs.now unfired.items ((chart_of chart.old).refinement modes.now.mode)) }
    ensures kept { chart.new ≡ chart.old }
{
    match chart.refinement(modes.mode()) {
        Some(refinement) => {
            let lent = chart.picked(alloc, refinement, inputs)?;
            Ok(FirstStep::Fires(refinement, lent))
        }
        None => {
            let reaction = chart.follow(alloc, modes.mode(), modes.values(), inputs, unfired)?;
            Ok(FirstStep::Comes(reaction))
        }
    }
}
