ghost use Rattle.std.specs.Prelude.{◌≡◌, List, IfOk, map};
ghost use Rattle.pt_chart.specs.Machine.{mode_at, kind_of};
ghost use Rattle.pt_chart.specs.Machine.{NameTable, ModeTree};
ghost use Rattle.pt_guards.specs.Placed.{SayModes, SayTransitions};
ghost use Rattle.pt_chart.specs.Views.{mode_view, transition_view};

use crate::lists::{empty_lists, picked, shown};
use crate::reaction::{Reaction, react};
use crate::signal::{Signal, signal_in};
use pt_chart::{Mode, Transition, Written, copied_tokens, is_typed_machine, refinement_of};
use pt_firing::{Inputs, Outputs, Tokens};
use pt_guards::{Bindings, PlacedMode, PlacedTransition, placed_modes};
use pt_value::Token;
use std::alloc::{AllocError, Global};
use std::marker::Model;

/// The chart of a Modal: what is written, all of whose guards and actions have a type.
///
/// The parameters are bound once. Only a reaction of which the places don't say it all binds ports and Variables anew, and what they
/// were bound to before doesn't count.
pub struct Chart {
    written: Written,
    bindings: Bindings,
    /// The guards and actions of integers and truth values, with places for names.
    placed: Vec<PlacedMode>,
}

// Written by hand, so that letting go of a chart is one call in the proofs above.
impl Drop for Chart {
    fn drop(self) {
        let Chart {
            written: _,
            bindings: _,
            placed: _,
        } = self;
    }
}

impl Model for Chart {
    ghost use Rattle.std.specs.Prelude.{◌≡◌, true};
    ghost use Rattle.pt_chart.specs.Machine.{Machine, coded_machine};
    ghost use Rattle.pt_guards.specs.Bindings.{Fits};
    ghost use Rattle.pt_chart.specs.Typed.{is_typed_machine};
    ghost use Rattle.pt_guards.specs.Placed.{SayModes};
    ghost use Rattle.pt_chart.specs.Views.{names_view, machine_of};

    ghost Value = { Machine };

    ghost coded = { coded_machine };

    ghost view = { λ c. machine_of c.written };

    ghost invariant = { λ c. Fits (names_view c.written.names) c.bindings × (is_typed_machine (machine_of c.written) ≡ true) × SayModes (names_view c.written.names) c.placed.items (machine_of c.written).modes };
}

impl Chart {
    ghost use Rattle.std.specs.Prelude.{Some, None, true, false, if◌then◌else◌, IfSome, IfNone};
    ghost use Rattle.pt_meaning.specs.Modal as modal;
    ghost use Rattle.pt_meaning.specs.Modal.{unfired_outputs};
    ghost use Rattle.pt_chart.specs.Typed.{is_typed_machine};
    ghost use Rattle.pt_chart.specs.Chart.{chart_of};
    ghost use Rattle.pt_chart.specs.Reacted.{reacted};
    ghost use Rattle.pt_transitions.specs.Moves.{reaction_view};
    ghost use Rattle.pt_transitions.specs.Alone.{AloneTo};
    ghost use Rattle.pt_chart.specs.Views.{machine_of};

    /// The chart of what is written, if all its guards and actions have a type.
    pub fn new(alloc: Global, written: Written) -> Result<Option<Chart>, AllocError>
        ensures { IfOk result (λ chart. chart ≡ (if is_typed_machine (machine_of written) then Some (machine_of written) else None)) }
    {
        if !is_typed_machine(alloc, &written)? {
            return Ok(None);
        }
        Ok(Some(Chart::of(alloc, written)?))
    }

    fn of(alloc: Global, written: Written) -> Result<Chart, AllocError>
        requires { is_typed_machine (machine_of written) ≡ true }
        ensures { IfOk result (λ chart. chart ≡ machine_of written) }
    {
        let placed = placed_modes(alloc, &written.modes, &written.names)?;
        let bindings = Bindings::of(alloc, &written.names)?;
        Ok(Chart {
            written,
            bindings,
            placed,
        })
    }

    /// How many own inputs there are.
    pub fn inputs(&self) -> usize
        ensures { result ≡ (chart_of self.now).inputs }
    {
        self.written.names.inputs.as_slice().len()
    }

    /// The state in which the machine begins.
    pub fn initial(&self) -> u32
        ensures { result ≡ (chart_of self.now).initial }
    {
        self.written.initial
    }

    /// The first values of the Variables.
    pub fn values(&self, alloc: Global) -> Result<Vec<Token>, AllocError>
        ensures { IfOk result (λ values. values.items ≡ (chart_of self.now).values) }
    {
        copied_tokens(alloc, &self.written.values)
    }

    /// The refinement of a state.
    pub fn refinement(&self, mode: u32) -> Option<u32>
        ensures { result ≡ (chart_of self.now).refinement mode }
    {
        refinement_of(&self.written.modes, mode)
    }

    /// What a refinement takes: the tokens of like-named inputs.
    pub fn picked(
        &self,
        alloc: Global,
        refinement: u32,
        inputs: &Inputs<'_>,
    ) -> Result<Vec<Tokens>, AllocError>
        ensures { IfOk result (λ lists. lists.items ≡ modal.picked ((chart_of self.now).in_ports refinement) inputs.now) }
    {
        let refinement = refinement as usize;
        if refinement >= self.written.ports.len() {
            return Ok(Vec::new(alloc));
        }
        picked(alloc, &self.written.ports[refinement].inputs, inputs)
    }

    /// What the own outputs have of what a refinement gave.
    pub fn shown(
        &self,
        alloc: Global,
        refinement: u32,
        outputs: &Outputs,
    ) -> Result<Vec<Tokens>, AllocError>
        ensures { IfOk result (λ lists. lists.items ≡ modal.shown ((chart_of self.now).out_ports refinement) outputs.now) }
    {
        let refinement = refinement as usize;
        if refinement >= self.written.ports.len() {
            return Ok(Vec::new(alloc));
        }
        shown(alloc, &self.written.ports[refinement].outputs, outputs)
    }

    /// What comes of the preemptive guards of a state, before its refinement fires.
    pub fn preempt(
        &mut self,
        alloc: Global,
        mode: u32,
        values: &[Token],
        inputs: &Inputs<'_>,
    ) -> Result<Reaction, AllocError>
        ensures reaction { IfOk result (λ r. reaction_view r ≡ reacted (chart_of self.old) true mode values.now inputs.now (unfired_outputs (chart_of self.old))) }
        ensures kept { self.new ≡ self.old }
    {
        let given = empty_lists(alloc, self.written.names.outputs.as_slice().len())?;
        let transitions = transitions_of(&self.written.modes, mode, true);
        let placed = placed_of(&self.placed, mode, true);
        let names = &self.written.names;
        react(
            alloc,
            transitions,
            placed,
            names,
            &mut self.bindings,
            values,
            inputs,
            given,
        )
    }

    /// What comes of the other guards of a state, where the own outputs have this of its refinement.
    pub fn follow(
        &mut self,
        alloc: Global,
        mode: u32,
        values: &[Token],
        inputs: &Inputs<'_>,
        given: Vec<Tokens>,
    ) -> Result<Reaction, AllocError>
        ensures reaction { IfOk result (λ r. reaction_view r ≡ reacted (chart_of self.old) false mode values.now inputs.now given.items) }
        ensures kept { self.new ≡ self.old }
    {
        let transitions = transitions_of(&self.written.modes, mode, false);
        let placed = placed_of(&self.placed, mode, false);
        let names = &self.written.names;
        react(
            alloc,
            transitions,
            placed,
            names,
            &mut self.bindings,
            values,
            inputs,
            given,
        )
    }

    /// A whole reaction in a state without refinement, where it gives one integer at most, on the one own output. The Variables are set in place.
    ///
    /// `None` says nothing: there is a refinement, or one would be entered, or there are more own outputs or none, or a guard or an
    /// action has a fault or isn't of integers and truth values. Then the Variables are as before.
    #[inline(always)]
    pub fn signal(&self, mode: u32, values: &mut Vec<Token>, inputs: &Inputs<'_>) -> Option<Signal>
        ensures kept { IfNone result (values.new.items ≡ values.old.items) }
        ensures goes { IfSome result (λ s. AloneTo (chart_of self.now) mode values.old.items inputs.now s values.new.items) }
    {
        let at = mode as usize;
        let modes = self.written.modes.as_slice();
        let placed = self.placed.as_slice();
        if at >= modes.len() || at >= placed.len() {
            return None;
        }
        if self.written.names.outputs.as_slice().len() != 1 || modes[at].refinement.is_some() {
            return None;
        }
        signal_in(modes, mode, &modes[at], &placed[at], values, inputs)
    }

    /// Another chart of what is written here.
    pub fn copy(&self, alloc: Global) -> Result<Chart, AllocError>
        ensures { IfOk result (λ chart. chart ≡ self.now) }
    {
        Chart::of(alloc, self.written.copy(alloc)?)
    }
}

/// The transitions of one kind in a state.
fn transitions_of(modes: &[Mode], mode: u32, early: bool) -> &[Transition]
    ensures { map transition_view result.now ≡ kind_of early (mode_at (map mode_view modes.now) mode) }
{
    let mode = mode as usize;
    if mode < modes.len() {
        if early {
            modes[mode].preemptive.as_slice()
        } else {
            modes[mode].others.as_slice()
        }
    } else {
        &[]
    }
}

/// The transitions of one kind in a state, with places for names.
fn placed_of(modes: &[PlacedMode], mode: u32, preemptive: bool) -> &[PlacedTransition]
    ensures { (table : NameTable) (trees : List ModeTree) → SayModes table modes.now trees → SayTransitions table result.now (kind_of preemptive (mode_at trees mode)) }
{
    let mode = mode as usize;
    if mode < modes.len() {
        if preemptive {
            modes[mode].preemptive.as_slice()
        } else {
            modes[mode].others.as_slice()
        }
    } else {
        &[]
    }
}
