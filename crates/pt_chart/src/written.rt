ghost use Rattle.std.specs.Prelude.{◌≡◌, IfOk, map};
ghost use Rattle.pt_chart.specs.Machine.{mode_at};
ghost use Rattle.pt_chart.specs.Views.{action_view, transition_view, mode_view, ports_view, names_view, machine_of};

use pt_firing::Values;
use pt_flow_base::PortTypes;
use pt_language::Expr;
use pt_value::Token;
use std::alloc::{AllocError, Global};

// The drops of what holds trees are written by hand, so that letting go of them is one call in the proofs above.

/// An action: the number of an output or a Variable, and the expression whose value it gives that.
#[derive(Drop)]
pub struct Action {
    pub target: u32,
    pub value: Expr,
}

/// A transition: its guard, its actions in listed order, the state to which it leads, and whether it keeps history.
pub struct Transition {
    pub guard: Expr,
    pub outputs: Vec<Action>,
    pub sets: Vec<Action>,
    pub target: u32,
    pub history: bool,
}

impl Drop for Transition {
    fn drop(self) {
        let Transition {
            guard: _,
            outputs: _,
            sets: _,
            target: _,
            history: _,
        } = self;
    }
}

/// A state: its refinement, and its transitions, preemptive and not, each kind in listed order.
pub struct Mode {
    pub refinement: Option<u32>,
    pub preemptive: Vec<Transition>,
    pub others: Vec<Transition>,
}

impl Drop for Mode {
    fn drop(self) {
        let Mode {
            refinement: _,
            preemptive: _,
            others: _,
        } = self;
    }
}

/// The ports of a refinement: for each of its inputs the own input of that name, and for each own output its port of that name.
#[derive(Drop)]
pub struct Ports {
    pub inputs: Vec<u32>,
    pub outputs: Vec<Option<u32>>,
}

/// What guards and actions may name: the own inputs, the own outputs and the Variables, each with its type, and the parameters in scope.
#[derive(Drop)]
pub struct Names {
    pub inputs: PortTypes,
    pub outputs: PortTypes,
    pub variables: PortTypes,
    pub parameters: Values,
}

/// A Modal as it is written.
pub struct Written {
    pub names: Names,
    /// The first values of the Variables.
    pub values: Vec<Token>,
    pub initial: u32,
    pub modes: Vec<Mode>,
    /// Those of each refinement.
    pub ports: Vec<Ports>,
}

impl Drop for Written {
    fn drop(self) {
        let Written {
            names: _,
            values: _,
            initial: _,
            modes: _,
            ports: _,
        } = self;
    }
}

impl Action {
    fn copy(&self, alloc: Global) -> Result<Action, AllocError>
        ensures { IfOk result (λ a. action_view a ≡ action_view self.now) }
    {
        Ok(Action {
            target: self.target,
            value: self.value.copy(alloc)?,
        })
    }
}

impl Transition {
    fn copy(&self, alloc: Global) -> Result<Transition, AllocError>
        ensures { IfOk result (λ t. transition_view t ≡ transition_view self.now) }
    {
        Ok(Transition {
            guard: self.guard.copy(alloc)?,
            outputs: copied_actions(alloc, &self.outputs)?,
            sets: copied_actions(alloc, &self.sets)?,
            target: self.target,
            history: self.history,
        })
    }
}

impl Mode {
    fn copy(&self, alloc: Global) -> Result<Mode, AllocError>
        ensures { IfOk result (λ m. mode_view m ≡ mode_view self.now) }
    {
        Ok(Mode {
            refinement: self.refinement,
            preemptive: copied_transitions(alloc, &self.preemptive)?,
            others: copied_transitions(alloc, &self.others)?,
        })
    }
}

impl Ports {
    fn copy(&self, alloc: Global) -> Result<Ports, AllocError>
        ensures { IfOk result (λ p. ports_view p ≡ ports_view self.now) }
    {
        Ok(Ports {
            inputs: Vec::from_slice(alloc, self.inputs.as_slice())?,
            outputs: Vec::from_slice(alloc, self.outputs.as_slice())?,
        })
    }
}

impl Names {
    fn copy(&self, alloc: Global) -> Result<Names, AllocError>
        ensures { IfOk result (λ n. names_view n ≡ names_view self.now) }
    {
        Ok(Names {
            inputs: self.inputs.copy(alloc)?,
            outputs: self.outputs.copy(alloc)?,
            variables: self.variables.copy(alloc)?,
            parameters: self.parameters.copy(alloc)?,
        })
    }
}

impl Written {
    /// Another Modal that is written so.
    pub fn copy(&self, alloc: Global) -> Result<Written, AllocError>
        ensures { IfOk result (λ w. machine_of w ≡ machine_of self.now) }
    {
        Ok(Written {
            names: self.names.copy(alloc)?,
            values: copied_tokens(alloc, &self.values)?,
            initial: self.initial,
            modes: copied_modes(alloc, &self.modes)?,
            ports: copied_ports(alloc, &self.ports)?,
        })
    }
}

/// The refinement of a state.
pub fn refinement_of(modes: &[Mode], mode: u32) -> Option<u32>
    ensures { result ≡ (mode_at (map mode_view modes.now) mode).refinement }
{
    let mode = mode as usize;
    if mode < modes.len() {
        modes[mode].refinement
    } else {
        None
    }
}

fn copied_actions(alloc: Global, actions: &[Action]) -> Result<Vec<Action>, AllocError>
    ensures { IfOk result (λ copies. map action_view copies.items ≡ map action_view actions.now) }
{
    let mut copies = Vec::with_capacity(alloc, actions.len())?;
    for action in actions {
        copies.push(action.copy(alloc)?)?;
    }
    Ok(copies)
}

fn copied_transitions(
    alloc: Global,
    transitions: &[Transition],
) -> Result<Vec<Transition>, AllocError>
    ensures { IfOk result (λ copies. map transition_view copies.items ≡ map transition_view transitions.now) }
{
    let mut copies = Vec::with_capacity(alloc, transitions.len())?;
    for transition in transitions {
        copies.push(transition.copy(alloc)?)?;
    }
    Ok(copies)
}

fn copied_modes(alloc: Global, modes: &[Mode]) -> Result<Vec<Mode>, AllocError>
    ensures { IfOk result (λ copies. map mode_view copies.items ≡ map mode_view modes.now) }
{
    let mut copies = Vec::with_capacity(alloc, modes.len())?;
    for mode in modes {
        copies.push(mode.copy(alloc)?)?;
    }
    Ok(copies)
}

fn copied_ports(alloc: Global, ports: &[Ports]) -> Result<Vec<Ports>, AllocError>
    ensures { IfOk result (λ copies. map ports_view copies.items ≡ map ports_view ports.now) }
{
    let mut copies = Vec::with_capacity(alloc, ports.len())?;
    for refinement in ports {
        copies.push(refinement.copy(alloc)?)?;
    }
    Ok(copies)
}

/// Copies of some tokens.
pub fn copied_tokens(alloc: Global, tokens: &[Token]) -> Result<Vec<Token>, AllocError>
    ensures { IfOk result (λ copies. copies.items ≡ tokens.now) }
{
    let mut copies = Vec::with_capacity(alloc, tokens.len())?;
    for token in tokens {
        copies.push(token.copy(alloc)?)?;
    }
    Ok(copies)
}
