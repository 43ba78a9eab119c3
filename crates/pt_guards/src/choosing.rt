ghost use Rattle.std.specs.Prelude.{◌≡◌, IfOk, map};
ghost use Rattle.pt_meaning.specs.Modal.{chosen};
ghost use Rattle.pt_expr.specs.Env.{scope_of};
ghost use Rattle.pt_guards.specs.Choose.{tests_in, AreRightGuards, with_on, and_test, joined, choice_view};
ghost use Rattle.pt_chart.specs.Views.{transition_view};
ghost use Rattle.pt_meaning.specs.Modal as modal;

use crate::evaluation::{Test, test_guard};
use pt_chart::Transition;
use pt_expr::Env;
use pt_firing::RunFault;
use std::alloc::{AllocError, Global};

/// Which of some guards is enabled, by its number.
#[derive(Clone, Copy, Debug)]
pub enum Choice {
    Nothing,
    One(usize),
    Wrong(RunFault),
}

/// Which guards are enabled of those that were tested.
#[derive(Clone, Copy, Debug)]
pub(crate) enum Enabled {
    Nothing,
    One(usize),
    Several,
}

impl Enabled {
    /// With the guard at this number.
    pub(crate) fn with(self, number: usize) -> Enabled
        ensures { result ≡ with_on self number }
    {
        match self {
            Enabled::Nothing => Enabled::One(number),
            Enabled::One(_) => Enabled::Several,
            Enabled::Several => Enabled::Several,
        }
    }

    /// Once the guard at this number is tested, or its fault.
    fn and(self, number: usize, test: Test) -> Result<Enabled, RunFault>
        ensures { result ≡ and_test self number test }
    {
        match test {
            Test::Off => Ok(self),
            Test::On => Ok(self.with(number)),
            Test::Bad(fault) => Err(fault),
        }
    }

    /// What is chosen where no more are tested.
    pub(crate) fn choice(self) -> Choice
        ensures { choice_view result ≡ joined self modal.Nothing }
    {
        match self {
            Enabled::Nothing => Choice::Nothing,
            Enabled::One(number) => Choice::One(number),
            Enabled::Several => Choice::Wrong(RunFault::Ambiguous),
        }
    }
}

/// Tests the guards of some transitions in listed order. The first fault decides, then two that are enabled.
pub fn choose(alloc: Global, transitions: &[Transition], env: &Env) -> Result<Choice, AllocError>
    requires right { AreRightGuards (scope_of env.now) (map transition_view transitions.now) }
    ensures { IfOk result (λ choice. choice_view choice ≡ chosen 0 (tests_in (scope_of env.now) (map transition_view transitions.now))) }
{
    let mut enabled = Enabled::Nothing;
    for (number, transition) in transitions.iter().enumerate() {
        let tested = test_guard(alloc, &transition.guard, env)?;
        match enabled.and(number, tested) {
            Ok(more) => enabled = more,
            Err(fault) => return Ok(Choice::Wrong(fault)),
        }
    }
    Ok(enabled.choice())
}
