ghost use Rattle.std.specs.Prelude.{◌≡◌};

use crate::fault::RunFault;
use crate::outputs::Outputs;
use std::alloc::AllocError;

/// What one firing of an actor comes to. After a fault or want of memory the actor is as before.
#[derive(Drop)]
pub enum Step {
    Done(Outputs),
    Fault(RunFault),
    Memory,
}

/// Why a firing isn't done.
#[derive(Clone, Copy, PartialEq, Eq, Debug)]
pub enum StepFault {
    Run(RunFault),
    Memory,
}

impl From<RunFault> for StepFault {
    ghost use Rattle.std.specs.Prelude.{◌≡◌};
    ghost use Rattle.pt_firing.specs.declared.step.StepFault.TheVariants.{Run};

    ghost from_gives = { λ fault made. made ≡ Run fault };

    fn from(fault: RunFault) -> Self {
        StepFault::Run(fault)
    }
}

impl From<AllocError> for StepFault {
    ghost use Rattle.std.specs.Prelude.{◌≡◌};
    ghost use Rattle.pt_firing.specs.declared.step.StepFault.TheVariants.{Memory};

    ghost from_gives = { λ _ made. made ≡ Memory };

    fn from(_: AllocError) -> Self {
        StepFault::Memory
    }
}

impl From<Result<Outputs, StepFault>> for Step {
    ghost use Rattle.std.specs.Prelude.{◌≡◌};
    ghost use Rattle.pt_firing.specs.Step.{step_of};

    ghost from_gives = { λ made step. step ≡ step_of made };

    fn from(made: Result<Outputs, StepFault>) -> Self {
        match made {
            Ok(outputs) => Step::Done(outputs),
            Err(StepFault::Run(fault)) => Step::Fault(fault),
            Err(StepFault::Memory) => Step::Memory,
        }
    }
}
