ghost use Rattle.pt_core.specs.EitherActs.{either_calls};

use crate::calls::Core;
use pt_firing::{Ask, Inputs, Need, Outputs, Partial, RunFault};
use pt_time::Tag;
use std::alloc::{AllocError, Global};

/// The core of one director, or of another. Nested, it is one of many.
#[derive(Drop)]
pub enum Either<A, B> {
    First(A),
    Other(B),
}

impl<A: Core, B: Core> Core for Either<A, B> {
    ghost calls = { either_calls A.calls B.calls };

    fn need(&self) -> Need<'_> {
        match self {
            Either::First(core) => core.need(),
            Either::Other(core) => core.need(),
        }
    }

    fn begins(&self) -> bool {
        match self {
            Either::First(core) => core.begins(),
            Either::Other(core) => core.begins(),
        }
    }

    fn whole(&self) -> bool {
        match self {
            Either::First(core) => core.whole(),
            Either::Other(core) => core.whole(),
        }
    }

    fn begin(&mut self, alloc: Global, tag: Tag, inputs: &Inputs<'_>) -> Result<(), AllocError> {
        match self {
            Either::First(core) => core.begin(alloc, tag, inputs),
            Either::Other(core) => core.begin(alloc, tag, inputs),
        }
    }

    fn ask(&mut self) -> Ask {
        match self {
            Either::First(core) => core.ask(),
            Either::Other(core) => core.ask(),
        }
    }

    fn hand(&mut self) {
        match self {
            Either::First(core) => core.hand(),
            Either::Other(core) => core.hand(),
        }
    }

    fn lent(&self) -> Inputs<'_> {
        match self {
            Either::First(core) => core.lent(),
            Either::Other(core) => core.lent(),
        }
    }

    fn told(
        &mut self,
        alloc: Global,
        child: u32,
        outputs: Outputs,
        wake: Option<Tag>,
        need: Need<'_>,
    ) -> Result<(), AllocError> {
        match self {
            Either::First(core) => core.told(alloc, child, outputs, wake, need),
            Either::Other(core) => core.told(alloc, child, outputs, wake, need),
        }
    }

    fn is_wrong(&self) -> bool {
        match self {
            Either::First(core) => core.is_wrong(),
            Either::Other(core) => core.is_wrong(),
        }
    }

    fn refusal(&self) -> RunFault {
        match self {
            Either::First(core) => core.refusal(),
            Either::Other(core) => core.refusal(),
        }
    }

    fn partial(&self, alloc: Global) -> Result<Partial, AllocError> {
        match self {
            Either::First(core) => core.partial(alloc),
            Either::Other(core) => core.partial(alloc),
        }
    }

    fn hears(&mut self, alloc: Global, child: u32, early: &Partial) -> Result<(), AllocError> {
        match self {
            Either::First(core) => core.hears(alloc, child, early),
            Either::Other(core) => core.hears(alloc, child, early),
        }
    }

    fn finish(&mut self, alloc: Global) -> Result<Outputs, AllocError> {
        match self {
            Either::First(core) => core.finish(alloc),
            Either::Other(core) => core.finish(alloc),
        }
    }

    fn blocked(&self, alloc: Global) -> Result<Vec<(u32, usize)>, AllocError> {
        match self {
            Either::First(core) => core.blocked(alloc),
            Either::Other(core) => core.blocked(alloc),
        }
    }

    fn next(&self) -> Option<Tag> {
        match self {
            Either::First(core) => core.next(),
            Either::Other(core) => core.next(),
        }
    }

    fn reset(&mut self, alloc: Global) -> Result<(), AllocError> {
        match self {
            Either::First(core) => core.reset(alloc),
            Either::Other(core) => core.reset(alloc),
        }
    }

    fn copy(&self, alloc: Global) -> Result<Either<A, B>, AllocError> {
        Ok(match self {
            Either::First(core) => Either::First(core.copy(alloc)?),
            Either::Other(core) => Either::Other(core.copy(alloc)?),
        })
    }
}
