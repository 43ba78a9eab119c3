ghost use Rattle.pt_rv_laws.specs.RvActs.{rv_calls};

use crate::rv::Core;
use pt_core::Core as Driven;
use pt_firing::{Ask, Inputs, Need, Outputs, Partial, RunFault};
use pt_time::Tag;
use std::alloc::{AllocError, Global};

impl Driven for Core {
    ghost calls = { rv_calls };

    fn need(&self) -> Need<'_> {
        Need::All(self.takes())
    }

    fn begins(&self) -> bool {
        self.takes().len() == 0
    }

    fn whole(&self) -> bool {
        true
    }

    fn begin(&mut self, alloc: Global, tag: Tag, inputs: &Inputs<'_>) -> Result<(), AllocError> {
        self.begin(alloc, tag, inputs)
    }

    fn ask(&mut self) -> Ask {
        self.ask()
    }

    // It is handed over as it is asked for.
    fn hand(&mut self) {}

    fn lent(&self) -> Inputs<'_> {
        self.lent()
    }

    // What wake a process has says nothing of when it fires.
    fn told(
        &mut self,
        alloc: Global,
        child: u32,
        outputs: Outputs,
        _wake: Option<Tag>,
        need: Need<'_>,
    ) -> Result<(), AllocError> {
        self.told(alloc, child, outputs, need)
    }

    fn is_wrong(&self) -> bool {
        false
    }

    // Whatever a process gives is accepted, so this is never told.
    fn refusal(&self) -> RunFault {
        RunFault::Rate
    }

    // No process is asked for an early answer.
    fn partial(&self, alloc: Global) -> Result<Partial, AllocError> {
        Ok(Partial::of(Vec::new(alloc)))
    }

    fn hears(&mut self, _alloc: Global, _child: u32, _early: &Partial) -> Result<(), AllocError> {
        Ok(())
    }

    fn finish(&mut self, alloc: Global) -> Result<Outputs, AllocError> {
        self.finish(alloc)
    }

    // No channel is ever full: a token passes as it is put.
    fn blocked(&self, alloc: Global) -> Result<Vec<(u32, usize)>, AllocError> {
        Ok(Vec::new(alloc))
    }

    fn next(&self) -> Option<Tag> {
        None
    }

    fn reset(&mut self, alloc: Global) -> Result<(), AllocError> {
        self.reset(alloc)
    }

    fn copy(&self, alloc: Global) -> Result<Core, AllocError> {
        self.copy(alloc)
    }
}
