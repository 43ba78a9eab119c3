ghost use Rattle.pt_sr.specs.SrActs.{sr_calls};

use crate::sr::Core;
use pt_core::Core as Driven;
use pt_firing::{Ask, Inputs, Need, Outputs, Partial, RunFault};
use pt_time::Tag;
use std::alloc::{AllocError, Global};

impl Driven for Core {
    ghost calls = { sr_calls };

    fn need(&self) -> Need<'_> {
        Need::All(self.takes())
    }

    fn begins(&self) -> bool {
        self.takes().len() == 0
    }

    fn whole(&self) -> bool {
        false
    }

    fn begin(&mut self, alloc: Global, tag: Tag, inputs: &Inputs<'_>) -> Result<(), AllocError> {
        self.begin(alloc, tag, inputs)
    }

    fn ask(&mut self) -> Ask {
        self.ask()
    }

    fn hand(&mut self) {}

    fn lent(&self) -> Inputs<'_> {
        self.lent()
    }

    // What wake and what need a child has says nothing of when it fires.
    fn told(
        &mut self,
        alloc: Global,
        child: u32,
        outputs: Outputs,
        _wake: Option<Tag>,
        _need: Need<'_>,
    ) -> Result<(), AllocError> {
        self.told(alloc, child, outputs)
    }

    fn is_wrong(&self) -> bool {
        self.is_wrong()
    }

    fn refusal(&self) -> RunFault {
        RunFault::SecondToken
    }

    fn partial(&self, alloc: Global) -> Result<Partial, AllocError> {
        match self.listened() {
            Some(_) => self.partial(alloc),
            None => Ok(Partial::of(Vec::new(alloc))),
        }
    }

    fn hears(&mut self, alloc: Global, child: u32, early: &Partial) -> Result<(), AllocError> {
        match self.listened() {
            Some(asked) if asked == child => self.hears(alloc, child, early),
            Some(_) | None => Ok(()),
        }
    }

    fn finish(&mut self, alloc: Global) -> Result<Outputs, AllocError> {
        self.finish(alloc)
    }

    // No channel of it is full.
    fn blocked(&self, alloc: Global) -> Result<Vec<(u32, usize)>, AllocError> {
        Ok(Vec::new(alloc))
    }

    fn next(&self) -> Option<Tag> {
        None
    }

    fn reset(&mut self, _alloc: Global) -> Result<(), AllocError> {
        self.reset();
        Ok(())
    }

    fn copy(&self, alloc: Global) -> Result<Core, AllocError> {
        self.copy(alloc)
    }
}
