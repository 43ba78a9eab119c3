ghost use Rattle.pt_chart.specs.Chart.{chart_of};
ghost use Rattle.pt_modal_laws.specs.ModalActs.{modal_calls};

use crate::modal::Core;
use pt_core::Core as Driven;
use pt_firing::{Ask, Inputs, Need, Outputs, Partial, RunFault};
use pt_time::Tag;
use std::alloc::{AllocError, Global};

impl Driven for Core {
    ghost calls = { modal_calls chart_of };

    fn need(&self) -> Need<'_> {
        Need::All(self.takes())
    }

    fn begins(&self) -> bool {
        self.takes().len() == 0
    }

    fn whole(&self) -> bool {
        false
    }

    fn begin(&mut self, alloc: Global, tag: Tag, inputs: &Inputs<'_>) -> Result<(), AllocError> {
        self.begin(alloc, tag, inputs)
    }

    fn ask(&mut self) -> Ask {
        self.ask()
    }

    fn hand(&mut self) {}

    fn lent(&self) -> Inputs<'_> {
        self.lent()
    }

    // What need a refinement has says nothing of when it fires.
    fn told(
        &mut self,
        alloc: Global,
        child: u32,
        outputs: Outputs,
        wake: Option<Tag>,
        _need: Need<'_>,
    ) -> Result<(), AllocError> {
        self.told(alloc, child, &outputs, wake)
    }

    // Whatever a refinement gives is accepted.
    fn is_wrong(&self) -> bool {
        false
    }

    fn refusal(&self) -> RunFault {
        RunFault::Ambiguous
    }

    // No refinement is asked for an early answer.
    fn partial(&self, alloc: Global) -> Result<Partial, AllocError> {
        Ok(Partial::of(Vec::new(alloc)))
    }

    fn hears(&mut self, _alloc: Global, _child: u32, _early: &Partial) -> Result<(), AllocError> {
        Ok(())
    }

    fn finish(&mut self, alloc: Global) -> Result<Outputs, AllocError> {
        Ok(self.finish(alloc))
    }

    // No channel of it is full.
    fn blocked(&self, alloc: Global) -> Result<Vec<(u32, usize)>, AllocError> {
        Ok(Vec::new(alloc))
    }

    fn next(&self) -> Option<Tag> {
        self.next()
    }

    fn reset(&mut self, alloc: Global) -> Result<(), AllocError> {
        self.reset(alloc)
    }

    fn copy(&self, alloc: Global) -> Result<Core, AllocError> {
        self.copy(alloc)
    }
}
