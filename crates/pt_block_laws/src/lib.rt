//! The laws of blocks: several iterations of an SDF composite, of which each child makes its firings of all at once. Each is the contract of a public function, which has no code.
#![tactic(auto)]

ghost use Rattle.pt_block_laws.specs.Iteration.{IterationIsDone};
ghost use Rattle.pt_block_laws.specs.Block.{BlockIsIterations};
ghost use Rattle.pt_block_laws.specs.Workers.{BlockIsRun};
ghost use Rattle.pt_block_laws.specs.Grown.{BlockGrows};

/// Where each child makes its firings on all that its places get, one child behind another, the firing of the net is done.
pub fn iteration_is_done<T, S>()
    ensures { IterationIsDone T S }
{}

/// The firings of a block are those of its iterations, one after another, where the channels hold nothing between them.
pub fn block_is_iterations<T, S>()
    ensures { BlockIsIterations T S }
{}

/// A block of library actors is a run of firings of their composite.
pub fn block_is_run<T, A>()
    ensures { BlockIsRun T A }
{}

/// What is kept of the composite goes on by what that run logs.
pub fn block_grows<T, A>()
    ensures { BlockGrows T A }
{}
