ghost use Rattle.std.specs.Prelude.{◌≤◌};

use pt_block_work::Row;
use pt_core::Either;
use pt_library::LibraryActor;
use pt_node::{Body, Node};
use pt_sdf_parts::CorePlan;
use std::alloc::{AllocError, Global};

/// At most so many integers of one child are held in a block, and so many of all children.
const MOST: usize = 1 << 10;

const MOST_IN_ALL: usize = 1 << 20;

/// What blocks of iterations of an SDF top are made in. Nothing in it is trusted: a block that can't be made by it isn't.
pub struct Blocks {
    /// The children in an order in which each stands behind those that feed it.
    pub(crate) order: Vec<u32>,
    /// Where the places of each child begin.
    pub(crate) offsets: Vec<usize>,
    /// The library actors of the children, which fire in a block.
    pub(crate) actors: Vec<LibraryActor>,
    /// What each child gives in a block.
    pub(crate) given: Vec<Row>,
    /// How many firings an iteration has, that of the top among them.
    firings: u64,
    /// How many iterations are made at once, at most.
    most: u64,
}

impl Drop for Blocks {
    fn drop(self) {
        let Blocks {
            order: _,
            offsets: _,
            actors: _,
            given: _,
            firings: _,
            most: _,
        } = self;
    }
}

impl Blocks {
    /// What blocks of this top are made in, where it may have some: it is one of SDF, which takes and gives nothing.
    pub fn of(alloc: Global, top: &Node) -> Result<Option<Blocks>, AllocError> {
        let Body::Composite(director) = &top.body else {
            return Ok(None);
        };
        let Either::First(core) = director.get() else {
            return Ok(None);
        };
        let plan = core.plan();
        if !plan.takes.as_slice().is_empty() || !plan.gives.as_slice().is_empty() {
            return Ok(None);
        }
        let Some(sizes) = Sizes::of(plan) else {
            return Ok(None);
        };
        Ok(Some(Blocks {
            order: order_of(alloc, plan, top.children.len())?,
            offsets: Vec::new(alloc),
            actors: Vec::new(alloc),
            given: empty_rows(alloc, top.children.len())?,
            firings: sizes.firings,
            most: sizes.most() as u64,
        }))
    }

    /// How many of so many iterations are made at once, where so many firings may be made. With fewer than two there is no block.
    pub fn within(&self, iterations: u64, left: u64) -> u64
        ensures { result ≤ iterations }
    {
        self.most.min(iterations).min(left / self.firings.max(1))
    }
}

/// How much there is of an iteration: the integers of the child that gives most and of all, and the firings, that of the top among them.
#[derive(Clone, Copy, Debug)]
struct Sizes {
    widest: usize,
    all: usize,
    firings: u64,
}

impl Sizes {
    /// Those of a plan, where each child gives tokens on one port.
    fn of(plan: &CorePlan) -> Option<Sizes> {
        let mut sizes = Sizes {
            widest: 1,
            all: 1,
            firings: 1,
        };
        let repetitions = plan.repetitions.as_slice();
        for i in 0..repetitions.len().min(plan.rates.len()) {
            let [rate] = plan.rates[i].as_slice() else {
                return None;
            };
            let tokens = repetitions[i].checked_mul(*rate)?;
            sizes.widest = sizes.widest.max(tokens);
            sizes.all = sizes.all.checked_add(tokens)?;
            sizes.firings = sizes.firings.checked_add(repetitions[i] as u64)?;
        }
        Some(sizes)
    }

    /// How many iterations are made at once.
    fn most(&self) -> usize {
        (MOST / self.widest.max(1)).min(MOST_IN_ALL / self.all.max(1))
    }
}

/// The children, each where it fires first in an iteration: behind those that feed it, where no channel has first tokens.
fn order_of(alloc: Global, plan: &CorePlan, children: usize) -> Result<Vec<u32>, AllocError> {
    let mut fired = vec![in alloc; false; children]?;
    let mut order = Vec::with_capacity(alloc, children)?;
    for stretch in &plan.order {
        if let Some(fired) = fired.get_mut(stretch.child as usize)
            && !*fired
        {
            *fired = true;
            order.push(stretch.child)?;
        }
    }
    Ok(order)
}

/// So many rows, with nothing in them.
fn empty_rows(alloc: Global, count: usize) -> Result<Vec<Row>, AllocError> {
    let mut rows = Vec::with_capacity(alloc, count)?;
    for _ in 0..count {
        rows.push_reserved(Row::new(alloc));
    }
    Ok(rows)
}
