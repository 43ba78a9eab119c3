ghost use Rattle.std.specs.Prelude.{◌≡◌, ◌<◌, ◌↔◌, ◌++◌, length, set, None, IsTrue, IfOk, IfSome, IfNone};
ghost use Rattle.pt_meaning.specs.Tag as tags;
ghost use Rattle.pt_wakes.specs.Wakes.{wake_of, NoneIsDue, IsDueAt};

use crate::nodes::{due_leaf, settle_above, settle_all};
use crate::tags::Wake;
use pt_time::Tag;
use std::alloc::{AllocError, Global};
use std::marker::Model;

/// The wakes of some children, by number, which contracts see as their list.
///
/// They are the leaves of a tree in which each node has the lesser wake of the two below it: so the least of all is at
/// hand, and a change of one wake changes only the nodes on the way up from it.
#[derive(Drop)]
pub struct Wakes {
    // How many wakes there are.
    pub(crate) leaves: usize,
    // The nodes of the tree, the leaves last.
    pub(crate) nodes: Vec<Wake>,
}

impl Model for Wakes {
    ghost use Rattle.std.specs.Prelude.{List, Option, drop};
    ghost use Rattle.pt_meaning.specs.Tag.{Tag};
    ghost use Rattle.pt_wakes.specs.Codes.{coded_wakes};
    ghost use Rattle.pt_wakes.specs.Nodes.{IsTree};

    ghost Value = { List (Option Tag) };

    ghost coded = { coded_wakes };

    ghost view = { λ w. drop w.leaves w.nodes.items };

    ghost invariant = { λ w. IsTree w.leaves w.nodes.items };
}

impl Wakes {
    /// These wakes.
    pub fn new(alloc: Global, wakes: &[Option<Tag>]) -> Result<Wakes, AllocError>
        ensures { IfOk result (λ made. made ≡ wakes.now) }
    {
        let leaves = wakes.len();
        let mut nodes = vec![in alloc; Wake::of(None); leaves]?;
        add_leaves(&mut nodes, wakes)?;
        settle_all(&mut nodes, leaves);
        Ok(Wakes { leaves, nodes })
    }

    /// How many children there are.
    pub fn len(&self) -> usize
        ensures { result ≡ length self.now }
    {
        self.leaves
    }

    /// Whether no child has a wake.
    #[inline(always)]
    pub fn is_empty(&self) -> bool
        ensures { IsTrue result ↔ (tags.least self.now ≡ None) }
    {
        self.leaves == 0 || self.nodes[1].is_none()
    }

    /// The wake of a child.
    pub fn get(&self, child: usize) -> Option<Tag>
        requires { child < length self.now }
        ensures { result ≡ wake_of self.now child }
    {
        self.nodes[self.leaves + child].get()
    }

    /// Gives a child this wake. It takes no memory.
    pub fn set(&mut self, child: usize, wake: Option<Tag>)
        requires { child < length self.old }
        ensures { self.new ≡ set self.old child wake }
    {
        let leaf = self.leaves + child;
        self.nodes[leaf] = Wake::of(wake);
        settle_above(&mut self.nodes, self.leaves, leaf);
    }

    /// The least of the wakes, if there is any.
    pub fn least(&self) -> Option<Tag>
        ensures { result ≡ tags.least self.now }
    {
        if self.leaves == 0 {
            return None;
        }
        self.nodes[1].get()
    }

    /// A child whose wake is at or before the tag, where there is one.
    pub fn due(&self, tag: Tag) -> Option<usize>
        ensures some { IfSome result (λ child. IsDueAt tag self.now child) }
        ensures none { IfNone result (NoneIsDue tag self.now) }
    {
        if self.leaves == 0 || !self.nodes[1].is_due(tag) {
            return None;
        }
        Some(due_leaf(&self.nodes, self.leaves, 1, tag) - self.leaves)
    }

    /// The same wakes again.
    pub fn copy(&self, alloc: Global) -> Result<Wakes, AllocError>
        ensures { IfOk result (λ copy. copy ≡ self.now) }
    {
        Ok(Wakes {
            leaves: self.leaves,
            nodes: Vec::from_slice(alloc, &self.nodes)?,
        })
    }
}

/// Adds the wakes as leaves.
fn add_leaves(nodes: &mut Vec<Wake>, wakes: &[Option<Tag>]) -> Result<(), AllocError>
    ensures { IfOk result (λ _. nodes.new.items ≡ nodes.old.items ++ wakes.now) }
{
    for wake in wakes {
        nodes.push(Wake::of(*wake))?;
    }
    Ok(())
}
