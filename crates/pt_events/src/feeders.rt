ghost use Rattle.std.specs.Prelude.{◌≡◌, ◌<◌, ◌++◌, ◌∷◌, [], All, IfOk, OnOk, length};
ghost use Rattle.pt_events.specs.Depths.{AreBetween};
ghost use Rattle.pt_events.specs.Found.{AreFeeders};

use std::alloc::{AllocError, Global};
use std::marker::Model;

/// Numbers of children, which a contract sees as their list.
#[derive(Drop)]
pub(crate) struct Children {
    children: Vec<u32>,
}

impl Model for Children {
    ghost use Rattle.std.specs.Prelude.{List, ℕ};

    ghost Value = { List ℕ };

    ghost view = { λ list. list.children.items };
}

impl Children {
    pub(crate) fn new(alloc: Global) -> Children
        ensures { result ≡ [] }
    {
        Children {
            children: Vec::new(alloc),
        }
    }

    pub(crate) fn push(&mut self, child: u32) -> Result<(), AllocError>
        ensures { OnOk result (self.new ≡ self.old ++ child ∷ []) }
    {
        self.children.push(child)?;
        Ok(())
    }

    pub(crate) fn as_slice(&self) -> &[u32]
        ensures { result.now ≡ self.now }
    {
        self.children.as_slice()
    }
}

/// For each of `n` children those that feed it, as often as they do.
pub(crate) fn listed(
    alloc: Global,
    n: u32,
    edges: &[(u32, u32)],
) -> Result<Vec<Children>, AllocError>
    requires { AreBetween n edges.now }
    ensures { IfOk result (λ lists. AreFeeders n edges.now lists.items) }
{
    let mut lists = empty_lists(alloc, n)?;
    for (from, to) in edges {
        lists[*to as usize].push(*from)?;
    }
    Ok(lists)
}

/// A list without children for each of `n` children.
pub(crate) fn empty_lists(alloc: Global, n: u32) -> Result<Vec<Children>, AllocError>
    ensures counted { IfOk result (λ lists. length lists.items ≡ n) }
    ensures empty { IfOk result (λ lists. All (λ list. list ≡ []) lists.items) }
{
    let mut lists = Vec::with_capacity(alloc, n as usize)?;
    for _child in 0..n {
        lists.push(Children::new(alloc))?;
    }
    Ok(lists)
}
