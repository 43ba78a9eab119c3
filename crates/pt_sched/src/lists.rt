ghost use Rattle.std.specs.Prelude.{◌≡◌, ◌<◌, ◌++◌, ◌∷◌, [], All, IfOk, OnOk, length, slice_index_or};
ghost use Rattle.pt_sched.specs.Channels.{IsSchedEdge};
ghost use Rattle.pt_sched.specs.Lists.{child_at, AreListed};

use crate::edge::SchedEdge;
use std::alloc::{AllocError, Global};
use std::marker::Model;

/// Numbers of channels, which a contract sees as their list.
#[derive(Drop)]
pub(crate) struct Numbers {
    numbers: Vec<usize>,
}

impl Model for Numbers {
    ghost use Rattle.std.specs.Prelude.{List, ℕ};

    ghost Value = { List ℕ };

    ghost view = { λ list. list.numbers.items };
}

impl Numbers {
    fn new(alloc: Global) -> Numbers
        ensures { result ≡ [] }
    {
        Numbers {
            numbers: Vec::new(alloc),
        }
    }

    fn push(&mut self, number: usize) -> Result<(), AllocError>
        ensures { OnOk result (self.new ≡ self.old ++ number ∷ []) }
    {
        self.numbers.push(number)?;
        Ok(())
    }

    pub(crate) fn as_slice(&self) -> &[usize]
        ensures { result.now ≡ self.now }
    {
        self.numbers.as_slice()
    }
}

/// A side of a channel.
#[derive(Clone, Copy)]
pub(crate) enum Side {
    Start,
    End,
}

/// The child at a side of a channel.
fn child_of(side: Side, channel: &SchedEdge) -> u32
    ensures { result ≡ child_at side channel.now }
{
    match side {
        Side::Start => channel.edge.from,
        Side::End => channel.edge.to,
    }
}

/// For each of `n` children the channels that have it at this side.
pub(crate) fn listed(
    alloc: Global,
    n: u32,
    side: Side,
    channels: &[SchedEdge],
) -> Result<Vec<Numbers>, AllocError>
    requires { All (IsSchedEdge n) channels.now }
    ensures { IfOk result (λ lists. AreListed n side channels.now lists.items) }
{
    let mut lists = empty_lists(alloc, n)?;
    for (number, channel) in channels.iter().enumerate() {
        let child = child_of(side, channel) as usize;
        lists[child].push(number)?;
    }
    Ok(lists)
}

fn empty_lists(alloc: Global, n: u32) -> Result<Vec<Numbers>, AllocError>
    ensures counted { IfOk result (λ lists. length lists.items ≡ n) }
    ensures empty { IfOk result (λ lists. All (λ list. list ≡ []) lists.items) }
{
    let mut lists = Vec::with_capacity(alloc, n as usize)?;
    for _child in 0..n {
        lists.push(Numbers::new(alloc))?;
    }
    Ok(lists)
}

/// The list of a child.
pub(crate) fn numbers_at(lists: &[Numbers], child: u32) -> &[usize]
    requires { child < length lists.now }
    ensures { result.now ≡ slice_index_or lists.now child [] }
{
    lists[child as usize].as_slice()
}
