ghost use Rattle.std.specs.Prelude.{◌≡◌, ◌≢◌, ℕ, ◌<◌, length, slice_index, All, IfOk, OnOk};
ghost use Rattle.pt_net.specs.Joined.{IsGrouping};
ghost use Rattle.pt_graph.specs.Groups.{IsKept, Relabels, Moves, Merges};

use std::alloc::{AllocError, Global};
use std::mem;

/// Things in groups: the group of each thing, and the members of each group.
#[derive(Drop)]
struct Groups {
    group: Vec<usize>,
    members: Vec<Vec<usize>>,
}

/// Gives each of these things the number of a group.
fn relabel(group: &mut [usize], things: &[usize], to: usize)
    requires within { All (λ thing. thing < length group.old) things.now }
    ensures { Relabels things.now to group.old group.new }
{
    for thing in things {
        group[*thing] = to;
    }
}

impl Groups {
    /// Each thing in a group of its own.
    fn apart(alloc: Global, count: usize) -> Result<Groups, AllocError>
        ensures kept { IfOk result (λ groups. IsKept count groups) }
        ensures apart { IfOk result (λ groups. (t : ℕ) → t < count → slice_index groups.group.items t ≡ t) }
    {
        let mut group = Vec::with_capacity(alloc, count)?;
        let mut members = Vec::with_capacity(alloc, count)?;
        for thing in 0..count {
            group.push(thing)?;
            members.push(vec![in alloc; thing]?)?;
        }
        Ok(Groups { group, members })
    }

    /// Puts the members of one group into another.
    fn put_into(&mut self, alloc: Global, from: usize, to: usize) -> Result<(), AllocError>
        requires kept { IsKept (length self.old.group.items) self.old }
        requires from { from < length self.old.group.items }
        requires to { to < length self.old.group.items }
        requires apart { from ≢ to }
        ensures kept { OnOk result (IsKept (length self.old.group.items) self.new) }
        ensures moved { OnOk result (Moves (length self.old.group.items) from to self.old.group.items self.new.group.items) }
    {
        let moved = mem::replace(&mut self.members[from], Vec::new(alloc));
        relabel(&mut self.group, &moved, to);
        self.members[to].extend_from_slice(&moved)?;
        Ok(())
    }

    /// Makes one group of the groups of two things, by moving the smaller.
    fn join(&mut self, alloc: Global, a: usize, b: usize) -> Result<(), AllocError>
        requires kept { IsKept (length self.old.group.items) self.old }
        requires a { a < length self.old.group.items }
        requires b { b < length self.old.group.items }
        ensures kept { OnOk result (IsKept (length self.old.group.items) self.new) }
        ensures merged { OnOk result (Merges (length self.old.group.items) a b self.old.group.items self.new.group.items) }
    {
        let (first, second) = (self.group[a], self.group[b]);
        if first == second {
            Ok(())
        } else if self.members[first].len() < self.members[second].len() {
            self.put_into(alloc, first, second)
        } else {
            self.put_into(alloc, second, first)
        }
    }
}

/// Each thing by its own number.
fn alone(alloc: Global, count: usize) -> Result<Vec<usize>, AllocError>
    ensures counted { IfOk result (λ group. length group.items ≡ count) }
    ensures own { IfOk result (λ group. (t : ℕ) → t < count → slice_index group.items t ≡ t) }
{
    let mut group = Vec::with_capacity(alloc, count)?;
    for thing in 0..count {
        group.push(thing)?;
    }
    Ok(group)
}

/// The number of a group for each of `count` things, the same for two exactly where the links join them. Where there are no links no
/// lists of members are made.
pub fn group(
    alloc: Global,
    count: usize,
    links: &[(usize, usize)],
) -> Result<Vec<usize>, AllocError>
    requires ends { All (λ link. (link.0 < count) × (link.1 < count)) links.now }
    ensures { IfOk result (λ group. IsGrouping count links.now group.items) }
{
    if links.is_empty() {
        let group = alone(alloc, count)?;
        return Ok(group);
    }
    let mut groups = Groups::apart(alloc, count)?;
    for (a, b) in links {
        groups.join(alloc, *a, *b)?;
    }
    Ok(groups.group)
}
