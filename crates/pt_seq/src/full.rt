ghost use Rattle.std.specs.Prelude.{◌≡◌, IfOk};
ghost use Rattle.pt_directors.specs.Directors.{director_calls};
ghost use Rattle.pt_node.specs.Full.{told_by};
ghost use Rattle.pt_turns.specs.Within.{IsFullAt};

use pt_core::Core;
use pt_directors::Director;
use pt_firing::{Blocked, Rows};
use pt_past::Labels;
use pt_turns::Within;
use pt_value::Text;
use std::alloc::{AllocError, Global};

/// The network of the director is full, which is told by the path of its composite and the labels of its channels.
pub(crate) fn full_at(alloc: Global, director: &Director, path: &Text, labels: &Labels) -> Within
    ensures { IsFullAt path.now labels.now (director_calls.blocked director.now) result }
{
    match blocked_at(alloc, director, path, labels) {
        Ok(blocked) => Within::Full(blocked),
        Err(_) => Within::Memory,
    }
}

/// The same, with the channels that are waited for.
fn blocked_at(
    alloc: Global,
    director: &Director,
    path: &Text,
    labels: &Labels,
) -> Result<Blocked, AllocError>
    ensures path { IfOk result (λ blocked. blocked.path ≡ path.now) }
    ensures channels { IfOk result (λ blocked. blocked.channels ≡ told_by labels.now (director_calls.blocked director.now)) }
{
    let full = director.blocked(alloc)?;
    let rows = labelled(alloc, labels, &full)?;
    let path = path.copy(alloc)?;
    Ok(Blocked {
        path,
        channels: Rows::of(rows),
    })
}

/// Channels by their labels, each with the number of its tokens.
fn labelled(
    alloc: Global,
    labels: &Labels,
    full: &[(u32, usize)],
) -> Result<Vec<(Text, u64)>, AllocError>
    ensures { IfOk result (λ rows. rows.items ≡ told_by labels.now full.now) }
{
    let mut rows = Vec::with_capacity(alloc, full.len())?;
    for row in full {
        let (channel, length) = *row;
        let label = labels.get(alloc, channel)?;
        rows.push((label, length as u64))?;
    }
    Ok(rows)
}
