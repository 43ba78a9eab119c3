ghost use Rattle.std.specs.Prelude.{◌≡◌, ◌^◌, ◌<◌, ◌++◌, length, replicate, IfOk, OnOk};
ghost use Rattle.pt_reaction.specs.Offsets.{begins, all_readers};

use std::alloc::{AllocError, Global};

/// Where the places of each child begin, and where those of all end.
pub fn offsets_of(alloc: Global, places: &[usize]) -> Result<Vec<usize>, AllocError>
    ensures { IfOk result (λ offsets. offsets.items ≡ begins 0 places.now) }
{
    let mut offsets = Vec::new(alloc);
    let mut from = 0usize;
    for n in places {
        offsets.push(from)?;
        let Some(next) = from.checked_add(*n) else {
            return Err(AllocError);
        };
        from = next;
    }
    offsets.push(from)?;
    Ok(offsets)
}

/// The child at whose place each of so many channels ends, and the number of children for an own output.
pub fn readers_of(alloc: Global, places: &[usize], channels: usize) -> Result<Vec<u32>, AllocError>
    requires few { length places.now < 2 ^ 32 }
    ensures { IfOk result (λ found. found.items ≡ all_readers places.now channels) }
{
    let mut found = Vec::with_capacity(alloc, channels)?;
    for child in 0..places.len() {
        add_reader(&mut found, child as u32, places[child])?;
    }
    let outlets = channels.saturating_sub(found.len());
    add_reader(&mut found, places.len() as u32, outlets)?;
    Ok(found)
}

/// A child so many times behind the others.
fn add_reader(found: &mut Vec<u32>, child: u32, times: usize) -> Result<(), AllocError>
    ensures { OnOk result (found.new.items ≡ found.old.items ++ replicate times child) }
{
    for _ in 0..times {
        found.push(child)?;
    }
    Ok(())
}
