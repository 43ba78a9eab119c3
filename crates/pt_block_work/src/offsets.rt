ghost use Rattle.std.specs.Prelude.{◌≡◌, IfOk};
ghost use Rattle.pt_meaning.specs.Running.{total};
ghost use Rattle.pt_block_work.specs.Work.{AreOffsets};

use std::alloc::AllocError;

/// Where the places of each child begin, by how many it has; and how many there are. An `Err` also says that there are too many.
pub fn offsets_of(places: &[usize], offsets: &mut Vec<usize>) -> Result<usize, AllocError>
    ensures { IfOk result (λ all. (all ≡ total places.now) × AreOffsets places.now offsets.new.items) }
{
    offsets.clear();
    let mut next: usize = 0;
    for count in places {
        offsets.push(next)?;
        let Some(after) = next.checked_add(*count) else {
            return Err(AllocError);
        };
        next = after;
    }
    Ok(next)
}
