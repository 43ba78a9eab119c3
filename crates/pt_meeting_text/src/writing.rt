//! The text of the meetings of a composite.
ghost use Rattle.std.specs.Prelude.{◌≡◌, ◌<◌, ◌+◌, ◌^◌, ◌==◌, ◌++◌, ℕ, OnOk, All, map, codes, if◌then◌else◌};
ghost use Rattle.pt_firing.specs.Meeting.{meeting_of};
ghost use Rattle.pt_meeting_lines.specs.Inside.{IsInsideOf, CanBeTold};
ghost use Rattle.pt_meeting_lines.specs.Lines.{meant};
ghost use Rattle.pt_meeting_text.specs.Earlier.{counted};
ghost use Rattle.pt_meeting_text.specs.Written.{AreKnown, IsWrittenLine, AreWritten, AreWrittenOf};

use crate::earlier::Earlier;
use crate::head::write_head;
use crate::known::Known;
use pt_firing::Meeting;
use pt_meeting_lines::Inside;
use std::alloc::{AllocError, Global};

/// Writes the meetings that were made in a composite, each with the number of its firing, as a report tells them: in the order in which they were made. It takes time linear in their number and in the text.
pub fn write_meetings(
    alloc: Global,
    inside: &Inside<'_>,
    made: &[(u64, Meeting)],
    out: &mut Vec<u8>,
) -> Result<(), AllocError>
    requires inside { IsInsideOf inside.now }
    requires told { All (λ m. CanBeTold inside.now m.1) (map meant made.now) }
    ensures { OnOk result (AreWrittenOf inside.now (map meant made.now) out.old.items out.new.items) }
{
    write_path(inside, out)?;
    write_lines(alloc, inside, made, out)?;
    Ok(())
}

fn write_path(inside: &Inside<'_>, out: &mut Vec<u8>) -> Result<(), AllocError>
    ensures { OnOk result (out.new.items ≡ out.old.items ++ (codes "meetings " ++ (inside.now.composite.now.path ++ codes "\n"))) }
{
    out.extend_from_slice(b"meetings ")?;
    out.extend_from_slice(inside.composite.path.as_str().as_bytes())?;
    out.push(b'\n')?;
    Ok(())
}

fn write_lines(
    alloc: Global,
    inside: &Inside<'_>,
    made: &[(u64, Meeting)],
    out: &mut Vec<u8>,
) -> Result<(), AllocError>
    requires inside { IsInsideOf inside.now }
    requires told { All (λ m. CanBeTold inside.now m.1) (map meant made.now) }
    ensures { OnOk result (AreWritten inside.now (map meant made.now) out.old.items out.new.items) }
{
    let mut known = Known::none(alloc, inside)?;
    let mut earlier = Earlier::none(alloc);
    write_each(alloc, inside, made, &mut known, &mut earlier, out)
}

fn write_each(
    alloc: Global,
    inside: &Inside<'_>,
    made: &[(u64, Meeting)],
    known: &mut Known,
    earlier: &mut Earlier,
    out: &mut Vec<u8>,
) -> Result<(), AllocError>
    requires inside { IsInsideOf inside.now }
    requires told { All (λ m. CanBeTold inside.now m.1) (map meant made.now) }
    requires known { AreKnown inside.now known.old }
    requires none { (q : ℕ) → counted earlier.old q ≡ 0 }
    ensures { OnOk result (AreWritten inside.now (map meant made.now) out.old.items out.new.items) }
{
    for (firing, meeting) in made {
        write_line(alloc, inside, *firing, *meeting, known, earlier, out)?;
    }
    Ok(())
}

/// Writes the line of a meeting, and counts it.
#[inline(always)]
fn write_line(
    alloc: Global,
    inside: &Inside<'_>,
    firing: u64,
    meeting: Meeting,
    known: &mut Known,
    earlier: &mut Earlier,
    out: &mut Vec<u8>,
) -> Result<(), AllocError>
    requires inside { IsInsideOf inside.now }
    requires told { CanBeTold inside.now (meeting_of meeting) }
    requires known { AreKnown inside.now known.old }
    requires few { counted earlier.old firing < 2 ^ 63 }
    ensures written { OnOk result (IsWrittenLine inside.now (firing, meeting_of meeting) (counted earlier.old firing) out.old.items out.new.items) }
    ensures known { OnOk result (AreKnown inside.now known.new) }
    ensures counted { OnOk result ((q : ℕ) → counted earlier.new q ≡ (if q == firing then counted earlier.old q + 1 else counted earlier.old q)) }
{
    let index = earlier.next(firing)?;
    write_head(firing, index, out)?;
    known.write_end(alloc, inside, meeting, out)?;
    Ok(())
}
