//! What is known of the lines of a composite's meetings.
ghost use Rattle.std.specs.Prelude.{◌≡◌, IfOk, OnOk, None, replicate};
ghost use Rattle.pt_firing.specs.Meeting.{meeting_of};
ghost use Rattle.pt_meeting_lines.specs.Inside.{IsInsideOf, CanBeTold};
ghost use Rattle.pt_meeting_text.specs.Written.{IsEnd, IsKnown, AreKnown, IsWrittenEnd};

use crate::ends::end_of;
use pt_firing::Meeting;
use pt_meeting_lines::Inside;
use pt_trace::{MeetingLine, Met};
use pt_value::Text;
use std::alloc::{AllocError, Global};

/// How the lines of the meetings on each channel end, and of each child, a Barrier, as soon as one was written.
#[derive(Drop)]
pub(crate) struct Known {
    channels: Vec<Option<Text>>,
    children: Vec<Option<Text>>,
}

impl Known {
    pub(crate) fn none(alloc: Global, inside: &Inside<'_>) -> Result<Known, AllocError>
        ensures { IfOk result (AreKnown inside.now) }
    {
        let channels = blank(alloc, inside.channels.len())?;
        let children = blank(alloc, inside.children.len())?;
        Ok(Known { channels, children })
    }

    /// Writes the end of the line of a meeting.
    #[inline(always)]
    pub(crate) fn write_end(
        &mut self,
        alloc: Global,
        inside: &Inside<'_>,
        meeting: Meeting,
        out: &mut Vec<u8>,
    ) -> Result<(), AllocError>
        requires inside { IsInsideOf inside.now }
        requires told { CanBeTold inside.now (meeting_of meeting) }
        requires known { AreKnown inside.now self.old }
        ensures written { OnOk result (IsWrittenEnd inside.now (meeting_of meeting) out.old.items out.new.items) }
        ensures known { OnOk result (AreKnown inside.now self.new) }
    {
        match meeting {
            Meeting::Channel(channel) => {
                let known = &mut self.channels[channel as usize];
                write_known(alloc, inside, meeting, known, out)
            }
            Meeting::Barrier(child) => {
                let known = &mut self.children[child as usize];
                write_known(alloc, inside, meeting, known, out)
            }
        }
    }
}

/// So many places of which nothing is known.
fn blank(alloc: Global, count: usize) -> Result<Vec<Option<Text>>, AllocError>
    ensures { IfOk result (λ known. known.items ≡ replicate count None) }
{
    let mut known = Vec::with_capacity(alloc, count)?;
    for _ in 0..count {
        known.push(None)?;
    }
    Ok(known)
}

/// Writes the end of the line of a meeting by what is known of it.
#[inline(always)]
fn write_known(
    alloc: Global,
    inside: &Inside<'_>,
    meeting: Meeting,
    known: &mut Option<Text>,
    out: &mut Vec<u8>,
) -> Result<(), AllocError>
    requires inside { IsInsideOf inside.now }
    requires told { CanBeTold inside.now (meeting_of meeting) }
    requires known { IsKnown inside.now (meeting_of meeting) known.old }
    ensures written { OnOk result (IsWrittenEnd inside.now (meeting_of meeting) out.old.items out.new.items) }
    ensures known { OnOk result (IsKnown inside.now (meeting_of meeting) known.new) }
{
    if let Some(end) = known {
        return out.extend_from_slice(end.as_str().as_bytes());
    }
    write_first(alloc, inside, meeting, known, out)
}

/// The same of a meeting of which nothing is known. It is known from then on.
fn write_first(
    alloc: Global,
    inside: &Inside<'_>,
    meeting: Meeting,
    known: &mut Option<Text>,
    out: &mut Vec<u8>,
) -> Result<(), AllocError>
    requires inside { IsInsideOf inside.now }
    requires told { CanBeTold inside.now (meeting_of meeting) }
    ensures written { OnOk result (IsWrittenEnd inside.now (meeting_of meeting) out.old.items out.new.items) }
    ensures known { OnOk result (IsKnown inside.now (meeting_of meeting) known.new) }
{
    let end = meeting_end(alloc, inside, meeting)?;
    out.extend_from_slice(end.as_str().as_bytes())?;
    *known = Some(end);
    Ok(())
}

/// How the line of a meeting ends.
fn meeting_end(alloc: Global, inside: &Inside<'_>, meeting: Meeting) -> Result<Text, AllocError>
    requires inside { IsInsideOf inside.now }
    requires told { CanBeTold inside.now (meeting_of meeting) }
    ensures { IfOk result (IsEnd inside.now (meeting_of meeting)) }
{
    let one = [(0, meeting)];
    let told = inside.meetings(alloc, &one)?;
    end_of(alloc, &told.lines[0].what)
}
