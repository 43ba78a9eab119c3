//! The meetings at the front of a text.
ghost use Rattle.std.specs.Prelude.{◌≡◌, ◌<◌, ◌≤◌, All, length, IfOk};
ghost use Rattle.std.specs.Char.{is_ascii_digit};
ghost use Rattle.pt_trace.specs.declared.meetings.Met.{Met as Who};
ghost use Rattle.pt_trace.specs.ReportForm.{AreMeetings, IsMeeting};
ghost use Rattle.pt_readback.specs.Report.{FitsMet};
ghost use Rattle.pt_readback.specs.Listed.{Finds, ReadsOne, ReadsAll};
ghost use Rattle.pt_readback.specs.Lines.{AreRunMeetings, IsLineForm, IsRunMeeting, begins_meetings, never, say_meeting, say_meetings, who_of, word_of};

use crate::cuts::{cut, cut_three, cut_two, front, number};
use crate::fault::ReportFault;
use crate::names::{name, names, path, place};
use pt_trace::{MeetingLine, Meetings, Met};
use std::alloc::{AllocError, Global};

/// The meetings of all composites at the front, and what follows them.
pub(crate) fn all_meetings(
    alloc: Global,
    text: &[u8],
) -> Result<(Vec<Meetings>, &[u8]), ReportFault>
    ensures found { ReadsAll say_meetings AreRunMeetings begins_meetings is_ascii_digit text.now (λ x. (x.0.items, x.1.now)) result }
    ensures form { IfOk result (λ x. All AreMeetings x.0.items) }
{
    let mut all = Vec::new(alloc);
    let mut rest = text;
    while front(rest) == b'm' {
        let (meetings, behind) = meetings(alloc, rest)?;
        all.push(meetings).map_err(AllocError::from)?;
        rest = behind;
    }
    Ok((all, rest))
}

/// The meetings of one composite, and what follows them.
fn meetings(alloc: Global, text: &[u8]) -> Result<(Meetings, &[u8]), ReportFault>
    ensures found { ReadsOne say_meetings AreRunMeetings is_ascii_digit text.now (λ x. (x.0, x.1.now)) result }
    ensures form { IfOk result (λ x. AreMeetings x.0) }
    ensures shorter { IfOk result (λ x. length x.1.now < length text.now) }
{
    let Some((_, composite, rest)) = cut_two(b' ', b'\n', text) else {
        return Err(ReportFault::Shape);
    };
    let path = path(alloc, composite)?;
    let (lines, rest) = lines(alloc, rest)?;
    Ok((Meetings { path, lines }, rest))
}

/// The meetings of all lines that begin with a digit, and what follows them.
fn lines(alloc: Global, text: &[u8]) -> Result<(Vec<MeetingLine>, &[u8]), ReportFault>
    ensures found { ReadsAll say_meeting IsRunMeeting is_ascii_digit never text.now (λ x. (x.0.items, x.1.now)) result }
    ensures form { IfOk result (λ x. All IsLineForm x.0.items) }
    ensures within { IfOk result (λ x. length x.1.now ≤ length text.now) }
{
    let mut lines = Vec::new(alloc);
    let mut rest = text;
    while front(rest).is_ascii_digit() {
        let (line, behind) = line(alloc, rest)?;
        lines.push(line).map_err(AllocError::from)?;
        rest = behind;
    }
    Ok((lines, rest))
}

/// The meeting of a line, and what follows the line.
fn line(alloc: Global, text: &[u8]) -> Result<(MeetingLine, &[u8]), ReportFault>
    ensures found { ReadsOne say_meeting IsRunMeeting never text.now (λ x. (x.0, x.1.now)) result }
    ensures form { IfOk result (λ x. IsLineForm x.0) }
    ensures shorter { IfOk result (λ x. length x.1.now < length text.now) }
{
    let Some((firing, words)) = cut(b' ', text) else {
        return Err(ReportFault::Shape);
    };
    let Some((_, kind, who, rest)) = cut_three(b' ', b' ', b'\n', words) else {
        return Err(ReportFault::Shape);
    };
    let Some(firing) = number(firing) else {
        return Err(ReportFault::Shape);
    };
    let what = met(alloc, kind, who)?;
    Ok((MeetingLine { firing, what }, rest))
}

/// Who met, by the word for the kind of meeting.
fn met(alloc: Global, kind: &[u8], who: &[u8]) -> Result<Met, ReportFault>
    ensures found { (m : Who) → IsMeeting m → FitsMet m → word_of m ≡ kind.now → who_of m ≡ who.now → Finds (λ x. x) result m }
    ensures form { IfOk result IsMeeting }
{
    match front(kind) {
        b'm' => Ok(Met::Meet(place(alloc, who)?)),
        b'o' => Ok(Met::Out(name(alloc, who)?)),
        b'b' => Ok(Met::Barrier(names(alloc, who)?)),
        _ => Err(ReportFault::Shape),
    }
}
