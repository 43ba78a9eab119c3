ghost use Rattle.std.specs.Prelude.{◌≡◌, ◌≢◌, ℕ, IfOk, Some, All, map, true, false};
ghost use Rattle.std.specs.List.{AllZip};
ghost use Rattle.pt_meaning.specs.Log as log;
ghost use Rattle.pt_firing.specs.Meeting.{meeting_of};
ghost use Rattle.pt_records.specs.Made.{made_in};
ghost use Rattle.pt_trace.specs.declared.meetings.Met.{Met};
ghost use Rattle.pt_meeting_lines.specs.Inside.{IsInsideOf, CanBeTold};
ghost use Rattle.pt_meeting_lines.specs.Tells.{Tells, OnChannel, TellsAt};
ghost use Rattle.pt_meeting_lines.specs.Lines.{meant, met_in, IsLine, AreLines, AreLinesOf};

use crate::places::{child_path, item_at, place_at, port_name};
use pt_firing::Meeting;
use pt_net::{Channel, Net, NetEntity};
use pt_trace::{MeetingLine, Meetings, Met};
use std::alloc::{AllocError, Global};

/// A composite of a net, with what is within it in the numbers that its director uses.
#[derive(Clone, Copy)]
pub struct Inside<'a> {
    pub net: &'a Net,
    /// Its number in the net.
    pub number: usize,
    pub composite: &'a NetEntity,
    /// Its children, by their numbers in the net.
    pub children: &'a [usize],
    /// The channels within it.
    pub channels: &'a [Channel],
}

impl<'a> Inside<'a> {
    /// The meetings that were made in it, each with the number of its firing, as a report lists them: in the order in which they were made. It takes time linear in their number, and in the names that it writes.
    pub fn meetings(&self, alloc: Global, made: &[(u64, Meeting)]) -> Result<Meetings, AllocError>
        requires inside { IsInsideOf self.now }
        requires told { All (λ m. CanBeTold self.now m.1) (map meant made.now) }
        ensures lines { IfOk result (λ told. AreLinesOf self.now.net.now self.now.number self.now.composite.now told (map meant made.now)) }
        ensures firings { IfOk result (λ told. (n : ℕ) → AllZip (TellsAt self.now.net.now (Some told.path)) (met_in n told.lines) (made_in n (map meant made.now))) }
    {
        let path = self.composite.path.copy(alloc)?;
        let lines = self.lines(alloc, made)?;
        Ok(Meetings { path, lines })
    }

    fn lines(&self, alloc: Global, made: &[(u64, Meeting)]) -> Result<Vec<MeetingLine>, AllocError>
        requires inside { IsInsideOf self.now }
        requires told { All (λ m. CanBeTold self.now m.1) (map meant made.now) }
        ensures { IfOk result (λ lines. AreLines self.now.net.now self.now.number self.now.composite.now lines.items (map meant made.now)) }
    {
        let mut lines = Vec::with_capacity(alloc, made.len())?;
        for (firing, meeting) in made {
            let line = self.line(alloc, *firing, *meeting)?;
            lines.push(line)?;
        }
        Ok(lines)
    }

    /// The line of a meeting that was made in the firing of that number.
    fn line(&self, alloc: Global, firing: u64, meeting: Meeting) -> Result<MeetingLine, AllocError>
        requires inside { IsInsideOf self.now }
        requires told { CanBeTold self.now (meeting_of meeting) }
        ensures { IfOk result (λ line. IsLine self.now.net.now self.now.number self.now.composite.now line (firing, meeting_of meeting)) }
    {
        let what = self.met(alloc, meeting)?;
        Ok(MeetingLine { firing, what })
    }

    /// Who meets.
    fn met(&self, alloc: Global, meeting: Meeting) -> Result<Met, AllocError>
        requires inside { IsInsideOf self.now }
        requires told { CanBeTold self.now (meeting_of meeting) }
        ensures { IfOk result (λ what. Tells self.now.net.now self.now.number self.now.composite.now what (meeting_of meeting)) }
    {
        match meeting {
            Meeting::Channel(channel) => self.met_on(alloc, channel),
            Meeting::Barrier(child) => self.met_by(alloc, child),
        }
    }

    /// The sender and the receiver of the channel of that number.
    fn met_on(&self, alloc: Global, number: u32) -> Result<Met, AllocError>
        requires inside { IsInsideOf self.now }
        requires told { CanBeTold self.now (log.Channel number) }
        ensures { IfOk result (λ what. Tells self.now.net.now self.now.number self.now.composite.now what (log.Channel number)) }
    {
        let channel = item_at(self.channels, number as usize);
        self.met_to(alloc, channel)
    }

    /// The child of that number, a Barrier, with the senders of all its channels.
    fn met_by(&self, alloc: Global, child: u32) -> Result<Met, AllocError>
        requires inside { IsInsideOf self.now }
        requires told { CanBeTold self.now (log.Barrier child) }
        ensures { IfOk result (λ what. Tells self.now.net.now self.now.number self.now.composite.now what (log.Barrier child)) }
    {
        let barrier = item_at(self.children, child as usize);
        let path = child_path(alloc, self.net, self.composite, *barrier)?;
        Ok(Met::Barrier(path))
    }

    /// Whether a channel ends at an output of the composite.
    fn is_own(&self, channel: &Channel) -> bool
        ensures yes { result ≡ true → channel.now.to.entity ≡ self.now.number }
        ensures no { result ≡ false → channel.now.to.entity ≢ self.now.number }
    {
        channel.to.entity as usize == self.number
    }

    fn met_to(&self, alloc: Global, channel: &Channel) -> Result<Met, AllocError>
        requires { (what : Met) × OnChannel self.now.net.now self.now.number self.now.composite.now what channel.now }
        ensures { IfOk result (λ what. OnChannel self.now.net.now self.now.number self.now.composite.now what channel.now) }
    {
        if self.is_own(channel) {
            self.met_outside(alloc, channel)
        } else {
            self.met_inside(alloc, channel)
        }
    }

    /// By the output of the composite where the channel ends.
    fn met_outside(&self, alloc: Global, channel: &Channel) -> Result<Met, AllocError>
        requires told { (what : Met) × OnChannel self.now.net.now self.now.number self.now.composite.now what channel.now }
        requires own { channel.now.to.entity ≡ self.now.number }
        ensures { IfOk result (λ what. OnChannel self.now.net.now self.now.number self.now.composite.now what channel.now) }
    {
        let port = port_name(alloc, self.composite, channel.to.port)?;
        Ok(Met::Out(port))
    }

    /// By the place of a child where the channel ends.
    fn met_inside(&self, alloc: Global, channel: &Channel) -> Result<Met, AllocError>
        requires told { (what : Met) × OnChannel self.now.net.now self.now.number self.now.composite.now what channel.now }
        requires apart { channel.now.to.entity ≢ self.now.number }
        ensures { IfOk result (λ what. OnChannel self.now.net.now self.now.number self.now.composite.now what channel.now) }
    {
        let place = place_at(alloc, self.net, self.composite, channel.to)?;
        Ok(Met::Meet(place))
    }
}
