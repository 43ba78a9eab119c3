use pt_firing::Meeting;
use std::alloc::{AllocError, Global};
use std::marker::Model;

/// The meetings made in a firing, with room for so many that were promised.
#[derive(Drop)]
pub struct Meetings {
    list: Vec<Meeting>,
    promised: usize,
}

impl Model for Meetings {
    ghost use Rattle.pt_meaning.specs.Log as log;
    ghost use Rattle.pt_reaction.specs.Spared.{Spared, spared_code};
    ghost use Rattle.pt_rv_plan.specs.Codes.{coded_meeting};
    ghost use Rattle.pt_rv_plan.specs.Meetings.{seen_meetings, HasPromised};

    ghost Value = { Spared log.Meeting };

    ghost coded = { spared_code coded_meeting };

    ghost view = { seen_meetings };

    ghost invariant = { HasPromised };
}

impl Meetings {
    ghost use Rattle.std.specs.Prelude.{◌≡◌, ◌+◌, ◌<◌, [], ◌∷◌, ◌++◌, map, IfOk, OnOk, OnErr};
    ghost use Rattle.pt_firing.specs.Meeting.{meeting_of};

    /// None yet.
    pub fn new(alloc: Global) -> Meetings
        ensures list { result.list ≡ [] }
        ensures spare { result.spare ≡ 0 }
    {
        Meetings {
            list: Vec::new(alloc),
            promised: 0,
        }
    }

    /// Makes room for so many more.
    #[inline(always)]
    pub fn promise(&mut self, more: usize) -> Result<(), AllocError>
        ensures list { self.new.list ≡ self.old.list }
        ensures spare { OnOk result (self.new.spare ≡ self.old.spare + more) }
        ensures kept { OnErr result (self.new.spare ≡ self.old.spare) }
    {
        let Some(wanted) = self.promised.checked_add(more) else {
            return Err(AllocError);
        };
        self.list.reserve(wanted)?;
        self.promised = wanted;
        Ok(())
    }

    /// A meeting is made. It takes no memory.
    #[inline(always)]
    pub fn note(&mut self, meeting: Meeting)
        requires { 0 < self.old.spare }
        ensures list { self.new.list ≡ self.old.list ++ meeting_of meeting ∷ [] }
        ensures spare { self.new.spare + 1 ≡ self.old.spare }
    {
        self.list.push_reserved(meeting);
        self.promised -= 1;
    }

    /// None is made any more, and the room stays.
    pub fn clear(&mut self)
        ensures list { self.new.list ≡ [] }
        ensures spare { self.new.spare ≡ self.old.spare }
    {
        self.list.clear();
    }

    /// The meetings in their order.
    pub fn as_slice(&self) -> &[Meeting]
        ensures { map meeting_of result.now ≡ self.now.list }
    {
        self.list.as_slice()
    }

    /// The same meetings again, with the same room.
    pub fn copy(&self, alloc: Global) -> Result<Meetings, AllocError>
        ensures { IfOk result (λ meetings. meetings ≡ self.now) }
    {
        let mut list = Vec::from_slice(alloc, &self.list)?;
        list.reserve(self.promised)?;
        Ok(Meetings {
            list,
            promised: self.promised,
        })
    }
}
