ghost use Rattle.std.specs.Prelude.{◌≡◌, [], ◌∷◌, map, MatchOption, None, Some, OnOk, OnErr};
ghost use Rattle.pt_core.specs.Met.{made_with};
ghost use Rattle.pt_firing.specs.Meeting.{meeting_of};
ghost use Rattle.pt_past.specs.Meetings.{told};

use pt_firing::Meeting;
use std::alloc::{AllocError, Global};
use std::marker::Model;

/// The record of the meetings that a composite made, in order, each with the number of its firing. A node whose director makes none has no record.
#[derive(Drop)]
pub struct MeetingRecord {
    made: Option<Vec<(u64, Meeting)>>,
}

impl Model for MeetingRecord {
    ghost use Rattle.std.specs.Prelude.{Option, option_map, map};
    ghost use Rattle.pt_records.specs.Kept.{Made};
    ghost use Rattle.pt_past.specs.Meetings.{told};

    ghost Value = { Option Made };

    ghost view = { λ m. option_map (λ made. map told made.items) m.made };
}

impl MeetingRecord {
    /// That of a node that records none.
    pub fn unrecorded() -> MeetingRecord
        ensures { result ≡ None }
    {
        MeetingRecord { made: None }
    }

    /// A record in which none is yet.
    pub fn new(alloc: Global) -> MeetingRecord
        ensures { result ≡ Some [] }
    {
        MeetingRecord {
            made: Some(Vec::new(alloc)),
        }
    }

    /// Records a meeting that was made in the firing of that number. Where none are recorded nothing is done.
    #[tactic(auto, using(crate::proofs::MeetingsLaws::told_more))]
    pub fn note(&mut self, firing: u64, meeting: Meeting) -> Result<(), AllocError>
        ensures noted { OnOk result (self.new ≡ made_with firing (meeting_of meeting ∷ []) self.old) }
        ensures kept { OnErr result (self.new ≡ self.old) }
    {
        if let Some(made) = &mut self.made {
            made.push((firing, meeting))?;
        }
        Ok(())
    }

    /// The recorded meetings, if any are recorded.
    pub fn as_slice(&self) -> Option<&[(u64, Meeting)]>
        ensures { MatchOption result (self.now ≡ None) (λ made. self.now ≡ Some (map told made.now)) }
    {
        match &self.made {
            Some(made) => Some(made.as_slice()),
            None => None,
        }
    }
}
