ghost use Rattle.std.specs.Prelude.{◌≡◌, ◌+◌, List, ℕ, Option, map};
ghost use Rattle.pt_meaning.specs.Basics as basics;
ghost use Rattle.pt_value.specs.declared.token.Token.{Token};
ghost use Rattle.pt_records.specs.Kept.{Made};
ghost use Rattle.pt_directors.specs.Directors as directors;
ghost use Rattle.pt_node.specs.Shown.{Shown, shown, shown_node, all_of};
ghost use Rattle.pt_node.specs.Acts.{acts};
ghost use Rattle.pt_node.specs.View.{outline_of, count_of};
ghost use Rattle.pt_node.specs.Live.{IsLive, Takes};
ghost use Rattle.pt_turns.specs.Within.{AnswersTo, EndsLive};
ghost use Rattle.pt_turns.specs.Composite.{EndsAs};
ghost use Rattle.pt_turns.specs.Between.{Rested, IsRestedUnderWay};
ghost use Rattle.pt_turns.specs.OwnMeetings.{own_of};

use crate::numbers::Buffers;
use pt_directors::Director;
use pt_firing::{Answer, Inputs};
use pt_node::Node;
use pt_past::{Labels, MeetingRecord};
use pt_time::Tag;
use pt_turns::{Rest, Within};
use pt_value::Text;
use std::alloc::Global;

/// What fires trees of nodes. Who begins the firing of a top in a way of its own goes on by it, and knows no more of it.
pub trait FiresTrees {
    /// One firing of the node at a tag, on a list of tokens for each of its places, by what is left of an allowance, which is lowered by each firing that is recorded.
    /// After any answer but `Done` the node isn't live, and fires no more.
    fn fire_within(
        alloc: Global,
        node: &mut Node,
        tag: Tag,
        inputs: &Inputs<'_>,
        left: &mut u64,
    ) -> Answer
        requires live { IsLive (shown_node node.old) }
        requires inputs { Takes tag (shown_node node.old) inputs.now }
        ensures answers { AnswersTo (shown_node node.old) tag inputs.now left.old result (shown_node node.new) }
        ensures outline { outline_of (shown_node node.new) ≡ outline_of (shown_node node.old) }
        ensures counted { count_of (shown_node node.new) + left.new ≡ count_of (shown_node node.old) + left.old }
        ensures live { EndsLive result (shown_node node.new) };

    /// Carries on the firing of a composite from where its first row of firings has come to.
    fn go_on(
        alloc: Global,
        director: &mut Director,
        children: &mut Vec<Node>,
        path: &Text,
        labels: &Labels,
        made: u64,
        meetings: &mut MeetingRecord,
        first: Rest,
        left: &mut u64,
        buffers: &mut Buffers,
    ) -> Within
        requires { (tag : basics.Tag) × IsRestedUnderWay tag made meetings.old first director.old (map shown children.old.items) left.old }
        ensures { (before : directors.Director) (olds : List Shown) (tag : basics.Tag) (X : basics.Streams Token) (allowance : ℕ) (start : Option Made) → Rested before olds tag X allowance (own_of made start meetings.old) first director.old (map shown children.old.items) left.old → EndsAs acts path.now labels.now (own_of made start meetings.new) before (all_of olds) tag X allowance result director.new (all_of (map shown children.new.items)) left.new };
}
