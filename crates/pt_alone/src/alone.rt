// Firings of a node whose outputs nobody takes: they are let go of where they are handed out.
ghost use Rattle.std.specs.Prelude.{◌≡◌, ◌+◌, ◌<◌, [], map};
ghost use Rattle.pt_directors.specs.Directors.{director_calls, of_de};
ghost use Rattle.pt_node.specs.declared.node.Node.{out-Node};
ghost use Rattle.pt_node.specs.Shown.{shown, shown_node, all_of};
ghost use Rattle.pt_node.specs.View.{outline_of, count_of};
ghost use Rattle.pt_node.specs.Live.{IsLive, IsFit, Takes, AllFit, IsReady, TakenBy};
ghost use Rattle.pt_past.specs.Meetings.{Serves};
ghost use Rattle.pt_turns.specs.OwnMeetings.{own_of};
ghost use Rattle.pt_alone.specs.Alone.{untaken_of, FiredTo, UntakenTo, UntakenSpends, UntakenFits, EndsUntaken, CloseTo};

use pt_core::{Core, Either};
use pt_de::DeCore;
use pt_directors::Director;
use pt_firing::{Answer, Blocked, Inputs, Place};
use pt_node::{Body, Node};
use pt_past::{Labels, MeetingRecord};
use pt_rows::first_row;
use pt_several::{Buffers, FiresTrees, fire_actor};
use pt_time::Tag;
use pt_turns::Within;
use pt_value::Text;
use std::alloc::Global;

/// How a firing went whose outputs nobody takes.
#[derive(Drop)]
pub enum Fired {
    Done,
    /// That place is stuck.
    Fault(Place),
    /// So many firings were made, at least as many as were allowed.
    Spent(u64),
    Full(Blocked),
    Memory,
}

/// The same where the firing isn't recorded yet.
#[derive(Drop)]
enum Untaken {
    Done,
    Fault(Place),
    Spent,
    Full(Blocked),
    Memory,
}

/// One firing of the node at a tag, as `fire_within` of what fires trees makes it, whose outputs nobody takes.
#[inline(always)]
pub fn fire_alone<F: FiresTrees>(
    alloc: Global,
    node: &mut Node,
    tag: Tag,
    inputs: &Inputs<'_>,
    left: &mut u64,
) -> Fired
    requires live { IsLive (shown_node node.old) }
    requires inputs { Takes tag (shown_node node.old) inputs.now }
    ensures answers { FiredTo (shown_node node.old) tag inputs.now left.old result (shown_node node.new) }
    ensures outline { outline_of (shown_node node.new) ≡ outline_of (shown_node node.old) }
    ensures counted { count_of (shown_node node.new) + left.new ≡ count_of (shown_node node.old) + left.old }
{
    if node.records.as_slice().is_empty() {
        return fire_bare::<F>(alloc, node, tag, inputs, left);
    }
    fire_recorded::<F>(alloc, node, tag, inputs, left)
}

/// The same of a node with recorded outputs.
#[inline(never)]
fn fire_recorded<F: FiresTrees>(
    alloc: Global,
    node: &mut Node,
    tag: Tag,
    inputs: &Inputs<'_>,
    left: &mut u64,
) -> Fired
    requires live { IsLive (shown_node node.old) }
    requires inputs { Takes tag (shown_node node.old) inputs.now }
    ensures answers { FiredTo (shown_node node.old) tag inputs.now left.old result (shown_node node.new) }
    ensures outline { outline_of (shown_node node.new) ≡ outline_of (shown_node node.old) }
    ensures counted { count_of (shown_node node.new) + left.new ≡ count_of (shown_node node.old) + left.old }
{
    match F::fire_within(alloc, node, tag, inputs, left) {
        Answer::Done(_) => Fired::Done,
        Answer::Fault(place) => Fired::Fault(place),
        Answer::Spent(count) => Fired::Spent(count),
        Answer::Full(blocked) => Fired::Full(blocked),
        Answer::Memory => Fired::Memory,
    }
}

/// The same of a node without recorded outputs.
#[inline(always)]
fn fire_bare<F: FiresTrees>(
    alloc: Global,
    node: &mut Node,
    tag: Tag,
    inputs: &Inputs<'_>,
    left: &mut u64,
) -> Fired
    requires live { IsLive (shown_node node.old) }
    requires inputs { Takes tag (shown_node node.old) inputs.now }
    requires bare { (out-Node node.old).records ≡ [] }
    ensures answers { FiredTo (shown_node node.old) tag inputs.now left.old result (shown_node node.new) }
    ensures outline { outline_of (shown_node node.new) ≡ outline_of (shown_node node.old) }
    ensures counted { count_of (shown_node node.new) + left.new ≡ count_of (shown_node node.old) + left.old }
{
    let allowance = *left;
    match fire_untaken::<F>(alloc, node, tag, inputs, left) {
        Untaken::Done => {}
        Untaken::Fault(place) => return Fired::Fault(place),
        Untaken::Spent => return Fired::Spent(allowance),
        Untaken::Full(blocked) => return Fired::Full(blocked),
        Untaken::Memory => return Fired::Memory,
    }
    if *left == 0 {
        return Fired::Spent(allowance);
    }
    if node.past.made == u64::MAX {
        return Fired::Memory;
    }
    node.record_alone(tag);
    *left -= 1;
    Fired::Done
}

/// One firing of the node, which isn't recorded.
#[inline(always)]
fn fire_untaken<F: FiresTrees>(
    alloc: Global,
    node: &mut Node,
    tag: Tag,
    inputs: &Inputs<'_>,
    left: &mut u64,
) -> Untaken
    requires fit { IsFit (shown_node node.old) }
    requires inputs { Takes tag (shown_node node.old) inputs.now }
    ensures goes { UntakenTo (shown_node node.old) tag inputs.now result (shown_node node.new) }
    ensures spends { UntakenSpends result left.new }
    ensures fit { UntakenFits result (shown_node node.new) }
    ensures outline { outline_of (shown_node node.new) ≡ outline_of (shown_node node.old) }
    ensures counted { count_of (shown_node node.new) + left.new ≡ count_of (shown_node node.old) + left.old }
    ensures records { (out-Node node.new).records ≡ (out-Node node.old).records }
{
    node.live = false;
    match &mut node.body {
        Body::Actor(held) => {
            let within = fire_actor(alloc, held, &node.path, node.past.made, tag, inputs);
            without_outputs(within)
        }
        Body::Composite(director) => fire_closed::<F>(
            alloc,
            director.get_mut(),
            &mut node.children,
            &node.path,
            &node.labels,
            node.past.made,
            &mut node.meetings,
            tag,
            inputs,
            left,
        ),
    }
}

/// One firing of a composite. Often it is finished after one row of firings, and then its own outputs are let go of at once.
#[inline(always)]
fn fire_closed<F: FiresTrees>(
    alloc: Global,
    director: &mut Director,
    children: &mut Vec<Node>,
    path: &Text,
    labels: &Labels,
    made: u64,
    meetings: &mut MeetingRecord,
    tag: Tag,
    inputs: &Inputs<'_>,
    left: &mut u64,
) -> Untaken
    requires ready { IsReady director.old (all_of (map shown children.old.items)) }
    requires fit { AllFit (all_of (map shown children.old.items)) }
    requires inputs { TakenBy director.old inputs.now }
    requires serves { Serves (director_calls.met director.old) made meetings.old }
    ensures { EndsUntaken path.now labels.now (own_of made meetings.old meetings.new) director.old (all_of (map shown children.old.items)) tag inputs.now left.old result director.new (all_of (map shown children.new.items)) left.new }
{
    let mut buffers = Buffers::new(alloc);
    let rest = first_row(
        alloc,
        director,
        children,
        made,
        meetings,
        tag,
        inputs,
        left,
        &mut buffers.row,
    );
    if rest.is_finished() {
        return close(alloc, director);
    }
    let within = F::go_on(
        alloc,
        director,
        children,
        path,
        labels,
        made,
        meetings,
        rest,
        left,
        &mut buffers,
    );
    without_outputs(within)
}

/// The same without its outputs.
fn without_outputs(within: Within) -> Untaken
    ensures { result ≡ untaken_of within }
{
    match within {
        Within::Done(_) => Untaken::Done,
        Within::Fault(place) => Untaken::Fault(place),
        Within::Spent => Untaken::Spent,
        Within::Full(blocked) => Untaken::Full(blocked),
        Within::Memory => Untaken::Memory,
    }
}

/// Ends the firing of a composite whose director is finished.
#[inline(always)]
fn close(alloc: Global, director: &mut Director) -> Untaken
    requires { director_calls.MayFinish director.old }
    ensures { CloseTo director_calls director.old result director.new }
{
    match director {
        Either::Other(Either::Other(Either::First(core))) => close_reaction(alloc, core),
        _ => close_any(alloc, director),
    }
}

/// The same under DE.
#[inline(always)]
fn close_reaction(alloc: Global, core: &mut DeCore) -> Untaken
    requires { director_calls.MayFinish (of_de core.old) }
    ensures { CloseTo director_calls (of_de core.old) result (of_de core.new) }
{
    match core.finish(alloc) {
        Ok(_) => Untaken::Done,
        Err(_) => Untaken::Memory,
    }
}

/// The same, whichever the director.
fn close_any(alloc: Global, director: &mut Director) -> Untaken
    requires { director_calls.MayFinish director.old }
    ensures { CloseTo director_calls director.old result director.new }
{
    match director.finish(alloc) {
        Ok(_) => Untaken::Done,
        Err(_) => Untaken::Memory,
    }
}
