ghost use Rattle.std.specs.Prelude.{◌≡◌, ◌+◌, ◌<◌, ◌^◌, [], ◌∷◌, map, false, IfOk, OnOk, OnErr};
ghost use Rattle.pt_value.specs.declared.token.Token.TheVariants.{Int};
ghost use Rattle.pt_node.specs.declared.node.Node.{out-Node};
ghost use Rattle.pt_node.specs.Shown.{shown, shown_node, all_of};
ghost use Rattle.pt_meaning.specs.Basics as basics;
ghost use Rattle.pt_meaning.specs.NodeFacts as facts;
ghost use Rattle.pt_firing.specs.Need.{need_of};
ghost use Rattle.pt_library.specs.LibraryActor as library;
ghost use Rattle.pt_node.specs.Live.{is_live, IsFit, IsReadyNode, IsReadyBody, AllFit};
ghost use Rattle.pt_node.specs.Reset.{WasReset, WereReset, BodyReset, KeepsRecords, KeepRecords};
ghost use Rattle.pt_node.specs.View.{node_of, maximum_in};
ghost use Rattle.pt_node.specs.Firing.{noted, bare, recorded, recorded_times};
ghost use Rattle.pt_node.specs.Wake.{begins, own_wake};

use crate::body::Body;
use pt_core::Core;
use pt_firing::{Actor, Need, Outputs, Partial};
use pt_past::{Labels, MeetingRecord, Past, Records};
use pt_time::Tag;
use pt_value::Text;
use std::alloc::{AllocError, Global};

/// A node of the tree of a model, with its past and what is recorded of it. A library actor has no children.
pub struct Node {
    // What a firing of integers reads and writes stands in front, so that it is in few lines of the cache.
    pub past: Past,
    pub records: Records,
    /// False from the begin of a firing on, until it is recorded. After one that isn't the node fires no more.
    pub live: bool,
    pub body: Body,
    pub children: Vec<Node>,
    /// Its path from the top, as a report tells it.
    pub path: Text,
    /// How a report tells the channels of a process network.
    pub labels: Labels,
    /// The meetings that were made, where its director makes meetings.
    pub meetings: MeetingRecord,
}

// Written by hand, as that of what is in it: so letting go of a tree is one call in the proofs of the crates above, whatever a node holds.
impl Drop for Node {
    fn drop(self) {
        let Node {
            past: _,
            records: _,
            live: _,
            body: _,
            children: _,
            path: _,
            labels: _,
            meetings: _,
        } = self;
    }
}

impl Node {
    /// Whether the node may fire: its firings so far, since it was built or reset, all ended well.
    pub fn live(&self) -> bool
        ensures { result ≡ is_live (shown_node self.now) }
    {
        self.live
    }

    /// What the node needs before it can fire.
    #[inline(always)]
    pub fn need(&self) -> Need<'_>
        ensures { need_of result ≡ facts.need_of library.rows (node_of (shown_node self.now)) }
    {
        match &self.body {
            Body::Actor(held) => held.actor.need(),
            Body::Composite(director) => director.get().need(),
        }
    }

    /// Whether it begins by itself, and so has the wake 0.0 until it fires for the first time.
    #[inline(always)]
    fn begins(&self) -> bool
        ensures { result ≡ begins (shown_node self.now) }
    {
        match &self.body {
            Body::Actor(held) => held.actor.begins(),
            Body::Composite(director) => director.get().begins(),
        }
    }

    /// The wake that it has once it has fired.
    #[inline(always)]
    fn own_wake(&self) -> Option<Tag>
        requires { IsReadyNode (shown_node self.now) }
        ensures { result ≡ own_wake (shown_node self.now) }
    {
        match &self.body {
            Body::Actor(held) => held.actor.next(),
            Body::Composite(director) => director.get().next(),
        }
    }

    /// The wake of the node. It walks over no children, and takes no memory.
    #[inline(always)]
    pub fn next(&self) -> Option<Tag>
        requires { IsFit (shown_node self.now) }
        ensures { result ≡ facts.next_of library.rows (node_of (shown_node self.now)) }
    {
        self.past.wake(self.begins(), self.own_wake())
    }

    /// The wake that the node has once its firing under way is recorded, at whatever tag. It walks over no children, and takes no memory.
    #[inline(always)]
    pub fn wake(&self) -> Option<Tag>
        requires { IsReadyNode (shown_node self.now) }
        ensures { (tag : basics.Tag) → result ≡ facts.next_of library.rows (node_of (recorded tag (shown_node self.now))) }
    {
        self.own_wake()
    }

    /// Whether under DE the node takes its lists whole.
    pub fn whole(&self) -> bool
        ensures { result ≡ facts.whole_of library.rows (node_of (shown_node self.now)) }
    {
        match &self.body {
            Body::Actor(held) => held.actor.whole(),
            Body::Composite(director) => director.get().whole(),
        }
    }

    /// What it gives early at a tag, from what is known of its inputs: a composite nothing.
    pub fn early(&self, alloc: Global, tag: Tag, partial: &Partial) -> Result<Partial, AllocError>
        ensures { IfOk result (λ outputs. outputs ≡ facts.early_of library.rows tag (node_of (shown_node self.now)) partial.now) }
    {
        match &self.body {
            Body::Actor(held) => held.actor.early(alloc, tag, partial),
            Body::Composite(_) => Ok(Partial::of(Vec::new(alloc))),
        }
    }

    /// Notes what a firing gave on the recorded outputs. Nothing is recorded by that.
    #[inline(always)]
    pub fn note(&mut self, alloc: Global, tag: Tag, outputs: &Outputs) -> Result<(), AllocError>
        ensures noted { IfOk result (λ _. shown_node self.new ≡ noted tag outputs.now (shown_node self.old)) }
        ensures kept { bare (shown_node self.new) ≡ bare (shown_node self.old) }
    {
        self.records.note(alloc, tag, outputs)
    }

    /// Notes the integers that a firing gave on the one output. Nothing is recorded by that.
    #[inline(always)]
    pub fn note_numbers(&mut self, tag: Tag, numbers: &[i64]) -> Result<(), AllocError>
        ensures noted { IfOk result (λ _. shown_node self.new ≡ noted tag (map Int numbers.now ∷ []) (shown_node self.old)) }
        ensures kept { bare (shown_node self.new) ≡ bare (shown_node self.old) }
    {
        self.records.note_numbers(tag, numbers)
    }

    /// Records a firing at the tag, with what was noted of it. The node is live again.
    #[inline(always)]
    pub fn record(&mut self, tag: Tag)
        requires { (out-Node self.old).past.made + 1 < 2 ^ 64 }
        ensures { shown_node self.new ≡ recorded tag (shown_node self.old) }
    {
        self.past = self.past.fired_at(tag);
        self.records.record();
        self.live = true;
    }

    /// Records so many firings at the tag, with what was noted of all of them together. The node is live again.
    pub fn record_row(&mut self, tag: Tag, firings: u64)
        requires { (out-Node self.old).past.made + firings < 2 ^ 64 }
        ensures { shown_node self.new ≡ recorded_times tag firings (shown_node self.old) }
    {
        self.past = self.past.fired_times(tag, firings);
        self.records.record();
        self.live = true;
    }

    /// The same of a node without recorded outputs.
    #[inline(always)]
    pub fn record_alone(&mut self, tag: Tag)
        requires made { (out-Node self.old).past.made + 1 < 2 ^ 64 }
        requires alone { (out-Node self.old).records ≡ [] }
        ensures { shown_node self.new ≡ recorded tag (shown_node self.old) }
    {
        self.past = self.past.fired_at(tag);
        self.live = true;
    }

    /// Brings the node and all within it back to their starts. How often they fired and what is recorded of them stays. After an `Err` the node isn't live.
    #[cycle(reset)]
    pub fn reset(&mut self, alloc: Global) -> Result<(), AllocError>
        requires { IsFit (shown_node self.old) }
        ensures reset { OnOk result (WasReset (shown_node self.old) (shown_node self.new)) }
        ensures stopped { OnErr result (is_live (shown_node self.new) ≡ false) }
        ensures kept { KeepsRecords (shown_node self.old) (shown_node self.new) }
    {
        self.live = false;
        self.past = self.past.forgotten();
        reset_body(alloc, &mut self.body, &mut self.children)?;
        self.live = true;
        Ok(())
    }
}

/// Brings a library actor back to its start, or a composite's director and all within.
#[cycle(reset)]
fn reset_body(alloc: Global, body: &mut Body, children: &mut Vec<Node>) -> Result<(), AllocError>
    requires ready { IsReadyBody body.old (all_of (map shown children.old.items)) }
    requires fit { AllFit (all_of (map shown children.old.items)) }
    ensures reset { OnOk result (BodyReset body.old (all_of (map shown children.old.items)) body.new (all_of (map shown children.new.items))) }
    ensures maximum { maximum_in body.new ≡ maximum_in body.old }
    ensures kept { KeepRecords (all_of (map shown children.old.items)) (all_of (map shown children.new.items)) }
{
    match body {
        Body::Actor(held) => held.reset(alloc),
        Body::Composite(director) => {
            director.get_mut().reset(alloc)?;
            reset_all(alloc, children)
        }
    }
}

/// Brings the children of a composite back to their starts.
#[cycle(reset)]
fn reset_all(alloc: Global, children: &mut Vec<Node>) -> Result<(), AllocError>
    requires { AllFit (all_of (map shown children.old.items)) }
    ensures reset { OnOk result (WereReset (all_of (map shown children.old.items)) (all_of (map shown children.new.items))) }
    ensures kept { KeepRecords (all_of (map shown children.old.items)) (all_of (map shown children.new.items)) }
{
    for k in 0..children.len() {
        let child = &mut children[k];
        child.reset(alloc)?;
    }
    Ok(())
}
