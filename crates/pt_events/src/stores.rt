ghost use Rattle.std.specs.Prelude.{◌≡◌, ◌+◌, ◌<◌, ◌≤◌, ◌∷◌, ◌++◌, All, IfNone, IfSome, IsPermutation, MatchOption, OnOk, Option, Some, length, map, option_map, true, false, List};
ghost use Rattle.std.specs.BinaryHeap.{IsHeap, KeepsHeap, heap_capacity, heap_items, heap_len};
ghost use Rattle.pt_meaning.specs.Tag as tags;
ghost use Rattle.pt_events.specs.Queue.{is_due};
ghost use Rattle.pt_events.specs.Stores.{AreDue, AreHeaps, HaveRoom, IsLeastTag, due_cmp, due_entry, later_cmp, later_entry, queue_of};

use pt_time::Tag;
use std::cmp::Reverse;
use std::collections::BinaryHeap;

/// An entry that is ordered by tag, then depth, then number.
#[derive(Clone, Copy, Debug, PartialEq, Eq, PartialOrd, Ord)]
pub(crate) struct ByTag {
    pub(crate) tag: Tag,
    pub(crate) depth: u32,
    pub(crate) actor: u32,
}

/// An entry that is ordered by depth, then number, then tag.
#[derive(Clone, Copy, Debug, PartialEq, Eq, PartialOrd, Ord)]
pub(crate) struct ByDepth {
    pub(crate) depth: u32,
    pub(crate) actor: u32,
    pub(crate) tag: Tag,
}

/// The later entries, of which the first by tag is at the top.
pub(crate) type Later = BinaryHeap<Reverse<ByTag>>;

/// The entries that are due, of which the first by depth is at the top.
pub(crate) type Due = BinaryHeap<Reverse<ByDepth>>;

/// Puts a value into a heap that has room for it.
pub(crate) fn push_reserved<T: Ord + Drop>(heap: &mut BinaryHeap<T>, value: T)
    requires { heap_len heap.old < heap_capacity heap.old }
    ensures items { IsPermutation (value ∷ heap_items heap.old) (heap_items heap.new) }
    ensures len { heap_len heap.new ≡ heap_len heap.old + 1 }
    ensures capacity { heap_capacity heap.old ≤ heap_capacity heap.new }
    ensures heap_order { KeepsHeap T.cmp (heap_items heap.old) (heap_items heap.new) }
{
    match heap.push(value) {
        Ok(()) => {}
        Err(_) => unreachable!(),
    }
}

/// Moves all entries back to the later ones.
pub(crate) fn move_back(later: &mut Later, due: &mut Due)
    requires heaps { AreHeaps (heap_items later.old) (heap_items due.old) }
    requires room { HaveRoom later.old due.old }
    ensures heaps { AreHeaps (heap_items later.new) (heap_items due.new) }
    ensures room { HaveRoom later.new due.new }
    ensures none { heap_len due.new ≡ 0 }
    ensures queue { queue_of (heap_items later.new) (heap_items due.new) ≡ queue_of (heap_items later.old) (heap_items due.old) }
{
    while let Some(Reverse(entry)) = due.pop() {
        let ByDepth { depth, actor, tag } = entry;
        push_reserved(later, Reverse(ByTag { tag, depth, actor }));
    }
}

/// Moves those entries that are due at the tag to the others that are.
pub(crate) fn move_due(later: &mut Later, due: &mut Due, tag: Tag)
    requires heaps { AreHeaps (heap_items later.old) (heap_items due.old) }
    requires room { HaveRoom later.old due.old }
    requires past { AreDue tag (heap_items due.old) }
    ensures heaps { AreHeaps (heap_items later.new) (heap_items due.new) }
    ensures room { HaveRoom later.new due.new }
    ensures past { AreDue tag (heap_items due.new) }
    ensures rest { All (λ e. is_due tag (later_entry e) ≡ false) (heap_items later.new) }
    ensures queue { queue_of (heap_items later.new) (heap_items due.new) ≡ queue_of (heap_items later.old) (heap_items due.old) }
{
    while let Some(entry) = pop_due(later, tag) {
        let ByTag { tag, depth, actor } = entry;
        push_reserved(due, Reverse(ByDepth { depth, actor, tag }));
    }
}

/// Takes the first of the later entries, where it is due at the tag.
fn pop_due(later: &mut Later, tag: Tag) -> Option<ByTag>
    requires heap { IsHeap later_cmp (heap_items later.old) }
    ensures heap { IsHeap later_cmp (heap_items later.new) }
    ensures len { IfSome result (λ _. heap_len later.new + 1 ≡ heap_len later.old) }
    ensures capacity { heap_capacity later.new ≡ heap_capacity later.old }
    ensures items { IfSome result (λ entry. IsPermutation (heap_items later.old) (record { 0 = entry } ∷ heap_items later.new)) }
    ensures due { IfSome result (λ entry. is_due tag (later_entry (record { 0 = entry })) ≡ true) }
    ensures same { IfNone result (heap_items later.new ≡ heap_items later.old) }
    ensures none { IfNone result (All (λ e. is_due tag (later_entry e) ≡ false) (heap_items later.new)) }
{
    match later.peek() {
        Some(Reverse(entry)) if is_up_to(entry.tag, tag) => {}
        _ => return None,
    }
    match later.pop() {
        Some(Reverse(entry)) => Some(entry),
        None => None,
    }
}

/// The actor of an entry, if there is one.
pub(crate) fn actor_of(entry: Option<Reverse<ByDepth>>) -> Option<u32>
    ensures { result ≡ option_map (λ e. e.0.actor) entry }
{
    match entry {
        Some(Reverse(entry)) => Some(entry.actor),
        None => None,
    }
}

/// The least tag of the later entries.
pub(crate) fn first_later(later: &Later) -> Option<Tag>
    requires { IsHeap later_cmp (heap_items later.now) }
    ensures { IsLeastTag (map later_entry (heap_items later.now)) result }
{
    match later.peek() {
        Some(Reverse(entry)) => Some(entry.tag),
        None => None,
    }
}

/// The least tag of entries in any order.
pub(crate) fn least_tag(due: &[Reverse<ByDepth>]) -> Option<Tag>
    ensures { IsLeastTag (map due_entry due.now) result }
{
    let mut least = None;
    for Reverse(entry) in due {
        least = earlier(least, Some(entry.tag));
    }
    least
}

/// The lesser of two tags, of which each may be none.
pub(crate) fn earlier(a: Option<Tag>, b: Option<Tag>) -> Option<Tag>
    ensures { result ≡ tags.earlier a b }
{
    match (a, b) {
        (Some(a), Some(b)) => Some(if is_up_to(a, b) { a } else { b }),
        (None, b) => b,
        (a, None) => a,
    }
}

/// Whether a tag is at or before another.
pub(crate) fn is_up_to(a: Tag, b: Tag) -> bool
    ensures { result ≡ tags.tag_le a b }
{
    a <= b
}
