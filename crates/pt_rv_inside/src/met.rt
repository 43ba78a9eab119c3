ghost use Rattle.std.specs.Prelude.{◌≡◌, ◌↔◌, ◌+◌, ◌^◌, ◌<◌, All, IsTrue, length, map, true, false};
ghost use Rattle.pt_core.specs.Source.{source_of};
ghost use Rattle.pt_firing.specs.Need.{need_of};
ghost use Rattle.pt_laws.specs.StartedRuns.{IsThere};
ghost use Rattle.pt_meaning.specs.Running.{total};
ghost use Rattle.pt_node.specs.Shown.{shown};
ghost use Rattle.pt_trees.specs.Around.{around_of};
ghost use Rattle.pt_trees.specs.Composite.{trees_of};
ghost use Rattle.pt_trees.specs.Rendezvous.{IsPlaced, AllPlaced, IsMetIf};

use pt_core::Source;
use pt_firing::Need;
use pt_node::Node;
use pt_trees::Wiring;

/// The most channels or children of a composite, and one more.
const MOST: usize = 1 << 32;

/// Whether the wiring is one of a Rendezvous composite round these children, but for what is stated.
pub fn is_met(children: &[Node], wiring: &Wiring) -> bool
    ensures { IsMetIf (around_of wiring.now) (trees_of (map shown children.now)) result }
{
    let places = wiring.places.as_slice();
    if children.len() != places.len() {
        return false;
    }
    if !are_placed(children, places) {
        return false;
    }
    fits(wiring)
}

/// Whether a process with this need has so many places, and isn't over.
fn is_placed(need: Need<'_>, places: usize) -> bool
    ensures { IsTrue result ↔ IsPlaced places (need_of need.entry) }
{
    match need {
        Need::Over => false,
        Need::All(counts) => counts.len() == places,
        Need::Any => true,
    }
}

/// Whether each child has so many places.
fn are_placed(children: &[Node], places: &[usize]) -> bool
    requires { length children.now ≡ length places.now }
    ensures yes { result ≡ true → AllPlaced places.now (trees_of (map shown children.now)) }
    ensures no { result ≡ false → AllPlaced places.now (trees_of (map shown children.now)) → ⊥ }
{
    for (number, child) in children.iter().enumerate() {
        if !is_placed(child.need(), places[number]) {
            return false;
        }
    }
    true
}

/// Whether a channel ends at each place of a child and at each own output, and begins at an own input or at a child, and there are few enough.
fn fits(wiring: &Wiring) -> bool
    ensures { IsTrue result ↔ ((length wiring.now.sources.items ≡ total wiring.now.places + wiring.now.outputs) × All (λ source. IsThere wiring.now.inputs (length wiring.now.places) (source_of source)) wiring.now.sources.items
        × (length wiring.now.sources.items < 2 ^ 32) × (length wiring.now.places < 2 ^ 32)) }
{
    let children = wiring.places.len();
    wiring.sources.len() < MOST
        && children < MOST
        && are_enough(
            wiring.places.as_slice(),
            wiring.outputs as usize,
            wiring.sources.len(),
        )
        && wiring
            .sources
            .iter()
            .all(|source| is_there(source, wiring.inputs, children))
}

/// Whether there are as many channels as places of children and own outputs.
fn are_enough(places: &[usize], outputs: usize, channels: usize) -> bool
    ensures { IsTrue result ↔ channels ≡ total places.now + outputs }
{
    let mut rest = channels;
    for count in places {
        if rest < *count {
            return false;
        }
        rest -= *count;
    }
    rest == outputs
}

/// Whether a channel can begin there, where so many own inputs and children are.
fn is_there(source: &Source, inputs: u32, children: usize) -> bool
    ensures { IsTrue result ↔ IsThere inputs children (source_of source.now) }
{
    match *source {
        Source::Own(port) => port < inputs,
        Source::Output(child, _) => (child as usize) < children,
    }
}
