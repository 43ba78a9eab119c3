// Firings that give several integers, and what a director is told of the integers that a firing gave.
ghost use Rattle.std.specs.Prelude.{◌≡◌, ◌+◌, ◌<◌, ◌≤◌, ◌∷◌, [], Some, IsSome, IfSome, OnOk, OnErr, map};
ghost use Rattle.pt_value.specs.declared.token.Token.TheVariants.{Int};
ghost use Rattle.pt_directors.specs.Directors.{director_calls, of_sdf, of_sr, of_pn, of_rendezvous};
ghost use Rattle.pt_node.specs.declared.node.Node.{out-Node};
ghost use Rattle.pt_node.specs.Shown.{shown_node};
ghost use Rattle.pt_node.specs.View.{outline_of, count_of};
ghost use Rattle.pt_node.specs.Live.{IsFit, HasFired, IsReadyNode};
ghost use Rattle.pt_node.specs.Told.{IsTold};
ghost use Rattle.pt_turns.specs.Within.{SeveralTo};
ghost use Rattle.pt_turns.specs.Turns.{TurnSpends, TellTo};

use pt_core::{Core, Either};
use pt_directors::Director;
use pt_firing::IntInputs;
use pt_node::{Body, Node};
use pt_time::Tag;
use pt_turns::{Turn, refuse, tell_tokens};
use std::alloc::{AllocError, Global};

/// Where firings of numbers alone take and give them.
#[derive(Drop)]
pub struct Buffers {
    /// One number for each place of an actor.
    pub row: Vec<i64>,
    /// The numbers that it gave.
    pub given: Vec<i64>,
}

impl Buffers {
    pub fn new(alloc: Global) -> Buffers {
        Buffers {
            row: Vec::new(alloc),
            given: Vec::new(alloc),
        }
    }
}

/// One firing of a library actor, where it takes and gives numbers alone, which the buffer has then. The firing isn't recorded. Where that isn't told, nothing was done.
#[inline(always)]
pub fn several(director: &Director, node: &mut Node, buffers: &mut Buffers) -> bool
    requires asked { IsSome (director_calls.asked_of director.now) }
    requires fit { IsFit (shown_node node.old) }
    ensures goes { SeveralTo (shown_node node.old) (director_calls.lent_of director.now) result buffers.new.given.items (shown_node node.new) }
    ensures past { (out-Node node.new).past ≡ (out-Node node.old).past }
{
    match &node.body {
        Body::Actor(held) => {
            let Some(inputs) = int_inputs(director, &mut buffers.row) else {
                return false;
            };
            if !held.actor.numbers(&inputs, &mut buffers.given) {
                return false;
            }
            node.live = false;
            true
        }
        Body::Composite(_) => false,
    }
}

/// The inputs of the child that a director asked to fire, where they are integers. `row` is a buffer.
#[inline(always)]
fn int_inputs<'a>(director: &'a Director, row: &'a mut Vec<i64>) -> Option<IntInputs<'a>>
    requires { IsSome (director_calls.asked_of director.now) }
    ensures { IfSome result (λ inputs. inputs ≡ director_calls.lent_of director.now) }
{
    match director {
        Either::First(core) => sdf_inputs(core, row),
        Either::Other(Either::First(core)) => sr_inputs(core, row),
        Either::Other(Either::Other(Either::First(_))) => None,
        Either::Other(Either::Other(Either::Other(Either::First(core)))) => pn_inputs(core, row),
        Either::Other(Either::Other(Either::Other(Either::Other(Either::First(_))))) => None,
        Either::Other(Either::Other(Either::Other(Either::Other(Either::Other(core))))) => {
            rv_inputs(core, row)
        }
    }
}

/// The same under SDF.
#[inline(always)]
fn sdf_inputs<'a>(core: &'a pt_sdf::Core, row: &'a mut Vec<i64>) -> Option<IntInputs<'a>>
    requires { IsSome (director_calls.asked_of (of_sdf core.now)) }
    ensures { IfSome result (λ inputs. inputs ≡ director_calls.lent_of (of_sdf core.now)) }
{
    core.int_inputs(row)
}

/// The same under SR.
#[inline(always)]
fn sr_inputs<'a>(core: &'a pt_sr::Core, row: &'a mut Vec<i64>) -> Option<IntInputs<'a>>
    requires { IsSome (director_calls.asked_of (of_sr core.now)) }
    ensures { IfSome result (λ inputs. inputs ≡ director_calls.lent_of (of_sr core.now)) }
{
    core.int_inputs(row)
}

/// The same under PN.
#[inline(always)]
fn pn_inputs<'a>(core: &'a pt_pn::Core, row: &'a mut Vec<i64>) -> Option<IntInputs<'a>>
    requires { IsSome (director_calls.asked_of (of_pn core.now)) }
    ensures { IfSome result (λ inputs. inputs ≡ director_calls.lent_of (of_pn core.now)) }
{
    core.int_inputs(row)
}

/// The same under Rendezvous.
#[inline(always)]
fn rv_inputs<'a>(core: &'a pt_rv::Core, row: &'a mut Vec<i64>) -> Option<IntInputs<'a>>
    requires { IsSome (director_calls.asked_of (of_rendezvous core.now)) }
    ensures { IfSome result (λ inputs. inputs ≡ director_calls.lent_of (of_rendezvous core.now)) }
{
    core.int_inputs(row)
}

/// Tells a director the integers that the child gave as the tokens on its one port, with the wake and the need that the child has once its firing is recorded. To SDF and SR these say nothing, so the child isn't asked for them there.
#[inline(always)]
fn told_numbers(
    alloc: Global,
    director: &mut Director,
    child: &Node,
    number: u32,
    numbers: &[i64],
) -> Result<(), AllocError>
    requires asked { director_calls.asked_of director.old ≡ Some number }
    requires fit { IsReadyNode (shown_node child.now) }
    ensures told { OnOk result (IsTold director_calls director.old (shown_node child.now) number (map Int numbers.now ∷ []) director.new) }
    ensures kept { OnErr result (director.new ≡ director.old) }
{
    match director {
        Either::First(core) => core.told_numbers(alloc, number, numbers),
        Either::Other(Either::First(core)) => core.told_numbers(alloc, number, numbers),
        Either::Other(Either::Other(Either::First(core))) => {
            tell_tokens(alloc, core, child, number, numbers)
        }
        Either::Other(Either::Other(Either::Other(Either::First(core)))) => match numbers {
            [one] => core.told_number(alloc, number, *one, child.need()),
            _ => tell_tokens(alloc, core, child, number, numbers),
        },
        Either::Other(Either::Other(Either::Other(Either::Other(Either::First(core))))) => {
            tell_tokens(alloc, core, child, number, numbers)
        }
        Either::Other(Either::Other(Either::Other(Either::Other(Either::Other(core))))) => {
            match numbers {
                [one] => core.told_number(alloc, number, *one, child.need()),
                _ => tell_tokens(alloc, core, child, number, numbers),
            }
        }
    }
}

/// Tells the director the numbers that the child gave. The child's firing is recorded where the director accepts them.
#[inline(always)]
pub fn tell_numbers(
    alloc: Global,
    director: &mut Director,
    child: &mut Node,
    number: u32,
    tag: Tag,
    left: &mut u64,
    given: &[i64],
) -> Turn
    requires asked { director_calls.asked_of director.old ≡ Some number }
    requires left { 0 < left.old }
    requires fit { HasFired (shown_node child.old) }
    ensures goes { TellTo director_calls director.old (shown_node child.old) number tag (map Int given.now ∷ []) result director.new (shown_node child.new) }
    ensures maximum { director_calls.maximum director.new ≡ director_calls.maximum director.old }
    ensures spends { TurnSpends result left.old left.new }
    ensures lowered { left.new ≤ left.old }
    ensures outline { outline_of (shown_node child.new) ≡ outline_of (shown_node child.old) }
    ensures counted { count_of (shown_node child.new) + left.new ≡ count_of (shown_node child.old) + left.old }
{
    if child.past.made == u64::MAX || child.note_numbers(tag, given).is_err() {
        return Turn::Memory;
    }
    let refusal = director.refusal();
    if told_numbers(alloc, director, child, number, given).is_err() {
        return Turn::Memory;
    }
    if director.is_wrong() {
        return refuse(alloc, child, refusal);
    }
    child.record(tag);
    *left -= 1;
    Turn::Done
}
