ghost use Rattle.std.specs.Prelude.{◌≡◌, ℕ, ◌+◌, ◌<◌, [], ◌∷◌, ◌++◌, length, slice_get, Some};
ghost use Rattle.pt_meaning.specs.Log.{Barrier};
ghost use Rattle.pt_meaning.specs.Meetings.{hops_in, target_from};
ghost use Rattle.pt_meaning.specs.Meetings as meetings;
ghost use Rattle.pt_meaning.specs.Process.{rest_of};
ghost use Rattle.pt_meaning.specs.Streams.{at, change_at};
ghost use Rattle.pt_value.specs.declared.token.Token.{Token as token};
ghost use Rattle.pt_core.specs.Source.{source_of};
ghost use Rattle.pt_puts.specs.Puts.{put_of};
ghost use Rattle.pt_rv_work.specs.Core.{puts_at, offer_in, offers_in, sent_by, received_by, passed_to, all_passed};
ghost use Rattle.pt_rv_plan.specs.Plan.{AreSound, target_of};
ghost use Rattle.pt_rv_parts.specs.Team.{NoneHanded};
ghost use Rattle.pt_rv.specs.Parties.{FitIn, IsSender, MayReceive, IsOffered, Receives, Joins, AllLevel, inputs_of, outputs_of, moving_in, waiting, each, spare_at, less_at};

use crate::parties::Parties;
use pt_core::Source;
use pt_puts::StagedPut;
use pt_rv_plan::{Inlet, Outlet, Plan, Target};
use pt_value::Token;

/// Passes the tokens of all channels of a Barrier, one after another. It takes no memory.
pub(crate) fn pass_all(plan: &Plan, parties: &mut Parties, barrier: u32)
    requires sound { AreSound plan.now }
    requires fit { FitIn plan.now parties.old }
    requires free { NoneHanded parties.old.team }
    requires level { AllLevel parties.old.team }
    requires joins { Joins plan.now parties.old barrier }
    ensures moved { moving_in parties.new ≡ all_passed plan.now.plan.net (hops_in plan.now.plan.net (Barrier barrier)) (offers_in plan.now.plan.net (moving_in parties.old) (hops_in plan.now.plan.net (Barrier barrier))) (moving_in parties.old) }
    ensures fit { FitIn plan.now parties.new }
    ensures free { NoneHanded parties.new.team }
    ensures level { AllLevel parties.new.team }
    ensures fewer { waiting each (moving_in parties.new) < waiting each (moving_in parties.old) }
{
    for place in 0..plan.places(barrier as usize) {
        let channel = plan.channel_at(barrier as usize, place);
        pass(plan, parties, channel, Target::Place(barrier, place));
    }
}

/// Passes the token that is offered on a channel. It takes no memory.
#[inline(always)]
pub(crate) fn pass(plan: &Plan, parties: &mut Parties, channel: usize, target: Target)
    requires sound { AreSound plan.now }
    requires fit { FitIn plan.now parties.old }
    requires free { NoneHanded parties.old.team }
    requires ends { target_of target ≡ target_from 0 plan.now.plan.net.places channel }
    requires offered { IsOffered plan.now parties.old channel }
    requires receives { Receives (target_of target) parties.old }
    ensures moved { (x : token) → offer_in plan.now.plan.net (moving_in parties.old) channel ≡ Some x → moving_in parties.new ≡ passed_to plan.now.plan.net channel (target_of target) x (moving_in parties.old) }
    ensures fit { FitIn plan.now parties.new }
    ensures free { NoneHanded parties.new.team }
    ensures fewer { waiting each (moving_in parties.new) + 1 ≡ waiting each (moving_in parties.old) }
{
    let source = plan.source(channel);
    let put = take_put(parties, source);
    let StagedPut { channel: _, token } = put;
    deliver(parties, target, token);
}

/// Takes the next put out of who sends at a source.
#[inline(always)]
fn take_put(parties: &mut Parties, source: Source) -> StagedPut
    requires sender { IsSender (source_of source) parties.old }
    requires some { 0 < length (puts_at (moving_in parties.old) (Some (source_of source))) }
    ensures put { slice_get (puts_at (moving_in parties.old) (Some (source_of source))) 0 ≡ Some (put_of result) }
    ensures moved { moving_in parties.new ≡ sent_by (Some (source_of source)) (moving_in parties.old) }
    ensures outlets { parties.new.outlets.items ≡ parties.old.outlets.items }
    ensures inlets { length parties.new.inlets.items ≡ length parties.old.inlets.items }
{
    match source {
        Source::Own(port) => put_of_inlet(&mut parties.inlets, port as usize),
        Source::Output(process, _) => parties.team.put(process as usize),
    }
}

/// Takes the next put out of an own input.
fn put_of_inlet(inlets: &mut Vec<Inlet>, port: usize) -> StagedPut
    requires there { port < length inlets.old.items }
    requires some { 0 < length (at (inputs_of inlets.old.items) port) }
    ensures put { slice_get (at (inputs_of inlets.old.items) port) 0 ≡ Some (put_of result) }
    ensures left { inputs_of inlets.new.items ≡ change_at port rest_of (inputs_of inlets.old.items) }
    ensures counted { length inlets.new.items ≡ length inlets.old.items }
{
    inlets[port].put()
}

/// A token comes to where a channel ends.
#[inline(always)]
fn deliver(parties: &mut Parties, target: Target, token: Token)
    requires { MayReceive (target_of target) parties.old }
    ensures moved { moving_in parties.new ≡ received_by token (target_of target) (moving_in parties.old) }
    ensures inlets { parties.new.inlets.items ≡ parties.old.inlets.items }
    ensures outlets { length parties.new.outlets.items ≡ length parties.old.outlets.items }
    ensures room { (o : ℕ) → spare_at parties.new.outlets.items o + less_at (target_of target) o ≡ spare_at parties.old.outlets.items o }
{
    match target {
        Target::Place(process, place) => parties.team.get(process as usize, place, token),
        Target::Outlet(outlet) => put_on_outlet(&mut parties.outlets, outlet, token),
    }
}

/// A token comes to an own output.
fn put_on_outlet(outlets: &mut Vec<Outlet>, outlet: usize, token: Token)
    requires there { outlet < length outlets.old.items }
    requires room { 0 < spare_at outlets.old.items outlet }
    ensures lists { outputs_of outlets.new.items ≡ change_at outlet (λ xs. xs ++ token ∷ []) (outputs_of outlets.old.items) }
    ensures counted { length outlets.new.items ≡ length outlets.old.items }
    ensures room { (o : ℕ) → spare_at outlets.new.items o + less_at (meetings.Outlet outlet) o ≡ spare_at outlets.old.items o }
{
    outlets[outlet].put(token);
}
