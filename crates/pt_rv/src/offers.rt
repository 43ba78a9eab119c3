// What is offered on channels, and who receives it.
ghost use Rattle.std.specs.Prelude.{◌≡◌, ◌<◌, ◌&&◌, length, get_or, Some};
ghost use Rattle.pt_meaning.specs.Log.{Barrier};
ghost use Rattle.pt_meaning.specs.Meetings.{all_there, hops_in, target_from};
ghost use Rattle.pt_meaning.specs.Process.{is_joining};
ghost use Rattle.pt_core.specs.Source.{source_of};
ghost use Rattle.pt_puts.specs.Puts.{PutsFirst};
ghost use Rattle.pt_rv_work.specs.Core.{nobody, next_of, puts_at, offer_in, offers_in, gets_there};
ghost use Rattle.pt_rv_plan.specs.Plan.{AreSound, target_of};
ghost use Rattle.pt_rv_parts.specs.Team.{NoneHanded};
ghost use Rattle.pt_rv.specs.Parties.{FitIn, IsThere, EndsThere, is_there, moving_in, is_next};

use crate::parties::Parties;
use pt_core::Source;
use pt_rv_plan::{Plan, Target};

/// Whether a token is offered on a channel, and who receives at its end gets there next.
#[inline(always)]
pub(crate) fn can_pass(plan: &Plan, parties: &mut Parties, channel: usize) -> bool
    requires sound { AreSound plan.now }
    requires fit { FitIn plan.now parties.old }
    requires free { NoneHanded parties.old.team }
    requires there { channel < length plan.now.plan.net.sources }
    ensures same { parties.new ≡ parties.old }
    ensures passes { result ≡ (is_there (offer_in plan.now.plan.net (moving_in parties.old) channel) && gets_there (moving_in parties.old) (target_from 0 plan.now.plan.net.places channel)) }
{
    let offered = is_offered(plan, parties, channel);
    if !offered {
        return false;
    }
    let target = plan.target(channel);
    is_received(parties, target)
}

/// Whether a process joins in the meeting of a Barrier, and a token is offered on each of its channels.
pub(crate) fn can_join(plan: &Plan, parties: &mut Parties, barrier: usize) -> bool
    requires sound { AreSound plan.now }
    requires fit { FitIn plan.now parties.old }
    requires free { NoneHanded parties.old.team }
    requires there { barrier < length plan.now.plan.net.places }
    ensures same { parties.new ≡ parties.old }
    ensures joins { result ≡ (is_joining (next_of (get_or parties.old.team barrier nobody)) && all_there (offers_in plan.now.plan.net (moving_in parties.old) (hops_in plan.now.plan.net (Barrier barrier)))) }
{
    let joined = is_joined(parties, barrier);
    if !joined {
        return false;
    }
    is_all_offered(plan, parties, barrier)
}

/// Whether a token is offered on a channel.
#[inline(always)]
pub(crate) fn is_offered(plan: &Plan, parties: &Parties, channel: usize) -> bool
    requires sound { AreSound plan.now }
    requires fit { FitIn plan.now parties.now }
    ensures { result ≡ is_there (offer_in plan.now.plan.net (moving_in parties.now) channel) }
{
    if channel >= plan.channels() {
        return false;
    }
    let next = next_put(parties, plan.source(channel));
    is_on(next, channel)
}

/// The channel of the next put of who sends at a source, if there is one.
#[inline(always)]
fn next_put(parties: &Parties, source: Source) -> Option<u32>
    requires { IsThere (source_of source) parties.now }
    ensures { PutsFirst (puts_at (moving_in parties.now) (Some (source_of source))) result }
{
    match source {
        Source::Own(port) => parties.inlets[port as usize].next_put(),
        Source::Output(process, _) => parties.team.next_put(process as usize),
    }
}

/// Whether the next put is on this channel.
#[inline(always)]
fn is_on(next: Option<u32>, channel: usize) -> bool
    ensures { result ≡ is_next next channel }
{
    match next {
        Some(next) => next as usize == channel,
        None => false,
    }
}

/// Whether who receives at the end of a channel gets there next.
#[inline(always)]
fn is_received(parties: &mut Parties, target: Target) -> bool
    requires there { EndsThere (target_of target) parties.old }
    requires free { NoneHanded parties.old.team }
    ensures same { parties.new ≡ parties.old }
    ensures gets { result ≡ gets_there (moving_in parties.old) (target_of target) }
{
    match target {
        Target::Place(process, place) => {
            let event = parties.team.next(process as usize);
            event.is_get(place)
        }
        Target::Outlet(_) => true,
    }
}

/// Whether a process joins in the meeting of a Barrier.
fn is_joined(parties: &mut Parties, process: usize) -> bool
    requires there { process < length parties.old.team }
    requires free { NoneHanded parties.old.team }
    ensures same { parties.new ≡ parties.old }
    ensures joins { result ≡ is_joining (next_of (get_or parties.old.team process nobody)) }
{
    let event = parties.team.next(process);
    event.is_join()
}

/// Whether a token is offered on each channel of a Barrier.
fn is_all_offered(plan: &Plan, parties: &Parties, barrier: usize) -> bool
    requires sound { AreSound plan.now }
    requires fit { FitIn plan.now parties.now }
    requires there { barrier < length plan.now.plan.net.places }
    ensures { result ≡ all_there (offers_in plan.now.plan.net (moving_in parties.now) (hops_in plan.now.plan.net (Barrier barrier))) }
{
    for place in 0..plan.places(barrier) {
        if !is_offered(plan, parties, plan.channel_at(barrier, place)) {
            return false;
        }
    }
    true
}
