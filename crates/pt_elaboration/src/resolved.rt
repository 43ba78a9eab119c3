ghost use Rattle.std.specs.Prelude.{◌≡◌, IfOk, IfErr};
ghost use Rattle.pt_document.specs.Document.{JobTree};
ghost use Rattle.pt_net.specs.Net.{IsNetOf};
ghost use Rattle.pt_scopes.specs.Scopes.{net_view};
ghost use Rattle.pt_scopes.specs.Valued.{IsValued};
ghost use Rattle.pt_typing.specs.Least.{assignment};
ghost use Rattle.pt_inequalities.specs.Frames.{frames_of};
ghost use Rattle.pt_frames.specs.Views.{frames_view};
ghost use Rattle.pt_charts.specs.Readable.{AreReadable};
ghost use Rattle.pt_elaboration.specs.Resolved.{IsResolved};
ghost use Rattle.pt_elaboration.specs.Refused.{FaultStands};

use crate::refusal::{refusal_of_composite, refusal_of_entity};
use pt_charts::unreadable;
use pt_document::{Code, DocFault};
use pt_frames::Frames;
use pt_net::Net;
use pt_resolve::{BrokenAt, broken, net_typing};
use pt_scopes::{Values, nets_are_ordered};
use pt_typing::Typing;
use pt_values::values_of;
use std::alloc::Global;

/// Refuses a Modal entity for a guard or an action that isn't readable.
fn check_guards(alloc: Global, frames: &Frames, net: &Net, values: &Values) -> Result<(), DocFault>
    requires frames { frames_view frames.now ≡ frames_of net.now values.now }
    requires valued { IsValued (net_view net.now) values.now }
    ensures readable { IfOk result (λ _. AreReadable net.now values.now) }
    ensures stands { IfErr result (FaultStands net.now) }
{
    match unreadable(alloc, frames, net, values)? {
        Some((code, number)) => Err(refusal_of_entity(alloc, code, net, number)),
        None => Ok(()),
    }
}

/// What the texts of the net of a job come to.
pub(crate) fn values_in(alloc: Global, net: &Net) -> Result<Values, DocFault>
    requires { (job : JobTree) × IsNetOf job net.now }
    ensures valued { IfOk result (IsValued (net_view net.now)) }
    ensures stands { IfErr result (FaultStands net.now) }
{
    nets_are_ordered();
    Ok(values_of(alloc, net)?)
}

/// The types of a net whose texts come to these values, whose guards and actions are readable, and which break nowhere.
pub(crate) fn typing_in(alloc: Global, net: &Net, values: &Values) -> Result<Typing, DocFault>
    requires { IsValued (net_view net.now) values.now }
    ensures resolved { IfOk result (λ typing. IsResolved net.now values.now (assignment typing)) }
    ensures stands { IfErr result (FaultStands net.now) }
{
    let frames = Frames::of(alloc, net, values)?;
    let typing = typing_among(alloc, &frames, net, values);
    drop(frames);
    typing
}

/// The same by its frames, which are made once for all that looks at them.
fn typing_among(
    alloc: Global,
    frames: &Frames,
    net: &Net,
    values: &Values,
) -> Result<Typing, DocFault>
    requires frames { frames_view frames.now ≡ frames_of net.now values.now }
    requires valued { IsValued (net_view net.now) values.now }
    ensures resolved { IfOk result (λ typing. IsResolved net.now values.now (assignment typing)) }
    ensures stands { IfErr result (FaultStands net.now) }
{
    check_guards(alloc, frames, net, values)?;
    let typing = net_typing(alloc, frames, net, values)?;
    match broken(alloc, frames, net, values, &typing)? {
        Some(BrokenAt::Entity(number)) => Err(refusal_of_entity(alloc, Code::Type, net, number)),
        Some(BrokenAt::Transparent(number)) => {
            Err(refusal_of_composite(alloc, Code::Type, net, number))
        }
        None => Ok(typing),
    }
}
