ghost use Rattle.std.specs.Prelude.{◌≡◌, IfOk, MatchOption};
ghost use Rattle.pt_typing.specs.Least.{assignment};
ghost use Rattle.pt_inequalities.specs.Frames.{frames_of};
ghost use Rattle.pt_frames.specs.Views.{frames_view};
ghost use Rattle.pt_resolve.specs.Faults.{IsBrokenAt, IsWhole};

use crate::composites::{first_general, first_over};
use crate::faults::broken_entity;
use pt_frames::Frames;
use pt_net::Net;
use pt_scopes::Values;
use pt_typing::Typing;
use std::alloc::{AllocError, Global};

/// Where a typing breaks: at an entity, or at a transparent composite, by its number among those.
#[derive(Clone, Copy, Debug, PartialEq, Eq)]
pub enum BrokenAt {
    Entity(usize),
    Transparent(usize),
}

/// Where the typing of a net with these frames breaks, if it does. At an entity a port is general, above what its row allows, or not below what it
/// declares; an expression, a guard or an action has no type; a guard is no truth value; or a set action gives what its Variable
/// doesn't hold. At a transparent composite a port is general, or not below what it declares.
pub fn broken(
    alloc: Global,
    frames: &Frames,
    net: &Net,
    values: &Values,
    typing: &Typing,
) -> Result<Option<BrokenAt>, AllocError>
    requires { frames_view frames.now ≡ frames_of net.now values.now }
    ensures { IfOk result (λ found. MatchOption found (IsWhole net.now values.now (assignment typing.now)) (IsBrokenAt net.now values.now (assignment typing.now))) }
{
    let first = net.entities.len();
    if let Some(composite) = first_over(alloc, typing, first, &net.transparent)? {
        return Ok(Some(BrokenAt::Transparent(composite)));
    }
    if let Some(entity) = broken_entity(alloc, frames, net, values, typing)? {
        return Ok(Some(BrokenAt::Entity(entity)));
    }
    match first_general(alloc, typing, first, &net.transparent)? {
        Some(composite) => Ok(Some(BrokenAt::Transparent(composite))),
        None => Ok(None),
    }
}
