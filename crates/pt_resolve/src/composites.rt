ghost use Rattle.std.specs.Prelude.{◌≡◌, ◌+◌, IfOk, map};
ghost use Rattle.pt_document.specs.View.{port_view};
ghost use Rattle.pt_net.specs.Net.{transparent_view};
ghost use Rattle.pt_typing.specs.Least.{assignment};
ghost use Rattle.pt_resolve.specs.Broken.{has_general, has_port_over, first_such};

use crate::bounds::has_port_over;
use pt_document::Port;
use pt_net::Transparent;
use pt_typing::{Typing, Variable};
use std::alloc::{AllocError, Global};

/// Whether what passes at a port of a transparent composite is general, if its ports have this number.
fn has_general(
    alloc: Global,
    typing: &Typing,
    number: usize,
    ports: &[Port],
) -> Result<bool, AllocError>
    ensures { IfOk result (λ b. b ≡ has_general (assignment typing.now) number 0 (map port_view ports.now)) }
{
    for (index, _port) in ports.iter().enumerate() {
        let ty = typing.ty(alloc, Variable::Port(number, index))?;
        if !ty.is_proper() {
            return Ok(true);
        }
    }
    Ok(false)
}

/// The number behind this one by so many. One that doesn't fit is told as want of memory.
fn number_at(first: usize, index: usize) -> Result<usize, AllocError>
    ensures { IfOk result (λ n. n ≡ first + index) }
{
    first.checked_add(index).ok_or(AllocError)
}

/// The first transparent composite with a port that isn't below what it declares. Their ports are numbered from `first` on.
pub(crate) fn first_over(
    alloc: Global,
    typing: &Typing,
    first: usize,
    composites: &[Transparent],
) -> Result<Option<usize>, AllocError>
    ensures { IfOk result (λ found. found ≡ first_such (λ k ps. has_port_over (assignment typing.now) k 0 ps) first 0 (map transparent_view composites.now)) }
{
    for (index, composite) in composites.iter().enumerate() {
        let number = number_at(first, index)?;
        if has_port_over(alloc, typing, number, &composite.ports)? {
            return Ok(Some(index));
        }
    }
    Ok(None)
}

/// The first transparent composite with a general port.
pub(crate) fn first_general(
    alloc: Global,
    typing: &Typing,
    first: usize,
    composites: &[Transparent],
) -> Result<Option<usize>, AllocError>
    ensures { IfOk result (λ found. found ≡ first_such (λ k ps. has_general (assignment typing.now) k 0 ps) first 0 (map transparent_view composites.now)) }
{
    for (index, composite) in composites.iter().enumerate() {
        let number = number_at(first, index)?;
        if has_general(alloc, typing, number, &composite.ports)? {
            return Ok(Some(index));
        }
    }
    Ok(None)
}
