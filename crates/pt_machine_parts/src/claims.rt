ghost use Rattle.std.specs.Prelude.{◌≡◌, ℕ, ◌<◌, IfOk, IfErr, Some, length, replicate, true, false};
ghost use Rattle.std.specs.List.{list_all};
ghost use Rattle.pt_machine_parts.specs.Told.{IsTold};
ghost use Rattle.pt_machine_parts.specs.Claims.{itself, IsClaim, IsTaken, AreWithin, AreApart, IsClaimed, IsShared, IsMisclaimed};

use crate::fault::ModalFault;
use pt_machine::Cause;
use std::alloc::{AllocError, Global};

/// Takes a number: whether it wasn't taken before.
fn take_one(taken: &mut Vec<bool>, number: usize) -> bool
    ensures { IsClaim (Some number) taken.old.items result taken.new.items }
{
    if number >= taken.len() {
        return false;
    }
    if taken[number] {
        return false;
    }
    taken[number] = true;
    true
}

/// Takes the number that is claimed, if one is: whether it wasn't taken before.
fn take(taken: &mut Vec<bool>, claim: Option<u32>) -> bool
    ensures { IsClaim claim taken.old.items result taken.new.items }
{
    match claim {
        Some(number) => take_one(taken, number as usize),
        None => true,
    }
}

/// Takes all numbers that are claimed: whether no two claim one.
fn take_all(taken: &mut Vec<bool>, claims: &[Option<u32>]) -> bool
    requires start { IsTaken (length taken.old.items) claims.now 0 taken.old.items }
    requires within { AreWithin (length taken.old.items) claims.now }
    ensures apart { result ≡ true → IsTaken (length taken.old.items) claims.now (length claims.now) taken.new.items }
    ensures shared { result ≡ false → IsShared claims.now }
{
    for claim in claims {
        if !take(taken, *claim) {
            return false;
        }
    }
    true
}

fn are_taken(taken: &[bool]) -> bool
    ensures { result ≡ list_all itself taken.now }
{
    taken.iter().all(|is_taken| *is_taken)
}

fn none_taken(alloc: Global, count: usize) -> Result<Vec<bool>, AllocError>
    ensures { IfOk result (λ taken. taken.items ≡ replicate count false) }
{
    Ok(vec![in alloc; false; count]?)
}

/// Refuses claims of one number by two states, and numbers below this count that none claims.
pub(crate) fn check_claims(
    alloc: Global,
    count: usize,
    claims: &[Option<u32>],
) -> Result<(), ModalFault>
    requires { AreWithin count claims.now }
    ensures apart { IfOk result (λ _. AreApart claims.now) }
    ensures each { IfOk result (λ _. (number : ℕ) → number < count → IsClaimed claims.now number) }
    ensures told { IfErr result (IsTold (IsMisclaimed count claims.now)) }
{
    let mut taken = none_taken(alloc, count)?;
    if !take_all(&mut taken, claims) {
        return Err(ModalFault::Refused(Cause::SharedRefinement));
    }
    if !are_taken(&taken) {
        return Err(ModalFault::Refused(Cause::IdleChild));
    }
    Ok(())
}
