ghost use Rattle.std.specs.Prelude.{◌≡◌, IfOk};
ghost use Rattle.pt_puts.specs.Puts.{PutsFirst, put_of, puts_in};

use pt_value::Token;
use std::alloc::{AllocError, Global};
use std::collections::VecDeque;

/// A put that a process has still to make.
#[derive(Drop)]
pub struct StagedPut {
    pub channel: u32,
    pub token: Token,
}

/// The channel of the first of these puts, if there is one.
#[inline(always)]
pub fn first_put(puts: &VecDeque<StagedPut>) -> Option<u32>
    ensures { PutsFirst (puts_in puts.now.items) result }
{
    let waiting = puts.len();
    if waiting == 0 {
        return None;
    }
    Some(puts[0].channel)
}

/// The same puts again.
pub fn puts_again(
    alloc: Global,
    puts: &VecDeque<StagedPut>,
) -> Result<VecDeque<StagedPut>, AllocError>
    ensures { IfOk result (λ copies. puts_in copies.items ≡ puts_in puts.now.items) }
{
    let mut copies = VecDeque::new(alloc);
    for k in 0..puts.len() {
        let copy = put_again(alloc, &puts[k])?;
        match copies.push_back(copy) {
            Ok(()) => {}
            Err(_) => return Err(AllocError),
        }
    }
    Ok(copies)
}

fn put_again(alloc: Global, put: &StagedPut) -> Result<StagedPut, AllocError>
    ensures { IfOk result (λ copy. put_of copy ≡ put_of put.now) }
{
    Ok(StagedPut {
        channel: put.channel,
        token: put.token.copy(alloc)?,
    })
}
