//! The two numbers with which a line begins.
ghost use Rattle.std.specs.Prelude.{◌≡◌, ◌+◌, ◌≤◌, ◌++◌, drop, codes, decimal, OnOk};

use itoa::write_digits;
use std::alloc::AllocError;

/// What two numbers of 20 digits take, with a blank behind each.
const ROOM: usize = 42;

/// Writes the number of a firing and an index in it, with a blank behind each.
#[inline(always)]
pub(crate) fn write_head(firing: u64, index: u64, out: &mut Vec<u8>) -> Result<(), AllocError>
    ensures { OnOk result (out.new.items ≡ out.old.items ++ (decimal firing ++ (codes " " ++ (decimal index ++ codes " ")))) }
{
    let mut head = [0; ROOM];
    let at = put_number(index, &mut head, ROOM);
    let start = put_number(firing, &mut head, at);
    out.extend_from_slice(&head[start..])
}

/// Puts a number and a blank before a place, and gives the place where they start.
#[inline(always)]
fn put_number(n: u64, head: &mut [u8; ROOM], end: usize) -> usize
    requires { (21 ≤ end) × (end ≤ 42) }
    ensures near { (result ≤ end) × (end ≤ result + 21) }
    ensures written { drop result head.new ≡ decimal n ++ (codes " " ++ drop end head.old) }
{
    head[end - 1] = b' ';
    write_digits(n, head, end - 1)
}
