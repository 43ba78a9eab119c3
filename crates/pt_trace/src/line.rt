//! The numbers of a token's line, which are put into a buffer from its end, and then behind the text at once.
ghost use Rattle.std.specs.Prelude.{◌≡◌, ◌+◌, ◌≤◌, ◌∷◌, ◌++◌, drop, codes, decimal, OnOk};
ghost use Rattle.std.specs.Fmt.{signed_decimal};
ghost use Rattle.pt_trace.specs.TraceText.{tag_text, token_line};
ghost use Rattle.pt_value.specs.declared.token.Token.TheVariants.{Int};

use itoa::write_digits;
use pt_time::Tag;
use std::alloc::AllocError;

/// More than the longest line takes: three numbers of 20 digits, one of 10, a sign, and four bytes between and behind them.
const ROOM: usize = 96;

pub(crate) fn write_integer_line(
    number: u64,
    tag: Tag,
    value: i64,
    out: &mut Vec<u8>,
) -> Result<(), AllocError>
    ensures { OnOk result (out.new.items ≡ out.old.items ++ token_line number tag (Int value)) }
{
    let mut line = [0; ROOM];
    let start = put_line(number, tag, value, &mut line);
    out.extend_from_slice(&line[start..])
}

/// What stands before a token's text: its number and its tag, with a blank behind each.
pub(crate) fn write_head(number: u64, tag: Tag, out: &mut Vec<u8>) -> Result<(), AllocError>
    ensures { OnOk result (out.new.items ≡ out.old.items ++ (decimal number ++ (codes " " ++ (tag_text tag ++ codes " ")))) }
{
    let mut line = [0; ROOM];
    let start = put_head(number, tag, &mut line, ROOM);
    out.extend_from_slice(&line[start..])
}

/// Puts the line at the end of the buffer, and gives the place where it starts.
#[inline(always)]
fn put_line(number: u64, tag: Tag, value: i64, line: &mut [u8; ROOM]) -> usize
    ensures within { result ≤ 96 }
    ensures written { drop result line.new ≡ token_line number tag (Int value) }
{
    let end = put_byte(b'\n', line, ROOM);
    let value = put_integer(value, line, end);
    put_head(number, tag, line, value)
}

#[inline(always)]
fn put_head(number: u64, tag: Tag, line: &mut [u8; ROOM], end: usize) -> usize
    requires { (63 ≤ end) × (end ≤ 96) }
    ensures within { result ≤ 96 }
    ensures written { drop result line.new ≡ (decimal number ++ (codes " " ++ (tag_text tag ++ codes " "))) ++ drop end line.old }
{
    let blank = put_byte(b' ', line, end);
    let tag = put_tag(tag, line, blank);
    let blank = put_byte(b' ', line, tag);
    put_number(number, line, blank)
}

#[inline(always)]
fn put_tag(tag: Tag, line: &mut [u8; ROOM], end: usize) -> usize
    requires { (41 ≤ end) × (end ≤ 96) }
    ensures near { (result ≤ end) × (end ≤ result + 41) }
    ensures written { drop result line.new ≡ tag_text tag ++ drop end line.old }
{
    let step = put_number(u64::from(tag.step), line, end);
    let dot = put_byte(b'.', line, step);
    put_number(tag.time, line, dot)
}

#[inline(always)]
fn put_integer(n: i64, line: &mut [u8; ROOM], end: usize) -> usize
    requires { (21 ≤ end) × (end ≤ 96) }
    ensures near { (result ≤ end) × (end ≤ result + 21) }
    ensures written { drop result line.new ≡ signed_decimal n ++ drop end line.old }
{
    let start = put_number(n.unsigned_abs(), line, end);
    if n >= 0 {
        return start;
    }
    put_byte(b'-', line, start)
}

/// Puts a number before a place, and gives the place where it starts.
#[inline(always)]
fn put_number(n: u64, line: &mut [u8; ROOM], end: usize) -> usize
    requires { (20 ≤ end) × (end ≤ 96) }
    ensures near { (result ≤ end) × (end ≤ result + 20) }
    ensures written { drop result line.new ≡ decimal n ++ drop end line.old }
{
    if n < 10 {
        return put_byte(b'0' + n as u8, line, end);
    }
    write_digits(n, line, end)
}

#[inline(always)]
fn put_byte(byte: u8, line: &mut [u8; ROOM], end: usize) -> usize
    requires { (1 ≤ end) × (end ≤ 96) }
    ensures near { result + 1 ≡ end }
    ensures written { drop result line.new ≡ byte ∷ drop end line.old }
{
    line[end - 1] = byte;
    end - 1
}
