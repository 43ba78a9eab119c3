//! The traces at the front of a text.
ghost use Rattle.std.specs.Prelude.{◌≡◌, ◌<◌, ◌≤◌, ◌^◌, All, decimal, length, IfOk, Some};
ghost use Rattle.std.specs.Char.{is_ascii_digit};
ghost use Rattle.pt_meaning.specs.Basics as basics;
ghost use Rattle.pt_value.specs.Value.{Value};
ghost use Rattle.pt_value.specs.Token.{value_of};
ghost use Rattle.pt_value.specs.Printed.{printed};
ghost use Rattle.pt_trace.specs.ReportForm.{IsTrace};
ghost use Rattle.pt_readback.specs.Token.{IsTokenValue};
ghost use Rattle.pt_readback.specs.Report.{FitsTagged};
ghost use Rattle.pt_readback.specs.Listed.{Finds, ReadsOne, ReadsAll};
ghost use Rattle.pt_readback.specs.Lines.{IsRunTrace, begins_trace, never, say_token, say_trace};

use crate::cuts::{cut, cut_three, cut_two, front, number};
use crate::fault::{ReportFault, TokenFault};
use crate::names::names;
use crate::token::read_token;
use pt_tagged::Tagged;
use pt_time::Tag;
use pt_trace::Trace;
use pt_value::Token;
use std::alloc::{AllocError, Global};

/// All traces at the front, and what follows them.
pub(crate) fn traces(alloc: Global, text: &[u8]) -> Result<(Vec<Trace>, &[u8]), ReportFault>
    ensures found { ReadsAll say_trace IsRunTrace begins_trace is_ascii_digit text.now (λ x. (x.0.items, x.1.now)) result }
    ensures form { IfOk result (λ x. All IsTrace x.0.items) }
{
    let mut traces = Vec::new(alloc);
    let mut rest = text;
    while front(rest) == b't' {
        let (trace, behind) = trace(alloc, rest)?;
        traces.push(trace).map_err(AllocError::from)?;
        rest = behind;
    }
    Ok((traces, rest))
}

/// The trace of one port, and what follows it.
fn trace(alloc: Global, text: &[u8]) -> Result<(Trace, &[u8]), ReportFault>
    ensures found { ReadsOne say_trace IsRunTrace is_ascii_digit text.now (λ x. (x.0, x.1.now)) result }
    ensures form { IfOk result (λ x. IsTrace x.0) }
    ensures shorter { IfOk result (λ x. length x.1.now < length text.now) }
{
    let Some((_, port, lines)) = cut_two(b' ', b'\n', text) else {
        return Err(ReportFault::Shape);
    };
    let text = names(alloc, port)?;
    let (tokens, rest) = tokens(alloc, lines)?;
    let tokens = Tagged::of(alloc, tokens);
    Ok((Trace { text, tokens }, rest))
}

/// The tokens of all lines that begin with a digit, and what follows them.
fn tokens(alloc: Global, text: &[u8]) -> Result<(Vec<(Tag, Token)>, &[u8]), ReportFault>
    ensures found { ReadsAll say_token FitsTagged is_ascii_digit never text.now (λ x. (x.0.items, x.1.now)) result }
    ensures within { IfOk result (λ x. length x.1.now ≤ length text.now) }
{
    let mut tokens = Vec::new(alloc);
    let mut rest = text;
    while front(rest).is_ascii_digit() {
        let (tagged, behind) = tagged(alloc, rest)?;
        tokens.push(tagged).map_err(AllocError::from)?;
        rest = behind;
    }
    Ok((tokens, rest))
}

/// The tag and the token of a line, and what follows the line.
fn tagged(alloc: Global, text: &[u8]) -> Result<((Tag, Token), &[u8]), ReportFault>
    ensures found { ReadsOne say_token FitsTagged never text.now (λ x. (x.0, x.1.now)) result }
    ensures shorter { IfOk result (λ x. length x.1.now < length text.now) }
{
    let Some((_, line)) = cut(b' ', text) else {
        return Err(ReportFault::Shape);
    };
    let Some((time, step, value, rest)) = cut_three(b'.', b' ', b'\n', line) else {
        return Err(ReportFault::Shape);
    };
    let Some(tag) = tag(time, step) else {
        return Err(ReportFault::Shape);
    };
    let token = token(alloc, value)?;
    Ok(((tag, token), rest))
}

fn tag(time: &[u8], step: &[u8]) -> Option<Tag>
    ensures { (t : basics.Tag) → t.time < 2 ^ 64 → t.step < 2 ^ 32 → decimal t.time ≡ time.now → decimal t.step ≡ step.now → result ≡ Some t }
{
    let time = number(time)?;
    let step = number(step)?;
    match u32::try_from(step) {
        Ok(step) => Some(Tag { time, step }),
        Err(_) => None,
    }
}

/// The token that prints as the text.
fn token(alloc: Global, text: &[u8]) -> Result<Token, ReportFault>
    ensures { (v : Value) → IsTokenValue v → printed v ≡ text.now → Finds value_of result v }
{
    match read_token(alloc, text) {
        Ok(token) => Ok(token),
        Err(TokenFault::Shape) => Err(ReportFault::Shape),
        Err(TokenFault::Memory) => Err(ReportFault::Memory),
    }
}
