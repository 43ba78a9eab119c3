ghost use Rattle.std.specs.Prelude.{◌≡◌, ◌+◌, ◌<◌, ◌^◌, ◌++◌, OnOk, length, map};
ghost use Rattle.pt_meaning.specs.Basics.{with_tag};
ghost use Rattle.pt_value.specs.declared.token.Token.TheVariants.{Int};
ghost use Rattle.pt_trace.specs.TraceText.{trace_text, token_line, token_lines};

use crate::line::{write_head, write_integer_line};
use pt_tagged::Tagged;
use pt_time::Tag;
use pt_value::{Text, Token, print};
use std::alloc::AllocError;
use std::marker::Model;

/// The tokens that a recorded port gave, each with the tag of its firing.
#[derive(Drop)]
pub struct Trace {
    pub text: Text,
    pub tokens: Tagged,
}

impl Model for Trace {
    ghost use Rattle.pt_trace.specs.Report as report;
    ghost use Rattle.pt_trace.specs.ReportCode.{coded_trace};

    ghost Value = { report.Trace };

    ghost coded = { coded_trace };

    ghost view = { λ t. record { text = t.text; tokens = t.tokens } };
}

pub(crate) fn write_trace(trace: &Trace, out: &mut Vec<u8>) -> Result<(), AllocError>
    ensures { OnOk result (out.new.items ≡ out.old.items ++ trace_text trace.now) }
{
    out.extend_from_slice(b"trace ")?;
    out.extend_from_slice(trace.text.as_str().as_bytes())?;
    out.push(b'\n')?;
    let (tag, numbers, rest) = trace.tokens.parts();
    write_numbers(tag, numbers, out)?;
    write_rest(numbers.len(), rest, out)
}

/// The lines of the first tokens, where these are integers at one tag.
fn write_numbers(tag: Tag, numbers: &[i64], out: &mut Vec<u8>) -> Result<(), AllocError>
    ensures { OnOk result (out.new.items ≡ out.old.items ++ token_lines 0 (with_tag tag (map Int numbers.now))) }
{
    for (number, value) in numbers.iter().enumerate() {
        write_integer_line(number as u64, tag, *value, out)?;
    }
    Ok(())
}

/// The lines of tokens that are numbered from `first` on.
fn write_rest(first: usize, tokens: &[(Tag, Token)], out: &mut Vec<u8>) -> Result<(), AllocError>
    requires { first + length tokens.now < 2 ^ 64 }
    ensures { OnOk result (out.new.items ≡ out.old.items ++ token_lines first tokens.now) }
{
    for (k, (tag, token)) in tokens.iter().enumerate() {
        write_token((first + k) as u64, *tag, token, out)?;
    }
    Ok(())
}

fn write_token(number: u64, tag: Tag, token: &Token, out: &mut Vec<u8>) -> Result<(), AllocError>
    ensures { OnOk result (out.new.items ≡ out.old.items ++ token_line number tag token.now) }
{
    match token {
        Token::Int(value) => write_integer_line(number, tag, *value, out),
        _ => write_line(number, tag, token, out),
    }
}

fn write_line(number: u64, tag: Tag, token: &Token, out: &mut Vec<u8>) -> Result<(), AllocError>
    ensures { OnOk result (out.new.items ≡ out.old.items ++ token_line number tag token.now) }
{
    write_head(number, tag, out)?;
    print(token, out)?;
    out.push(b'\n')?;
    Ok(())
}
