//! The full channels and the end of a report.
ghost use Rattle.std.specs.Prelude.{◌≡◌, ◌<◌, ◌^◌, ℕ, All, codes, length, decimal, IfOk, Some, None};
ghost use Rattle.pt_firing.specs.declared.answer.Place.{Place as Stuck};
ghost use Rattle.pt_firing.specs.declared.answer.Blocked.{Blocked as Full};
ghost use Rattle.pt_firing.specs.declared.fault.RunFault.{RunFault as Kind};
ghost use Rattle.pt_firing.specs.RunFault.{code_of};
ghost use Rattle.pt_trace.specs.declared.run_end.RunEnd.{RunEnd as End};
ghost use Rattle.pt_trace.specs.EndText.{end_text};
ghost use Rattle.pt_trace.specs.ReportForm.{IsEnd, IsPath};
ghost use Rattle.pt_readback.specs.Report.{FitsEnd, HasShortPlaces, IsShortPlace};
ghost use Rattle.pt_readback.specs.Listed.{Finds, ReadsOne, ReadsAll};
ghost use Rattle.pt_readback.specs.Lines as spec;
ghost use Rattle.pt_readback.specs.Lines.{IsLastLine, IsRowForm, IsRunRow, begins_row, budget_rest, fault_rest, last_line, never, queue_rest, rows_of, say_row};

use crate::cuts::{cut, cut_three, cut_two, front, number, without};
use crate::fault::ReportFault;
use crate::names::{path, place, text_of};
use pt_firing::{Blocked, Place, Rows, RunFault};
use pt_trace::RunEnd;
use pt_value::Text;
use std::alloc::{AllocError, Global};

/// The end that a text tells, with the full channels before it.
pub(crate) fn ending(alloc: Global, text: &[u8]) -> Result<RunEnd, ReportFault>
    ensures found { (e : End) → IsEnd e → HasShortPlaces e → FitsEnd e → end_text e ≡ text.now → Finds (λ x. x) result e }
    ensures form { IfOk result (λ e. IsEnd e × HasShortPlaces e) }
{
    let (rows, last) = rows(alloc, text)?;
    end(alloc, Rows::of(rows), last)
}

/// All full channels at the front, and what follows them.
fn rows(alloc: Global, text: &[u8]) -> Result<(Vec<(Text, u64)>, &[u8]), ReportFault>
    ensures found { ReadsAll say_row IsRunRow begins_row never text.now (λ x. (x.0.items, x.1.now)) result }
    ensures form { IfOk result (λ x. All IsRowForm x.0.items) }
{
    let mut rows = Vec::new(alloc);
    let mut rest = text;
    while front(rest) == b'f' {
        let (row, behind) = row(alloc, rest)?;
        rows.push(row).map_err(AllocError::from)?;
        rest = behind;
    }
    Ok((rows, rest))
}

/// A full channel with the number of its tokens, and what follows its line.
fn row(alloc: Global, text: &[u8]) -> Result<((Text, u64), &[u8]), ReportFault>
    ensures found { ReadsOne say_row IsRunRow never text.now (λ x. (x.0, x.1.now)) result }
    ensures form { IfOk result (λ x. IsRowForm x.0) }
    ensures shorter { IfOk result (λ x. length x.1.now < length text.now) }
{
    let Some((_, channel, length, rest)) = cut_three(b' ', b' ', b'\n', text) else {
        return Err(ReportFault::Shape);
    };
    let Some(length) = number(length) else {
        return Err(ReportFault::Shape);
    };
    let channel = place_text(alloc, channel)?;
    Ok(((channel, length), rest))
}

/// The text of a place.
fn place_text(alloc: Global, text: &[u8]) -> Result<Text, ReportFault>
    ensures found { IsShortPlace text.now → Finds (λ t. t) result text.now }
    ensures form { IfOk result IsShortPlace }
{
    let place = place(alloc, text)?;
    drop(place);
    text_of(alloc, text)
}

/// The end that the last line tells, which may be that of a full network.
fn end(alloc: Global, rows: Rows, text: &[u8]) -> Result<RunEnd, ReportFault>
    ensures found { (e : End) → IsLastLine e → rows_of e ≡ rows → last_line e ≡ text.now → Finds (λ x. x) result e }
    ensures form { All IsRowForm rows → IfOk result (λ e. IsEnd e × HasShortPlaces e) }
{
    match without(b"end queue ", text) {
        Some(rest) => queue(alloc, rows, rest),
        None => {
            drop(rows);
            other_end(alloc, text)
        }
    }
}

/// The end that the last line tells, other than that of a full network.
fn other_end(alloc: Global, text: &[u8]) -> Result<RunEnd, ReportFault>
    requires { spec.without (codes "end queue ") text.now ≡ None }
    ensures found { (e : End) → IsLastLine e → last_line e ≡ text.now → Finds (λ x. x) result e }
    ensures form { IfOk result (λ e. IsEnd e × HasShortPlaces e) }
{
    if let Some(end) = plain_end(text) {
        return Ok(end);
    }
    if let Some(rest) = without(b"end fault ", text) {
        return fault(alloc, rest);
    }
    match without(b"end budget ", text) {
        Some(rest) => budget(rest),
        None => Err(ReportFault::Shape),
    }
}

fn plain_end(text: &[u8]) -> Option<RunEnd>
    ensures { result ≡ spec.plain_end text.now }
{
    if text == b"end stop\n".as_slice() {
        return Some(RunEnd::Stop);
    }
    if text == b"end idle\n".as_slice() {
        return Some(RunEnd::Idle);
    }
    if text == b"end iterations\n".as_slice() {
        return Some(RunEnd::Iterations);
    }
    if text == b"end inputs\n".as_slice() {
        return Some(RunEnd::Inputs);
    }
    if text == b"end deadlock\n".as_slice() {
        return Some(RunEnd::Deadlock);
    }
    None
}

/// A stuck place: its code, its path and the number of the firing.
fn fault(alloc: Global, text: &[u8]) -> Result<RunEnd, ReportFault>
    ensures found { (p : Stuck) → IsPath p.path → p.firing < 2 ^ 64 → fault_rest p ≡ text.now → Finds (λ x. x) result (RunEnd.Fault p) }
    ensures form { IfOk result (λ e. IsEnd e × HasShortPlaces e) }
{
    let Some((code, entity, firing, _)) = cut_three(b' ', b' ', b'\n', text) else {
        return Err(ReportFault::Shape);
    };
    let Some((kind, firing)) = stuck(code, firing) else {
        return Err(ReportFault::Shape);
    };
    let path = path(alloc, entity)?;
    Ok(RunEnd::Fault(Place { path, firing, kind }))
}

/// The fault of a code, and the number of a firing.
fn stuck(code: &[u8], firing: &[u8]) -> Option<(RunFault, u64)>
    ensures { (f : Kind) (n : ℕ) → n < 2 ^ 64 → decimal (code_of f) ≡ code.now → decimal n ≡ firing.now → result ≡ Some (f, n) }
{
    let code = number(code)?;
    Some((fault_of(code)?, number(firing)?))
}

/// The fault with a number.
fn fault_of(code: u64) -> Option<RunFault>
    ensures { result ≡ spec.fault_of code }
{
    match code {
        30 => Some(RunFault::DivideByZero),
        31 => Some(RunFault::Overflow),
        32 => Some(RunFault::Index),
        33 => Some(RunFault::Size),
        34 => Some(RunFault::Rate),
        35 => Some(RunFault::SecondToken),
        36 => Some(RunFault::Causality),
        37 => Some(RunFault::Ambiguous),
        38 => Some(RunFault::TimeLimit),
        39 => Some(RunFault::Length),
        _ => None,
    }
}

/// The number of firings that were made.
fn budget(text: &[u8]) -> Result<RunEnd, ReportFault>
    ensures found { (n : ℕ) → n < 2 ^ 64 → budget_rest n ≡ text.now → Finds (λ x. x) result (RunEnd.Budget n) }
    ensures form { IfOk result (λ e. IsEnd e × HasShortPlaces e) }
{
    let Some((count, _)) = cut(b'\n', text) else {
        return Err(ReportFault::Shape);
    };
    match number(count) {
        Some(count) => Ok(RunEnd::Budget(count)),
        None => Err(ReportFault::Shape),
    }
}

/// The path of a full network, whose channels are read.
fn queue(alloc: Global, channels: Rows, text: &[u8]) -> Result<RunEnd, ReportFault>
    ensures found { (b : Full) → IsPath b.path → b.channels ≡ channels → queue_rest b ≡ text.now → Finds (λ x. x) result (RunEnd.Queue b) }
    ensures form { All IsRowForm channels → IfOk result (λ e. IsEnd e × HasShortPlaces e) }
{
    let Some((network, _, _)) = cut_two(b' ', b'\n', text) else {
        return Err(ReportFault::Shape);
    };
    let path = path(alloc, network)?;
    Ok(RunEnd::Queue(Blocked { path, channels }))
}
