//! Names, paths and places in the lines of a report.
ghost use Rattle.std.specs.Prelude.{◌≡◌, ◌↔◌, ◌<◌, ◌^◌, ◌++◌, ℕ, List, codes, decimal, IsTrue, IfOk, IfSome, Some, option_map};
ghost use Rattle.std.specs.Str.{IsUtf8};
ghost use Rattle.pt_value.specs.Name.{HasNameForm};
ghost use Rattle.pt_trace.specs.ReportForm.{IsName, AreNames, IsPath};
ghost use Rattle.pt_trace.specs.declared.meetings.ChildPlace.{ChildPlace as Place};
ghost use Rattle.pt_readback.specs.Listed.{Finds};
ghost use Rattle.pt_readback.specs.Lines.{Places};

use crate::cuts::{cut, cut_last, number};
use crate::fault::ReportFault;
use pt_trace::ChildPlace;
use pt_value::Text;
use std::alloc::Global;

/// The greatest number of bytes of a name.
const LONGEST: usize = 64;

/// Whether a text is of the form `[A-Za-z_][A-Za-z0-9_]*`.
fn has_name_form(text: &[u8]) -> bool
    ensures { IsTrue result ↔ HasNameForm text.now }
{
    match text.split_first() {
        None => false,
        Some((first, rest)) => {
            (first.is_ascii_alphabetic() || *first == b'_')
                && rest.iter().all(|b| b.is_ascii_alphanumeric() || *b == b'_')
        }
    }
}

/// Whether a text is the name of an entity or a port, which may be a word that expressions reserve.
fn is_name(text: &[u8]) -> bool
    ensures { IsTrue result ↔ IsName text.now }
{
    text.len() <= LONGEST && has_name_form(text)
}

/// Whether a text is names joined by dots.
fn are_names(text: &[u8]) -> bool
    ensures { IsTrue result ↔ AreNames text.now }
{
    let mut rest = text;
    while let Some((first, others)) = cut(b'.', rest) {
        if !is_name(first) {
            return false;
        }
        rest = others;
    }
    is_name(rest)
}

/// Whether a text is a path: names joined by dots, or a dot for the top.
fn is_path(text: &[u8]) -> bool
    ensures { IsTrue result ↔ IsPath text.now }
{
    text == b".".as_slice() || are_names(text)
}

/// The bytes as a text, where they are one.
pub(crate) fn text_of(alloc: Global, bytes: &[u8]) -> Result<Text, ReportFault>
    ensures same { IfOk result (λ t. t ≡ bytes.now) }
    ensures found { IsUtf8 bytes.now → Finds (λ t. t) result bytes.now }
{
    match str::from_utf8(bytes) {
        Ok(text) => Ok(Text::of(alloc, text)?),
        Err(_) => Err(ReportFault::Shape),
    }
}

/// The bytes as the text of a name.
pub(crate) fn name(alloc: Global, bytes: &[u8]) -> Result<Text, ReportFault>
    ensures same { IfOk result (λ t. (t ≡ bytes.now) × IsName t) }
    ensures found { IsName bytes.now → Finds (λ t. t) result bytes.now }
{
    if is_name(bytes) {
        text_of(alloc, bytes)
    } else {
        Err(ReportFault::Shape)
    }
}

/// The bytes as the text of names joined by dots.
pub(crate) fn names(alloc: Global, bytes: &[u8]) -> Result<Text, ReportFault>
    ensures same { IfOk result (λ t. (t ≡ bytes.now) × AreNames t) }
    ensures found { AreNames bytes.now → Finds (λ t. t) result bytes.now }
{
    if are_names(bytes) {
        text_of(alloc, bytes)
    } else {
        Err(ReportFault::Shape)
    }
}

/// The bytes as the text of a path.
pub(crate) fn path(alloc: Global, bytes: &[u8]) -> Result<Text, ReportFault>
    ensures form { IfOk result IsPath }
    ensures found { IsPath bytes.now → Finds (λ t. t) result bytes.now }
{
    if is_path(bytes) {
        text_of(alloc, bytes)
    } else {
        Err(ReportFault::Shape)
    }
}

/// The place that a text tells: the path of a child, a port, and the number of a channel.
pub(crate) fn place(alloc: Global, text: &[u8]) -> Result<ChildPlace, ReportFault>
    ensures form { IfOk result (Places text.now) }
    ensures found { (p : Place) → Places text.now p → Finds (λ x. x) result p }
{
    let Some((child, port, channel)) = place_parts(text) else {
        return Err(ReportFault::Shape);
    };
    let child = names(alloc, child)?;
    let port = name(alloc, port)?;
    Ok(ChildPlace {
        child,
        port,
        channel,
    })
}

/// The child, the port and the channel of a place.
fn place_parts(text: &[u8]) -> Option<(&[u8], &[u8], u64)>
    ensures whole { IfSome result (λ x. (x.2 < 2 ^ 64) × (x.0.now ++ (codes "." ++ (x.1.now ++ (codes "." ++ decimal x.2))) ≡ text.now)) }
    ensures found { (p : Place) → Places text.now p → option_map {U = List ℕ × List ℕ × ℕ} (λ x. (x.0.now, x.1.now, x.2)) result ≡ Some (p.child, p.port, p.channel) }
{
    let (rest, channel) = cut_last(b'.', text)?;
    let (child, port) = cut_last(b'.', rest)?;
    Some((child, port, number(channel)?))
}
