// From bytes to a value, in one pass over the tokens.
ghost use Rattle.std.specs.Prelude.{◌≡◌, ◌<◌, ◌++◌, ◌∷◌, [], length, Some, None, Err, IfOk, OnOk, OnErr, IsUtf8};
ghost use Rattle.json.specs.Json.{value, items, members};
ghost use Rattle.serde_json.specs.Data.{no_members};
ghost use Rattle.serde_json.specs.Read.{of_json, of_items, of_members, converted, read as read_text};
ghost use Rattle.pt_json.specs.View.{view, items_view, members_view};
ghost use Rattle.pt_json.specs.declared.reading.Unread.TheVariants.{NoJson, Memory};

use crate::number::number;
use crate::value::Value;
use json::{Invalid, Reader, Scratch, Token};
use std::alloc::{AllocError, AllocFailed, Global};
use thiserror::Error;

/// How deep arrays and objects may nest.
const MAX_DEPTH: usize = 127;

/// Why bytes weren't read.
#[derive(Clone, Copy, Debug, PartialEq, Eq, Error)]
pub enum Unread {
    #[error("no JSON")]
    NoJson,
    #[error("out of memory")]
    Memory,
}

impl From<Invalid> for Unread {
    ghost from_gives = { λ _ e. e ≡ NoJson };

    fn from(_: Invalid) -> Unread {
        Unread::NoJson
    }
}

impl From<AllocError> for Unread {
    ghost from_gives = { λ _ e. e ≡ Memory };

    fn from(_: AllocError) -> Unread {
        Unread::Memory
    }
}

impl<T: Drop> From<AllocFailed<T>> for Unread {
    ghost from_gives = { λ _ e. e ≡ Memory };

    fn from(_: AllocFailed<T>) -> Unread {
        Unread::Memory
    }
}

/// Reads the value that the bytes are: UTF-8 without a byte order mark, nested 127 deep at most. The scratch takes
/// the texts that have escapes.
pub fn read<'a>(
    alloc: Global,
    bytes: &'a [u8],
    scratch: &'a mut Scratch,
) -> Result<Value<'a>, Unread>
    // The value is what serde_json reads from the bytes.
    ensures ok { IfOk result (λ v. IsUtf8 bytes.now × (read_text bytes.now ≡ Some (view v))) }
    // Where none is found, serde_json reads none.
    ensures none { result ≡ Err NoJson → IsUtf8 bytes.now → read_text bytes.now ≡ None }
{
    match simdutf8::compat::from_utf8(bytes) {
        Ok(text) => value_of(alloc, text, scratch),
        Err(_) => Err(Unread::NoJson),
    }
}

fn value_of<'a>(alloc: Global, text: &'a str, scratch: &'a mut Scratch) -> Result<Value<'a>, Unread>
    ensures ok { IfOk result (λ v. read_text text.now ≡ Some (view v)) }
    ensures none { result ≡ Err NoJson → read_text text.now ≡ None }
{
    let mut reader = Reader::new(text, scratch)?;
    let value = read_value(alloc, &mut reader, MAX_DEPTH)?;
    if reader.next().is_some() {
        return Err(Unread::NoJson);
    }
    Ok(value)
}

/// The next value, with arrays and objects nested this deep at most.
#[cycle(read)]
#[inline(always)]
fn read_value<'a>(alloc: Global, reader: &mut Reader<'a>, depth: usize) -> Result<Value<'a>, Unread>
    ensures ok { IfOk result
        (λ v. converted of_json (value depth reader.old) ≡ Some (view v, reader.new)) }
    ensures shorter { OnOk result (length reader.new < length reader.old) }
    ensures none { result ≡ Err NoJson → converted of_json (value depth reader.old) ≡ None }
{
    let token = reader.next().ok_or(Unread::NoJson)?;
    match token {
        Token::String(text) => Ok(Value::String(text)),
        Token::Number(text) => match number(text) {
            Some(number) => Ok(Value::Number(number)),
            None => Err(Unread::NoJson),
        },
        Token::Bool(truth) => Ok(Value::Bool(truth)),
        Token::Null => Ok(Value::Null),
        Token::EndObject | Token::EndArray | Token::Key(_) | Token::Bad => Err(Unread::NoJson),
        Token::BeginArray => {
            if depth == 0 {
                return Err(Unread::NoJson);
            }
            Ok(Value::Array(read_items(alloc, reader, depth - 1)?))
        }
        Token::BeginObject => {
            if depth == 0 {
                return Err(Unread::NoJson);
            }
            Ok(Value::Object(read_members(alloc, reader, depth - 1)?))
        }
    }
}

/// Arrays of one item take the room of one, so that many arrays in one another take little memory.
fn push_item<'a>(found: &mut Vec<Value<'a>>, item: Value<'a>) -> Result<(), Unread>
    ensures ok { OnOk result (found.new.items ≡ found.old.items ++ item.entry ∷ []) }
    ensures memory { OnErr result (result ≡ Err Memory) }
{
    if found.is_empty() {
        found.reserve_exact(1)?;
    }
    found.push(item)?;
    Ok(())
}

/// Most objects of a document have three members at most, and take the room of three.
fn push_member<'a>(
    found: &mut Vec<(&'a str, Value<'a>)>,
    name: &'a str,
    member: Value<'a>,
) -> Result<(), Unread>
    ensures ok { OnOk result (found.new.items ≡ found.old.items ++ (name.entry, member.entry) ∷ []) }
    ensures memory { OnErr result (result ≡ Err Memory) }
{
    if found.is_empty() {
        found.reserve_exact(3)?;
    }
    found.push((name, member))?;
    Ok(())
}

#[cycle(read)]
#[inline(never)]
fn read_items<'a>(
    alloc: Global,
    reader: &mut Reader<'a>,
    depth: usize,
) -> Result<Vec<Value<'a>>, Unread>
    ensures ok { IfOk result
        (λ v. converted of_items (items (value depth) (length reader.old) reader.old)
        ≡ Some (items_view v.items, reader.new)) }
    ensures shorter { OnOk result (length reader.new < length reader.old) }
    ensures none { result ≡ Err NoJson
        → converted of_items (items (value depth) (length reader.old) reader.old) ≡ None }
{
    let mut found = Vec::new(alloc);
    'items: while !reader.take_end_array() {
        let item = read_value(alloc, reader, depth)?;
        push_item(&mut found, item)?;
    }
    Ok(found)
}

#[cycle(read)]
#[inline(never)]
fn read_members<'a>(
    alloc: Global,
    reader: &mut Reader<'a>,
    depth: usize,
) -> Result<Vec<(&'a str, Value<'a>)>, Unread>
    ensures ok { IfOk result
        (λ m. converted (λ ms. of_members ms no_members)
        (members (value depth) (length reader.old) reader.old)
        ≡ Some (members_view m.items, reader.new)) }
    ensures shorter { OnOk result (length reader.new < length reader.old) }
    ensures none { result ≡ Err NoJson
        → converted (λ ms. of_members ms no_members)
        (members (value depth) (length reader.old) reader.old) ≡ None }
{
    let mut found = Vec::new(alloc);
    'members: while let Some(name) = reader.next_key()? {
        let member = read_value(alloc, reader, depth)?;
        push_member(&mut found, name, member)?;
    }
    Ok(found)
}
