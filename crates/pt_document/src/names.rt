// Names, and paths made of them.
ghost use Rattle.std.specs.Prelude.{◌≡◌, map, IfOk};
ghost use Rattle.std.specs.List.{list_all};
ghost use Rattle.pt_document.specs.Names as names;
ghost use Rattle.pt_document.specs.Outcome.{IsRefusal};

use crate::code::Code;
use crate::refusal::{DocFault, Refusal};
use indexmap::IndexSet;
use pt_value::Text;
use std::alloc::{AllocError, Global};
use std::hash::{BuildHasherDefault, DefaultHasher};

/// Names that differ. Under the fast hasher that sets have by default a document could hold any number of names of one
/// hash, and each new one would be compared with all of them. Under this one such names are hard to find.
pub type NameSet<T> = IndexSet<T, BuildHasherDefault<DefaultHasher>>;

fn is_first(c: u8) -> bool
    ensures { result ≡ names.is_first c }
{
    c.is_ascii_lowercase() || c.is_ascii_uppercase() || c == b'_'
}

pub fn is_later(c: u8) -> bool
    ensures { result ≡ names.is_later c }
{
    is_first(c) || c.is_ascii_digit()
}

fn are_later(bytes: &[u8]) -> bool
    ensures { result ≡ list_all names.is_later bytes.now }
{
    bytes.iter().all(|c| is_later(*c))
}

/// A letter or `_`, then letters, `_` and digits, 64 bytes in all at most.
#[tactic(auto, unfolding(crate::specs::Names::is_name))]
pub fn is_name_of_bytes(bytes: &[u8]) -> bool
    ensures { result ≡ names.is_name bytes.now }
{
    0 < bytes.len() && bytes.len() <= 64 && is_first(bytes[0]) && are_later(bytes)
}

/// A letter or `_`, then letters, `_` and digits, 64 in all at most.
pub fn is_name(text: &str) -> bool
    ensures { result ≡ names.is_name text.now }
{
    is_name_of_bytes(text.as_bytes())
}

/// One of the texts is this.
pub fn is_one_of(texts: &[&str], text: &str) -> bool
    ensures { result ≡ names.is_among (map (λ k. k.now) texts.now) text.now }
{
    for one in texts {
        if *one == text {
            return true;
        }
    }
    false
}

/// A word of the expression language that names nothing.
pub fn is_word(text: &[u8]) -> bool
    ensures { result ≡ names.is_among names.words text.now }
{
    text == b"true".as_slice()
        || text == b"false".as_slice()
        || text == b"abs".as_slice()
        || text == b"max".as_slice()
        || text == b"min".as_slice()
}

fn ends_in(end: &[u8], text: &[u8]) -> bool
    ensures { result ≡ names.ends_in end.now text.now }
{
    if end.len() > text.len() {
        return false;
    }
    let (_, back) = text.split_at(text.len() - end.len());
    back == end
}

/// A name that no port, parameter or Variable may have.
#[tactic(auto, unfolding(crate::specs::Names::is_reserved))]
pub fn is_reserved(name: &str) -> bool
    ensures { result ≡ names.is_reserved name.now }
{
    is_word(name.as_bytes()) || ends_in(b"_isPresent", name.as_bytes())
}

/// A property of this name is there for graphical editors alone.
#[tactic(auto, unfolding(crate::specs::Names::is_layout))]
pub fn is_layout(name: &str) -> bool
    ensures { result ≡ names.is_layout name.now }
{
    let bytes = name.as_bytes();
    0 < bytes.len() && bytes[0] == b'_'
}

/// The path of what has this name in the entity of that path.
#[tactic(auto, unfolding(crate::specs::Names::below))]
pub fn path_below(alloc: Global, path: &str, name: &str) -> Result<Text, AllocError>
    ensures { IfOk result (λ t. t ≡ names.below path.now name.now) }
{
    if path == "." {
        Text::of(alloc, name)
    } else {
        Text::joined(alloc, path, name)
    }
}

/// A refusal for this cause, at what has this name in the entity of that path.
pub fn refused_below(alloc: Global, code: Code, path: &str, name: &str) -> DocFault
    ensures { IsRefusal result code (names.below path.now name.now) }
{
    match path_below(alloc, path, name) {
        Ok(path) => DocFault::Refused(Refusal { code, path }),
        Err(_) => DocFault::Memory,
    }
}
