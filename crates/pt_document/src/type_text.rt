// Texts of types, read word by word: however deep a hostile text nests, nothing recurs.
ghost use Rattle.std.specs.Prelude.{◌≡◌, [], ◌∷◌, ◌++◌, map, length, take, drop, codes, false, option_map, IfOk};
ghost use Rattle.std.specs.List.{prefix_len};
ghost use Rattle.pt_document.specs.Names as names;
ghost use Rattle.pt_document.specs.TypeTexts as texts;
ghost use Rattle.pt_document.specs.TypeWords as types;
ghost use Rattle.pt_document.specs.TypeWords.{names_view, stack_view, place_view, next_view};

use crate::names::{NameSet, is_later, is_name_of_bytes, is_word};
use indexmap::IndexSet;
use std::alloc::{AllocError, Global};
use std::hash::BuildHasherDefault;

/// What is open round a place: the bracket of an array, or that of a record with the names so far.
#[derive(Drop)]
enum Open<'a> {
    Array,
    Record(NameSet<&'a [u8]>),
}

/// A place in a text: whether a type is wanted there, what is open round it, and what is left.
#[derive(Drop)]
struct Place<'a> {
    wants_type: bool,
    around: Vec<Open<'a>>,
    rest: &'a [u8],
}

/// Where reading goes on, or whether the text that ends is that of a type.
#[derive(Drop)]
enum Next<'a> {
    Goes(Place<'a>),
    Ends(bool),
}

/// What is left behind a word.
pub fn behind<'a>(word: &[u8], text: &'a [u8]) -> Option<&'a [u8]>
    ensures { option_map (λ t. t.now) result ≡ types.behind word.now text.now }
{
    if word.len() > text.len() {
        return None;
    }
    let (front, back) = text.split_at(word.len());
    if front == word { Some(back) } else { None }
}

/// The name at the front of a text, and what is left behind it.
pub fn leading_name<'a>(text: &'a [u8]) -> (&'a [u8], &'a [u8])
    ensures name { result.0.now ≡ take (prefix_len names.is_later text.now) text.now }
    ensures rest { result.1.now ≡ drop (prefix_len names.is_later text.now) text.now }
{
    let mut end = 0;
    while end < text.len() && is_later(text[end]) {
        end += 1;
    }
    text.split_at(end)
}

fn no_names<'a>(alloc: Global) -> NameSet<&'a [u8]>
    ensures { names_view result ≡ [] }
{
    IndexSet::with_hasher(alloc, BuildHasherDefault::new())
}

/// A name that isn't a word of the expression language.
#[tactic(auto, unfolding(crate::specs::TypeTexts::is_field_name))]
pub fn is_field_name(name: &[u8]) -> bool
    ensures { result ≡ texts.is_field_name name.now }
{
    is_name_of_bytes(name) && !is_word(name)
}

/// One more name of a record: the names with it, or `None` where it is there already or isn't a name.
fn one_more<'a>(
    mut names: NameSet<&'a [u8]>,
    name: &'a [u8],
) -> Result<Option<NameSet<&'a [u8]>>, AllocError>
    ensures { IfOk result
        (λ more. option_map names_view more ≡ types.one_more (names_view names.entry) name.entry.now) }
{
    if !is_field_name(name) {
        return Ok(None);
    }
    let (_, is_new) = names.insert_full(name)?;
    if !is_new {
        return Ok(None);
    }
    Ok(Some(names))
}

/// A field of a record with these names before it.
#[tactic(auto, unfolding(crate::specs::TypeWords::field))]
fn field<'a>(
    names: NameSet<&'a [u8]>,
    mut around: Vec<Open<'a>>,
    text: &'a [u8],
) -> Result<Next<'a>, AllocError>
    ensures { IfOk result
        (λ next. next_view next ≡ types.field (names_view names.entry) (stack_view around.entry.items) text.entry.now) }
{
    let (name, rest) = leading_name(text);
    let Some(names) = one_more(names, name)? else {
        return Ok(Next::Ends(false));
    };
    match behind(b" = ", rest) {
        Some(rest) => {
            around.push(Open::Record(names))?;
            Ok(Next::Goes(Place {
                wants_type: true,
                around,
                rest,
            }))
        }
        None => Ok(Next::Ends(false)),
    }
}

fn behind_base_type<'a>(text: &'a [u8]) -> Option<&'a [u8]>
    ensures { option_map (λ t. t.now) result ≡ types.behind_base text.now }
{
    if let Some(rest) = behind(b"int", text) {
        return Some(rest);
    }
    if let Some(rest) = behind(b"boolean", text) {
        return Some(rest);
    }
    behind(b"string", text)
}

/// Where a type begins.
#[tactic(auto, unfolding(crate::specs::TypeWords::begin))]
fn begin<'a>(
    alloc: Global,
    mut around: Vec<Open<'a>>,
    text: &'a [u8],
) -> Result<Next<'a>, AllocError>
    ensures { IfOk result
        (λ next. next_view next ≡ types.begin (stack_view around.entry.items) text.entry.now) }
{
    if let Some(rest) = behind_base_type(text) {
        return Ok(Next::Goes(Place {
            wants_type: false,
            around,
            rest,
        }));
    }
    if let Some(rest) = behind(b"arrayType(", text) {
        around.push(Open::Array)?;
        return Ok(Next::Goes(Place {
            wants_type: true,
            around,
            rest,
        }));
    }
    field_or(no_names(alloc), around, behind(b"{", text))
}

/// A field of a record with these names before it, where something is left for it.
fn field_or<'a>(
    names: NameSet<&'a [u8]>,
    around: Vec<Open<'a>>,
    text: Option<&'a [u8]>,
) -> Result<Next<'a>, AllocError>
    ensures { IfOk result
        (λ next. next_view next ≡ types.field_or (names_view names.entry) (stack_view around.entry.items) (option_map (λ t. t.now) text.entry)) }
{
    match text {
        Some(text) => field(names, around, text),
        None => {
            drop(names);
            drop(around);
            Ok(Next::Ends(false))
        }
    }
}

/// Behind a type in a record with these names.
fn behind_field<'a>(
    names: NameSet<&'a [u8]>,
    around: Vec<Open<'a>>,
    text: &'a [u8],
) -> Result<Next<'a>, AllocError>
    ensures { IfOk result
        (λ next. next_view next ≡ types.behind_field (names_view names.entry) (stack_view around.entry.items) text.entry.now) }
{
    match behind(b"}", text) {
        Some(rest) => {
            drop(names);
            Ok(Next::Goes(Place {
                wants_type: false,
                around,
                rest,
            }))
        }
        None => field_or(names, around, behind(b", ", text)),
    }
}

/// Behind the type of the elements of an array.
fn behind_element<'a>(around: Vec<Open<'a>>, text: &'a [u8]) -> Next<'a>
    ensures { next_view result ≡ types.goes_or false (stack_view around.entry.items) (types.behind (codes ")") text.entry.now) (types.Ends false) }
{
    match behind(b")", text) {
        Some(rest) => Next::Goes(Place {
            wants_type: false,
            around,
            rest,
        }),
        None => Next::Ends(false),
    }
}

/// Behind a type.
#[tactic(auto, unfolding(crate::specs::TypeWords::go_on))]
fn go_on<'a>(mut around: Vec<Open<'a>>, text: &'a [u8]) -> Result<Next<'a>, AllocError>
    ensures { IfOk result
        (λ next. next_view next ≡ types.go_on (stack_view around.entry.items) text.entry.now) }
{
    match around.pop() {
        None => Ok(Next::Ends(text.is_empty())),
        Some(Open::Array) => Ok(behind_element(around, text)),
        Some(Open::Record(names)) => behind_field(names, around, text),
    }
}

fn step<'a>(alloc: Global, place: Place<'a>) -> Result<Next<'a>, AllocError>
    ensures { IfOk result (λ next. next_view next ≡ types.step (place_view place.entry)) }
{
    if place.wants_type {
        begin(alloc, place.around, place.rest)
    } else {
        go_on(place.around, place.rest)
    }
}

/// The text is `int`, `boolean`, `string`, `arrayType(T)` or `{a = T, b = T}`.
#[tactic(auto, unfolding(crate::specs::TypeWords::is_type_text, crate::specs::TypeWords::leads))]
pub fn is_type_text(alloc: Global, text: &str) -> Result<bool, AllocError>
    ensures { IfOk result (λ b. b ≡ types.is_type_text text.now) }
{
    let mut place = Place {
        wants_type: true,
        around: Vec::new(alloc),
        rest: text.as_bytes(),
    };
    for _ in 0..=text.len() {
        match step(alloc, place)? {
            Next::Goes(next) => place = next,
            Next::Ends(is_type) => return Ok(is_type),
        }
    }
    Ok(false)
}
