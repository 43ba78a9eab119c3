// Types that texts say, read word by word: however deep a text nests, nothing recurs. A type more than 8 deep is general, so a part
// is walked for at most nine arrays and records round it, and the time is about linear in the text.
ghost use Rattle.std.specs.Prelude.{◌≡◌, ◌∷◌, ◌++◌, [], codes, IfOk, MatchOption, true, Some, None, map, option_map};
ghost use Rattle.pt_document.specs.TypeTexts as texts;
ghost use Rattle.pt_document.specs.TypeTexts.{TypeTree, IsTextOf};
ghost use Rattle.pt_document.specs.TypeWords as words;
ghost use Rattle.pt_datatypes.specs.Normal.{array_of};
ghost use Rattle.pt_types.specs.Ty.{type_of};
ghost use Rattle.pt_types.specs.Entry.{typed_entry};
ghost use Rattle.pt_said.specs.SaidWords as said;
ghost use Rattle.pt_said.specs.SaidWords.{Says, names_view, stack_view, place_view, next_view};

use crate::words::field_name;
use indexmap::IndexSet;
use pt_document::{behind, leading_name};
use pt_expr_type::record_of;
use pt_language::TypeFault;
use pt_types::Ty;
use pt_value::Text;
use std::alloc::{AllocError, Global};
use std::hash::{BuildHasherDefault, DefaultHasher};

/// Names that differ. A text could hold any number of names of one hash under a faster hasher.
type NameSet<T> = IndexSet<T, BuildHasherDefault<DefaultHasher>>;

/// A record that isn't closed: the names so far, the fields that are read, and the name of the one that is being read.
#[derive(Drop)]
struct OpenRecord<'a> {
    names: NameSet<&'a str>,
    fields: Vec<(Text, Ty)>,
    name: &'a str,
}

/// What is open round a place: the bracket of an array, or that of a record.
#[derive(Drop)]
enum Open<'a> {
    Array,
    Record(OpenRecord<'a>),
}

/// A place in a text: the type that was read just before it, or `None` where a type is wanted, what is open round it, and what
/// is left.
#[derive(Drop)]
struct Place<'a> {
    ty: Option<Ty>,
    around: Vec<Open<'a>>,
    rest: &'a [u8],
}

/// Where reading goes on, or the type of the text that ends, if it has one.
#[derive(Drop)]
enum Next<'a> {
    Goes(Place<'a>),
    Ends(Option<Ty>),
}

/// The names of a record with one more, or `None` where it stands there already.
fn with_name<'a>(
    mut names: NameSet<&'a str>,
    name: &'a str,
) -> Result<Option<NameSet<&'a str>>, AllocError>
    requires { texts.is_field_name name.now ≡ true }
    ensures { IfOk result
        (λ more. option_map names_view more ≡ words.one_more (names_view names.entry) name.entry.now) }
{
    let (_, is_new) = names.insert_full(name)?;
    if !is_new {
        return Ok(None);
    }
    Ok(Some(names))
}

/// One more field of a record that has these names and fields before it.
#[tactic(auto, unfolding(crate::specs::SaidWords::field))]
fn field<'a>(
    names: NameSet<&'a str>,
    fields: Vec<(Text, Ty)>,
    around: Vec<Open<'a>>,
    text: &'a [u8],
) -> Result<Next<'a>, AllocError>
    ensures { IfOk result
        (λ next. next_view next ≡ said.field (names_view names.entry) (map typed_entry fields.items) (stack_view around.entry.items) text.entry.now) }
{
    let (bytes, rest) = leading_name(text);
    match field_name(bytes) {
        Some(name) => named(names, fields, around, name, rest),
        None => Ok(Next::Ends(None)),
    }
}

/// One more field of this name.
fn named<'a>(
    names: NameSet<&'a str>,
    fields: Vec<(Text, Ty)>,
    mut around: Vec<Open<'a>>,
    name: &'a str,
    text: &'a [u8],
) -> Result<Next<'a>, AllocError>
    requires { texts.is_field_name name.now ≡ true }
    ensures { IfOk result
        (λ next. next_view next ≡ said.named_or (map typed_entry fields.items) (stack_view around.entry.items) name.entry.now (words.one_more (names_view names.entry) name.entry.now) text.entry.now) }
{
    let Some(names) = with_name(names, name)? else {
        return Ok(Next::Ends(None));
    };
    match behind(b" = ", text) {
        Some(rest) => {
            around.push(Open::Record(OpenRecord {
                names,
                fields,
                name,
            }))?;
            Ok(Next::Goes(Place {
                ty: None,
                around,
                rest,
            }))
        }
        None => Ok(Next::Ends(None)),
    }
}

/// A base type, and what is left behind it.
fn base<'a>(text: &'a [u8]) -> Option<(Ty, &'a [u8])>
    ensures { option_map (λ b. (type_of b.0, b.1.now)) result ≡ said.base text.now }
{
    if let Some(rest) = behind(b"int", text) {
        return Some((Ty::Int, rest));
    }
    if let Some(rest) = behind(b"boolean", text) {
        return Some((Ty::Boolean, rest));
    }
    match behind(b"string", text) {
        Some(rest) => Some((Ty::Words, rest)),
        None => None,
    }
}

/// Where a type begins that is no base type.
fn begin_nested<'a>(
    alloc: Global,
    mut around: Vec<Open<'a>>,
    text: &'a [u8],
) -> Result<Next<'a>, AllocError>
    ensures { IfOk result
        (λ next. next_view next ≡ said.begin_nested (stack_view around.entry.items) text.entry.now) }
{
    if let Some(rest) = behind(b"arrayType(", text) {
        around.push(Open::Array)?;
        return Ok(Next::Goes(Place {
            ty: None,
            around,
            rest,
        }));
    }
    match behind(b"{", text) {
        Some(rest) => {
            let names = IndexSet::with_hasher(alloc, BuildHasherDefault::new());
            field(names, Vec::new(alloc), around, rest)
        }
        None => Ok(Next::Ends(None)),
    }
}

/// Where a type begins.
#[tactic(auto, unfolding(crate::specs::SaidWords::begin))]
fn begin<'a>(alloc: Global, around: Vec<Open<'a>>, text: &'a [u8]) -> Result<Next<'a>, AllocError>
    ensures { IfOk result
        (λ next. next_view next ≡ said.begin (stack_view around.entry.items) text.entry.now) }
{
    match base(text) {
        Some((ty, rest)) => Ok(Next::Goes(Place {
            ty: Some(ty),
            around,
            rest,
        })),
        None => begin_nested(alloc, around, text),
    }
}

/// The record of these fields.
fn record_said(alloc: Global, fields: Vec<(Text, Ty)>) -> Result<Ty, AllocError>
    ensures { IfOk result (λ t. type_of t ≡ said.record_said (map typed_entry fields.items)) }
{
    match record_of(alloc, fields) {
        Ok(ty) => Ok(ty),
        Err(TypeFault::Memory) => Err(AllocError),
        Err(TypeFault::Clash) | Err(TypeFault::Name) => Ok(Ty::General),
    }
}

/// Behind the type of the last of these fields.
fn behind_field<'a>(
    alloc: Global,
    names: NameSet<&'a str>,
    fields: Vec<(Text, Ty)>,
    around: Vec<Open<'a>>,
    text: &'a [u8],
) -> Result<Next<'a>, AllocError>
    ensures { IfOk result
        (λ next. next_view next ≡ said.behind_field (names_view names.entry) (map typed_entry fields.items) (stack_view around.entry.items) text.entry.now) }
{
    if let Some(rest) = behind(b"}", text) {
        return Ok(Next::Goes(Place {
            ty: Some(record_said(alloc, fields)?),
            around,
            rest,
        }));
    }
    match behind(b", ", text) {
        Some(rest) => field(names, fields, around, rest),
        None => Ok(Next::Ends(None)),
    }
}

/// Some fields with one more.
fn with_field(
    alloc: Global,
    mut fields: Vec<(Text, Ty)>,
    name: &str,
    ty: Ty,
) -> Result<Vec<(Text, Ty)>, AllocError>
    ensures { IfOk result (λ more. map typed_entry more.items ≡ map typed_entry fields.items ++ (name.now, type_of ty) ∷ []) }
{
    let name = Text::of(alloc, name)?;
    fields.push((name, ty)).map_err(AllocError::from)?;
    Ok(fields)
}

/// Behind a type in a record that isn't closed.
fn behind_part<'a>(
    alloc: Global,
    ty: Ty,
    unclosed: OpenRecord<'a>,
    around: Vec<Open<'a>>,
    text: &'a [u8],
) -> Result<Next<'a>, AllocError>
    ensures { IfOk result
        (λ next. next_view next ≡ said.behind_field (names_view unclosed.entry.names) (map typed_entry unclosed.entry.fields.items ++ (unclosed.entry.name.now, type_of ty) ∷ []) (stack_view around.entry.items) text.entry.now) }
{
    let fields = with_field(alloc, unclosed.fields, unclosed.name, ty)?;
    behind_field(alloc, unclosed.names, fields, around, text)
}

/// The array of a type.
fn array_said(alloc: Global, ty: Ty) -> Result<Ty, AllocError>
    ensures { IfOk result (λ t. type_of t ≡ array_of (type_of ty)) }
{
    Ty::array(alloc, ty)
}

/// Behind the type of the elements of an array.
fn behind_element<'a>(
    alloc: Global,
    ty: Ty,
    around: Vec<Open<'a>>,
    text: &'a [u8],
) -> Result<Next<'a>, AllocError>
    ensures { IfOk result
        (λ next. next_view next ≡ said.goes_or (Some (array_of (type_of ty))) (stack_view around.entry.items) (words.behind (codes ")") text.entry.now) (said.Ends None)) }
{
    match behind(b")", text) {
        Some(rest) => Ok(Next::Goes(Place {
            ty: Some(array_said(alloc, ty)?),
            around,
            rest,
        })),
        None => Ok(Next::Ends(None)),
    }
}

/// The type, where nothing is left of the text.
fn if_nothing(ty: Ty, text: &[u8]) -> Option<Ty>
    ensures { option_map type_of result ≡ said.type_if_nothing (type_of ty) text.now }
{
    if text.is_empty() { Some(ty) } else { None }
}

/// Behind a type.
#[tactic(auto, unfolding(crate::specs::SaidWords::go_on))]
fn go_on<'a>(
    alloc: Global,
    ty: Ty,
    mut around: Vec<Open<'a>>,
    text: &'a [u8],
) -> Result<Next<'a>, AllocError>
    ensures { IfOk result
        (λ next. next_view next ≡ said.go_on (type_of ty) (stack_view around.entry.items) text.entry.now) }
{
    match around.pop() {
        None => Ok(Next::Ends(if_nothing(ty, text))),
        Some(Open::Array) => behind_element(alloc, ty, around, text),
        Some(Open::Record(unclosed)) => behind_part(alloc, ty, unclosed, around, text),
    }
}

fn step<'a>(alloc: Global, place: Place<'a>) -> Result<Next<'a>, AllocError>
    ensures { IfOk result (λ next. next_view next ≡ said.step (place_view place.entry)) }
{
    let Place { ty, around, rest } = place;
    match ty {
        Some(ty) => go_on(alloc, ty, around, rest),
        None => begin(alloc, around, rest),
    }
}

/// The type of a text, read word by word.
#[tactic(auto, unfolding(crate::specs::SaidWords::type_in, crate::specs::SaidWords::leads))]
pub fn type_in(alloc: Global, text: &str) -> Result<Option<Ty>, AllocError>
    ensures { IfOk result (λ t. option_map type_of t ≡ said.type_in text.now) }
{
    let mut place = Place {
        ty: None,
        around: Vec::new(alloc),
        rest: text.as_bytes(),
    };
    for _ in 0..=text.len() {
        match step(alloc, place)? {
            Next::Goes(next) => place = next,
            Next::Ends(ty) => return Ok(ty),
        }
    }
    Ok(None)
}

/// The type that a text says, or `None` where the text is no type's.
pub fn ty_said(alloc: Global, text: &str) -> Result<Option<Ty>, AllocError>
    ensures { IfOk result (λ t. MatchOption t ((read : TypeTree) → ¬ IsTextOf text.now read) (λ ty. Says text.now (type_of ty))) }
{
    type_in(alloc, text)
}
