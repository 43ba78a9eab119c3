// Reading what stands at a field, for all objects alike.
ghost use Rattle.std.specs.Prelude.{◌≡◌, List, ℕ, map, [], ◌∷◌, ◌++◌, Ok, Err, Some, Result, option_map, string_bytes, IfOk};
ghost use Rattle.serde_json.specs.Data.{Data};
ghost use Rattle.pt_json.specs.View.{view, items_view, members_view};
ghost use Rattle.pt_document.specs.declared.refusal.Refusal.{Refusal};
ghost use Rattle.pt_document.specs.Outcome.{Gives, IsRefusal};
ghost use Rattle.pt_document.specs.Names.{are_distinct, has_name};
ghost use Rattle.pt_moml.specs.Fields.{text_at, required_text, optional_text, name_at, truth_at, required_truth, optional_truth, required_whole, has_only, listed, items_at, required_list, optional_list, distinct_at};

use indexmap::IndexSet;
use pt_document::{Code, DocFault, NameSet, is_name, is_one_of, refused};
use pt_json::Value;
use pt_value::Text;
use std::alloc::{AllocError, Global};
use std::hash::BuildHasherDefault;

/// How many parts are compared with one another at most, in place of a set of their names.
const MOST_COMPARED: usize = 8;

/// For so many items a list has room from the start at most, so that a long list that is refused at once takes little memory.
pub(crate) const MOST_ROOM: usize = 1 << 14;

/// The text at a place that must have one.
pub fn text_of(alloc: Global, path: &str, value: &Value) -> Result<Text, DocFault>
    ensures { Gives (λ t. t) result (text_at path.now (view value.now)) }
{
    match value.as_str() {
        Some(text) => Ok(Text::of(alloc, text)?),
        None => Err(refused(alloc, Code::Shape, path)),
    }
}

pub fn required(alloc: Global, path: &str, field: Option<&Value>) -> Result<Text, DocFault>
    ensures { Gives (λ t. t) result
        (required_text path.now (option_map (λ v. view v.now) field.entry)) }
{
    match field {
        Some(value) => text_of(alloc, path, value),
        None => Err(refused(alloc, Code::Shape, path)),
    }
}

pub fn optional(alloc: Global, path: &str, field: Option<&Value>) -> Result<Option<Text>, DocFault>
    ensures { Gives (λ t. t) result
        (optional_text path.now (option_map (λ v. view v.now) field.entry)) }
{
    match field {
        Some(value) => Ok(Some(text_of(alloc, path, value)?)),
        None => Ok(None),
    }
}

#[tactic(auto, unfolding(crate::specs::Fields::name_at))]
pub fn name_of(alloc: Global, path: &str, field: Option<&Value>) -> Result<Text, DocFault>
    ensures { Gives (λ t. t) result (name_at path.now (option_map (λ v. view v.now) field.entry)) }
{
    let name = required(alloc, path, field)?;
    if is_name(name.as_str()) {
        Ok(name)
    } else {
        Err(refused(alloc, Code::Name, path))
    }
}

fn truth_of(alloc: Global, path: &str, value: &Value) -> Result<bool, DocFault>
    ensures { Gives (λ b. b) result (truth_at path.now (view value.now)) }
{
    match value.as_bool() {
        Some(truth) => Ok(truth),
        None => Err(refused(alloc, Code::Shape, path)),
    }
}

pub fn truth(alloc: Global, path: &str, field: Option<&Value>) -> Result<bool, DocFault>
    ensures { Gives (λ b. b) result
        (required_truth path.now (option_map (λ v. view v.now) field.entry)) }
{
    match field {
        Some(value) => truth_of(alloc, path, value),
        None => Err(refused(alloc, Code::Shape, path)),
    }
}

pub fn truth_or_false(alloc: Global, path: &str, field: Option<&Value>) -> Result<bool, DocFault>
    ensures { Gives (λ b. b) result
        (optional_truth path.now (option_map (λ v. view v.now) field.entry)) }
{
    match field {
        Some(value) => truth_of(alloc, path, value),
        None => Ok(false),
    }
}

pub fn whole_number(alloc: Global, path: &str, field: Option<&Value>) -> Result<u64, DocFault>
    ensures { Gives (λ n. n) result
        (required_whole path.now (option_map (λ v. view v.now) field.entry)) }
{
    match field {
        Some(value) => match value.as_u64() {
            Some(number) => Ok(number),
            None => Err(refused(alloc, Code::Shape, path)),
        },
        None => Err(refused(alloc, Code::Shape, path)),
    }
}

fn has_only_these(members: &[(&str, Value)], keys: &[&str]) -> bool
    ensures { result ≡ has_only (map (λ k. k.now) keys.now) (members_view members.now) }
{
    for member in members {
        if !is_one_of(keys, member.0) {
            return false;
        }
    }
    true
}

/// The value is an object, and its fields are of these.
pub fn has_fields(alloc: Global, path: &str, value: &Value, keys: &[&str]) -> Result<(), DocFault>
    ensures { Gives (λ u. u) result (listed path.now (map (λ k. k.now) keys.now) (view value.now)) }
{
    match value {
        Value::Object(members) => {
            if has_only_these(members, keys) {
                Ok(())
            } else {
                Err(refused(alloc, Code::Shape, path))
            }
        }
        _ => Err(refused(alloc, Code::Shape, path)),
    }
}

/// A part of an entity or of a job that reads alike wherever it stands.
pub trait Part: Drop {
    /// What a contract sees of it, and of a list.
    ghost Tree: { Type 0 };

    ghost tree: { Self → Tree };

    ghost trees: { List Self → List Tree };

    /// What a value reads as, for an entity of this path.
    ghost reading: { List ℕ → Data → Result Tree Refusal };

    fn read(alloc: Global, path: &str, value: &Value) -> Result<Self, DocFault>
        ensures { Gives tree result (reading path.now (view value.now)) };

    ghost of_none: { trees [] ≡ [] };

    ghost of_more: { (parts : List Self) (part : Self) → trees (parts ++ part ∷ []) ≡ trees parts ++ tree part ∷ [] };
}

/// A part with a name.
pub trait Named {
    ghost name: { Self → List ℕ };

    ghost names: { List Self → List (List ℕ) };

    fn name(&self) -> &str
        ensures { result.now ≡ name self.now };

    ghost of_none: { names [] ≡ [] };

    ghost of_more: { (part : Self) (parts : List Self) → names (part ∷ parts) ≡ name part ∷ names parts };
}

/// Whether one of the parts has the name.
fn has_name<T: Named>(parts: &[T], name: &str) -> bool
    ensures { result ≡ has_name (T.names parts.now) name.now }
{
    for part in parts {
        if name == part.name() {
            return true;
        }
    }
    false
}

/// Whether the name of each part differs from those before it, for few parts.
fn are_apart<T: Named>(parts: &[T]) -> bool
    ensures { result ≡ are_distinct (T.names parts.now) }
{
    for (place, part) in parts.iter().enumerate() {
        if has_name(&parts[..place], part.name()) {
            return false;
        }
    }
    true
}

/// Puts the names of the parts into a set that is empty, up to one that is there already: whether there is none.
fn are_new<'a, T: Named>(seen: &mut NameSet<&'a str>, parts: &'a [T]) -> Result<bool, AllocError>
    requires { map (λ n. n.now) seen.old.keys ≡ [] }
    ensures { IfOk result (λ b. b ≡ are_distinct (T.names parts.now)) }
{
    for part in parts {
        let (_, is_new) = seen.insert_full(part.name())?;
        if !is_new {
            return Ok(false);
        }
    }
    Ok(true)
}

/// Whether the names of the parts differ from one another.
fn differ<T: Named>(alloc: Global, parts: &[T]) -> Result<bool, AllocError>
    ensures { IfOk result (λ b. b ≡ are_distinct (T.names parts.now)) }
{
    if parts.len() <= MOST_COMPARED {
        return Ok(are_apart(parts));
    }
    let mut seen: NameSet<&str> = IndexSet::with_capacity_and_hasher(
        alloc,
        parts.len(),
        BuildHasherDefault::new(),
    )?;
    let are_new = are_new(&mut seen, parts);
    drop(seen);
    are_new
}

/// The names of the parts differ.
#[tactic(auto, unfolding(crate::specs::Fields::distinct_at))]
pub fn names_differ<T: Named>(alloc: Global, path: &str, parts: &[T]) -> Result<(), DocFault>
    ensures { Gives (λ u. u) result (distinct_at path.now (T.names parts.now)) }
{
    let are_distinct = differ(alloc, parts)?;
    if are_distinct {
        Ok(())
    } else {
        Err(refused(alloc, Code::Name, path))
    }
}

fn read_items<P: Part>(alloc: Global, path: &str, items: &[Value]) -> Result<Vec<P>, DocFault>
    ensures { Gives (λ v. P.trees v.items) result
        (items_at (P.reading path.now) [] (items_view items.now)) }
{
    let mut found = Vec::with_capacity(alloc, items.len().min(MOST_ROOM))?;
    for item in items {
        found.push(P::read(alloc, path, item)?)?;
    }
    Ok(found)
}

#[tactic(auto, unfolding(crate::specs::Fields::required_list))]
pub fn list<P: Part>(alloc: Global, path: &str, field: Option<&Value>) -> Result<Vec<P>, DocFault>
    ensures { Gives (λ v. P.trees v.items) result
        (required_list P.reading path.now (option_map (λ v. view v.now) field.entry)) }
{
    match field {
        Some(Value::Array(items)) => read_items(alloc, path, items),
        _ => Err(refused(alloc, Code::Shape, path)),
    }
}

#[tactic(auto, unfolding(crate::specs::Fields::optional_list))]
pub fn list_or_empty<P: Part>(
    alloc: Global,
    path: &str,
    field: Option<&Value>,
) -> Result<Vec<P>, DocFault>
    ensures { Gives (λ v. P.trees v.items) result
        (optional_list P.reading path.now (option_map (λ v. view v.now) field.entry)) }
{
    match field {
        Some(Value::Array(items)) => read_items(alloc, path, items),
        Some(_) => Err(refused(alloc, Code::Shape, path)),
        None => Ok(Vec::new(alloc)),
    }
}
