ghost use Rattle.std.specs.Prelude.{◌≡◌, OnOk, OnErr, None, Some, List, ℕ, IfNone, IfSome, option_copied, length, ◌<◌, if◌then◌else◌, IfOk};
ghost use Rattle.std.specs.Str.{bytes_eq};
ghost use Rattle.indexmap.specs.IndexMap.{get_by_text};
ghost use Rattle.pt_name_map.specs.NameMap.{held, hashed, listed, IsPlace};

use indexmap::IndexMap;
use pt_value::Text;
use std::alloc::{AllocError, Global};
use std::hash::{BuildHasherDefault, DefaultHasher};

/// How many entries are searched one by one at most.
const MOST_LISTED: usize = 8;

/// A name with its value.
#[derive(Drop)]
struct Entry<V> {
    name: Text,
    value: V,
}

/// Values by the hash of their names. Names of one hash are hard to find for the hasher.
type Hashed<V> = IndexMap<String, V, BuildHasherDefault<DefaultHasher>>;

/// Values under names. The first eight names stand in a list that is searched, and only the others are hashed, in a table that is
/// there once it is wanted.
#[derive(Drop)]
pub struct NameMap<V> {
    few: Vec<Entry<V>>,
    others: Option<Box<Hashed<V>>>,
}

/// The place of a name in a list.
fn place_of<V>(entries: &[Entry<V>], name: &str) -> Option<usize>
    ensures some { IfSome result (IsPlace entries.now name.now) }
    ensures none { IfNone result (listed entries.now name.now ≡ None) }
    ensures bound { IfSome result (λ place. place < length entries.now) }
{
    for (place, entry) in entries.iter().enumerate() {
        if entry.name.as_str() == name {
            return Some(place);
        }
    }
    None
}

/// The value under a name in a list.
fn value_in<'a, V>(entries: &'a [Entry<V>], name: &str) -> Option<&'a V>
    ensures { option_copied result ≡ listed entries.now name.now }
{
    for entry in entries {
        if entry.name.as_str() == name {
            return Some(&entry.value);
        }
    }
    None
}

/// Puts a value under a name into a table, in place of the one that is there.
fn put_into<V: Drop>(
    table: &mut Hashed<V>,
    alloc: Global,
    name: &str,
    value: V,
) -> Result<(), AllocError>
    ensures ok { OnOk result ((other : List ℕ) → get_by_text table.new other ≡ (if bytes_eq name.now other then Some value else get_by_text table.old other)) }
    ensures err { OnErr result ((other : List ℕ) → get_by_text table.new other ≡ get_by_text table.old other) }
{
    let name = String::from_str(alloc, name)?;
    table.insert(name, value)?;
    Ok(())
}

/// A table with one name.
fn one_hashed<V: Drop>(alloc: Global, name: &str, value: V) -> Result<Hashed<V>, AllocError>
    ensures { IfOk result (λ table. (other : List ℕ) → get_by_text table other ≡ (if bytes_eq name.now other then Some value else None)) }
{
    let mut table = IndexMap::with_hasher(alloc, BuildHasherDefault::new());
    put_into(&mut table, alloc, name, value)?;
    Ok(table)
}

/// The same into a table that is made where there is none.
fn put_hashed<V: Drop>(
    others: &mut Option<Box<Hashed<V>>>,
    alloc: Global,
    name: &str,
    value: V,
) -> Result<(), AllocError>
    ensures ok { OnOk result ((other : List ℕ) → hashed others.new other ≡ (if bytes_eq name.now other then Some value else hashed others.old other)) }
    ensures err { OnErr result ((other : List ℕ) → hashed others.new other ≡ hashed others.old other) }
{
    match others {
        Some(table) => put_into(table, alloc, name, value),
        None => {
            let table = one_hashed(alloc, name, value)?;
            *others = Some(Box::new(alloc, table)?);
            Ok(())
        }
    }
}

/// The value under a name in a table, if there is one. Where there is none, the name isn't hashed.
fn hashed_value<'a, V>(others: &'a Option<Box<Hashed<V>>>, name: &str) -> Option<&'a V>
    ensures { option_copied result ≡ hashed others.now name.now }
{
    match others {
        Some(table) => table.get(name),
        None => None,
    }
}

impl<V: Drop> NameMap<V> {
    /// No names. It takes no memory.
    pub fn new(alloc: Global) -> NameMap<V>
        ensures { (name : List ℕ) → held result name ≡ None }
    {
        NameMap {
            few: Vec::new(alloc),
            others: None,
        }
    }

    /// Puts a value under a name that has none in the list.
    fn add(&mut self, alloc: Global, name: &str, value: V) -> Result<(), AllocError>
        requires { listed self.old.few.items name.now ≡ None }
        ensures ok { OnOk result ((other : List ℕ) → held self.new other ≡ (if bytes_eq name.now other then Some value else held self.old other)) }
        ensures err { OnErr result ((other : List ℕ) → held self.new other ≡ held self.old other) }
    {
        if self.few.len() < MOST_LISTED {
            let name = Text::of(alloc, name)?;
            self.few.push(Entry { name, value })?;
            Ok(())
        } else {
            put_hashed(&mut self.others, alloc, name, value)
        }
    }

    /// Puts a value under a name, in place of the one that is there.
    pub fn put(&mut self, alloc: Global, name: &str, value: V) -> Result<(), AllocError>
        ensures ok { OnOk result ((other : List ℕ) → held self.new other ≡ (if bytes_eq name.now other then Some value else held self.old other)) }
        ensures err { OnErr result ((other : List ℕ) → held self.new other ≡ held self.old other) }
    {
        match place_of(&self.few, name) {
            Some(place) => {
                self.few[place].value = value;
                Ok(())
            }
            None => self.add(alloc, name, value),
        }
    }

    /// The value under a name.
    pub fn get(&self, name: &str) -> Option<&V>
        ensures { option_copied result ≡ held self.now name.now }
    {
        match value_in(&self.few, name) {
            Some(value) => Some(value),
            None => hashed_value(&self.others, name),
        }
    }
}
