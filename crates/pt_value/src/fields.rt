ghost use Rattle.std.specs.Prelude.{◌≡◌, ◌↔◌, ◌+◌, ◌<◌, ◌≤◌, ℕ, ◌++◌, IsTrue, OnOk, IfOk, IfErr, IfSome, IfNone, IsPermutation, IsSortedByKey, map, min, length, option_map, slice_index_or, All};
ghost use Rattle.pt_value.specs.Value.{size, size_of_named, named_of};
ghost use Rattle.pt_value.specs.Token.{value_of, entry_of, entry_of_pair};
ghost use Rattle.pt_value.specs.Name.{IsName};
ghost use Rattle.pt_value.specs.Printed.{in_braces, each_named, printed_field, IsExtended};
ghost use Rattle.pt_value.specs.Record.{IsRecord, IsBelow, IsRepeated, field_at};
ghost use Rattle.pt_value.specs.FieldsFault.{FaultStands};
ghost use Rattle.std.specs.List.{AllAdjacentBelow};
ghost use Rattle.std.specs.Ordering.{nat_cmp};
ghost use Rattle.std.specs.Cmp.Lexicographic.{slice_cmp};

use crate::name::is_name;
use crate::printed::write_separator;
use crate::text::Text;
use crate::token::Token;
use std::alloc::{AllocError, Global};
use std::marker::Model;
use thiserror::Error;

/// Why some fields make no record.
#[derive(Debug, Drop, Error)]
pub enum FieldsFault {
    #[error("no field")]
    Empty,
    #[error("the field {0} is repeated")]
    Repeated(Text),
    #[error("{0} is no name")]
    Name(Text),
    #[error("out of memory")]
    Memory,
}

impl From<AllocError> for FieldsFault {
    ghost use Rattle.std.specs.Prelude.{◌≡◌};
    ghost use Rattle.pt_value.specs.declared.fields.FieldsFault.TheVariants.{Memory};

    ghost from_gives = { λ _ fault. fault ≡ Memory };

    fn from(_: AllocError) -> Self {
        FieldsFault::Memory
    }
}

/// A named part of a record.
#[derive(Drop)]
#[cycle(token)]
pub struct Field {
    pub name: Text,
    pub value: Token,
}

impl Field {
    #[cycle(copies)]
    pub fn copy(&self, alloc: Global) -> Result<Field, AllocError>
        ensures { IfOk result (λ field. field ≡ self.now) }
    {
        Ok(Field {
            name: self.name.copy(alloc)?,
            value: self.value.copy(alloc)?,
        })
    }

    /// The bytes of the name and the size of the value together, or the greatest `u64` where they are more.
    #[cycle(sizes)]
    pub fn size(&self) -> u64
        ensures { result ≡ min (length self.now.name + size (value_of self.now.value)) u64.MAX }
    {
        (self.name.as_str().len() as u64).saturating_add(self.value.size())
    }

    #[cycle(sames)]
    pub fn same(&self, other: &Field) -> bool
        ensures { IsTrue result ↔ (self.now ≡ other.now) }
    {
        self.name == other.name && self.value.same(&other.value)
    }

    #[cycle(writes)]
    pub(crate) fn write(&self, out: &mut Vec<u8>) -> Result<(), AllocError>
        ensures ok { OnOk result (out.new.items ≡ out.old.items ++ printed_field self.now.name (value_of self.now.value)) }
        ensures kept { IsExtended out.old.items out.new.items }
    {
        out.extend_from_slice(self.name.as_str().as_bytes())?;
        out.extend_from_slice(b" = ")?;
        self.value.write(out)
    }
}

/// The fields of a record, which a contract sees as the list of their names and values.
#[derive(Drop)]
#[cycle(token)]
pub struct Fields {
    fields: Vec<Field>,
}

impl Model for Fields {
    ghost use Rattle.std.specs.Prelude.{List, map, ℕ};
    ghost use Rattle.std.specs.Coded.{coded_list, coded_ℕ, coded×};
    ghost use Rattle.pt_value.specs.Value as value;
    ghost use Rattle.pt_value.specs.ValueCode.{coded_value};

    ghost Value = { List (List ℕ × value.Value) };

    ghost coded = { coded_list (coded× (coded_list coded_ℕ) coded_value) };

    ghost use Rattle.pt_value.specs.Token.{entry_of};

    ghost view = { λ x. map entry_of x.fields.items };

    ghost use Rattle.pt_value.specs.Record.{IsRecord};

    ghost invariant = { λ x. IsRecord (map entry_of x.fields.items) };

    ghost size = { λ fs. value.height_of_named (value.named_of fs) };

    ghost use Rattle.pt_value.specs.TokenHeight.{most_le-height_of_named};

    ghost size_decreases = { λ a h. most_le-height_of_named a.fields.items };
}

impl Fields {
    /// The record of these fields, sorted by name. A text that is no name of an expression is told before a name that is repeated.
    pub fn of(alloc: Global, fields: Vec<(Text, Token)>) -> Result<Fields, FieldsFault>
        ensures ok { IfOk result (λ fs. IsPermutation (map entry_of_pair fields.items) fs) }
        ensures lawful { IfOk result IsRecord }
        ensures err { IfErr result (FaultStands (map (λ f. f.0) fields.items)) }
    {
        if fields.is_empty() {
            return Err(FieldsFault::Empty);
        }
        let mut list = named_fields(alloc, fields)?;
        sort_by_name(&mut list);
        match first_repeated(&list) {
            Some(at) => Err(FieldsFault::Repeated(list.swap_remove(at).name)),
            None => Ok(Fields { fields: list }),
        }
    }

    pub fn len(&self) -> usize
        ensures value { result ≡ length self.now }
        ensures some { 0 < result }
    {
        self.fields.len()
    }

    pub fn as_slice(&self) -> &[Field]
        ensures fields { map entry_of result.now ≡ self.now }
        ensures lawful { IsRecord self.now }
    {
        self.fields.as_slice()
    }

    /// The value under a name.
    pub fn get(&self, name: &str) -> Option<&Token>
        ensures { option_map (λ t. value_of t.now) result ≡ field_at self.now name.now }
    {
        let at = self
            .fields
            .binary_search_by(|field| field.name.as_str().cmp(name));
        match at {
            Ok(at) => Some(&self.fields[at].value),
            Err(_) => None,
        }
    }

    #[cycle(copies)]
    pub fn copy(&self, alloc: Global) -> Result<Fields, AllocError>
        ensures { IfOk result (λ fields. fields ≡ self.now) }
    {
        let mut fields = Vec::with_capacity(alloc, self.fields.len())?;
        for field in &self.fields {
            fields.push(field.copy(alloc)?)?;
        }
        Ok(Fields { fields })
    }

    /// The bytes of the names and the sizes of the parts together, or the greatest `u64` where they are more.
    #[cycle(sizes)]
    pub fn size(&self) -> u64
        ensures { result ≡ min (size_of_named (named_of self.now)) u64.MAX }
    {
        let mut size = 0u64;
        for field in &self.fields {
            size = size.saturating_add(field.size());
        }
        size
    }

    #[cycle(sames)]
    pub fn same(&self, other: &Fields) -> bool
        ensures { IsTrue result ↔ (self.now ≡ other.now) }
    {
        if self.fields.len() != other.fields.len() {
            return false;
        }
        for (mine, theirs) in self.fields.iter().zip(&other.fields) {
            if !mine.same(theirs) {
                return false;
            }
        }
        true
    }

    /// The fields in braces, with commas between them.
    #[cycle(writes)]
    pub(crate) fn write(&self, out: &mut Vec<u8>) -> Result<(), AllocError>
        ensures ok { OnOk result (out.new.items ≡ out.old.items ++ in_braces (each_named (named_of self.now))) }
        ensures kept { IsExtended out.old.items out.new.items }
    {
        out.push(b'{')?;
        for (index, field) in self.fields.iter().enumerate() {
            write_separator(index, out)?;
            field.write(out)?;
        }
        out.push(b'}')?;
        Ok(())
    }
}

/// The fields in a list of their own, each under a name.
fn named_fields(alloc: Global, fields: Vec<(Text, Token)>) -> Result<Vec<Field>, FieldsFault>
    ensures ok { IfOk result (λ list. map entry_of list.items ≡ map entry_of_pair fields.items) }
    ensures named { IfOk result (λ list. All (λ f. IsName f.name) list.items) }
    ensures err { IfErr result (FaultStands (map (λ f. f.0) fields.items)) }
{
    let mut list = Vec::with_capacity(alloc, fields.len())?;
    for (name, value) in fields {
        if !is_name(name.as_str().as_bytes()) {
            return Err(FieldsFault::Name(name));
        }
        list.push(Field { name, value }).map_err(AllocError::from)?;
    }
    Ok(list)
}

fn sort_by_name(list: &mut Vec<Field>)
    ensures permutation { IsPermutation list.old.items list.new.items }
    ensures sorted { IsSortedByKey (λ f. f.name) (slice_cmp nat_cmp) list.new.items }
{
    list.sort_unstable_by(|a, b| a.name.cmp(&b.name));
}

/// The place of the first of two neighbours of one name.
fn first_repeated(fields: &[Field]) -> Option<usize>
    ensures some { IfSome result (λ at. (at + 1 < length fields.now) × ((d : Field) → (slice_index_or fields.now at d).name ≡ (slice_index_or fields.now (at + 1) d).name)) }
    ensures none { IfNone result (AllAdjacentBelow (λ e f. ¬ (e.name ≡ f.name)) fields.now (length fields.now)) }
{
    fields
        .windows(2)
        .position(|pair| pair[0].name == pair[1].name)
}
