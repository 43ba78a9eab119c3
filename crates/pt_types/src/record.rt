ghost use Rattle.std.specs.Prelude.{◌≡◌, ◌+◌, ◌<◌, ◌++◌, All, IfErr, IfNone, IfOk, IfSome, IsPermutation, IsSortedByKey, IsTrue, OnOk, length, map, min, slice_index_or};
ghost use Rattle.std.specs.List.{AllAdjacentBelow};
ghost use Rattle.std.specs.Ordering.{nat_cmp};
ghost use Rattle.std.specs.Cmp.Lexicographic.{slice_cmp};
ghost use Rattle.pt_value.specs.Name.{IsName};
ghost use Rattle.pt_value.specs.FieldsFault.{FaultStands};
ghost use Rattle.pt_value.specs.Printed.{IsExtended, in_braces};
ghost use Rattle.pt_types.specs.Printed.{each_named, printed_field};
ghost use Rattle.pt_datatypes.specs.Datatype.{types_of, depth_of_fields, nodes_of_fields};
ghost use Rattle.pt_datatypes.specs.Normal.{are_plain};
ghost use Rattle.pt_datatypes.specs.Order as order;
ghost use Rattle.pt_datatypes.specs.Join as joins;
ghost use Rattle.pt_types.specs.Ty.{entry_of, entry_of_pair, written};
ghost use Rattle.pt_datatypes.specs.RecordType.{IsRecordType};

use crate::printed::write_separator;
use crate::ty::Ty;
use pt_value::{FieldsFault, Text, is_name};
use std::alloc::{AllocError, Global};
use std::marker::Model;

/// A field of a record type.
#[derive(Drop)]
#[cycle(ty)]
pub struct FieldTy {
    pub name: Text,
    pub ty: Ty,
}

impl FieldTy {
    #[cycle(copies)]
    fn copy(&self, alloc: Global) -> Result<FieldTy, AllocError>
        ensures { IfOk result (λ field. entry_of field ≡ entry_of self.now) }
    {
        Ok(FieldTy {
            name: self.name.copy(alloc)?,
            ty: self.ty.copy(alloc)?,
        })
    }

    /// The field of the same name whose type is the join of both types.
    #[cycle(joins)]
    fn joined(&self, alloc: Global, other: &FieldTy) -> Result<FieldTy, AllocError>
        ensures { IfOk result (λ field. entry_of field ≡ (self.now.name, joins.joined (written self.now.ty) (written other.now.ty))) }
    {
        let name = self.name.copy(alloc)?;
        let ty = self.ty.joined(alloc, &other.ty)?;
        Ok(FieldTy { name, ty })
    }

    #[cycle(writes)]
    fn write(&self, out: &mut Vec<u8>) -> Result<(), AllocError>
        ensures ok { OnOk result (out.new.items ≡ out.old.items ++ printed_field self.now.name (written self.now.ty)) }
        ensures kept { IsExtended out.old.items out.new.items }
    {
        out.extend_from_slice(self.name.as_str().as_bytes())?;
        out.extend_from_slice(b" = ")?;
        self.ty.write(out)
    }
}

/// The fields of a record type, which a contract sees as the list of their names and types.
#[derive(Drop)]
#[cycle(ty)]
pub struct RecordTy {
    fields: Vec<FieldTy>,
}

impl Model for RecordTy {
    ghost use Rattle.std.specs.Prelude.{List, map, ℕ};
    ghost use Rattle.std.specs.Coded.{coded_list, coded_ℕ, coded×};
    ghost use Rattle.pt_datatypes.specs.Datatype as datatype;
    ghost use Rattle.pt_datatypes.specs.DatatypeCode.{coded_type};

    ghost Value = { List (List ℕ × datatype.Datatype) };

    ghost coded = { coded_list (coded× (coded_list coded_ℕ) coded_type) };

    ghost use Rattle.pt_types.specs.Ty.{entry_of};

    ghost view = { λ x. map entry_of x.fields.items };

    ghost use Rattle.pt_datatypes.specs.RecordType.{IsRecordType};

    ghost invariant = { λ x. IsRecordType (map entry_of x.fields.items) };

    ghost size = { λ fs. datatype.depth_of_fields (datatype.types_of fs) };

    ghost use Rattle.pt_types.specs.TyHeight.{most_le-depth};

    ghost size_decreases = { λ a h. most_le-depth a.fields.items };
}

impl RecordTy {
    /// The record of these types, sorted by name. A text that is no name is told before a name that is repeated.
    pub fn of(alloc: Global, fields: Vec<(Text, Ty)>) -> Result<RecordTy, FieldsFault>
        ensures ok { IfOk result (λ fs. IsPermutation (map entry_of_pair fields.items) fs) }
        ensures lawful { IfOk result IsRecordType }
        ensures err { IfErr result (FaultStands (map (λ f. f.0) fields.items)) }
    {
        if fields.is_empty() {
            return Err(FieldsFault::Empty);
        }
        let mut list = named_fields(alloc, fields)?;
        sort_by_name(&mut list);
        match first_repeated(&list) {
            Some(at) => Err(FieldsFault::Repeated(list.swap_remove(at).name)),
            None => Ok(RecordTy { fields: list }),
        }
    }

    /// The record of fields that stand in order. It takes no memory.
    pub(crate) fn sorted(fields: Vec<FieldTy>) -> RecordTy
        requires { IsRecordType (map entry_of fields.items) }
        ensures { result ≡ map entry_of fields.items }
    {
        RecordTy { fields }
    }

    pub fn as_slice(&self) -> &[FieldTy]
        ensures fields { map entry_of result.now ≡ self.now }
        ensures lawful { IsRecordType self.now }
    {
        self.fields.as_slice()
    }

    #[cycle(copies)]
    pub(crate) fn copy(&self, alloc: Global) -> Result<RecordTy, AllocError>
        ensures { IfOk result (λ fields. fields ≡ self.now) }
    {
        let mut fields = Vec::with_capacity(alloc, self.fields.len())?;
        for field in &self.fields {
            fields.push(field.copy(alloc)?)?;
        }
        Ok(RecordTy { fields })
    }

    #[cycle(depths)]
    pub(crate) fn depth(&self) -> u64
        ensures { result ≡ min (depth_of_fields (types_of self.now)) u64.MAX }
    {
        let mut deep = 0u64;
        for field in &self.fields {
            deep = deep.max(field.ty.depth());
        }
        deep
    }

    #[cycle(node_counts)]
    pub(crate) fn node_count(&self) -> u64
        ensures { result ≡ min (nodes_of_fields (types_of self.now)) u64.MAX }
    {
        let mut count = 0u64;
        for field in &self.fields {
            count = count.saturating_add(field.ty.node_count());
        }
        count
    }

    #[cycle(plains)]
    pub(crate) fn is_plain(&self) -> bool
        ensures { result ≡ are_plain (types_of self.now) }
    {
        for field in &self.fields {
            if !field.ty.is_plain() {
                return false;
            }
        }
        true
    }

    pub(crate) fn same_names(&self, other: &RecordTy) -> bool
        ensures { result ≡ joins.same_names (types_of self.now) (types_of other.now) }
    {
        if self.fields.len() != other.fields.len() {
            return false;
        }
        for index in 0..self.fields.len() {
            if self.fields[index].name != other.fields[index].name {
                return false;
            }
        }
        true
    }

    #[cycle(belows)]
    pub(crate) fn are_below(&self, other: &RecordTy) -> bool
        ensures { result ≡ order.are_below (types_of self.now) (types_of other.now) }
    {
        if self.fields.len() != other.fields.len() {
            return false;
        }
        for index in 0..self.fields.len() {
            let mine = &self.fields[index];
            let theirs = &other.fields[index];
            if mine.name != theirs.name || !mine.ty.is_below(&theirs.ty) {
                return false;
            }
        }
        true
    }

    /// The joins of fields of the same names.
    #[cycle(joins)]
    pub(crate) fn joined(&self, alloc: Global, other: &RecordTy) -> Result<RecordTy, AllocError>
        requires { IsTrue (joins.same_names (types_of self.now) (types_of other.now)) }
        ensures { IfOk result (λ fields. types_of fields ≡ joins.joined_fields (types_of self.now) (types_of other.now)) }
    {
        let mut fields = Vec::with_capacity(alloc, self.fields.len())?;
        for index in 0..self.fields.len() {
            let field = self.fields[index].joined(alloc, &other.fields[index])?;
            fields.push(field)?;
        }
        Ok(RecordTy { fields })
    }

    /// The fields in braces, with commas between them.
    #[cycle(writes)]
    pub(crate) fn write(&self, out: &mut Vec<u8>) -> Result<(), AllocError>
        ensures ok { OnOk result (out.new.items ≡ out.old.items ++ in_braces (each_named (types_of self.now))) }
        ensures kept { IsExtended out.old.items out.new.items }
    {
        out.push(b'{')?;
        for (index, field) in self.fields.iter().enumerate() {
            write_separator(index, out)?;
            field.write(out)?;
        }
        out.push(b'}')?;
        Ok(())
    }
}

/// The fields in a list of their own, each under a name.
fn named_fields(alloc: Global, fields: Vec<(Text, Ty)>) -> Result<Vec<FieldTy>, FieldsFault>
    ensures ok { IfOk result (λ list. map entry_of list.items ≡ map entry_of_pair fields.items) }
    ensures named { IfOk result (λ list. All (λ f. IsName f.name) list.items) }
    ensures err { IfErr result (FaultStands (map (λ f. f.0) fields.items)) }
{
    let mut list = Vec::with_capacity(alloc, fields.len())?;
    for (name, ty) in fields {
        if !is_name(name.as_str().as_bytes()) {
            return Err(FieldsFault::Name(name));
        }
        list.push(FieldTy { name, ty }).map_err(AllocError::from)?;
    }
    Ok(list)
}

fn sort_by_name(list: &mut Vec<FieldTy>)
    ensures permutation { IsPermutation list.old.items list.new.items }
    ensures sorted { IsSortedByKey (λ f. f.name) (slice_cmp nat_cmp) list.new.items }
{
    list.sort_unstable_by(|a, b| a.name.cmp(&b.name));
}

/// The place of the first of two neighbours of one name.
fn first_repeated(fields: &[FieldTy]) -> Option<usize>
    ensures some { IfSome result (λ at. (at + 1 < length fields.now) × ((d : FieldTy) → (slice_index_or fields.now at d).name ≡ (slice_index_or fields.now (at + 1) d).name)) }
    ensures none { IfNone result (AllAdjacentBelow (λ e f. ¬ (e.name ≡ f.name)) fields.now (length fields.now)) }
{
    fields
        .windows(2)
        .position(|pair| pair[0].name == pair[1].name)
}
