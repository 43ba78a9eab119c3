ghost use Rattle.std.specs.Prelude.{◌≡◌, ◌++◌, IfOk, OnOk, min};
ghost use Rattle.pt_value.specs.Printed.{IsExtended};
ghost use Rattle.pt_types.specs.Printed.{printed};
ghost use Rattle.pt_datatypes.specs.Datatype.{depth, nodes};
ghost use Rattle.pt_datatypes.specs.Normal.{is_plain, is_proper, normal, array_of, record_of};
ghost use Rattle.pt_datatypes.specs.Order as order;
ghost use Rattle.pt_datatypes.specs.Join as joins;
ghost use Rattle.pt_datatypes.specs.Datatype as datatype;
ghost use Rattle.pt_datatypes.specs.Datatype.{types_of};
ghost use Rattle.pt_types.specs.Ty.{written, type_of};

use crate::element::ElementTy;
use crate::record::RecordTy;
use std::alloc::{AllocError, Global};

/// How deep arrays and records may stand in one another; a deeper type is general.
const DEEPEST: u64 = 8;

/// How many nodes a type may have; a type with more is general.
const MOST_NODES: u64 = 1024;

/// A type of tokens. One that isn't in normal form stands for `General`: with a general part, too deep, or with too many nodes.
#[derive(Drop)]
#[cycle(ty)]
pub enum Ty {
    Unknown,
    Int,
    Boolean,
    Words,
    Array(ElementTy),
    Record(RecordTy),
    General,
}

impl Ty {
    /// The array of a type.
    pub fn array(alloc: Global, element: Ty) -> Result<Ty, AllocError>
        ensures { IfOk result (λ t. written t ≡ array_of (written element)) }
    {
        Ok(Ty::Array(ElementTy::of(alloc, element)?).into_normal())
    }

    /// The record of some fields. It takes no memory.
    pub fn record(fields: RecordTy) -> Ty
        ensures { written result ≡ record_of (types_of fields) }
    {
        Ty::Record(fields).into_normal()
    }

    /// Another type that is written the same.
    #[cycle(copies)]
    pub fn copy(&self, alloc: Global) -> Result<Ty, AllocError>
        ensures { IfOk result (λ t. written t ≡ written self.now) }
    {
        match self {
            Ty::Unknown => Ok(Ty::Unknown),
            Ty::Int => Ok(Ty::Int),
            Ty::Boolean => Ok(Ty::Boolean),
            Ty::Words => Ok(Ty::Words),
            Ty::Array(element) => Ok(Ty::Array(element.copy(alloc)?)),
            Ty::Record(fields) => Ok(Ty::Record(fields.copy(alloc)?)),
            Ty::General => Ok(Ty::General),
        }
    }

    /// How deep arrays and records stand in one another, or the greatest `u64` where it is more.
    #[cycle(depths)]
    pub(crate) fn depth(&self) -> u64
        ensures { result ≡ min (depth (written self.now)) u64.MAX }
    {
        match self {
            Ty::Array(element) => element.depth().saturating_add(1),
            Ty::Record(fields) => fields.depth().saturating_add(1),
            Ty::Unknown | Ty::Int | Ty::Boolean | Ty::Words | Ty::General => 0,
        }
    }

    /// The number of nodes, or the greatest `u64` where they are more.
    #[cycle(node_counts)]
    pub(crate) fn node_count(&self) -> u64
        ensures { result ≡ min (nodes (written self.now)) u64.MAX }
    {
        match self {
            Ty::Array(element) => element.node_count().saturating_add(1),
            Ty::Record(fields) => fields.node_count().saturating_add(1),
            Ty::Unknown | Ty::Int | Ty::Boolean | Ty::Words | Ty::General => 1,
        }
    }

    /// Whether no part is general.
    #[cycle(plains)]
    pub(crate) fn is_plain(&self) -> bool
        ensures { result ≡ is_plain (written self.now) }
    {
        match self {
            Ty::Array(element) => element.is_plain(),
            Ty::Record(fields) => fields.is_plain(),
            Ty::Unknown | Ty::Int | Ty::Boolean | Ty::Words => true,
            Ty::General => false,
        }
    }

    /// Whether it stands for another type than general, which then is the one that is written.
    pub fn is_proper(&self) -> bool
        ensures { result ≡ is_proper (written self.now) }
    {
        match self {
            Ty::Unknown | Ty::Int | Ty::Boolean | Ty::Words => true,
            Ty::General => false,
            Ty::Array(_) | Ty::Record(_) => {
                self.is_plain() && self.depth() <= DEEPEST && self.node_count() <= MOST_NODES
            }
        }
    }

    /// The type that it stands for. It takes no memory.
    pub fn into_normal(self) -> Ty
        ensures { written result ≡ type_of self }
    {
        if self.is_proper() { self } else { Ty::General }
    }

    /// Whether the one is below the other, as they are written.
    #[cycle(belows)]
    pub(crate) fn is_below(&self, other: &Ty) -> bool
        ensures { result ≡ order.is_below (written self.now) (written other.now) }
    {
        match (self, other) {
            (Ty::Unknown, _) | (_, Ty::General) => true,
            (Ty::Int, Ty::Int) | (Ty::Boolean, Ty::Boolean) | (Ty::Words, Ty::Words) => true,
            (Ty::Array(mine), Ty::Array(theirs)) => mine.is_below(theirs),
            (Ty::Record(mine), Ty::Record(theirs)) => mine.are_below(theirs),
            _ => false,
        }
    }

    /// The join part by part, with general where two parts have no other.
    #[cycle(joins)]
    pub(crate) fn joined(&self, alloc: Global, other: &Ty) -> Result<Ty, AllocError>
        ensures { IfOk result (λ t. written t ≡ joins.joined (written self.now) (written other.now)) }
    {
        match (self, other) {
            (Ty::Unknown, _) => other.copy(alloc),
            (_, Ty::Unknown) => self.copy(alloc),
            (Ty::Int, Ty::Int) => Ok(Ty::Int),
            (Ty::Boolean, Ty::Boolean) => Ok(Ty::Boolean),
            (Ty::Words, Ty::Words) => Ok(Ty::Words),
            (Ty::Array(mine), Ty::Array(theirs)) => mine.joined(alloc, theirs).map(Ty::Array),
            (Ty::Record(mine), Ty::Record(theirs)) => joined_records(alloc, mine, theirs),
            _ => Ok(Ty::General),
        }
    }

    /// Puts the text of what is written behind the bytes that are there.
    #[cycle(writes)]
    pub(crate) fn write(&self, out: &mut Vec<u8>) -> Result<(), AllocError>
        ensures ok { OnOk result (out.new.items ≡ out.old.items ++ printed (written self.now)) }
        ensures kept { IsExtended out.old.items out.new.items }
    {
        match self {
            Ty::Unknown => out.extend_from_slice(b"unknown"),
            Ty::Int => out.extend_from_slice(b"int"),
            Ty::Boolean => out.extend_from_slice(b"boolean"),
            Ty::Words => out.extend_from_slice(b"string"),
            Ty::Array(element) => element.write(out),
            Ty::Record(fields) => fields.write(out),
            Ty::General => out.extend_from_slice(b"general"),
        }
    }
}

/// The join of two records part by part: general where the names of their fields differ.
#[cycle(joins)]
fn joined_records(alloc: Global, mine: &RecordTy, theirs: &RecordTy) -> Result<Ty, AllocError>
    ensures { IfOk result (λ t. written t ≡ joins.joined (datatype.Record (types_of mine.now)) (datatype.Record (types_of theirs.now))) }
{
    if mine.same_names(theirs) {
        mine.joined(alloc, theirs).map(Ty::Record)
    } else {
        Ok(Ty::General)
    }
}

/// Whether the one type is below the other.
pub fn below(first: &Ty, second: &Ty) -> bool
    ensures { result ≡ order.is_below (type_of first.now) (type_of second.now) }
{
    !second.is_proper() || (first.is_proper() && first.is_below(second))
}

/// The least type above both.
pub fn join(alloc: Global, first: &Ty, second: &Ty) -> Result<Ty, AllocError>
    ensures { IfOk result (λ t. written t ≡ joins.join (type_of first.now) (type_of second.now)) }
{
    if !first.is_proper() || !second.is_proper() {
        return Ok(Ty::General);
    }
    Ok(first.joined(alloc, second)?.into_normal())
}
