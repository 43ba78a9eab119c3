ghost use Rattle.std.specs.Prelude.{◌≡◌, ◌++◌, IfOk, OnOk, codes, min};
ghost use Rattle.pt_value.specs.Printed.{IsExtended};
ghost use Rattle.pt_types.specs.Printed.{printed};
ghost use Rattle.pt_datatypes.specs.Datatype.{depth, nodes};
ghost use Rattle.pt_datatypes.specs.Normal.{is_plain};
ghost use Rattle.pt_datatypes.specs.Order as order;
ghost use Rattle.pt_datatypes.specs.Join as joins;
ghost use Rattle.pt_types.specs.Ty.{written};

use crate::ty::Ty;
use std::alloc::{AllocError, Global};
use std::marker::Model;

/// The type of the elements of an array.
#[derive(Drop)]
#[cycle(ty)]
pub struct ElementTy {
    ty: Box<Ty>,
}

impl Model for ElementTy {
    ghost use Rattle.pt_datatypes.specs.Datatype as datatype;
    ghost use Rattle.pt_datatypes.specs.DatatypeCode.{coded_type};

    ghost Value = { datatype.Datatype };

    ghost coded = { coded_type };

    ghost use Rattle.pt_types.specs.Ty.{written};

    ghost view = { λ x. written x.ty.value };

    ghost size = { datatype.depth };

    ghost use Rattle.pt_types.specs.TyHeight.{deep_element_le-depth};

    ghost size_decreases = { λ a h. deep_element_le-depth a.ty.value };
}

impl ElementTy {
    pub fn of(alloc: Global, ty: Ty) -> Result<ElementTy, AllocError>
        ensures { IfOk result (λ element. element ≡ written ty) }
    {
        Ok(ElementTy {
            ty: Box::new(alloc, ty)?,
        })
    }

    pub fn get(&self) -> &Ty
        ensures { written result.now ≡ self.now }
    {
        &self.ty
    }

    #[cycle(copies)]
    pub(crate) fn copy(&self, alloc: Global) -> Result<ElementTy, AllocError>
        ensures { IfOk result (λ element. element ≡ self.now) }
    {
        ElementTy::of(alloc, self.ty.copy(alloc)?)
    }

    #[cycle(depths)]
    pub(crate) fn depth(&self) -> u64
        ensures { result ≡ min (depth self.now) u64.MAX }
    {
        self.ty.depth()
    }

    #[cycle(node_counts)]
    pub(crate) fn node_count(&self) -> u64
        ensures { result ≡ min (nodes self.now) u64.MAX }
    {
        self.ty.node_count()
    }

    #[cycle(plains)]
    pub(crate) fn is_plain(&self) -> bool
        ensures { result ≡ is_plain self.now }
    {
        self.ty.is_plain()
    }

    #[cycle(belows)]
    pub(crate) fn is_below(&self, other: &ElementTy) -> bool
        ensures { result ≡ order.is_below self.now other.now }
    {
        self.ty.is_below(&other.ty)
    }

    #[cycle(joins)]
    pub(crate) fn joined(&self, alloc: Global, other: &ElementTy) -> Result<ElementTy, AllocError>
        ensures { IfOk result (λ element. element ≡ joins.joined self.now other.now) }
    {
        ElementTy::of(alloc, self.ty.joined(alloc, &other.ty)?)
    }

    #[cycle(writes)]
    pub(crate) fn write(&self, out: &mut Vec<u8>) -> Result<(), AllocError>
        ensures ok { OnOk result (out.new.items ≡ out.old.items ++ (codes "arrayType(" ++ (printed self.now ++ codes ")"))) }
        ensures kept { IsExtended out.old.items out.new.items }
    {
        out.extend_from_slice(b"arrayType(")?;
        self.ty.write(out)?;
        out.push(b')')?;
        Ok(())
    }
}
