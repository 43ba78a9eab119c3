ghost use Rattle.std.specs.Prelude.{◌≡◌, ◌↔◌, IsTrue, IfOk, map, length};
ghost use Rattle.pt_language.specs.Expr.{tree_of, entry_of, trees_in, fields_in};

use crate::expr::Expr;
use pt_value::Text;
use std::alloc::{AllocError, Global};

/// The parts of an array literal, which a contract sees as the list of their trees.
#[derive(Drop)]
#[cycle(tree)]
pub struct Exprs {
    parts: Vec<Expr>,
}

impl Exprs {
    /// The list of these trees. It takes no memory.
    pub fn of(parts: Vec<Expr>) -> Exprs
        ensures { trees_in result ≡ map tree_of parts.items }
    {
        Exprs { parts }
    }

    pub fn len(&self) -> usize
        ensures { result ≡ length (trees_in self.now) }
    {
        self.parts.len()
    }

    pub fn is_empty(&self) -> bool
        ensures { IsTrue result ↔ (length (trees_in self.now) ≡ 0) }
    {
        self.parts.is_empty()
    }

    pub fn as_slice(&self) -> &[Expr]
        ensures { map tree_of result.now ≡ trees_in self.now }
    {
        self.parts.as_slice()
    }

    #[cycle(copies)]
    pub fn copy(&self, alloc: Global) -> Result<Exprs, AllocError>
        ensures { IfOk result (λ copy. trees_in copy ≡ trees_in self.now) }
    {
        let mut parts = Vec::with_capacity(alloc, self.parts.len())?;
        for part in &self.parts {
            parts.push(part.copy(alloc)?)?;
        }
        Ok(Exprs { parts })
    }
}

/// A field of a record literal.
#[derive(Drop)]
#[cycle(tree)]
pub struct NamedExpr {
    pub name: Text,
    pub value: Expr,
}

impl NamedExpr {
    #[cycle(copies)]
    pub fn copy(&self, alloc: Global) -> Result<NamedExpr, AllocError>
        ensures { IfOk result (λ field. entry_of field ≡ entry_of self.now) }
    {
        Ok(NamedExpr {
            name: self.name.copy(alloc)?,
            value: self.value.copy(alloc)?,
        })
    }
}

/// The fields of a record literal in the order in which they are written, which a contract sees as the list of their names and trees.
#[derive(Drop)]
#[cycle(tree)]
pub struct NamedExprs {
    fields: Vec<NamedExpr>,
}

impl NamedExprs {
    /// The list of these fields. It takes no memory.
    pub fn of(fields: Vec<NamedExpr>) -> NamedExprs
        ensures { fields_in result ≡ map entry_of fields.items }
    {
        NamedExprs { fields }
    }

    pub fn len(&self) -> usize
        ensures { result ≡ length (fields_in self.now) }
    {
        self.fields.len()
    }

    pub fn is_empty(&self) -> bool
        ensures { IsTrue result ↔ (length (fields_in self.now) ≡ 0) }
    {
        self.fields.is_empty()
    }

    pub fn as_slice(&self) -> &[NamedExpr]
        ensures { map entry_of result.now ≡ fields_in self.now }
    {
        self.fields.as_slice()
    }

    #[cycle(copies)]
    pub fn copy(&self, alloc: Global) -> Result<NamedExprs, AllocError>
        ensures { IfOk result (λ copy. fields_in copy ≡ fields_in self.now) }
    {
        let mut fields = Vec::with_capacity(alloc, self.fields.len())?;
        for field in &self.fields {
            fields.push(field.copy(alloc)?)?;
        }
        Ok(NamedExprs { fields })
    }
}
