ghost use Rattle.std.specs.Prelude.{◌≡◌, IfOk};
ghost use Rattle.pt_language.specs.Expr.{tree_of};

use crate::exprs::{Exprs, NamedExprs};
use pt_value::Text;
use std::alloc::{AllocError, Global};

/// An operator between two operands, from the one that binds least.
#[derive(Clone, Copy, Debug, PartialEq, Eq)]
pub enum BinaryOp {
    Or,
    And,
    Equal,
    Unequal,
    Less,
    LessEqual,
    Greater,
    GreaterEqual,
    Add,
    Subtract,
    Multiply,
    Divide,
    Remainder,
}

/// An expression as a tree, in which parentheses leave no node.
#[derive(Drop)]
#[cycle(tree)]
pub enum Expr {
    /// An integer literal.
    Int(i64),
    /// A truth value.
    Bool(bool),
    /// A text literal, without its quotes and escapes.
    Words(Text),
    /// The name of a port, a parameter or a Variable.
    Name(Text),
    /// The parts of an array literal.
    List(Exprs),
    /// The fields of a record literal, in the order in which they are written.
    Record(NamedExprs),
    /// Unary `-`.
    Negate(Box<Expr>),
    /// Unary `!`.
    Not(Box<Expr>),
    Binary(BinaryOp, Box<Expr>, Box<Expr>),
    /// `a ? b : c`.
    Cond(Box<Expr>, Box<Expr>, Box<Expr>),
    Abs(Box<Expr>),
    Max(Box<Expr>, Box<Expr>),
    Min(Box<Expr>, Box<Expr>),
    /// `a(i)`.
    Apply(Box<Expr>, Box<Expr>),
    /// `r.x`.
    Field(Box<Expr>, Text),
    /// `e.length()`.
    Length(Box<Expr>),
}

impl Expr {
    /// Another expression of the same tree.
    #[cycle(copies)]
    #[tactic(auto, using(crate::specs::Parts::tree_of_array, crate::specs::Parts::tree_of_record))]
    pub fn copy(&self, alloc: Global) -> Result<Expr, AllocError>
        ensures { IfOk result (λ copy. tree_of copy ≡ tree_of self.now) }
    {
        match self {
            Expr::Int(n) => Ok(Expr::Int(*n)),
            Expr::Bool(b) => Ok(Expr::Bool(*b)),
            Expr::Words(text) => text.copy(alloc).map(Expr::Words),
            Expr::Name(name) => name.copy(alloc).map(Expr::Name),
            Expr::List(parts) => parts.copy(alloc).map(Expr::List),
            Expr::Record(fields) => fields.copy(alloc).map(Expr::Record),
            Expr::Negate(e) => e.boxed_copy(alloc).map(Expr::Negate),
            Expr::Not(e) => e.boxed_copy(alloc).map(Expr::Not),
            Expr::Binary(op, a, b) => Ok(Expr::Binary(
                *op,
                a.boxed_copy(alloc)?,
                b.boxed_copy(alloc)?,
            )),
            Expr::Cond(test, yes, no) => Ok(Expr::Cond(
                test.boxed_copy(alloc)?,
                yes.boxed_copy(alloc)?,
                no.boxed_copy(alloc)?,
            )),
            Expr::Abs(e) => e.boxed_copy(alloc).map(Expr::Abs),
            Expr::Max(a, b) => Ok(Expr::Max(a.boxed_copy(alloc)?, b.boxed_copy(alloc)?)),
            Expr::Min(a, b) => Ok(Expr::Min(a.boxed_copy(alloc)?, b.boxed_copy(alloc)?)),
            Expr::Apply(a, b) => Ok(Expr::Apply(a.boxed_copy(alloc)?, b.boxed_copy(alloc)?)),
            Expr::Field(e, name) => Ok(Expr::Field(e.boxed_copy(alloc)?, name.copy(alloc)?)),
            Expr::Length(e) => e.boxed_copy(alloc).map(Expr::Length),
        }
    }

    #[cycle(copies)]
    fn boxed_copy(&self, alloc: Global) -> Result<Box<Expr>, AllocError>
        ensures { IfOk result (λ copy. tree_of copy.value ≡ tree_of self.now) }
    {
        Ok(Box::new(alloc, self.copy(alloc)?)?)
    }
}
