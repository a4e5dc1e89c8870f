//! The expressions of queries.
ghost use Rattle.std.specs.Prelude.{◌≡◌, IfOk};

use sqlite_items::{Boxed, Items};
use std::alloc::{AllocError, Global};
use vast_value::{Bytes, Elem, Value};

/// The members of an expression.
pub type Exprs = Items<Expr>;

/// A query on one event.
#[derive(Drop)]
pub enum Expr {
    Test(Test),
    Not(Boxed<Expr>),
    /// All members hold. One of no members holds.
    And(Items<Expr>),
    /// Some member holds. One of no members does not.
    Or(Items<Expr>),
}

/// A relation of picked cells to a literal: it holds where some picked cell meets it.
#[derive(Debug, Drop)]
pub struct Test {
    pub pick: Pick,
    pub rel: Rel,
    pub literal: Literal,
}

/// Which cells of an event are tested.
#[derive(Debug, Drop)]
pub enum Pick {
    /// The columns of a kind.
    OfKind(Elem),
    /// The columns where path, dot and column name are this name, or end with a dot and this name.
    Named(Bytes),
    /// The path of the layout, as a text.
    TypeName,
    /// The first cell of kind time, or an unset one.
    EventTime,
}

/// A relation of a cell to a literal.
#[derive(Clone, Copy, Debug, PartialEq, Eq)]
pub enum Rel {
    Eq,
    Ne,
    Lt,
    Le,
    Gt,
    Ge,
    /// The cell lies in the literal: `in`.
    Within,
    /// The cell holds the literal: `ni`.
    Contains,
}

/// What a cell is compared with.
#[derive(Debug, Drop)]
pub enum Literal {
    /// Unset.
    Nil,
    Of(Value),
}

impl Literal {
    /// An equal copy.
    pub fn duplicate(&self, alloc: Global) -> Result<Literal, AllocError>
        ensures { IfOk result (λ copy. copy ≡ self.now) }
    {
        Ok(match self {
            Literal::Nil => Literal::Nil,
            Literal::Of(value) => Literal::Of(value.duplicate(alloc)?),
        })
    }
}
