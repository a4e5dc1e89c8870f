//! Cells: what a row holds in one column.
ghost use Rattle.std.specs.Prelude.{◌≡◌, IfOk};
ghost use Rattle.std.specs.List.{list_all};
ghost use Rattle.vast_value.specs.Kinds.{has_kind, is_element, are_elements, is_lone_unset};

use crate::kind::{Elem, Kind};
use crate::sequence::Seq;
use crate::value::Value;
use std::alloc::{AllocError, Global};

/// The elements of a container. An element `None` is unset.
pub type Cells = Seq<Option<Value>>;

/// What a row holds in one column.
#[derive(Debug, Drop)]
pub enum Cell {
    /// No value is known.
    Unset,
    /// A single value.
    One(Value),
    /// The elements of a set or a vector.
    Many(Cells),
}

impl Cell {
    /// Whether the cell may stand in a column of this kind. An unset cell has every kind, a single value its own, and a
    /// container each container kind whose element kind all its set elements have. A container of exactly one unset
    /// element has no kind.
    pub fn has_kind(&self, kind: Kind) -> bool
        ensures { result ≡ has_kind self.now kind }
    {
        match (self, kind) {
            (Cell::Unset, _) => true,
            (Cell::One(value), Kind::One(elem)) => value.elem().is(elem),
            (Cell::Many(items), Kind::SetOf(elem)) => are_elements(items, elem),
            (Cell::Many(items), Kind::VecOf(elem)) => are_elements(items, elem),
            _ => false,
        }
    }

    /// An equal copy.
    pub fn duplicate(&self, alloc: Global) -> Result<Cell, AllocError>
        ensures { IfOk result (λ copy. copy ≡ self.now) }
    {
        Ok(match self {
            Cell::Unset => Cell::Unset,
            Cell::One(value) => Cell::One(value.duplicate(alloc)?),
            Cell::Many(items) => Cell::Many(items.duplicate(alloc)?),
        })
    }
}

impl Seq<Option<Value>> {
    /// An equal copy.
    pub fn duplicate(&self, alloc: Global) -> Result<Cells, AllocError>
        ensures { IfOk result (λ copy. copy ≡ self.now) }
    {
        let items = self.as_slice();
        let mut copy = Seq::with_capacity(alloc, items.len())?;
        for item in items {
            copy.push(duplicate_element(alloc, item)?)?;
        }
        Ok(copy)
    }
}

fn duplicate_element(alloc: Global, item: &Option<Value>) -> Result<Option<Value>, AllocError>
    ensures { IfOk result (λ copy. copy ≡ item.now) }
{
    match item {
        None => Ok(None),
        Some(value) => Ok(Some(value.duplicate(alloc)?)),
    }
}

fn are_elements(items: &Cells, elem: Elem) -> bool
    ensures { result ≡ are_elements elem items.now }
{
    !is_lone_unset(items) && each_is_element(items, elem)
}

fn each_is_element(items: &Cells, elem: Elem) -> bool
    ensures { result ≡ list_all (is_element elem) items.now }
{
    items.as_slice().iter().all(|item| is_element(item, elem))
}

fn is_element(item: &Option<Value>, elem: Elem) -> bool
    ensures { result ≡ is_element elem item.now }
{
    match item {
        None => true,
        Some(value) => value.elem().is(elem),
    }
}

fn is_lone_unset(items: &Cells) -> bool
    ensures { result ≡ is_lone_unset items.now }
{
    matches!(items.as_slice(), [None])
}
