//! Rows, wherever they are kept.
ghost use Rattle.std.specs.Prelude.{◌≡◌, List, Some, IfOk, IfSome, slice_get};
ghost use Rattle.std.specs.Option.{option_map};
ghost use Rattle.vast_value.specs.declared.cell.Cell.{Cell};
ghost use Rattle.vast_value.specs.declared.cell.Cell.TheVariants.{One};
ghost use Rattle.vast_value.specs.Views.{cell_seen, number_cell};

use crate::cell::Cell;
use crate::sequence::Seq;
use crate::transport::Transport;
use crate::value::Value;
use std::alloc::{AllocError, Global};

/// A cell of a row: one that the row holds, or one that is made of the bytes that it is kept in.
#[derive(Debug, Drop)]
pub enum SeenCell<'a> {
    Held(&'a Cell),
    Made(Cell),
}

impl SeenCell<'_> {
    /// The cell.
    pub fn get(&self) -> &Cell
        ensures { result.now ≡ cell_seen self.now }
    {
        match self {
            SeenCell::Held(cell) => cell,
            SeenCell::Made(cell) => cell,
        }
    }
}

/// A cell that is a number and no more.
#[derive(Clone, Copy, Debug, PartialEq, Eq)]
pub enum PlainNumber {
    Count(u64),
    /// A port of an unknown transport.
    Port(u16),
}

/// A row seen as the list of its cells, wherever it is kept.
pub trait RowView {
    ghost cells: { Self → List Cell };

    /// The cell of a column, counted from 0, if the row has one there.
    fn cell(&self, alloc: Global, column: usize) -> Result<Option<SeenCell<'_>>, AllocError>
        ensures { IfOk result (λ found. option_map cell_seen found ≡ slice_get (cells self.now) column) };

    /// What the cell of a column is, where it is seen to be a plain number without making it. `None` says nothing of it.
    fn plain_number(&self, column: usize) -> Option<PlainNumber>
        ensures { IfSome result (λ number. slice_get (cells self.now) column ≡ Some (number_cell number)) };
}

impl RowView for Seq<Cell> {
    ghost cells = { λ row. row };

    fn cell(&self, _alloc: Global, column: usize) -> Result<Option<SeenCell<'_>>, AllocError> {
        match self.as_slice().get(column) {
            Some(cell) => Ok(Some(SeenCell::Held(cell))),
            None => Ok(None),
        }
    }

    fn plain_number(&self, column: usize) -> Option<PlainNumber> {
        match self.as_slice().get(column) {
            Some(Cell::One(value)) => plain_number(value),
            _ => None,
        }
    }
}

fn plain_number(value: &Value) -> Option<PlainNumber>
    ensures { IfSome result (λ number. number_cell number ≡ One value.now) }
{
    match value {
        Value::Count(n) => Some(PlainNumber::Count(*n)),
        Value::Port {
            number,
            over: Transport::Unknown,
        } => Some(PlainNumber::Port(*number)),
        _ => None,
    }
}
