//! Which rows fit a layout.
ghost use Rattle.std.specs.Prelude.{◌≡◌, length, nat_le, ◌&&◌};
ghost use Rattle.std.specs.List.{list_all};
ghost use Rattle.vast_value.specs.Fit.{fits_columns, fits_column, is_small, is_bounded, is_bounded_element, is_sized, most_parts};

use crate::cell::{Cell, Cells};
use crate::column::Column;
use crate::layout::Layout;
use crate::ranges::ranged;
use crate::row::Row;
use crate::value::Value;

/// The most bytes of a text and the most elements of a container.
pub const MOST_PARTS: usize = 1 << 24;

/// Whether the row has as many cells as the layout has columns, each cell has its column's kind, each text has at most
/// 2^24 bytes and each container at most 2^24 elements.
pub fn fits(layout: &Layout, row: &Row) -> bool
    ensures { result ≡ fits_columns layout.now.columns row.now }
{
    let columns = layout.columns();
    let cells = row.as_slice();
    columns.len() == cells.len() && each_fits(columns, cells)
}

fn each_fits(columns: &[Column], cells: &[Cell]) -> bool
    requires { length columns.now ≡ length cells.now }
    ensures { result ≡ fits_columns columns.now cells.now }
{
    for (at, column) in columns.iter().enumerate() {
        let cell = &cells[at];
        if !fits_column(column, cell) {
            return false;
        }
    }
    true
}

fn fits_column(column: &Column, cell: &Cell) -> bool
    ensures { result ≡ fits_column column.now cell.now }
{
    cell.has_kind(column.kind) && is_small(cell)
}

fn is_small(cell: &Cell) -> bool
    ensures { result ≡ is_small cell.now }
{
    match cell {
        Cell::Unset => true,
        Cell::One(value) => is_bounded(value),
        Cell::Many(items) => are_few(items),
    }
}

fn are_few(items: &Cells) -> bool
    ensures { result ≡ (nat_le (length items.now) most_parts && list_all is_bounded_element items.now) }
{
    is_few(items.as_slice().len()) && each_is_bounded(items.as_slice())
}

fn each_is_bounded(items: &[Option<Value>]) -> bool
    ensures { result ≡ list_all is_bounded_element items.now }
{
    items.iter().all(|item| is_bounded_element(item))
}

fn is_bounded_element(item: &Option<Value>) -> bool
    ensures { result ≡ is_bounded_element item.now }
{
    match item {
        None => true,
        Some(value) => is_bounded(value),
    }
}

/// What a number's type keeps in range needs no test.
#[tactic(auto, using(crate::proofs::RangeLemmas::sized_is_bounded))]
fn is_bounded(value: &Value) -> bool
    ensures { result ≡ is_bounded value.now }
{
    ranged(value);
    is_sized(value)
}

fn is_sized(value: &Value) -> bool
    ensures { result ≡ is_sized value.now }
{
    match value {
        Value::Text(text) | Value::Name(text) => is_few(text.as_slice().len()),
        _ => true,
    }
}

fn is_few(count: usize) -> bool
    ensures { result ≡ nat_le count most_parts }
{
    count <= MOST_PARTS
}
