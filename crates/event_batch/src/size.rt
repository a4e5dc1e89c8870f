//! How many bytes a batch takes. A sum past 2^64 - 1 stays there, which no row that fits a layout comes near.
ghost use Rattle.std.specs.Prelude.{◌≡◌, ◌≤◌, ◌-◌, ◌^◌, min, length, IsTrue};
ghost use Rattle.std.specs.List.{flat_map};
ghost use Rattle.vast_value.specs.declared.layout.Layout.{Layout as LayoutOf};
ghost use Rattle.vast_value.specs.Fit.{fits_columns};
ghost use Rattle.vast_value.specs.ValueBytes.{value_bytes};
ghost use Rattle.event_batch.specs.declared.format.Format.TheVariants.{Second};
ghost use Rattle.event_batch.specs.Spelling.{element_bytes, cell_bytes, row_bytes};

use crate::batch::Batch;
use vast_value::{Cell, Row, Value};

/// The memory that a batch's bytes are first written into: for each row as many bytes as the first has, though at most
/// 256. No promise rests on it: one too low costs time.
pub(crate) fn first_size(batch: &Batch) -> usize {
    let row = match batch.rows() {
        [] => 0,
        [row, ..] => row_size(row).min(256) as usize,
    };
    row.saturating_mul(batch.rows().len()).saturating_add(256)
}

/// The number of bytes of the row's cells in format 2. A row that fits a layout has at most 2^57, so the sum for the
/// rows of a batch can stay far below 2^63 where it is bounded as it grows.
pub fn row_size(row: &Row) -> u64
    ensures size { result ≡ min (length (row_bytes Second row.now)) (2 ^ 64 - 1) }
    ensures exact { (layout : LayoutOf) → IsTrue (fits_columns layout.columns row.now) → result ≡ length (row_bytes Second row.now) }
    ensures small { (layout : LayoutOf) → IsTrue (fits_columns layout.columns row.now) → result ≤ 2 ^ 57 }
{
    cells_size(row.as_slice())
}

fn cells_size(cells: &[Cell]) -> u64
    ensures { result ≡ min (length (flat_map (cell_bytes Second) cells.now)) (2 ^ 64 - 1) }
{
    let mut size: u64 = 0;
    for cell in cells {
        size = size.saturating_add(cell_size(cell));
    }
    size
}

#[tactic(auto, using(crate::proofs::SizeLemmas::cell_length))]
fn cell_size(cell: &Cell) -> u64
    ensures { result ≡ min (length (cell_bytes Second cell.now)) (2 ^ 64 - 1) }
{
    match cell {
        Cell::Unset => 1,
        Cell::One(value) => value_size(value).saturating_add(1),
        Cell::Many(items) => elements_size(items.as_slice()).saturating_add(5),
    }
}

fn elements_size(items: &[Option<Value>]) -> u64
    ensures { result ≡ min (length (flat_map (element_bytes Second) items.now)) (2 ^ 64 - 1) }
{
    let mut size: u64 = 0;
    for item in items {
        size = size.saturating_add(element_size(item));
    }
    size
}

fn element_size(item: &Option<Value>) -> u64
    ensures { result ≡ min (length (element_bytes Second item.now)) (2 ^ 64 - 1) }
{
    match item {
        None => 1,
        Some(value) => value_size(value).saturating_add(1),
    }
}

#[tactic(auto, using(crate::proofs::SizeLemmas::value_length))]
fn value_size(value: &Value) -> u64
    ensures { result ≡ min (length (value_bytes value.now)) (2 ^ 64 - 1) }
{
    match value {
        Value::Bool(_) => 1,
        Value::Count(_) | Value::Int(_) | Value::Time(_) | Value::Span(_) => 8,
        Value::Text(text) | Value::Name(text) => (text.as_slice().len() as u64).saturating_add(4),
        Value::Addr(_) => 16,
        Value::Subnet(_) => 17,
        Value::Port { .. } => 3,
    }
}
