//! Building the index of a batch.
ghost use Rattle.std.specs.Prelude.{◌≡◌, ◌<◌, ℕ, List, true, length, map, IfOk, slice_index_or, IsTrue};
ghost use Rattle.std.specs.List.{list_all};
ghost use Rattle.vast_value.specs.Fit.{fits_columns};
ghost use Rattle.vast_value.specs.Headings.{field_of};
ghost use Rattle.column_index.specs.Stands.{Stands};
ghost use Rattle.event_batch.specs.Contents.{content_of};
ghost use Rattle.event_batch.specs.Sizes.{rows_fit};
ghost use Rattle.event_history.specs.Events.{events_of};
ghost use Rattle.partition.specs.Building.{cell_at, has_cell, is_time};
ghost use Rattle.partition.specs.Columns.{place_of, time_among};
ghost use Rattle.partition.specs.Indexes.{IndexStands, place_in, places_of, time_at};
ghost use Rattle.partition.specs.declared.index.PlacedColumn.{PlacedColumn};

use crate::index::{Index, PlacedColumn, Span};
use column_index::ColumnIndex;
use event_batch::Batch;
use query_meaning::is_of;
use std::alloc::{AllocError, Global};
use vast_value::{Bytes, Column, Elem, Kind, Layout, Row};

impl Index {
    /// The index of a batch's events: a column for each of its layout's, and one span.
    pub(crate) fn of_batch(alloc: Global, batch: &Batch) -> Result<Index, AllocError>
        ensures { IfOk result (λ index. IndexStands index (events_of (content_of batch.now))) }
    {
        let layout = batch.layout();
        let columns = columns_of(alloc, layout, batch.rows())?;
        let rows = batch.rows().len() as u64;
        let path = Bytes::copy(alloc, layout.path())?;
        let time = time_column(layout.columns());
        let mut spans = Vec::new(alloc);
        spans.push(Span { path, time, rows })?;
        Ok(Index {
            rows,
            columns,
            spans,
        })
    }
}

/// The first column of kind time.
fn time_column(columns: &[Column]) -> Option<usize>
    ensures { (path : List ℕ) → time_among path (map field_of columns.now) ≡ time_at (map (place_of path) (map field_of columns.now)) result }
{
    for at in 0..columns.len() {
        if is_of(Elem::Time, columns[at].kind) {
            return Some(at);
        }
    }
    None
}

/// A column for each of the layout's, in order.
fn columns_of(alloc: Global, layout: &Layout, rows: &[Row]) -> Result<Vec<PlacedColumn>, AllocError>
    requires { IsTrue (rows_fit layout.now rows.now) }
    ensures places { IfOk result (λ columns. places_of columns.items ≡ map (place_of layout.now.path) (map field_of layout.now.columns)) }
    ensures cells { IfOk result (λ columns. (i : ℕ) (c : PlacedColumn) → i < length columns.items → c ≡ slice_index_or columns.items i c → Stands c.column (map (cell_at i) rows.now)) }
{
    let all = layout.columns();
    let mut columns = Vec::with_capacity(alloc, all.len())?;
    for at in 0..all.len() {
        let column = placed_column(alloc, layout, &all[at], rows, at)?;
        columns.push(column)?;
    }
    Ok(columns)
}

/// The column at a place of the layout.
fn placed_column(
    alloc: Global,
    layout: &Layout,
    column: &Column,
    rows: &[Row],
    at: usize,
) -> Result<PlacedColumn, AllocError>
    requires there { at < length layout.now.columns }
    requires column { column.now ≡ slice_index_or layout.now.columns at column.now }
    requires fit { IsTrue (rows_fit layout.now rows.now) }
    ensures place { IfOk result (λ c. place_in c ≡ place_of layout.now.path (field_of column.now)) }
    ensures cells { IfOk result (λ c. Stands c.column (map (cell_at at) rows.now)) }
{
    let index = column_of(alloc, column.kind, rows, at)?;
    let path = Bytes::copy(alloc, layout.path())?;
    let name = Bytes::copy(alloc, column.name.as_slice())?;
    Ok(PlacedColumn {
        path,
        name,
        column: index,
    })
}

/// The index of one column of the rows.
fn column_of(alloc: Global, kind: Kind, rows: &[Row], at: usize) -> Result<ColumnIndex, AllocError>
    requires { IsTrue (list_all (has_cell kind at) rows.now) }
    ensures kind { IfOk result (λ index. index.kind ≡ kind) }
    ensures cells { IfOk result (λ index. Stands index (map (cell_at at) rows.now)) }
{
    let mut index = ColumnIndex::new(alloc, kind)?;
    for row in 0..rows.len() {
        let cells = rows[row].as_slice();
        match index.put(row as u64, &cells[at]) {
            Ok(()) => {}
            Err(_) => return Err(AllocError),
        }
    }
    Ok(index)
}
