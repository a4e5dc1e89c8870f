//! Merging the indexes of adjacent batches, column by column.
ghost use Rattle.std.specs.Prelude.{◌≡◌, ◌<◌, ◌≤◌, ◌++◌, false, true, List, Option, None, Some, length, map, replicate, slice_get, IfOk, MatchOption, OnOk};
ghost use Rattle.std.specs.Arc.{arc_value};
ghost use Rattle.std.specs.List.{list_all, list_any};
ghost use Rattle.bits_law.specs.Keys.{with_gap};
ghost use Rattle.vast_value.specs.declared.cell.Cell.{Cell};
ghost use Rattle.column_index.specs.Stands.{Stands};
ghost use Rattle.event_history.specs.Events.{Event};
ghost use Rattle.partition.specs.Columns.{column_cells, is_covered, same_kind, same_place};
ghost use Rattle.partition.specs.Indexes.{EachColumn, IndexStands, AreSpans, is_sound, place_in, places_of, time_at};
ghost use Rattle.partition.specs.Merged.{Added, IsWithin, Retimed, all_events};

use crate::fragment::Fragment;
use crate::index::{Index, PlacedColumn, Span};
use bits_law::BitsEnd;
use column_index::ColumnIndex;
use std::alloc::{AllocError, Global};
use std::sync::Arc;
use vast_value::Kind;

impl Index {
    /// The index of the events of fragments, one behind the other.
    pub(crate) fn merged(alloc: Global, fragments: &[Arc<Fragment>]) -> Result<Index, AllocError>
        ensures { IfOk result (λ index. IndexStands index (all_events (map arc_value fragments.now))) }
    {
        let columns = merged_columns(alloc, fragments)?;
        let spans = merged_spans(alloc, fragments, &columns)?;
        let rows = all_rows(fragments)?;
        Ok(Index {
            rows,
            columns,
            spans,
        })
    }
}

/// How many events the fragments have.
fn all_rows(fragments: &[Arc<Fragment>]) -> Result<u64, AllocError>
    ensures { IfOk result (λ rows. rows ≡ length (all_events (map arc_value fragments.now))) }
{
    let mut rows: u64 = 0;
    for fragment in fragments {
        rows = match rows.checked_add(fragment.rows()) {
            Some(more) => more,
            None => return Err(AllocError),
        };
    }
    Ok(rows)
}

/// A column for each place that some fragment has, over all events.
fn merged_columns(
    alloc: Global,
    fragments: &[Arc<Fragment>],
) -> Result<Vec<PlacedColumn>, AllocError>
    ensures cells { IfOk result (λ columns. EachColumn columns.items (all_events (map arc_value fragments.now))) }
    ensures covers { IfOk result (λ columns. list_all (is_covered (places_of columns.items)) (all_events (map arc_value fragments.now)) ≡ true) }
{
    let mut columns = Vec::new(alloc);
    for fragment in fragments {
        add_columns(alloc, fragments, &mut columns, fragment.index())?;
    }
    Ok(columns)
}

/// Adds the columns of an index that aren't there yet, each over the events of all fragments.
fn add_columns(
    alloc: Global,
    fragments: &[Arc<Fragment>],
    columns: &mut Vec<PlacedColumn>,
    index: &Index,
) -> Result<(), AllocError>
    ensures cells { OnOk result (EachColumn columns.old.items (all_events (map arc_value fragments.now)) → EachColumn columns.new.items (all_events (map arc_value fragments.now))) }
    ensures keeps { OnOk result (IsWithin (places_of columns.old.items) (places_of columns.new.items)) }
    ensures adds { OnOk result (IsWithin (places_of index.now.columns.items) (places_of columns.new.items)) }
{
    for column in &index.columns {
        add_column(alloc, fragments, columns, column)?;
    }
    Ok(())
}

/// Adds a column of this place, unless there is one.
fn add_column(
    alloc: Global,
    fragments: &[Arc<Fragment>],
    columns: &mut Vec<PlacedColumn>,
    like: &PlacedColumn,
) -> Result<(), AllocError>
    ensures cells { OnOk result (EachColumn columns.old.items (all_events (map arc_value fragments.now)) → EachColumn columns.new.items (all_events (map arc_value fragments.now))) }
    ensures keeps { OnOk result (IsWithin (places_of columns.old.items) (places_of columns.new.items)) }
    ensures adds { OnOk result (list_any (same_place (place_in like.now)) (places_of columns.new.items) ≡ true) }
{
    match position(columns, like) {
        Some(_) => Ok(()),
        None => {
            let merged = merged_column(alloc, fragments, like)?;
            columns.push(merged)?;
            Ok(())
        }
    }
}

/// The place of the first column of the same layout's path, name and kind.
fn position(columns: &[PlacedColumn], like: &PlacedColumn) -> Option<usize>
    ensures { MatchOption result (list_any (same_place (place_in like.now)) (map place_in columns.now) ≡ false) (λ at. (at < length columns.now) × (slice_get (map place_in columns.now) at ≡ Some (place_in like.now))) }
{
    for at in 0..columns.len() {
        if same_place(like, &columns[at]) {
            return Some(at);
        }
    }
    None
}

fn same_place(one: &PlacedColumn, other: &PlacedColumn) -> bool
    ensures { result ≡ same_place (place_in one.now) (place_in other.now) }
{
    one.path.as_slice() == other.path.as_slice()
        && one.name.as_slice() == other.name.as_slice()
        && same_kind(one.column.kind(), other.column.kind())
}

fn same_kind(one: Kind, other: Kind) -> bool
    ensures { result ≡ same_kind one other }
{
    match (one, other) {
        (Kind::One(e), Kind::One(f)) => e.is(f),
        (Kind::SetOf(e), Kind::SetOf(f)) => e.is(f),
        (Kind::VecOf(e), Kind::VecOf(f)) => e.is(f),
        _ => false,
    }
}

/// The column of this place, over the events of all fragments.
fn merged_column(
    alloc: Global,
    fragments: &[Arc<Fragment>],
    like: &PlacedColumn,
) -> Result<PlacedColumn, AllocError>
    ensures place { IfOk result (λ c. place_in c ≡ place_in like.now) }
    ensures cells { IfOk result (λ c. Stands c.column (column_cells (place_in like.now) (all_events (map arc_value fragments.now)))) }
{
    let column = joined_column(alloc, fragments, like)?;
    let path = like.path.duplicate(alloc)?;
    let name = like.name.duplicate(alloc)?;
    Ok(PlacedColumn { path, name, column })
}

fn joined_column(
    alloc: Global,
    fragments: &[Arc<Fragment>],
    like: &PlacedColumn,
) -> Result<ColumnIndex, AllocError>
    ensures kind { IfOk result (λ c. c.kind ≡ like.now.column.kind) }
    ensures cells { IfOk result (λ c. Stands c (column_cells (place_in like.now) (all_events (map arc_value fragments.now)))) }
{
    let mut column = ColumnIndex::new(alloc, like.column.kind())?;
    for fragment in fragments {
        column = behind(column, like, fragment.index())?;
    }
    Ok(column)
}

/// A column with an index's events behind, which have gaps where the index has no such column.
fn behind(
    column: ColumnIndex,
    like: &PlacedColumn,
    index: &Index,
) -> Result<ColumnIndex, AllocError>
    requires { column.kind ≡ like.now.column.kind }
    ensures kind { IfOk result (λ c. c.kind ≡ column.kind) }
    ensures cells { IfOk result (λ c. (events more : List Event) → IndexStands index.now more → Stands column (column_cells (place_in like.now) events) → Stands c (column_cells (place_in like.now) (events ++ more))) }
{
    match position(&index.columns, like) {
        Some(at) => {
            let grown = appended(column, &index.columns[at].column)?;
            Ok(grown)
        }
        None => {
            let grown = widened(column, index.rows)?;
            Ok(grown)
        }
    }
}

fn appended(column: ColumnIndex, other: &ColumnIndex) -> Result<ColumnIndex, AllocError>
    requires { other.now.kind ≡ column.kind }
    ensures kind { IfOk result (λ c. c.kind ≡ column.kind) }
    ensures cells { IfOk result (λ c. (cells more : List (Option Cell)) → Stands column cells → Stands other.now more → Stands c (cells ++ more)) }
{
    match column.append(other) {
        Ok(column) => Ok(column),
        Err(_) => Err(AllocError),
    }
}

/// A column with so many rows more, which are gaps. More than 2^40 rows are refused as want of memory.
fn widened(column: ColumnIndex, rows: u64) -> Result<ColumnIndex, AllocError>
    ensures kind { IfOk result (λ c. c.kind ≡ column.kind) }
    ensures cells { IfOk result (λ c. (cells : List (Option Cell)) → Stands column cells → Stands c (cells ++ replicate rows None)) }
{
    match column.rows().checked_add(rows) {
        Some(all) => {
            let grown = padded(column, all)?;
            Ok(grown)
        }
        None => Err(AllocError),
    }
}

fn padded(column: ColumnIndex, rows: u64) -> Result<ColumnIndex, AllocError>
    requires { length column.has ≤ rows }
    ensures kind { IfOk result (λ c. c.kind ≡ column.kind) }
    ensures cells { IfOk result (λ c. (cells : List (Option Cell)) → Stands column cells → Stands c (with_gap cells rows)) }
{
    match column.pad(rows) {
        Ok(column) => Ok(column),
        Err(_) => Err(AllocError),
    }
}

/// The spans of the fragments, one behind the other, with the places of their times among these columns.
fn merged_spans(
    alloc: Global,
    fragments: &[Arc<Fragment>],
    columns: &[PlacedColumn],
) -> Result<Vec<Span>, AllocError>
    requires { list_all (is_covered (map place_in columns.now)) (all_events (map arc_value fragments.now)) ≡ true }
    ensures spans { IfOk result (λ spans. AreSpans (map place_in columns.now) spans.items (all_events (map arc_value fragments.now))) }
    ensures sound { IfOk result (λ spans. list_all is_sound (all_events (map arc_value fragments.now)) ≡ true) }
{
    let mut spans = Vec::new(alloc);
    for fragment in fragments {
        add_spans(alloc, &mut spans, columns, fragment.index())?;
    }
    Ok(spans)
}

/// Adds the spans of an index.
fn add_spans(
    alloc: Global,
    spans: &mut Vec<Span>,
    columns: &[PlacedColumn],
    index: &Index,
) -> Result<(), AllocError>
    ensures { OnOk result (Added (map place_in columns.now) (places_of index.now.columns.items) index.now.spans.items spans.old.items spans.new.items) }
{
    for span in &index.spans {
        let time = time_again(columns, index, span);
        let path = span.path.duplicate(alloc)?;
        let rows = span.rows;
        spans.push(Span { path, time, rows })?;
    }
    Ok(())
}

/// The place among these columns of a span's time.
fn time_again(columns: &[PlacedColumn], index: &Index, span: &Span) -> Option<usize>
    ensures { Retimed (map place_in columns.now) (time_at (places_of index.now.columns.items) span.now.time) result }
{
    match index.time_column(span) {
        Some(at) => position(columns, &index.columns[at]),
        None => None,
    }
}
