//! The columns of some events.
use column_index::ColumnIndex;
use vast_value::Bytes;

/// A column of a layout: the layout's path, the column's name, and the index of its cells.
#[derive(Drop)]
pub struct PlacedColumn {
    pub(crate) path: Bytes,
    pub(crate) name: Bytes,
    pub(crate) column: ColumnIndex,
}

/// Adjacent events of one path, whose time stands in one column.
#[derive(Drop)]
pub struct Span {
    pub(crate) path: Bytes,
    /// The place of the time's column, if the layout has one.
    pub(crate) time: Option<usize>,
    pub(crate) rows: u64,
}

/// The columns of some events. Each has all their rows, with gaps where an event's layout has no such column.
#[derive(Drop)]
pub struct Index {
    pub(crate) rows: u64,
    pub(crate) columns: Vec<PlacedColumn>,
    pub(crate) spans: Vec<Span>,
}
