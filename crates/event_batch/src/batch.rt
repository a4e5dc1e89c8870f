//! Batches.
ghost use Rattle.std.specs.Prelude.{◌≡◌, ◌↔◌, ◌<◌, ◌^◌, ◌&&◌, length, IsTrue, IsSome, IfSome};
ghost use Rattle.event_batch.specs.Sizes.{is_batch_size, rows_fit};

use crate::rows::Rows;
use vast_value::{Layout, Row, fits};

/// The most rows of a batch.
pub(crate) const MOST_ROWS: usize = 4096;

/// 1 to 4,096 rows of one source and one layout, which they all fit.
#[derive(Debug, Drop)]
pub struct Batch {
    source: u32,
    layout: Layout,
    rows: Rows,
    ghost narrow: { source < 2 ^ 32 },
    ghost sized: { IsTrue (is_batch_size (length rows)) },
    ghost fitting: { IsTrue (rows_fit layout rows) },
}

impl Batch {
    /// The batch of these rows. It is `None` exactly where there are not 1 to 4,096 rows or some row doesn't fit the
    /// layout.
    pub fn new(source: u32, layout: Layout, rows: Rows) -> Option<Batch>
        ensures exact { IsSome result ↔ IsTrue (is_batch_size (length rows) && rows_fit layout rows) }
        ensures source { IfSome result (λ batch. batch.source ≡ source) }
        ensures layout { IfSome result (λ batch. batch.layout ≡ layout) }
        ensures rows { IfSome result (λ batch. batch.rows ≡ rows) }
    {
        if !is_batch_size(rows.as_slice().len()) || !rows_fit(&layout, rows.as_slice()) {
            return None;
        }
        Some(Batch {
            source,
            layout,
            rows,
        })
    }

    /// The batch of rows that are known to fit, which nothing tests again.
    pub(crate) fn of_fitting(source: u32, layout: Layout, rows: Rows) -> Batch
        requires sized { IsTrue (is_batch_size (length rows)) }
        requires fitting { IsTrue (rows_fit layout rows) }
        ensures source { result.source ≡ source }
        ensures layout { result.layout ≡ layout }
        ensures rows { result.rows ≡ rows }
    {
        Batch {
            source,
            layout,
            rows,
        }
    }

    /// The number of the source that the rows came from.
    pub fn source(&self) -> u32
        ensures { result ≡ self.now.source }
    {
        self.source
    }

    /// The layout of each row.
    pub fn layout(&self) -> &Layout
        ensures { result.now ≡ self.now.layout }
    {
        &self.layout
    }

    /// The rows, in order.
    pub fn rows(&self) -> &[Row]
        ensures { result.now ≡ self.now.rows }
    {
        self.rows.as_slice()
    }
}

fn is_batch_size(count: usize) -> bool
    ensures { result ≡ is_batch_size count }
{
    count >= 1 && count <= MOST_ROWS
}

fn rows_fit(layout: &Layout, rows: &[Row]) -> bool
    ensures { result ≡ rows_fit layout.now rows.now }
{
    rows.iter().all(|row| fits(layout, row))
}
