//! The rows of a batch that is not closed yet.
ghost use Rattle.std.specs.Prelude.{◌≡◌, ◌<◌, ◌∷◌, ◌++◌, [], length, IsTrue, OnOk};
ghost use Rattle.vast_value.specs.Fit.{fits_columns};
ghost use Rattle.vast_value.specs.Layouts.{is_empty};
ghost use Rattle.importer.specs.Cutting.{bounds_of, cell_bytes_of, is_full, most_cell_bytes};

use event_batch::{Rows, row_size};
use std::alloc::{AllocError, Global};
use std::marker::Model;
use vast_value::{Layout, Row};

/// At so many bytes of cells a batch closes.
const MOST_CELL_BYTES: u64 = 4_194_304;

/// Rows, and how many bytes their cells have in a batch. Contracts see the rows.
#[derive(Drop)]
pub struct Gathered {
    rows: Rows,
    size: u64,
}

impl Model for Gathered {
    ghost use Rattle.std.specs.Prelude.{◌≡◌, List, length};
    ghost use Rattle.vast_value.specs.declared.cell.Cell.{Cell};
    ghost use Rattle.importer.specs.Cutting.{cell_bytes_of};

    ghost Value = { List (List Cell) };

    ghost view = { λ gathered. gathered.rows };

    ghost invariant = { λ gathered. gathered.size ≡ length (cell_bytes_of gathered.rows) };
}

impl Gathered {
    /// No rows.
    pub fn new(alloc: Global) -> Self
        ensures { result ≡ [] }
    {
        Gathered {
            rows: Rows::new(alloc),
            size: 0,
        }
    }

    pub fn is_empty(&self) -> bool
        ensures { result ≡ is_empty self.now }
    {
        self.rows.as_slice().is_empty()
    }

    /// Whether a batch of these rows closes, where one closes at so many.
    pub fn is_full(&self, rows: u32) -> bool
        ensures { result ≡ is_full (bounds_of rows) self.now }
    {
        self.rows.as_slice().len() >= rows as usize || self.size >= MOST_CELL_BYTES
    }

    /// Puts a row that fits the layout behind the others. They are lost where there is no memory.
    #[tactic(auto, using(crate::proofs::CutLemmas::bytes_more))]
    pub fn push(&mut self, layout: &Layout, row: Row) -> Result<(), AllocError>
        requires fits { IsTrue (fits_columns layout.now.columns row) }
        requires few { length (cell_bytes_of self.old) < most_cell_bytes }
        ensures { OnOk result (self.new ≡ self.old ++ row ∷ []) }
    {
        let size = row_size(&row);
        self.rows.push(row)?;
        self.size += size;
        Ok(())
    }

    /// The rows.
    pub fn into_rows(self) -> Rows
        ensures { result ≡ self }
    {
        self.rows
    }
}
