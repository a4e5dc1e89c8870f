//! Rows.
ghost use Rattle.std.specs.Prelude.{◌≡◌, IfOk};

use crate::cell::Cell;
use crate::sequence::Seq;
use std::alloc::{AllocError, Global};

/// The cells of one event, one for each column of its layout.
pub type Row = Seq<Cell>;

impl Seq<Cell> {
    /// An equal copy.
    pub fn duplicate(&self, alloc: Global) -> Result<Row, AllocError>
        ensures { IfOk result (λ copy. copy ≡ self.now) }
    {
        let cells = self.as_slice();
        let mut copy = Seq::with_capacity(alloc, cells.len())?;
        for cell in cells {
            copy.push(cell.duplicate(alloc)?)?;
        }
        Ok(copy)
    }
}
