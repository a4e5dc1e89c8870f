//! A column is asked a test.
ghost use Rattle.std.specs.Prelude.{◌≡◌, length, IfOk, Option, List, not, true, false};
ghost use Rattle.query_meaning.specs.Relations.{is_unset};
ghost use Rattle.bits_law.specs.Keys.{answers, padded};
ghost use Rattle.vast_value.specs.declared.cell.Cell.{Cell};
ghost use Rattle.query_meaning.specs.declared.expr.Literal.TheVariants.{Nil, Of};
ghost use Rattle.query_meaning.specs.SureCells.{maybe_cell, sure_cell};
ghost use Rattle.column_index.specs.Stands.{Stands};

use crate::answered::exact;
use crate::column::ColumnIndex;
use crate::kept::{Bitmap, Pair};
use bits_law::Bits;
use query_meaning::{Literal, Rel, Test};
use std::alloc::{AllocError, Global};
use vast_value::Value;

impl ColumnIndex {
    /// The rows whose cell surely meets the test's relation to its literal, and those whose cell may. Both are false at rows
    /// without the column. Whether the test's pick chooses the column isn't asked.
    pub fn ask(&self, alloc: Global, test: &Test) -> Result<Pair, AllocError>
        ensures sure { IfOk result (λ pair. (cells : List (Option Cell)) → Stands self.now cells → pair.sure ≡ answers (sure_cell test.now.rel test.now.literal) cells) }
        ensures maybe { IfOk result (λ pair. (cells : List (Option Cell)) → Stands self.now cells → pair.maybe ≡ answers (maybe_cell test.now.rel test.now.literal) cells) }
    {
        match &test.literal {
            Literal::Nil => {
                let rows = self.nil(alloc, test.rel)?;
                let pair = exact(rows)?;
                Ok(pair)
            }
            Literal::Of(literal) => {
                let pair = self.value(alloc, test.rel, literal)?;
                Ok(pair)
            }
        }
    }

    fn value(&self, alloc: Global, rel: Rel, literal: &Value) -> Result<Pair, AllocError>
        ensures sure { IfOk result (λ pair. (cells : List (Option Cell)) → Stands self.now cells → pair.sure ≡ answers (sure_cell rel (Of literal.now)) cells) }
        ensures maybe { IfOk result (λ pair. (cells : List (Option Cell)) → Stands self.now cells → pair.maybe ≡ answers (maybe_cell rel (Of literal.now)) cells) }
    {
        let pair = self.keys.ask(alloc, self.kind, rel, literal)?;
        let rows = self.has.len();
        let sure = widened(pair.sure, rows)?;
        let maybe = widened(pair.maybe, rows)?;
        Ok(Pair { sure, maybe })
    }

    /// `== nil` holds of the unset cells, and `!= nil` of the set ones.
    fn nil(&self, alloc: Global, rel: Rel) -> Result<Bitmap, AllocError>
        ensures { IfOk result (λ bits. (cells : List (Option Cell)) → Stands self.now cells → bits ≡ answers (sure_cell rel Nil) cells) }
    {
        match rel {
            Rel::Eq => {
                let set = self.set()?;
                let has = self.has.bits()?;
                let unset = has.and_not(&set)?;
                Ok(unset)
            }
            Rel::Ne => {
                let set = self.set()?;
                Ok(set)
            }
            _ => {
                let has = self.has.bits()?;
                let none = has.and_not(&has)?;
                Ok(none)
            }
        }
    }

    fn set(&self) -> Result<Bitmap, AllocError>
        ensures rows { IfOk result (λ bits. length bits ≡ length self.now.has) }
        ensures cells { IfOk result (λ bits. (cells : List (Option Cell)) → Stands self.now cells → bits ≡ answers (λ x. not (is_unset x)) cells) }
    {
        let set = self.keys.set()?;
        let rows = widened(set, self.has.len())?;
        Ok(rows)
    }
}

/// An answer for all rows, of which the last are false.
fn widened(bits: Bitmap, rows: u64) -> Result<Bitmap, AllocError>
    ensures { IfOk result (λ wide. wide ≡ padded false bits rows) }
{
    let have = bits.len();
    let mut bits = bits;
    match bits.push_run(false, rows.saturating_sub(have)) {
        Ok(()) => Ok(bits),
        Err(_) => Err(AllocError),
    }
}
