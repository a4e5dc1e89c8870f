//! A column grows.
ghost use Rattle.std.specs.Prelude.{◌≡◌, ◌+◌, ◌-◌, ◌<◌, ◌≤◌, ◌^◌, ◌++◌, length, IfOk, OnOk, IfErr, IsTrue, Option, List, []};
ghost use Rattle.bits_law.specs.Keys.{with_gap, with_key};
ghost use Rattle.bits_law.specs.Refusal.{refusal, rows_to};
ghost use Rattle.vast_value.specs.declared.cell.Cell.{Cell};
ghost use Rattle.vast_value.specs.Kinds.{has_kind};
ghost use Rattle.column_index.specs.Stands.{Stands};

use crate::column::ColumnIndex;
use crate::kept::Keys;
use crate::presence::Presence;
use bits_law::{BitsEnd, LONGEST};
use std::alloc::{AllocError, Global};
use vast_value::{Cell, Kind, ranged_cell};

impl ColumnIndex {
    /// A column with no rows, of cells of this kind.
    pub fn new(alloc: Global, kind: Kind) -> Result<Self, AllocError>
        ensures kind { IfOk result (λ c. c.kind ≡ kind) }
        ensures cells { IfOk result (λ c. Stands c []) }
    {
        let keys = Keys::new(alloc, kind)?;
        Ok(ColumnIndex {
            kind,
            has: Presence::new(alloc),
            keys,
        })
    }

    /// The column's kind.
    pub fn kind(&self) -> Kind
        ensures { result ≡ self.now.kind }
    {
        self.kind
    }

    /// How many rows there are.
    pub fn rows(&self) -> u64
        ensures value { result ≡ length self.now.has }
        ensures bounded { result ≤ 2 ^ 40 }
        ensures cells { (cells : List (Option Cell)) → Stands self.now cells → result ≡ length cells }
    {
        self.has.len()
    }

    /// Puts a cell at `row`, the rows between being without the column. `TooLong` comes exactly where there would be more
    /// than 2^40 rows, and then the column is as before. Where memory runs out it may have some of the row.
    pub fn put(&mut self, row: u64, cell: &Cell) -> Result<(), BitsEnd>
        requires after { length self.old.has ≤ row }
        requires kind { IsTrue (has_kind cell.now self.old.kind) }
        ensures kind { self.new.kind ≡ self.old.kind }
        ensures cells { OnOk result ((cells : List (Option Cell)) → Stands self.old cells → Stands self.new (with_key cells row cell.now)) }
        ensures rows { OnOk result (length self.new.has ≡ row + 1) }
        ensures fits { OnOk result (row < 2 ^ 40) }
        ensures end { IfErr result (λ e. e ≡ refusal (length self.old.has) (rows_to (length self.old.has) row)) }
        ensures long { 2 ^ 40 ≤ row → self.new ≡ self.old }
    {
        let have = self.has.len();
        if row >= LONGEST {
            let more = (row - have).saturating_add(1);
            return Err(BitsEnd::TooLong { have, more });
        }
        match self.grow(row, cell) {
            Ok(()) => Ok(()),
            Err(_) => Err(BitsEnd::Memory),
        }
    }

    fn grow(&mut self, row: u64, cell: &Cell) -> Result<(), BitsEnd>
        requires after { length self.old.has ≤ row }
        requires kind { IsTrue (has_kind cell.now self.old.kind) }
        requires short { row < 2 ^ 40 }
        ensures kind { self.new.kind ≡ self.old.kind }
        ensures cells { OnOk result ((cells : List (Option Cell)) → Stands self.old cells → Stands self.new (with_key cells row cell.now)) }
        ensures rows { OnOk result (length self.new.has ≡ row + 1) }
    {
        ranged_cell(cell);
        self.has.reach(row)?;
        self.has.push();
        self.keys.put(row, cell)?;
        Ok(())
    }

    /// Puts a cell at `row`, as `put` does.
    pub fn add(self, row: u64, cell: &Cell) -> Result<Self, BitsEnd>
        requires after { length self.has ≤ row }
        requires kind { IsTrue (has_kind cell.now self.kind) }
        ensures kind { IfOk result (λ c. c.kind ≡ self.kind) }
        ensures cells { IfOk result (λ c. (cells : List (Option Cell)) → Stands self cells → Stands c (with_key cells row cell.now)) }
        ensures rows { IfOk result (λ c. length c.has ≡ row + 1) }
        ensures fits { OnOk result (row < 2 ^ 40) }
        ensures end { IfErr result (λ e. e ≡ refusal (length self.has) (rows_to (length self.has) row)) }
    {
        let mut column = self;
        column.put(row, cell)?;
        Ok(column)
    }

    /// Adds rows without the column up to `rows`. `TooLong` comes exactly where there would be more than 2^40 rows.
    pub fn pad(self, rows: u64) -> Result<Self, BitsEnd>
        requires { length self.has ≤ rows }
        ensures kind { IfOk result (λ c. c.kind ≡ self.kind) }
        ensures cells { IfOk result (λ c. (cells : List (Option Cell)) → Stands self cells → Stands c (with_gap cells rows)) }
        ensures rows { IfOk result (λ c. length c.has ≡ rows) }
        ensures fits { OnOk result (rows ≤ 2 ^ 40) }
        ensures end { IfErr result (λ e. e ≡ refusal (length self.has) (rows - length self.has)) }
    {
        let ColumnIndex { kind, has, keys } = self;
        let mut has = has;
        if rows > LONGEST {
            let have = has.len();
            let more = rows - have;
            return Err(BitsEnd::TooLong { have, more });
        }
        has.reach(rows)?;
        Ok(ColumnIndex { kind, has, keys })
    }

    /// Adds the rows of another column of the same kind. `TooLong` comes exactly where there would be more than 2^40 rows.
    pub fn append(self, other: &Self) -> Result<Self, BitsEnd>
        requires { other.now.kind ≡ self.kind }
        ensures kind { IfOk result (λ c. c.kind ≡ self.kind) }
        ensures cells { IfOk result (λ c. (cells more : List (Option Cell)) → Stands self cells → Stands other.now more → Stands c (cells ++ more)) }
        ensures rows { IfOk result (λ c. length c.has ≡ length self.has + length other.now.has) }
        ensures fits { OnOk result (length self.has + length other.now.has ≤ 2 ^ 40) }
        ensures end { IfErr result (λ e. e ≡ refusal (length self.has) (length other.now.has)) }
    {
        let have = self.has.len();
        let more = other.has.len();
        if more > LONGEST - have {
            return Err(BitsEnd::TooLong { have, more });
        }
        match self.joined(other) {
            Ok(column) => Ok(column),
            Err(_) => Err(BitsEnd::Memory),
        }
    }

    fn joined(self, other: &Self) -> Result<Self, BitsEnd>
        requires kind { other.now.kind ≡ self.kind }
        requires short { length self.has + length other.now.has ≤ 2 ^ 40 }
        ensures kind { IfOk result (λ c. c.kind ≡ self.kind) }
        ensures cells { IfOk result (λ c. (cells more : List (Option Cell)) → Stands self cells → Stands other.now more → Stands c (cells ++ more)) }
        ensures rows { IfOk result (λ c. length c.has ≡ length self.has + length other.now.has) }
    {
        let ColumnIndex { kind, has, keys } = self;
        let rows = has.len();
        let mut has = has;
        has.append(&other.has)?;
        let keys = keys.append(kind, rows, &other.keys)?;
        Ok(ColumnIndex { kind, has, keys })
    }
}
