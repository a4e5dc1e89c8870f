ghost use Rattle.std.specs.Prelude.{◌≡◌, ◌+◌, ◌-◌, ◌^◌, ◌<◌, ◌≤◌, ◌++◌, List, [], length, IfOk, OnOk, OnErr, IfErr, Option, ℕ, nat_eq, nat_lt, nat_le, if◌then◌else◌, true};
ghost use Rattle.bits_law.specs.Bitwise.{bitwise, and_not};
ghost use Rattle.bits_law.specs.Keys.{answers, with_gap, with_key};
ghost use Rattle.bits_law.specs.Numbers.{holds};
ghost use Rattle.bits_law.specs.Refusal.{refusal, rows_to};
ghost use Rattle.digit_index.specs.Digits.{product, width, Holds};

use crate::bases::Bases;
use crate::coding::{Coding, DigitKey, columns_of, width};
use crate::digits::{all_or_none, equal, ordered};
use bits_law::{Bits, BitsEnd, Order, Table};
use std::alloc::{AllocError, Global};

/// An index of numbers below the product of its bases. `Holds index.coding index.bases index.table keys` says that it
/// stands for `keys`, a list with `None` at rows without a key.
#[derive(Drop)]
pub struct DigitIndex<B: Bits> {
    coding: Coding,
    bases: Bases,
    table: Table<B>,
    ghost wide: { length table.columns ≡ width coding bases },
}

impl<B: Bits> DigitIndex<B> {
    /// An index with no rows, of keys with one digit for each base.
    pub fn new(alloc: Global, bases: Bases, coding: Coding) -> Result<Self, AllocError>
        requires { 1 ≤ length bases }
        ensures coding { IfOk result (λ i. i.coding ≡ coding) }
        ensures bases { IfOk result (λ i. i.bases ≡ bases) }
        ensures keys { IfOk result (λ i. Holds i.coding i.bases i.table []) }
    {
        let table = Table::new(alloc, width(coding, &bases))?;
        Ok(DigitIndex {
            coding,
            bases,
            table,
        })
    }

    /// How many rows there are.
    pub fn rows(&self) -> u64
        ensures value { result ≡ length self.now.table.present }
        ensures keys { (keys : List (Option ℕ)) → Holds self.now.coding self.now.bases self.now.table keys → result ≡ length keys }
    {
        self.table.rows()
    }

    /// Puts a key at `row`, the rows between having none. `TooLong` comes exactly where there would be more than 2^40
    /// rows. After a refusal the index is as before.
    pub fn put(&mut self, row: u64, key: u64) -> Result<(), BitsEnd>
        requires after { length self.old.table.present ≤ row }
        requires small { key < product self.old.bases }
        ensures coding { self.new.coding ≡ self.old.coding }
        ensures bases { self.new.bases ≡ self.old.bases }
        ensures keys { OnOk result ((keys : List (Option ℕ)) → Holds self.old.coding self.old.bases self.old.table keys → Holds self.new.coding self.new.bases self.new.table (with_key keys row key)) }
        ensures rows { OnOk result (length self.new.table.present ≡ row + 1) }
        ensures fits { OnOk result (row < 2 ^ 40) }
        ensures end { IfErr result (λ e. e ≡ refusal (length self.old.table.present) (rows_to (length self.old.table.present) row)) }
        ensures err { OnErr result (self.new.table ≡ self.old.table) }
    {
        let key = DigitKey {
            key,
            coding: self.coding,
            bases: &self.bases,
        };
        self.table.put(row, &key)
    }

    /// Puts a key at `row`, the rows between having none. `TooLong` comes exactly where there would be more than 2^40
    /// rows.
    pub fn add(self, row: u64, key: u64) -> Result<Self, BitsEnd>
        requires after { length self.table.present ≤ row }
        requires small { key < product self.bases }
        ensures coding { IfOk result (λ i. i.coding ≡ self.coding) }
        ensures bases { IfOk result (λ i. i.bases ≡ self.bases) }
        ensures keys { IfOk result (λ i. (keys : List (Option ℕ)) → Holds self.coding self.bases self.table keys → Holds i.coding i.bases i.table (with_key keys row key)) }
        ensures rows { IfOk result (λ i. length i.table.present ≡ row + 1) }
        ensures fits { OnOk result (row < 2 ^ 40) }
        ensures end { IfErr result (λ e. e ≡ refusal (length self.table.present) (rows_to (length self.table.present) row)) }
    {
        let mut index = self;
        index.put(row, key)?;
        Ok(index)
    }

    /// Adds rows without a key up to `rows`. `TooLong` comes exactly where there would be more than 2^40 rows.
    pub fn pad(self, rows: u64) -> Result<Self, BitsEnd>
        requires { length self.table.present ≤ rows }
        ensures coding { IfOk result (λ i. i.coding ≡ self.coding) }
        ensures bases { IfOk result (λ i. i.bases ≡ self.bases) }
        ensures keys { IfOk result (λ i. (keys : List (Option ℕ)) → Holds self.coding self.bases self.table keys → Holds i.coding i.bases i.table (with_gap keys rows)) }
        ensures rows { IfOk result (λ i. length i.table.present ≡ rows) }
        ensures fits { OnOk result (rows ≤ 2 ^ 40) }
        ensures end { IfErr result (λ e. e ≡ refusal (length self.table.present) (rows - length self.table.present)) }
    {
        let DigitIndex {
            coding,
            bases,
            table,
        } = self;
        let table = table.pad(rows)?;
        Ok(DigitIndex {
            coding,
            bases,
            table,
        })
    }

    /// Adds the rows of another index of the same bases and coding. `TooLong` comes exactly where there would be more
    /// than 2^40 rows.
    pub fn append(self, other: &Self) -> Result<Self, BitsEnd>
        requires coding { other.now.coding ≡ self.coding }
        requires bases { other.now.bases ≡ self.bases }
        ensures coding { IfOk result (λ i. i.coding ≡ self.coding) }
        ensures bases { IfOk result (λ i. i.bases ≡ self.bases) }
        ensures keys { IfOk result (λ i. (keys more : List (Option ℕ)) → Holds self.coding self.bases self.table keys → Holds self.coding self.bases other.now.table more → Holds i.coding i.bases i.table (keys ++ more)) }
        ensures rows { IfOk result (λ i. length i.table.present ≡ length self.table.present + length other.now.table.present) }
        ensures fits { OnOk result (length self.table.present + length other.now.table.present ≤ 2 ^ 40) }
        ensures end { IfErr result (λ e. e ≡ refusal (length self.table.present) (length other.now.table.present)) }
    {
        let DigitIndex {
            coding,
            bases,
            table,
        } = self;
        let table = table.append(&other.table)?;
        Ok(DigitIndex {
            coding,
            bases,
            table,
        })
    }

    /// The rows that have a key, as a copy.
    pub fn present(&self) -> Result<B, AllocError>
        ensures rows { IfOk result (λ b. length (B.bits b) ≡ length self.now.table.present) }
        ensures keys { IfOk result (λ b. (keys : List (Option ℕ)) → Holds self.now.coding self.now.bases self.now.table keys → B.bits b ≡ answers (λ _. true) keys) }
    {
        self.table.present()
    }

    /// The rows whose key stands in the relation `rel` to `key`.
    pub fn ask(&self, rel: Order, key: u64) -> Result<B, AllocError>
        requires { key < product self.now.bases }
        ensures rows { IfOk result (λ b. length (B.bits b) ≡ length self.now.table.present) }
        ensures keys { IfOk result (λ b. (keys : List (Option ℕ)) → Holds self.now.coding self.now.bases self.now.table keys → B.bits b ≡ answers (λ k. holds rel k key) keys) }
    {
        match rel {
            Order::Eq => self.same(key),
            Order::Ne => self.others(&self.same(key)?),
            Order::Lt => self.preceding(key, false),
            Order::Le => self.preceding(key, true),
            Order::Gt => self.others(&self.preceding(key, true)?),
            Order::Ge => self.others(&self.preceding(key, false)?),
        }
    }

    /// The rows that have a key and aren't among `rows`.
    fn others(&self, rows: &B) -> Result<B, AllocError>
        requires { length (B.bits rows.now) ≡ length self.now.table.present }
        ensures rows { IfOk result (λ b. length (B.bits b) ≡ length self.now.table.present) }
        ensures value { IfOk result (λ b. B.bits b ≡ bitwise and_not self.now.table.present (B.bits rows.now)) }
    {
        self.table.present()?.and_not(rows)
    }

    /// The rows whose key is `key`.
    fn same(&self, key: u64) -> Result<B, AllocError>
        requires { key < product self.now.bases }
        ensures rows { IfOk result (λ b. length (B.bits b) ≡ length self.now.table.present) }
        ensures keys { IfOk result (λ b. (keys : List (Option ℕ)) → Holds self.now.coding self.now.bases self.now.table keys → B.bits b ≡ answers (λ k. nat_eq k key) keys) }
    {
        let present = self.table.present()?;
        let bases = self.bases.as_slice();
        let mut rows = all_or_none(&present, true)?;
        let mut rest = key;
        let mut from = 0;
        for j in 0..bases.len() {
            let base = bases[j];
            let value = (rest % base as u64) as usize;
            let here = equal(&self.table, from, &present, self.coding, base, value)?;
            rows = rows.and(&here)?;
            rest /= base as u64;
            from += columns_of(self.coding, base);
        }
        Ok(rows)
    }

    /// The rows whose key is below `key`, or at most `key`.
    fn preceding(&self, key: u64, or_equal: bool) -> Result<B, AllocError>
        requires { key < product self.now.bases }
        ensures rows { IfOk result (λ b. length (B.bits b) ≡ length self.now.table.present) }
        ensures keys { IfOk result (λ b. (keys : List (Option ℕ)) → Holds self.now.coding self.now.bases self.now.table keys → B.bits b ≡ answers (λ k. if or_equal then nat_le k key else nat_lt k key) keys) }
    {
        let present = self.table.present()?;
        let bases = self.bases.as_slice();
        let mut rows = all_or_none(&present, or_equal)?;
        let mut rest = key;
        let mut from = 0;
        for j in 0..bases.len() {
            let base = bases[j];
            let value = (rest % base as u64) as usize;
            let coding = self.coding;
            rows = ordered(&self.table, from, &present, coding, base, value, &rows)?;
            rest /= base as u64;
            from += columns_of(self.coding, base);
        }
        Ok(rows)
    }
}
