ghost use Rattle.std.specs.Prelude.{◌≡◌, ◌+◌, ◌-◌, ◌^◌, ◌<◌, ◌≤◌, ◌++◌, List, [], length, IfOk, OnOk, OnErr, IfErr, Option, ℕ, pos, ◌+ℤ◌, true};
ghost use Rattle.bits_law.specs.Keys.{answers, with_gap, with_key};
ghost use Rattle.bits_law.specs.Numbers.{holds};
ghost use Rattle.bits_law.specs.Refusal.{refusal, rows_to};
ghost use Rattle.slice_index.specs.Slices.{Holds};

use bits_law::{Bits, BitsEnd, Order, RowBits, Table};
use std::alloc::{AllocError, Global};

/// A key of a slice index of `width` slices.
#[derive(Drop)]
struct SliceKey {
    key: u64,
    width: u8,
    ghost some: { 1 ≤ width },
    ghost narrow: { width ≤ 64 },
}

impl RowBits for SliceKey {
    ghost use Rattle.std.specs.Prelude.{◌&&◌, nat_lt};
    ghost use Rattle.slice_index.specs.Slices.{slice_bit};

    ghost bit = { λ k j. nat_lt j k.width && slice_bit k.width j k.key };

    fn bit(&self, column: usize) -> bool {
        let width = self.width as usize;
        column < width && self.key >> (width - 1 - column) & 1 == 1
    }

    fn word(&self, part: usize) -> u64 {
        if part == 0 {
            self.key << (64 - self.width)
        } else {
            0
        }
    }
}

/// An index of numbers of at most `width` bits. `Holds index.width index.table keys` says that it stands for `keys`,
/// a list with `None` at rows without a key.
#[derive(Drop)]
pub struct SliceIndex<B: Bits> {
    width: u8,
    table: Table<B>,
    ghost some: { 1 ≤ width },
    ghost narrow: { width ≤ 64 },
    ghost wide: { length table.columns ≡ width },
}

impl<B: Bits> SliceIndex<B> {
    /// An index with no rows, of keys of `width` bits.
    pub fn new(alloc: Global, width: u8) -> Result<Self, AllocError>
        requires some { 1 ≤ width }
        requires narrow { width ≤ 64 }
        ensures width { IfOk result (λ i. i.width ≡ width) }
        ensures keys { IfOk result (λ i. Holds i.width i.table []) }
    {
        Ok(SliceIndex {
            width,
            table: Table::new(alloc, width as usize)?,
        })
    }

    /// How many rows there are.
    pub fn rows(&self) -> u64
        ensures value { result ≡ length self.now.table.present }
        ensures keys { (keys : List (Option ℕ)) → Holds self.now.width self.now.table keys → result ≡ length keys }
    {
        self.table.rows()
    }

    /// Puts a key at `row`, the rows between having none. `TooLong` comes exactly where there would be more than 2^40
    /// rows. After a refusal the index is as before.
    pub fn put(&mut self, row: u64, key: u64) -> Result<(), BitsEnd>
        requires after { length self.old.table.present ≤ row }
        requires small { key < 2 ^ self.old.width }
        ensures width { self.new.width ≡ self.old.width }
        ensures keys { OnOk result ((keys : List (Option ℕ)) → Holds self.old.width self.old.table keys → Holds self.new.width self.new.table (with_key keys row key)) }
        ensures rows { OnOk result (length self.new.table.present ≡ row + 1) }
        ensures fits { OnOk result (row < 2 ^ 40) }
        ensures end { IfErr result (λ e. e ≡ refusal (length self.old.table.present) (rows_to (length self.old.table.present) row)) }
        ensures err { OnErr result (self.new.table ≡ self.old.table) }
    {
        let key = SliceKey {
            key,
            width: self.width,
        };
        self.table.put(row, &key)
    }

    /// Puts a key at `row`, the rows between having none. `TooLong` comes exactly where there would be more than 2^40
    /// rows.
    pub fn add(self, row: u64, key: u64) -> Result<Self, BitsEnd>
        requires after { length self.table.present ≤ row }
        requires small { key < 2 ^ self.width }
        ensures width { IfOk result (λ i. i.width ≡ self.width) }
        ensures keys { IfOk result (λ i. (keys : List (Option ℕ)) → Holds self.width self.table keys → Holds i.width i.table (with_key keys row key)) }
        ensures rows { IfOk result (λ i. length i.table.present ≡ row + 1) }
        ensures fits { OnOk result (row < 2 ^ 40) }
        ensures end { IfErr result (λ e. e ≡ refusal (length self.table.present) (rows_to (length self.table.present) row)) }
    {
        let mut index = self;
        index.put(row, key)?;
        Ok(index)
    }

    /// Adds rows without a key up to `rows`. `TooLong` comes exactly where there would be more than 2^40 rows.
    pub fn pad(self, rows: u64) -> Result<Self, BitsEnd>
        requires { length self.table.present ≤ rows }
        ensures width { IfOk result (λ i. i.width ≡ self.width) }
        ensures keys { IfOk result (λ i. (keys : List (Option ℕ)) → Holds self.width self.table keys → Holds i.width i.table (with_gap keys rows)) }
        ensures rows { IfOk result (λ i. length i.table.present ≡ rows) }
        ensures fits { OnOk result (rows ≤ 2 ^ 40) }
        ensures end { IfErr result (λ e. e ≡ refusal (length self.table.present) (rows - length self.table.present)) }
    {
        let SliceIndex { width, table } = self;
        Ok(SliceIndex {
            width,
            table: table.pad(rows)?,
        })
    }

    /// Adds the rows of another index of as many slices. `TooLong` comes exactly where there would be more than 2^40
    /// rows.
    pub fn append(self, other: &Self) -> Result<Self, BitsEnd>
        requires { other.now.width ≡ self.width }
        ensures width { IfOk result (λ i. i.width ≡ self.width) }
        ensures keys { IfOk result (λ i. (keys more : List (Option ℕ)) → Holds self.width self.table keys → Holds self.width other.now.table more → Holds i.width i.table (keys ++ more)) }
        ensures rows { IfOk result (λ i. length i.table.present ≡ length self.table.present + length other.now.table.present) }
        ensures fits { OnOk result (length self.table.present + length other.now.table.present ≤ 2 ^ 40) }
        ensures end { IfErr result (λ e. e ≡ refusal (length self.table.present) (length other.now.table.present)) }
    {
        let SliceIndex { width, table } = self;
        Ok(SliceIndex {
            width,
            table: table.append(&other.table)?,
        })
    }

    /// The rows that have a key, as a copy.
    pub fn present(&self) -> Result<B, AllocError>
        ensures rows { IfOk result (λ b. length (B.bits b) ≡ length self.now.table.present) }
        ensures keys { IfOk result (λ b. (keys : List (Option ℕ)) → Holds self.now.width self.now.table keys → B.bits b ≡ answers (λ _. true) keys) }
    {
        self.table.present()
    }

    /// The rows whose key stands in the relation `rel` to `key`.
    pub fn ask(&self, rel: Order, key: u64) -> Result<B, AllocError>
        ensures rows { IfOk result (λ b. length (B.bits b) ≡ length self.now.table.present) }
        ensures keys { IfOk result (λ b. (keys : List (Option ℕ)) → Holds self.now.width self.now.table keys → B.bits b ≡ answers (λ k. holds rel k key) keys) }
    {
        self.table.ask(0, self.width as usize, rel, key)
    }
}

/// A number whose order is that of the integers: `v` + 2^63.
pub fn key_of(v: i64) -> u64
    ensures { pos result ≡ v +ℤ pos 9223372036854775808 }
{
    (v as i128 + 9_223_372_036_854_775_808) as u64
}
