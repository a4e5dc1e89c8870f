ghost use Rattle.std.specs.Prelude.{◌≡◌, ◌+◌, ◌-◌, ◌^◌, ◌<◌, ◌≤◌, ◌++◌, ◌&&◌, List, [], length, IfOk, OnOk, OnErr, IfErr, Option, ℕ, true, nat_lt};
ghost use Rattle.bits_law.specs.Keys.{answers, with_gap, with_key};
ghost use Rattle.bits_law.specs.Refusal.{refusal, rows_to};
ghost use Rattle.set_index.specs.Buckets.{takes, bucket_bit, Holds};

use bits_law::{Bits, BitsEnd, RowBits, Table};
use std::alloc::{AllocError, Global};

/// The buckets that a row takes, one bit for each.
#[derive(Drop)]
struct Buckets {
    buckets: u64,
}

impl RowBits for Buckets {
    ghost bit = { λ k j. nat_lt j 64 && bucket_bit j k.buckets };

    fn bit(&self, column: usize) -> bool {
        column < 64 && self.buckets >> (63 - column) & 1 == 1
    }

    fn word(&self, part: usize) -> u64 {
        if part == 0 { self.buckets } else { 0 }
    }
}

/// An index of sets of buckets. `Holds index.table keys` says that it stands for `keys`, a list with `None` at rows
/// without a key.
#[derive(Drop)]
pub struct SetIndex<B: Bits> {
    table: Table<B>,
    ghost wide: { length table.columns ≡ 64 },
}

impl<B: Bits> SetIndex<B> {
    /// An index with no rows.
    pub fn new(alloc: Global) -> Result<Self, AllocError>
        ensures { IfOk result (λ i. Holds i.table []) }
    {
        Ok(SetIndex {
            table: Table::new(alloc, 64)?,
        })
    }

    /// How many rows there are.
    pub fn rows(&self) -> u64
        ensures value { result ≡ length self.now.table.present }
        ensures keys { (keys : List (Option ℕ)) → Holds self.now.table keys → result ≡ length keys }
    {
        self.table.rows()
    }

    /// Puts a key at `row`, the rows between having none. `TooLong` comes exactly where there would be more than 2^40
    /// rows. After a refusal the index is as before.
    pub fn put(&mut self, row: u64, buckets: u64) -> Result<(), BitsEnd>
        requires after { length self.old.table.present ≤ row }
        ensures keys { OnOk result ((keys : List (Option ℕ)) → Holds self.old.table keys → Holds self.new.table (with_key keys row buckets)) }
        ensures rows { OnOk result (length self.new.table.present ≡ row + 1) }
        ensures fits { OnOk result (row < 2 ^ 40) }
        ensures end { IfErr result (λ e. e ≡ refusal (length self.old.table.present) (rows_to (length self.old.table.present) row)) }
        ensures err { OnErr result (self.new.table ≡ self.old.table) }
    {
        self.table.put(row, &Buckets { buckets })
    }

    /// Puts a key at `row`, the rows between having none. `TooLong` comes exactly where there would be more than 2^40
    /// rows.
    pub fn add(self, row: u64, buckets: u64) -> Result<Self, BitsEnd>
        requires after { length self.table.present ≤ row }
        ensures keys { IfOk result (λ i. (keys : List (Option ℕ)) → Holds self.table keys → Holds i.table (with_key keys row buckets)) }
        ensures rows { IfOk result (λ i. length i.table.present ≡ row + 1) }
        ensures fits { OnOk result (row < 2 ^ 40) }
        ensures end { IfErr result (λ e. e ≡ refusal (length self.table.present) (rows_to (length self.table.present) row)) }
    {
        let mut index = self;
        index.put(row, buckets)?;
        Ok(index)
    }

    /// Adds rows without a key up to `rows`. `TooLong` comes exactly where there would be more than 2^40 rows.
    pub fn pad(self, rows: u64) -> Result<Self, BitsEnd>
        requires { length self.table.present ≤ rows }
        ensures keys { IfOk result (λ i. (keys : List (Option ℕ)) → Holds self.table keys → Holds i.table (with_gap keys rows)) }
        ensures rows { IfOk result (λ i. length i.table.present ≡ rows) }
        ensures fits { OnOk result (rows ≤ 2 ^ 40) }
        ensures end { IfErr result (λ e. e ≡ refusal (length self.table.present) (rows - length self.table.present)) }
    {
        let SetIndex { table } = self;
        Ok(SetIndex {
            table: table.pad(rows)?,
        })
    }

    /// Adds the rows of another index. `TooLong` comes exactly where there would be more than 2^40 rows.
    pub fn append(self, other: &Self) -> Result<Self, BitsEnd>
        ensures keys { IfOk result (λ i. (keys more : List (Option ℕ)) → Holds self.table keys → Holds other.now.table more → Holds i.table (keys ++ more)) }
        ensures rows { IfOk result (λ i. length i.table.present ≡ length self.table.present + length other.now.table.present) }
        ensures fits { OnOk result (length self.table.present + length other.now.table.present ≤ 2 ^ 40) }
        ensures end { IfErr result (λ e. e ≡ refusal (length self.table.present) (length other.now.table.present)) }
    {
        let SetIndex { table } = self;
        Ok(SetIndex {
            table: table.append(&other.table)?,
        })
    }

    /// The rows that have a key, as a copy.
    pub fn present(&self) -> Result<B, AllocError>
        ensures rows { IfOk result (λ b. length (B.bits b) ≡ length self.now.table.present) }
        ensures keys { IfOk result (λ b. (keys : List (Option ℕ)) → Holds self.now.table keys → B.bits b ≡ answers (λ _. true) keys) }
    {
        self.table.present()
    }

    /// The rows that take `bucket`.
    pub fn taken(&self, bucket: u8) -> Result<B, AllocError>
        requires { bucket < 64 }
        ensures rows { IfOk result (λ b. length (B.bits b) ≡ length self.now.table.present) }
        ensures keys { IfOk result (λ b. (keys : List (Option ℕ)) → Holds self.now.table keys → B.bits b ≡ answers (takes bucket) keys) }
    {
        self.table.column(63 - bucket as usize)
    }
}
