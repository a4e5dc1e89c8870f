ghost use Rattle.std.specs.Prelude.{◌≡◌, ◌+◌, ◌-◌, ◌^◌, ◌<◌, ◌≤◌, ◌++◌, ◌&&◌, List, [], length, IfOk, OnOk, OnErr, IfErr, Option, ℕ, ◌%◌, nat_eq, true};
ghost use Rattle.bits_law.specs.Keys.{answers, with_gap, with_key};
ghost use Rattle.bits_law.specs.Refusal.{refusal, rows_to};
ghost use Rattle.address_index.specs.Addresses.{address_bit, within, HasAddresses, Holds};

use bits_law::{Bits, BitsEnd, Order, RowBits, Table};
use std::alloc::{AllocError, Global};

/// The bits of an address.
#[derive(Drop)]
pub(crate) struct Address {
    pub(crate) addr: u128,
}

impl RowBits for Address {
    ghost use Rattle.std.specs.Prelude.{◌&&◌, nat_lt};

    ghost bit = { λ k j. nat_lt j 128 && address_bit j k.addr };

    fn bit(&self, column: usize) -> bool {
        column < 128 && self.addr >> (127 - column) & 1 == 1
    }

    fn word(&self, part: usize) -> u64 {
        match part {
            0 => (self.addr >> 64) as u64,
            1 => (self.addr % (1 << 64)) as u64,
            _ => 0,
        }
    }
}

/// An index of addresses. `Holds index.table keys` says that it stands for `keys`, a list with `None` at rows without a
/// key.
#[derive(Drop)]
pub struct AddrIndex<B: Bits> {
    pub(crate) table: Table<B>,
    ghost wide: { length table.columns ≡ 128 },
}

impl<B: Bits> AddrIndex<B> {
    /// An index with no rows.
    pub fn new(alloc: Global) -> Result<Self, AllocError>
        ensures { IfOk result (λ i. Holds i.table []) }
    {
        Ok(AddrIndex {
            table: Table::new(alloc, 128)?,
        })
    }

    /// How many rows there are.
    pub fn rows(&self) -> u64
        ensures value { result ≡ length self.now.table.present }
        ensures keys { (keys : List (Option ℕ)) → Holds self.now.table keys → result ≡ length keys }
    {
        self.table.rows()
    }

    /// Puts a key at `row`, the rows between having none. `TooLong` comes exactly where there would be more than 2^40
    /// rows. After a refusal the index is as before.
    pub fn put(&mut self, row: u64, addr: u128) -> Result<(), BitsEnd>
        requires after { length self.old.table.present ≤ row }
        ensures keys { OnOk result ((keys : List (Option ℕ)) → Holds self.old.table keys → Holds self.new.table (with_key keys row addr)) }
        ensures rows { OnOk result (length self.new.table.present ≡ row + 1) }
        ensures fits { OnOk result (row < 2 ^ 40) }
        ensures end { IfErr result (λ e. e ≡ refusal (length self.old.table.present) (rows_to (length self.old.table.present) row)) }
        ensures err { OnErr result (self.new.table ≡ self.old.table) }
    {
        self.table.put(row, &Address { addr })
    }

    /// Puts a key at `row`, the rows between having none. `TooLong` comes exactly where there would be more than 2^40
    /// rows.
    pub fn add(self, row: u64, addr: u128) -> Result<Self, BitsEnd>
        requires after { length self.table.present ≤ row }
        ensures keys { IfOk result (λ i. (keys : List (Option ℕ)) → Holds self.table keys → Holds i.table (with_key keys row addr)) }
        ensures rows { IfOk result (λ i. length i.table.present ≡ row + 1) }
        ensures fits { OnOk result (row < 2 ^ 40) }
        ensures end { IfErr result (λ e. e ≡ refusal (length self.table.present) (rows_to (length self.table.present) row)) }
    {
        let mut index = self;
        index.put(row, addr)?;
        Ok(index)
    }

    /// Adds rows without a key up to `rows`. `TooLong` comes exactly where there would be more than 2^40 rows.
    pub fn pad(self, rows: u64) -> Result<Self, BitsEnd>
        requires { length self.table.present ≤ rows }
        ensures keys { IfOk result (λ i. (keys : List (Option ℕ)) → Holds self.table keys → Holds i.table (with_gap keys rows)) }
        ensures rows { IfOk result (λ i. length i.table.present ≡ rows) }
        ensures fits { OnOk result (rows ≤ 2 ^ 40) }
        ensures end { IfErr result (λ e. e ≡ refusal (length self.table.present) (rows - length self.table.present)) }
    {
        let AddrIndex { table } = self;
        Ok(AddrIndex {
            table: table.pad(rows)?,
        })
    }

    /// Adds the rows of another index. `TooLong` comes exactly where there would be more than 2^40 rows.
    pub fn append(self, other: &Self) -> Result<Self, BitsEnd>
        ensures keys { IfOk result (λ i. (keys more : List (Option ℕ)) → Holds self.table keys → Holds other.now.table more → Holds i.table (keys ++ more)) }
        ensures rows { IfOk result (λ i. length i.table.present ≡ length self.table.present + length other.now.table.present) }
        ensures fits { OnOk result (length self.table.present + length other.now.table.present ≤ 2 ^ 40) }
        ensures end { IfErr result (λ e. e ≡ refusal (length self.table.present) (length other.now.table.present)) }
    {
        let AddrIndex { table } = self;
        Ok(AddrIndex {
            table: table.append(&other.table)?,
        })
    }

    /// The rows that have a key, as a copy.
    pub fn present(&self) -> Result<B, AllocError>
        ensures rows { IfOk result (λ b. length (B.bits b) ≡ length self.now.table.present) }
        ensures keys { IfOk result (λ b. (keys : List (Option ℕ)) → Holds self.now.table keys → B.bits b ≡ answers (λ _. true) keys) }
    {
        self.table.present()
    }

    /// The rows whose address is `addr`.
    pub fn equal(&self, addr: u128) -> Result<B, AllocError>
        ensures rows { IfOk result (λ b. length (B.bits b) ≡ length self.now.table.present) }
        ensures keys { IfOk result (λ b. (keys : List (Option ℕ)) → Holds self.now.table keys → B.bits b ≡ answers (λ key. nat_eq key addr) keys) }
    {
        rows_equal(&self.table, addr)
    }

    /// The rows whose address has the first `bits` bits of `base`.
    pub fn within(&self, base: u128, bits: u8) -> Result<B, AllocError>
        requires narrow { bits ≤ 128 }
        requires masked { base % 2 ^ (128 - bits) ≡ 0 }
        ensures rows { IfOk result (λ b. length (B.bits b) ≡ length self.now.table.present) }
        ensures keys { IfOk result (λ b. (keys : List (Option ℕ)) → Holds self.now.table keys → B.bits b ≡ answers (within base bits) keys) }
    {
        rows_within(&self.table, base, bits)
    }
}

/// The rows whose address is `addr`, in a table whose first 128 columns are those of addresses.
pub(crate) fn rows_equal<B: Bits>(table: &Table<B>, addr: u128) -> Result<B, AllocError>
    requires wide { 128 ≤ length table.now.columns }
    ensures rows { IfOk result (λ b. length (B.bits b) ≡ length table.now.present) }
    ensures keys { IfOk result (λ b. (keys : List (Option ℕ)) → HasAddresses table.now keys → B.bits b ≡ answers (λ key. nat_eq key addr) keys) }
{
    rows_within(table, addr, 128)
}

/// The rows whose address has the first `bits` bits of `base`, in a table whose first 128 columns are those of
/// addresses.
pub(crate) fn rows_within<B: Bits>(table: &Table<B>, base: u128, bits: u8) -> Result<B, AllocError>
    requires wide { 128 ≤ length table.now.columns }
    requires narrow { bits ≤ 128 }
    ensures rows { IfOk result (λ b. length (B.bits b) ≡ length table.now.present) }
    ensures keys { IfOk result (λ b. (keys : List (Option ℕ)) → HasAddresses table.now keys → B.bits b ≡ answers (within base bits) keys) }
{
    if bits == 0 {
        return table.present();
    }
    let rest = 128 - bits;
    let part = base >> rest;
    if bits <= 64 {
        return table.ask(0, bits as usize, Order::Eq, part as u64);
    }
    let high = table.ask(0, 64, Order::Eq, (base >> 64) as u64)?;
    let low = part % (1u128 << (bits - 64));
    table.ask_among(&high, 64, bits as usize - 64, Order::Eq, low as u64)
}
