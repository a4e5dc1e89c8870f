ghost use Rattle.std.specs.Prelude.{◌≡◌, ◌+◌, ◌-◌, ◌^◌, ◌<◌, ◌≤◌, ◌++◌, ◌/◌, ◌%◌, List, [], length, IfOk, OnOk, OnErr, IfErr, Option, ℕ, take, drop, nat_eq, true};
ghost use Rattle.bits_law.specs.Keys.{answers, with_gap, with_key};
ghost use Rattle.bits_law.specs.Numbers.{has_bit, holds, number_at, IsAnswer};
ghost use Rattle.bits_law.specs.Refusal.{refusal, rows_to};
ghost use Rattle.address_index.specs.Subnets.{Subnet, subnet, net_bit, is_net, net_within, net_covers, HoldsNets};

use crate::index::{rows_equal, rows_within};
use bits_law::{Bits, BitsEnd, Order, RowBits, Table};
use std::alloc::{AllocError, Global};

/// The bits of a subnet: those of its base, and then eight of its length.
#[derive(Drop)]
struct NetBits {
    base: u128,
    bits: u8,
}

impl RowBits for NetBits {
    ghost use Rattle.std.specs.Prelude.{◌&&◌, nat_lt};

    ghost bit = { λ k j. nat_lt j 136 && net_bit j (subnet k.base k.bits) };

    fn bit(&self, column: usize) -> bool {
        if column < 128 {
            self.base >> (127 - column) & 1 == 1
        } else {
            column < 136 && self.bits >> (135 - column) & 1 == 1
        }
    }

    fn word(&self, part: usize) -> u64 {
        match part {
            0 => (self.base >> 64) as u64,
            1 => (self.base % (1 << 64)) as u64,
            2 => (self.bits as u64) << 56,
            _ => 0,
        }
    }
}

/// An index of subnets. `HoldsNets index.table keys` says that it stands for `keys`, a list with `None` at rows without
/// a key.
#[derive(Drop)]
pub struct NetIndex<B: Bits> {
    table: Table<B>,
    ghost wide: { length table.columns ≡ 136 },
}

impl<B: Bits> NetIndex<B> {
    /// An index with no rows.
    pub fn new(alloc: Global) -> Result<Self, AllocError>
        ensures { IfOk result (λ i. HoldsNets i.table []) }
    {
        Ok(NetIndex {
            table: Table::new(alloc, 136)?,
        })
    }

    /// How many rows there are.
    pub fn rows(&self) -> u64
        ensures value { result ≡ length self.now.table.present }
        ensures keys { (keys : List (Option Subnet)) → HoldsNets self.now.table keys → result ≡ length keys }
    {
        self.table.rows()
    }

    /// Puts the subnet of the first `bits` bits of `base` at `row`, the rows between having none. `TooLong` comes
    /// exactly where there would be more than 2^40 rows. After a refusal the index is as before.
    pub fn put(&mut self, row: u64, base: u128, bits: u8) -> Result<(), BitsEnd>
        requires after { length self.old.table.present ≤ row }
        requires narrow { bits ≤ 128 }
        requires masked { base % 2 ^ (128 - bits) ≡ 0 }
        ensures keys { OnOk result ((keys : List (Option Subnet)) → HoldsNets self.old.table keys → HoldsNets self.new.table (with_key keys row (subnet base bits))) }
        ensures rows { OnOk result (length self.new.table.present ≡ row + 1) }
        ensures fits { OnOk result (row < 2 ^ 40) }
        ensures end { IfErr result (λ e. e ≡ refusal (length self.old.table.present) (rows_to (length self.old.table.present) row)) }
        ensures err { OnErr result (self.new.table ≡ self.old.table) }
    {
        self.table.put(row, &NetBits { base, bits })
    }

    /// Puts the subnet of the first `bits` bits of `base` at `row`, the rows between having none. `TooLong` comes
    /// exactly where there would be more than 2^40 rows.
    pub fn add(self, row: u64, base: u128, bits: u8) -> Result<Self, BitsEnd>
        requires after { length self.table.present ≤ row }
        requires narrow { bits ≤ 128 }
        requires masked { base % 2 ^ (128 - bits) ≡ 0 }
        ensures keys { IfOk result (λ i. (keys : List (Option Subnet)) → HoldsNets self.table keys → HoldsNets i.table (with_key keys row (subnet base bits))) }
        ensures rows { IfOk result (λ i. length i.table.present ≡ row + 1) }
        ensures fits { OnOk result (row < 2 ^ 40) }
        ensures end { IfErr result (λ e. e ≡ refusal (length self.table.present) (rows_to (length self.table.present) row)) }
    {
        let mut index = self;
        index.put(row, base, bits)?;
        Ok(index)
    }

    /// Adds rows without a key up to `rows`. `TooLong` comes exactly where there would be more than 2^40 rows.
    pub fn pad(self, rows: u64) -> Result<Self, BitsEnd>
        requires { length self.table.present ≤ rows }
        ensures keys { IfOk result (λ i. (keys : List (Option Subnet)) → HoldsNets self.table keys → HoldsNets i.table (with_gap keys rows)) }
        ensures rows { IfOk result (λ i. length i.table.present ≡ rows) }
        ensures fits { OnOk result (rows ≤ 2 ^ 40) }
        ensures end { IfErr result (λ e. e ≡ refusal (length self.table.present) (rows - length self.table.present)) }
    {
        let NetIndex { table } = self;
        Ok(NetIndex {
            table: table.pad(rows)?,
        })
    }

    /// Adds the rows of another index. `TooLong` comes exactly where there would be more than 2^40 rows.
    pub fn append(self, other: &Self) -> Result<Self, BitsEnd>
        ensures keys { IfOk result (λ i. (keys more : List (Option Subnet)) → HoldsNets self.table keys → HoldsNets other.now.table more → HoldsNets i.table (keys ++ more)) }
        ensures rows { IfOk result (λ i. length i.table.present ≡ length self.table.present + length other.now.table.present) }
        ensures fits { OnOk result (length self.table.present + length other.now.table.present ≤ 2 ^ 40) }
        ensures end { IfErr result (λ e. e ≡ refusal (length self.table.present) (length other.now.table.present)) }
    {
        let NetIndex { table } = self;
        Ok(NetIndex {
            table: table.append(&other.table)?,
        })
    }

    /// The rows that have a key, as a copy.
    pub fn present(&self) -> Result<B, AllocError>
        ensures rows { IfOk result (λ b. length (B.bits b) ≡ length self.now.table.present) }
        ensures keys { IfOk result (λ b. (keys : List (Option Subnet)) → HoldsNets self.now.table keys → B.bits b ≡ answers (λ _. true) keys) }
    {
        self.table.present()
    }

    /// The rows whose subnet is that of the first `bits` bits of `base`.
    pub fn equal(&self, base: u128, bits: u8) -> Result<B, AllocError>
        requires narrow { bits ≤ 128 }
        requires masked { base % 2 ^ (128 - bits) ≡ 0 }
        ensures rows { IfOk result (λ b. length (B.bits b) ≡ length self.now.table.present) }
        ensures keys { IfOk result (λ b. (keys : List (Option Subnet)) → HoldsNets self.now.table keys → B.bits b ≡ answers (is_net base bits) keys) }
    {
        let rows = rows_equal(&self.table, base)?;
        ask_length(&self.table, &rows, Order::Eq, bits)
    }

    /// The rows whose subnet lies within that of the first `bits` bits of `base`.
    pub fn within(&self, base: u128, bits: u8) -> Result<B, AllocError>
        requires narrow { bits ≤ 128 }
        requires masked { base % 2 ^ (128 - bits) ≡ 0 }
        ensures rows { IfOk result (λ b. length (B.bits b) ≡ length self.now.table.present) }
        ensures keys { IfOk result (λ b. (keys : List (Option Subnet)) → HoldsNets self.now.table keys → B.bits b ≡ answers (net_within base bits) keys) }
    {
        let rows = rows_within(&self.table, base, bits)?;
        ask_length(&self.table, &rows, Order::Ge, bits)
    }

    /// The rows whose subnet holds that of the first `bits` bits of `base`.
    pub fn covers(&self, base: u128, bits: u8) -> Result<B, AllocError>
        requires narrow { bits ≤ 128 }
        requires masked { base % 2 ^ (128 - bits) ≡ 0 }
        ensures rows { IfOk result (λ b. length (B.bits b) ≡ length self.now.table.present) }
        ensures keys { IfOk result (λ b. (keys : List (Option Subnet)) → HoldsNets self.now.table keys → B.bits b ≡ answers (net_covers base bits) keys) }
    {
        let table = &self.table;
        let mut agree = table.present()?;
        let mut rows = ask_length(table, &agree, Order::Eq, 0)?;
        for at in 0..bits {
            agree = agree_more(table, &agree, base, at)?;
            let here = ask_length(table, &agree, Order::Eq, at + 1)?;
            rows = rows.or(&here)?;
        }
        Ok(rows)
    }
}

/// The rows of `among` whose address has bit `at` of `base`, the highest being bit 0.
fn agree_more<B: Bits>(table: &Table<B>, among: &B, base: u128, at: u8) -> Result<B, AllocError>
    requires within { at < 128 }
    requires wide { length table.now.columns ≡ 136 }
    requires even { length (B.bits among.now) ≡ length table.now.present }
    ensures { IfOk result (λ b. IsAnswer (B.bits b) (B.bits among.now) (λ row. nat_eq (number_at (take 1 (drop at table.now.columns)) row) (base / 2 ^ (127 - at) % 2))) }
{
    let bit = base >> (127 - at) & 1;
    table.ask_among(among, at as usize, 1, Order::Eq, bit as u64)
}

/// The rows of `among` whose subnet's length stands in a relation to `bits`.
fn ask_length<B: Bits>(table: &Table<B>, among: &B, rel: Order, bits: u8) -> Result<B, AllocError>
    requires wide { length table.now.columns ≡ 136 }
    requires even { length (B.bits among.now) ≡ length table.now.present }
    ensures { IfOk result (λ b. IsAnswer (B.bits b) (B.bits among.now) (λ row. holds rel (number_at (take 8 (drop 128 table.now.columns)) row) bits)) }
{
    table.ask_among(among, 128, 8, rel, bits as u64)
}
