ghost use Rattle.std.specs.Prelude.{◌≡◌, ◌+◌, ◌-◌, ◌^◌, ◌<◌, ◌≤◌, ◌++◌, ◌&&◌, List, [], length, IfOk, OnOk, OnErr, IfErr, Option, ℕ, true, nat_le, slice_index, min, if◌then◌else◌};
ghost use Rattle.bits_law.specs.Bitwise.{bitwise, and_not};
ghost use Rattle.bits_law.specs.Keys.{answers, with_gap, with_key};
ghost use Rattle.bits_law.specs.Refusal.{refusal, rows_to};
ghost use Rattle.string_index.specs.Texts.{text_unit, units, text_bit, short_length, same_start, Holds};

use bits_law::{Bits, BitsEnd, Order, RowBits, Table};
use std::alloc::{AllocError, Global};

/// The bits that a text sets.
#[derive(Drop)]
struct TextKey<'a> {
    text: &'a [u8],
}

impl<'a> RowBits for TextKey<'a> {
    ghost bit = { λ k j. text_bit j k.text.now };

    fn bit(&self, column: usize) -> bool {
        unit(self.text, column / 8) >> (7 - column % 8) & 1 == 1
    }

    fn word(&self, part: usize) -> u64 {
        let mut word = 0;
        for k in 0..8 {
            word = word * 256 + unit(self.text, 8 * part + k) as u64;
        }
        word
    }
}

/// What eight columns are read from: the text's length first, then its first eight bytes.
fn unit(text: &[u8], at: usize) -> u8
    ensures { result ≡ text_unit at text.now }
{
    match at {
        0 => short_length(text),
        1..=8 => byte(text, at - 1),
        _ => 0,
    }
}

/// A text's length, up to 255, and its first seven bytes, as one number of which the length is the highest byte.
fn first_units(text: &[u8]) -> u64
    ensures { result ≡ units 8 text.now }
{
    let mut word = 0;
    for at in 0..8 {
        word = word * 256 + unit(text, at) as u64;
    }
    word
}

/// A text's length, up to 255.
fn short_length(text: &[u8]) -> u8
    ensures { result ≡ short_length text.now }
{
    text.len().min(255) as u8
}

/// A text's byte, and 0 past its end.
fn byte(text: &[u8], at: usize) -> u8
    ensures { result ≡ slice_index text.now at }
{
    text.get(at).copied().unwrap_or(0)
}

/// An index of texts. `Holds index.table keys` says that it stands for `keys`, a list with `None` at rows without a
/// key.
#[derive(Drop)]
pub struct StringIndex<B: Bits> {
    table: Table<B>,
    ghost wide: { length table.columns ≡ 72 },
}

impl<B: Bits> StringIndex<B> {
    /// An index with no rows.
    pub fn new(alloc: Global) -> Result<Self, AllocError>
        ensures { IfOk result (λ i. Holds i.table []) }
    {
        Ok(StringIndex {
            table: Table::new(alloc, 72)?,
        })
    }

    /// How many rows there are.
    pub fn rows(&self) -> u64
        ensures value { result ≡ length self.now.table.present }
        ensures keys { (keys : List (Option (List ℕ))) → Holds self.now.table keys → result ≡ length keys }
    {
        self.table.rows()
    }

    /// Puts a key at `row`, the rows between having none. `TooLong` comes exactly where there would be more than 2^40
    /// rows. After a refusal the index is as before.
    pub fn put(&mut self, row: u64, text: &[u8]) -> Result<(), BitsEnd>
        requires after { length self.old.table.present ≤ row }
        ensures keys { OnOk result ((keys : List (Option (List ℕ))) → Holds self.old.table keys → Holds self.new.table (with_key keys row text.now)) }
        ensures rows { OnOk result (length self.new.table.present ≡ row + 1) }
        ensures fits { OnOk result (row < 2 ^ 40) }
        ensures end { IfErr result (λ e. e ≡ refusal (length self.old.table.present) (rows_to (length self.old.table.present) row)) }
        ensures err { OnErr result (self.new.table ≡ self.old.table) }
    {
        self.table.put(row, &TextKey { text })
    }

    /// Puts a key at `row`, the rows between having none. `TooLong` comes exactly where there would be more than 2^40
    /// rows.
    pub fn add(self, row: u64, text: &[u8]) -> Result<Self, BitsEnd>
        requires after { length self.table.present ≤ row }
        ensures keys { IfOk result (λ i. (keys : List (Option (List ℕ))) → Holds self.table keys → Holds i.table (with_key keys row text.now)) }
        ensures rows { IfOk result (λ i. length i.table.present ≡ row + 1) }
        ensures fits { OnOk result (row < 2 ^ 40) }
        ensures end { IfErr result (λ e. e ≡ refusal (length self.table.present) (rows_to (length self.table.present) row)) }
    {
        let mut index = self;
        index.put(row, text)?;
        Ok(index)
    }

    /// Adds rows without a key up to `rows`. `TooLong` comes exactly where there would be more than 2^40 rows.
    pub fn pad(self, rows: u64) -> Result<Self, BitsEnd>
        requires { length self.table.present ≤ rows }
        ensures keys { IfOk result (λ i. (keys : List (Option (List ℕ))) → Holds self.table keys → Holds i.table (with_gap keys rows)) }
        ensures rows { IfOk result (λ i. length i.table.present ≡ rows) }
        ensures fits { OnOk result (rows ≤ 2 ^ 40) }
        ensures end { IfErr result (λ e. e ≡ refusal (length self.table.present) (rows - length self.table.present)) }
    {
        let StringIndex { table } = self;
        Ok(StringIndex {
            table: table.pad(rows)?,
        })
    }

    /// Adds the rows of another index. `TooLong` comes exactly where there would be more than 2^40 rows.
    pub fn append(self, other: &Self) -> Result<Self, BitsEnd>
        ensures keys { IfOk result (λ i. (keys more : List (Option (List ℕ))) → Holds self.table keys → Holds other.now.table more → Holds i.table (keys ++ more)) }
        ensures rows { IfOk result (λ i. length i.table.present ≡ length self.table.present + length other.now.table.present) }
        ensures fits { OnOk result (length self.table.present + length other.now.table.present ≤ 2 ^ 40) }
        ensures end { IfErr result (λ e. e ≡ refusal (length self.table.present) (length other.now.table.present)) }
    {
        let StringIndex { table } = self;
        Ok(StringIndex {
            table: table.append(&other.table)?,
        })
    }

    /// The rows that have a key, as a copy.
    pub fn present(&self) -> Result<B, AllocError>
        ensures rows { IfOk result (λ b. length (B.bits b) ≡ length self.now.table.present) }
        ensures keys { IfOk result (λ b. (keys : List (Option (List ℕ))) → Holds self.now.table keys → B.bits b ≡ answers (λ _. true) keys) }
    {
        self.table.present()
    }

    /// The rows whose text has the length and the first eight bytes of `text`: those where equality is sure, which
    /// needs at most eight bytes, and those where it may be.
    pub fn equal(&self, text: &[u8]) -> Result<(B, B), AllocError>
        ensures sure_rows { IfOk result (λ r. length (B.bits r.0) ≡ length self.now.table.present) }
        ensures maybe_rows { IfOk result (λ r. length (B.bits r.1) ≡ length self.now.table.present) }
        ensures sure { IfOk result (λ r. (keys : List (Option (List ℕ))) → Holds self.now.table keys → B.bits r.0 ≡ answers (λ key. same_start key text.now && nat_le (length text.now) 8) keys) }
        ensures maybe { IfOk result (λ r. (keys : List (Option (List ℕ))) → Holds self.now.table keys → B.bits r.1 ≡ answers (λ key. same_start key text.now) keys) }
    {
        let maybe = self.same_start(text)?;
        let sure = when(&maybe, text.len() <= 8)?;
        Ok((sure, maybe))
    }

    /// The rows whose text has at least `n` bytes, as far as lengths up to 255 tell.
    pub fn as_long(&self, n: u64) -> Result<B, AllocError>
        ensures rows { IfOk result (λ b. length (B.bits b) ≡ length self.now.table.present) }
        ensures keys { IfOk result (λ b. (keys : List (Option (List ℕ))) → Holds self.now.table keys → B.bits b ≡ answers (λ key. nat_le (min n 255) (short_length key)) keys) }
    {
        self.table.ask(0, 8, Order::Ge, n.min(255))
    }

    /// The rows whose text has the length, up to 255, and the first eight bytes of `text`.
    fn same_start(&self, text: &[u8]) -> Result<B, AllocError>
        ensures rows { IfOk result (λ b. length (B.bits b) ≡ length self.now.table.present) }
        ensures keys { IfOk result (λ b. (keys : List (Option (List ℕ))) → Holds self.now.table keys → B.bits b ≡ answers (λ key. same_start key text.now) keys) }
    {
        let rows = self.table.ask(0, 64, Order::Eq, first_units(text))?;
        let rows = self
            .table
            .ask_among(&rows, 64, 8, Order::Eq, byte(text, 7) as u64)?;
        Ok(rows)
    }
}

/// The rows if `holds`, and none if not.
fn when<B: Bits>(rows: &B, holds: bool) -> Result<B, AllocError>
    ensures rows { IfOk result (λ b. length (B.bits b) ≡ length (B.bits rows.now)) }
    ensures value { IfOk result (λ b. B.bits b ≡ (if holds then B.bits rows.now else bitwise and_not (B.bits rows.now) (B.bits rows.now))) }
{
    if holds {
        rows.duplicate()
    } else {
        rows.and_not(rows)
    }
}
