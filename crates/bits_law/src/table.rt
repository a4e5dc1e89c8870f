ghost use Rattle.std.specs.Prelude.{◌/◌, ◌%◌, take, drop, OnErr, ◌≡◌, ℕ, ◌+◌, ◌-◌, ◌*◌, ◌^◌, ◌<◌, ◌≤◌, ◌++◌, ◌∷◌, [], Bool, true, false, List, length, map, replicate, get_or, IfOk, IfErr, OnOk};
ghost use Rattle.bits_law.specs.declared.bits.BitsEnd.TheVariants.{Memory};
ghost use Rattle.bits_law.specs.Contents.{Contents, IsPlaced, IsPadded, IsJoined, IsEven};
ghost use Rattle.bits_law.specs.Numbers.{has_bit, holds, number_at, IsAnswer};
ghost use Rattle.bits_law.specs.Refusal.{refusal, rows_to};

use crate::answers::{Question, answer, line};
use crate::bits::{Bits, BitsEnd, LONGEST};
use crate::row_bits::RowBits;
use crate::slices::Order;
use crate::store::Store;
use std::alloc::{AllocError, Global};
use std::marker::{Model, PhantomData};

/// The rows of a list of keys in blocks of 64: in each block a word of the rows that have a key, and one for each bit
/// that a key may set, of which those that are equal at all keys of a block aren't kept. The newest keys wait until
/// their block is whole.
#[derive(Drop)]
pub struct Table<B: Bits> {
    rows: u64,
    store: Store,
    answers: PhantomData<B>,
}

impl<B: Bits> Model for Table<B> {
    ghost use Rattle.std.specs.Prelude.{◌^◌, ◌≤◌, length};
    ghost use Rattle.bits_law.specs.Contents.{Contents};
    ghost use Rattle.bits_law.specs.Blocks.{held, bit_at, IsLaid};

    ghost Value = { Contents };

    ghost view = { λ t. held (bit_at t.store.blocks t.store.keys.items t.store.taken) t.store.blocks.width t.rows };

    ghost invariant = { λ t. IsLaid (bit_at t.store.blocks t.store.keys.items t.store.taken) t.store.blocks.width t.rows (length t.store.blocks.blocks) × (t.store.blocks.width ≤ 2 ^ 32) };
}

/// The most columns of a table.
const MOST_COLUMNS: usize = 1 << 32;

impl<B: Bits> Table<B> {
    /// A table with no rows, and `width` columns.
    pub fn new(alloc: Global, width: usize) -> Result<Self, AllocError>
        ensures present { IfOk result (λ t. t.present ≡ []) }
        ensures wide { IfOk result (λ t. length t.columns ≡ width) }
        ensures column { IfOk result (λ t. (j : ℕ) → j < width → get_or t.columns j [] ≡ []) }
    {
        if width > MOST_COLUMNS {
            return Err(AllocError);
        }
        Ok(Table {
            rows: 0,
            store: Store::new(alloc, width)?,
            answers: PhantomData,
        })
    }

    /// The allocator that the table was made with.
    pub fn alloc(&self) -> Global {
        self.store.alloc()
    }

    /// How many rows there are.
    pub fn rows(&self) -> u64
        ensures value { result ≡ length self.now.present }
        ensures bounded { result ≤ 2 ^ 40 }
        ensures even { IsEven self.now }
    {
        self.rows
    }

    /// Places a key at `row`, the rows between having none. `TooLong` comes exactly where there would be more than
    /// 2^40 rows. After a refusal the table is as before.
    #[inline(always)]
    pub fn put<R: RowBits>(&mut self, row: u64, key: &R) -> Result<(), BitsEnd>
        requires { length self.old.present ≤ row }
        ensures ok { OnOk result (IsPlaced self.old self.new row (R.bit key.now)) }
        ensures rows { OnOk result (length self.new.present ≡ row + 1) }
        ensures fits { OnOk result (row < 2 ^ 40) }
        ensures end { IfErr result (λ e. e ≡ refusal (length self.old.present) (rows_to (length self.old.present) row)) }
        ensures err { OnErr result (self.new ≡ self.old) }
    {
        let have = self.rows();
        if row >= LONGEST {
            let more = (row - have).saturating_add(1);
            return Err(BitsEnd::TooLong { have, more });
        }
        self.store.put(row, key)?;
        self.rows = row + 1;
        Ok(())
    }

    /// Places a key at `row`, the rows between having none. `TooLong` comes exactly where there would be more than
    /// 2^40 rows.
    pub fn add<R: RowBits>(self, row: u64, key: &R) -> Result<Self, BitsEnd>
        requires { length self.present ≤ row }
        ensures ok { IfOk result (λ t. IsPlaced self t row (R.bit key.now)) }
        ensures rows { IfOk result (λ t. length t.present ≡ row + 1) }
        ensures fits { OnOk result (row < 2 ^ 40) }
        ensures end { IfErr result (λ e. e ≡ refusal (length self.present) (rows_to (length self.present) row)) }
    {
        let mut table = self;
        table.put(row, key)?;
        Ok(table)
    }

    /// Adds rows without a key up to `rows`. `TooLong` comes exactly where there would be more than 2^40 rows.
    pub fn pad(self, rows: u64) -> Result<Self, BitsEnd>
        requires { length self.present ≤ rows }
        ensures ok { IfOk result (λ t. IsPadded self t rows) }
        ensures rows { IfOk result (λ t. length t.present ≡ rows) }
        ensures fits { OnOk result (rows ≤ 2 ^ 40) }
        ensures end { IfErr result (λ e. e ≡ refusal (length self.present) (rows - length self.present)) }
    {
        let mut table = self;
        let have = table.rows();
        if rows > LONGEST {
            let more = rows - have;
            return Err(BitsEnd::TooLong { have, more });
        }
        table.store.reach((rows / 64) as usize)?;
        table.rows = rows;
        Ok(table)
    }

    /// Adds the rows of another table of as many columns. `TooLong` comes exactly where there would be more than 2^40
    /// rows.
    pub fn append(self, other: &Self) -> Result<Self, BitsEnd>
        requires { length other.now.columns ≡ length self.columns }
        ensures ok { IfOk result (IsJoined self other.now) }
        ensures rows { IfOk result (λ t. length t.present ≡ length self.present + length other.now.present) }
        ensures fits { OnOk result (length self.present + length other.now.present ≤ 2 ^ 40) }
        ensures end { IfErr result (λ e. e ≡ refusal (length self.present) (length other.now.present)) }
    {
        let have = self.rows();
        let more = other.rows();
        if more > LONGEST - have {
            return Err(BitsEnd::TooLong { have, more });
        }
        let Table { store, answers, .. } = self;
        Ok(Table {
            rows: have + more,
            store: store.join(&other.store, have, more)?,
            answers,
        })
    }

    /// The rows that have a key, as a bitmap.
    pub fn present(&self) -> Result<B, AllocError>
        ensures { IfOk result (λ b. B.bits b ≡ self.now.present) }
    {
        let last = self.store.last()?;
        line(&self.store.blocks, &last, self.alloc(), self.rows, 0)
    }

    /// A column, as a bitmap.
    pub fn column(&self, at: usize) -> Result<B, AllocError>
        requires { at < length self.now.columns }
        ensures value { IfOk result (λ b. B.bits b ≡ get_or self.now.columns at []) }
        ensures rows { IfOk result (λ b. length (B.bits b) ≡ length self.now.present) }
    {
        let last = self.store.last()?;
        line(&self.store.blocks, &last, self.alloc(), self.rows, at + 1)
    }

    /// The rows that have a key, where the number that `count` columns from `from` on spell, the highest first, stands
    /// in the relation `rel` to `key`.
    pub fn ask(&self, from: usize, count: usize, rel: Order, key: u64) -> Result<B, AllocError>
        requires few { count ≤ 64 }
        requires within { from + count ≤ length self.now.columns }
        ensures { IfOk result (λ b. IsAnswer (B.bits b) self.now.present (λ row. holds rel (number_at (take count (drop from self.now.columns)) row) key)) }
    {
        let last = self.store.last()?;
        let question = Question {
            first: from + 1,
            count,
            rel,
            key,
        };
        answer(
            &self.store.blocks,
            &last,
            self.alloc(),
            self.rows,
            false,
            question,
        )
    }

    /// The rows of `among`, where the number that `count` columns from `from` on spell, the highest first, stands in
    /// the relation `rel` to `key`.
    pub fn ask_among(
        &self,
        among: &B,
        from: usize,
        count: usize,
        rel: Order,
        key: u64,
    ) -> Result<B, AllocError>
        requires even { length (B.bits among.now) ≡ length self.now.present }
        requires few { count ≤ 64 }
        requires within { from + count ≤ length self.now.columns }
        ensures { IfOk result (λ b. IsAnswer (B.bits b) (B.bits among.now) (λ row. holds rel (number_at (take count (drop from self.now.columns)) row) key)) }
    {
        let last = self.store.last()?;
        let question = Question {
            first: from + 1,
            count,
            rel,
            key,
        };
        let all: B = answer(
            &self.store.blocks,
            &last,
            self.alloc(),
            self.rows,
            true,
            question,
        )?;
        among.and(&all)
    }
}
