ghost use Rattle.std.specs.Prelude.{◌≡◌, ℕ, ◌+◌, ◌-◌, ◌*◌, ◌/◌, ◌%◌, ◌^◌, ◌<◌, ◌≤◌, ◌&&◌, Bool, true, false, List, [], length, get_or, OnOk, OnErr, IfOk, nat_lt};
ghost use Rattle.bits_law.specs.Numbers.{has_bit};
ghost use Rattle.bits_law.specs.Blocks.{parts, word_at, waiting, bit_at, AreSame, IsLaid, IsSet, AreJoined, AreJoinedFor, IsWritten};

use crate::packed::Blocks;
use crate::row_bits::RowBits;
use crate::slices::has_bit;
use std::alloc::{AllocError, Global};

/// Writes the words of a key at place `at` among keys of `n` words.
fn write<R: RowBits>(keys: &mut [u64], n: usize, at: usize, key: &R)
    requires long { length keys.old ≡ 64 * n }
    requires narrow { n ≤ 2 ^ 32 }
    requires at { at < 64 }
    ensures { IsWritten keys.old keys.new n at n (R.bit key.now) }
{
    let first = at * n;
    key.words(&mut keys[first..first + n]);
}

/// Rows of keys: blocks of 64 rows, and up to 64 keys behind them that wait to be stored as a block; `taken` says
/// which of these rows have a key.
#[derive(Drop)]
pub(crate) struct Store {
    pub(crate) blocks: Blocks,
    keys: Vec<u64>,
    taken: u64,
    ghost long: { length keys.items ≡ 64 * parts blocks.width },
}

impl Store {
    /// No rows.
    pub(crate) fn new(alloc: Global, width: usize) -> Result<Store, AllocError>
        requires { width ≤ 2 ^ 32 }
        ensures width { IfOk result (λ s. s.blocks.width ≡ width) }
        ensures blocks { IfOk result (λ s. s.blocks.blocks ≡ []) }
        ensures clear { IfOk result (λ s. s.taken ≡ 0) }
    {
        let blocks = Blocks::new(alloc, width);
        let mut keys = Vec::new(alloc);
        keys.resize(64 * blocks.parts(), 0)?;
        Ok(Store {
            blocks,
            keys,
            taken: 0,
        })
    }

    /// The allocator that the store was made with.
    pub(crate) fn alloc(&self) -> Global {
        *self.keys.allocator()
    }

    /// Stores the keys that wait, and blocks without a key up to `block`, so that rows of this block wait. After a
    /// refusal all is as before.
    pub(crate) fn reach(&mut self, block: usize) -> Result<(), AllocError>
        requires { length self.old.blocks.blocks ≤ block }
        ensures width { self.new.blocks.width ≡ self.old.blocks.width }
        ensures same { AreSame (bit_at self.old.blocks self.old.keys.items self.old.taken) (bit_at self.new.blocks self.new.keys.items self.new.taken) self.old.blocks.width }
        ensures ok { OnOk result (length self.new.blocks.blocks ≡ block) }
        ensures err { OnErr result (length self.new.blocks.blocks ≡ length self.old.blocks.blocks) }
    {
        if block <= self.blocks.count() {
            return Ok(());
        }
        self.blocks.make_room()?;
        self.blocks.store(&self.keys, self.taken, block)?;
        self.taken = 0;
        Ok(())
    }

    /// Stores the keys that wait where `row` is the last of their block, unless memory runs out.
    fn flush(&mut self, row: u64)
        requires { row / 64 ≡ length self.old.blocks.blocks }
        ensures width { self.new.blocks.width ≡ self.old.blocks.width }
        ensures same { AreSame (bit_at self.old.blocks self.old.keys.items self.old.taken) (bit_at self.new.blocks self.new.keys.items self.new.taken) self.old.blocks.width }
        ensures behind { 64 * length self.new.blocks.blocks ≤ row + 1 }
        ensures near { row < 64 * length self.new.blocks.blocks + 64 }
    {
        if row % 64 < 63 {
            return;
        }
        let block = (row / 64) as usize;
        let _ = self.reach(block + 1);
    }

    /// Writes a key at `row`, which is among those that wait.
    #[inline(always)]
    fn place<R: RowBits>(&mut self, row: u64, key: &R)
        requires { row / 64 ≡ length self.old.blocks.blocks }
        ensures width { self.new.blocks.width ≡ self.old.blocks.width }
        ensures count { length self.new.blocks.blocks ≡ length self.old.blocks.blocks }
        ensures set { IsSet (bit_at self.old.blocks self.old.keys.items self.old.taken) (bit_at self.new.blocks self.new.keys.items self.new.taken) self.old.blocks.width row (R.bit key.now) }
    {
        let n = self.blocks.parts();
        let at = row % 64;
        write(&mut self.keys, n, at as usize, key);
        self.taken |= 1 << at;
    }

    /// Puts a key at `row`. After a refusal all is as before.
    #[inline(always)]
    pub(crate) fn put<R: RowBits>(&mut self, row: u64, key: &R) -> Result<(), AllocError>
        requires { 64 * length self.old.blocks.blocks ≤ row }
        ensures width { self.new.blocks.width ≡ self.old.blocks.width }
        ensures ok { OnOk result (IsSet (bit_at self.old.blocks self.old.keys.items self.old.taken) (bit_at self.new.blocks self.new.keys.items self.new.taken) self.old.blocks.width row (R.bit key.now)) }
        ensures behind { OnOk result (64 * length self.new.blocks.blocks ≤ row + 1) }
        ensures near { OnOk result (row < 64 * length self.new.blocks.blocks + 64) }
        ensures err { OnErr result (AreSame (bit_at self.old.blocks self.old.keys.items self.old.taken) (bit_at self.new.blocks self.new.keys.items self.new.taken) self.old.blocks.width) }
        ensures kept { OnErr result (length self.new.blocks.blocks ≡ length self.old.blocks.blocks) }
    {
        self.reach((row / 64) as usize)?;
        self.place(row, key);
        self.flush(row);
        Ok(())
    }

    /// The keys that wait, as a block alone.
    pub(crate) fn last(&self) -> Result<Blocks, AllocError>
        ensures width { IfOk result (λ b. b.width ≡ self.now.blocks.width) }
        ensures count { IfOk result (λ b. length b.blocks ≡ 1) }
        ensures bits { IfOk result (λ b. (line i : ℕ) → line ≤ self.now.blocks.width → i < 64 → has_bit (word_at b 0 line) i ≡ waiting self.now.keys.items self.now.blocks.width self.now.taken line i) }
    {
        let mut last = Blocks::new(self.alloc(), self.blocks.width());
        last.store(&self.keys, self.taken, 1)?;
        Ok(last)
    }

    /// The bit of a line at a row.
    fn bit(&self, line: usize, row: u64) -> bool
        requires { line ≤ self.now.blocks.width }
        ensures { result ≡ bit_at self.now.blocks self.now.keys.items self.now.taken line row }
    {
        let block = row / 64;
        let at = (row % 64) as usize;
        let count = self.blocks.count() as u64;
        if block < count {
            return has_bit(self.blocks.word(block as usize, line), at);
        }
        if block > count {
            return false;
        }
        if line == 0 {
            return has_bit(self.taken, at);
        }
        if has_bit(self.taken, at) {
            let column = line - 1;
            let keys = self.keys.as_slice();
            let word = keys[at * self.blocks.parts() + column / 64];
            return has_bit(word, 63 - column % 64);
        }
        false
    }

    /// Adds the rows of another store behind whole blocks.
    fn append(self, other: &Store) -> Result<Store, AllocError>
        requires { other.now.blocks.width ≡ self.blocks.width }
        ensures width { IfOk result (λ s. s.blocks.width ≡ self.blocks.width) }
        ensures count { IfOk result (λ s. length s.blocks.blocks ≡ length self.blocks.blocks + length other.now.blocks.blocks) }
        ensures joined { IfOk result (λ s. AreJoined (bit_at self.blocks self.keys.items self.taken) (bit_at other.now.blocks other.now.keys.items other.now.taken) (bit_at s.blocks s.keys.items s.taken) self.blocks.width (64 * length self.blocks.blocks)) }
    {
        let Store { blocks, keys, .. } = self;
        let blocks = blocks.extend(&other.blocks)?;
        let mut keys = keys;
        keys.copy_from_slice(&other.keys);
        Ok(Store {
            blocks,
            keys,
            taken: other.taken,
        })
    }
}

/// A row of a store, as a key.
#[derive(Drop)]
struct StoredKey<'a> {
    store: &'a Store,
    row: u64,
}

impl<'a> RowBits for StoredKey<'a> {
    ghost use Rattle.std.specs.Prelude.{◌+◌, ◌&&◌, nat_lt};
    ghost use Rattle.bits_law.specs.Blocks.{bit_at};

    ghost bit = { λ k j. nat_lt j k.store.now.blocks.width && bit_at k.store.now.blocks k.store.now.keys.items k.store.now.taken (j + 1) k.row };

    fn bit(&self, column: usize) -> bool {
        if column < self.store.blocks.width() {
            self.store.bit(column + 1, self.row)
        } else {
            false
        }
    }
}

impl Store {
    /// Puts the rows of another store row by row, from row `rows` on.
    fn append_rows(self, other: &Store, rows: u64, more: u64) -> Result<Store, AllocError>
        requires width { other.now.blocks.width ≡ self.blocks.width }
        requires short { rows + more ≤ 2 ^ 40 }
        requires behind { 64 * length self.blocks.blocks ≤ rows }
        requires near { rows ≤ 64 * length self.blocks.blocks + 64 }
        requires clear { (line row : ℕ) → line ≤ self.blocks.width → rows ≤ row → bit_at self.blocks self.keys.items self.taken line row ≡ false }
        requires keys { (line row : ℕ) → line ≤ self.blocks.width → bit_at other.now.blocks other.now.keys.items other.now.taken 0 row ≡ false → bit_at other.now.blocks other.now.keys.items other.now.taken line row ≡ false }
        ensures width { IfOk result (λ s. s.blocks.width ≡ self.blocks.width) }
        ensures behind { IfOk result (λ s. 64 * length s.blocks.blocks ≤ rows + more) }
        ensures joined { IfOk result (λ s. AreJoinedFor (bit_at self.blocks self.keys.items self.taken) (bit_at other.now.blocks other.now.keys.items other.now.taken) (bit_at s.blocks s.keys.items s.taken) self.blocks.width rows more) }
    {
        let mut store = self;
        for row in 0..more {
            if !other.bit(0, row) {
                continue;
            }
            store.put(rows + row, &StoredKey { store: other, row })?;
        }
        Ok(store)
    }

    /// Adds `more` rows of another store from row `rows` on.
    pub(crate) fn join(self, other: &Store, rows: u64, more: u64) -> Result<Store, AllocError>
        requires width { other.now.blocks.width ≡ self.blocks.width }
        requires short { rows + more ≤ 2 ^ 40 }
        requires laid { IsLaid (bit_at self.blocks self.keys.items self.taken) self.blocks.width rows (length self.blocks.blocks) }
        requires other { IsLaid (bit_at other.now.blocks other.now.keys.items other.now.taken) self.blocks.width more (length other.now.blocks.blocks) }
        ensures width { IfOk result (λ s. s.blocks.width ≡ self.blocks.width) }
        ensures laid { IfOk result (λ s. IsLaid (bit_at s.blocks s.keys.items s.taken) self.blocks.width (rows + more) (length s.blocks.blocks)) }
        ensures joined { IfOk result (λ s. AreJoined (bit_at self.blocks self.keys.items self.taken) (bit_at other.now.blocks other.now.keys.items other.now.taken) (bit_at s.blocks s.keys.items s.taken) self.blocks.width rows) }
    {
        let mut store = self;
        if rows % 64 == 0 {
            store.reach((rows / 64) as usize)?;
            let store = store.append(other)?;
            return Ok(store);
        }
        let mut store = store.append_rows(other, rows, more)?;
        store.reach(((rows + more) / 64) as usize)?;
        Ok(store)
    }
}
