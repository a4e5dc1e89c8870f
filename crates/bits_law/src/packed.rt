ghost use Rattle.std.specs.Prelude.{◌≡◌, ℕ, ◌+◌, ◌-◌, ◌*◌, ◌/◌, ◌%◌, ◌^◌, ◌<◌, ◌≤◌, ◌&&◌, Bool, true, false, List, [], ◌++◌, map, length, get_or, OnOk, OnErr, IfOk};
ghost use Rattle.bits_law.specs.Numbers.{has_bit};
ghost use Rattle.bits_law.specs.Blocks.{Lines, parts, word_at, waiting};
ghost use Rattle.bits_law.specs.Packed.{moved, no_head, line_word, IsInside, Begins, AreHeads, AreAdded, IsStored, AreBehind};

use crate::head::{Head, apart, pack};
use std::alloc::{AllocError, Global};
use std::marker::Model;

/// Makes `column` the words of the keys at `part`. Key `i` has its word at `n` `i` + `part`.
fn gather(column: &mut [u64], keys: &[u64], n: usize, part: usize)
    requires size { length column.old ≡ 64 }
    requires long { length keys.now ≡ 64 * n }
    requires narrow { n ≤ 2 ^ 32 }
    requires part { part < n }
    ensures size { length column.new ≡ 64 }
    ensures same { (i : ℕ) → i < 64 → get_or column.new i 0 ≡ get_or keys.now (i * n + part) 0 }
{
    for i in 0..64 {
        column[i] = keys[i * n + part];
    }
}

/// Adds the heads of a block of keys, and the words of their literal columns. After a refusal some may stand behind the
/// old ones.
fn add_heads(
    heads: &mut Vec<Head>,
    words: &mut Vec<u64>,
    keys: &[u64],
    n: usize,
    taken: u64,
) -> Result<(), AllocError>
    requires long { length keys.now ≡ 64 * n }
    requires narrow { n ≤ 2 ^ 32 }
    ensures ok { OnOk result (AreHeads heads.old.items heads.new.items words.new.items keys.now n n taken) }
    ensures heads { Begins heads.old.items heads.new.items }
    ensures words { Begins words.old.items words.new.items }
{
    if n == 1 {
        let head = pack(words, keys, taken)?;
        heads.push(head)?;
        return Ok(());
    }
    let mut column = [0; 64];
    for part in 0..n {
        gather(&mut column, keys, n, part);
        let head = pack(words, &column, taken)?;
        heads.push(head)?;
    }
    Ok(())
}

/// Adds a block of keys, and blocks without a key behind it up to `count` blocks. After a refusal some of what was to
/// be added may stand behind the old.
fn add(
    present: &mut Vec<u64>,
    heads: &mut Vec<Head>,
    words: &mut Vec<u64>,
    keys: &[u64],
    n: usize,
    taken: u64,
    count: usize,
) -> Result<(), AllocError>
    requires long { length keys.now ≡ 64 * n }
    requires narrow { n ≤ 2 ^ 32 }
    requires more { length present.old.items < count }
    requires heads { length heads.old.items ≡ length present.old.items * n }
    ensures ok { OnOk result (AreAdded present.old.items present.new.items heads.old.items heads.new.items words.new.items keys.now n taken count) }
    ensures present { Begins present.old.items present.new.items }
    ensures heads { Begins heads.old.items heads.new.items }
    ensures words { Begins words.old.items words.new.items }
{
    add_heads(heads, words, keys, n, taken)?;
    present.push(taken)?;
    present.resize(count, 0)?;
    let none = Head {
        literal: 0,
        own: 0,
        full: 0,
        from: 0,
    };
    match count.checked_mul(n) {
        Some(len) => {
            heads.resize(len, none)?;
            Ok(())
        }
        None => Err(AllocError),
    }
}

/// The word of a line of a block, of packed blocks whose keys have `n` words.
fn line_word(
    present: &[u64],
    heads: &[Head],
    words: &[u64],
    n: usize,
    block: usize,
    line: usize,
) -> u64
    requires block { block < length present.now }
    requires narrow { n ≤ 2 ^ 32 }
    requires line { line ≤ 64 * n }
    requires long { length heads.now ≡ length present.now * n }
    requires inside { (k : ℕ) → k < length heads.now → IsInside (get_or heads.now k no_head) words.now }
    ensures { result ≡ line_word n present.now heads.now words.now block line }
{
    if line == 0 {
        return present[block];
    }
    let column = line - 1;
    heads[block * n + column / 64].column(present[block], words, 63 - column % 64)
}

/// How many lines of a block from `line` on have the bits of a key at each row of `among`, the first line the key's highest,
/// as far as it is seen without their words.
fn same_lines(
    present: &[u64],
    heads: &[Head],
    n: usize,
    block: usize,
    line: usize,
    key: u64,
    among: u64,
) -> usize
    requires block { block < length present.now }
    requires narrow { n ≤ 2 ^ 32 }
    requires some { 0 < line }
    requires line { line ≤ 64 * n }
    requires long { length heads.now ≡ length present.now * n }
    ensures few { result ≤ 64 }
    ensures same { (words : List ℕ) (k i : ℕ) → k < result → i < 64 → has_bit among i ≡ true → has_bit (line_word n present.now heads.now words block (line + k)) i ≡ has_bit key (63 - k) }
{
    let column = line - 1;
    let shift = column % 64;
    let head = heads[block * n + column / 64];
    let apart = apart(head.literal, head.full, present[block], among, key >> shift);
    let zeros = (apart << shift).leading_zeros() as usize;
    zeros.min(64 - shift)
}

/// Adds heads whose words stand `from` words further on.
fn add_moved(heads: &mut Vec<Head>, other: &[Head], from: usize) -> Result<(), AllocError>
    requires near { from < 2 ^ 63 }
    requires few { (k : ℕ) → k < length other.now → (get_or other.now k no_head).from < 2 ^ 63 }
    ensures { OnOk result (heads.new.items ≡ heads.old.items ++ map (moved from) other.now) }
{
    heads.reserve(other.len())?;
    for head in other {
        let moved = Head {
            from: head.from + from,
            ..*head
        };
        heads.push(moved)?;
    }
    Ok(())
}

/// For how many blocks there is room once the first is stored.
const FIRST: usize = 16;

/// Blocks of `width` columns, in which a column that is equal in all rows that have a key keeps no word.
#[derive(Drop)]
pub(crate) struct Blocks {
    width: usize,
    present: Vec<u64>,
    heads: Vec<Head>,
    words: Vec<u64>,
}

impl Model for Blocks {
    ghost use Rattle.bits_law.specs.Blocks.{Lines};
    ghost use Rattle.bits_law.specs.Packed.{unpacked, ArePacked};

    ghost Value = { Lines };

    ghost view = { λ b. unpacked b.width b.present.items b.heads.items b.words.items };

    ghost invariant = { λ b. ArePacked b.width b.present.items b.heads.items b.words.items };
}

impl Blocks {
    /// No blocks.
    pub(crate) fn new(alloc: Global, width: usize) -> Blocks
        requires { width ≤ 2 ^ 32 }
        ensures width { result.width ≡ width }
        ensures blocks { result.blocks ≡ [] }
    {
        Blocks {
            width,
            present: Vec::new(alloc),
            heads: Vec::new(alloc),
            words: Vec::new(alloc),
        }
    }

    /// How many columns there are.
    pub(crate) fn width(&self) -> usize
        ensures value { result ≡ self.now.width }
        ensures narrow { result ≤ 2 ^ 32 }
    {
        self.width
    }

    /// How many words a key has.
    pub(crate) fn parts(&self) -> usize
        ensures value { result ≡ parts self.now.width }
        ensures narrow { result ≤ 2 ^ 32 }
    {
        (self.width + 63) / 64
    }

    /// How many blocks there are.
    pub(crate) fn count(&self) -> usize
        ensures { result ≡ length self.now.blocks }
    {
        self.present.len()
    }

    /// The word of a line in a block.
    pub(crate) fn word(&self, block: usize, line: usize) -> u64
        requires block { block < length self.now.blocks }
        requires line { line ≤ self.now.width }
        ensures { result ≡ word_at self.now block line }
    {
        line_word(
            &self.present,
            &self.heads,
            &self.words,
            self.parts(),
            block,
            line,
        )
    }

    /// How many lines of a block from `line` on have the bits of a key at each row of `among`, the first line the key's
    /// highest, as far as it is seen without their words.
    pub(crate) fn same(&self, block: usize, line: usize, key: u64, among: u64) -> usize
        requires block { block < length self.now.blocks }
        requires some { 0 < line }
        requires line { line ≤ self.now.width }
        ensures few { result ≤ 64 }
        ensures same { (k i : ℕ) → k < result → line + k ≤ self.now.width → i < 64 → has_bit among i ≡ true → has_bit (word_at self.now block (line + k)) i ≡ has_bit key (63 - k) }
    {
        same_lines(
            &self.present,
            &self.heads,
            self.parts(),
            block,
            line,
            key,
            among,
        )
    }

    /// Makes room for the first blocks, where there are none.
    pub(crate) fn make_room(&mut self) -> Result<(), AllocError>
        ensures { self.new ≡ self.old }
    {
        if self.present.is_empty() {
            self.present.reserve(FIRST)?;
            self.heads.reserve(FIRST)?;
        }
        Ok(())
    }

    /// Adds a block of the keys that `taken` has, and blocks without a key behind it up to `count` blocks. After a
    /// refusal the blocks are as before.
    pub(crate) fn store(&mut self, keys: &[u64], taken: u64, count: usize) -> Result<(), AllocError>
        requires long { length keys.now ≡ 64 * parts self.old.width }
        requires more { length self.old.blocks < count }
        ensures ok { OnOk result (IsStored self.old self.new keys.now taken count) }
        ensures err { OnErr result (self.new ≡ self.old) }
    {
        let n = self.parts();
        let (blocks, heads, words) = (self.present.len(), self.heads.len(), self.words.len());
        match add(
            &mut self.present,
            &mut self.heads,
            &mut self.words,
            keys,
            n,
            taken,
            count,
        ) {
            Ok(()) => Ok(()),
            Err(error) => {
                self.present.truncate(blocks);
                self.heads.truncate(heads);
                self.words.truncate(words);
                Err(error)
            }
        }
    }

    /// Adds other blocks of as many columns behind.
    pub(crate) fn extend(self, other: &Blocks) -> Result<Blocks, AllocError>
        requires { other.now.width ≡ self.width }
        ensures { IfOk result (AreBehind self other.now) }
    {
        let Blocks {
            width,
            present,
            heads,
            words,
        } = self;
        let mut blocks = Blocks {
            width,
            present,
            heads,
            words,
        };
        let from = blocks.words.len();
        blocks.present.extend_from_slice(&other.present)?;
        add_moved(&mut blocks.heads, &other.heads, from)?;
        blocks.words.extend_from_slice(&other.words)?;
        Ok(blocks)
    }
}
