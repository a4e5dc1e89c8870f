ghost use Rattle.std.specs.Prelude.{◌≡◌, ℕ, ◌+◌, ◌-◌, ◌*◌, ◌/◌, ◌%◌, ◌^◌, ◌<◌, ◌≤◌, ◌&&◌, ◌||◌, Bool, true, false, not, List, [], length, get_or, IfOk, nat_eq, nat_lt, if◌then◌else◌};
ghost use Rattle.bits_law.specs.Numbers.{has_bit, holds, IsAnswer};
ghost use Rattle.bits_law.specs.Blocks.{blocks, block_in, bit_in, line_of, asked_rows, number_in};

use crate::bits::Bits;
use crate::packed::Blocks;
use crate::slices::{Order, has_bit};
use std::alloc::{AllocError, Global};

/// How many blocks of 64 rows hold `rows` rows.
fn blocks_of(rows: u64) -> usize
    requires { rows ≤ 2 ^ 40 }
    ensures { result ≡ blocks rows }
{
    ((rows + 63) / 64) as usize
}

/// The bits of a block whose number, as far as it is read, is below the key's, and those where the two are equal.
#[derive(Clone, Copy)]
struct Halves {
    below: u64,
    equal: u64,
}

impl Halves {
    /// Before any of `count` words is read. A key of more than `count` bits is above every number.
    fn begin(count: usize, key: u64, among: u64) -> Halves
        requires { count ≤ 64 }
        ensures below { (i : ℕ) → i < 64 → has_bit result.below i ≡ (has_bit among i && nat_lt 0 (key / 2 ^ count)) }
        ensures equal { (i : ℕ) → i < 64 → has_bit result.equal i ≡ (has_bit among i && nat_eq 0 (key / 2 ^ count)) }
    {
        if count < 64 && key >> count != 0 {
            Halves {
                below: among,
                equal: 0,
            }
        } else {
            Halves {
                below: 0,
                equal: among,
            }
        }
    }

    /// Reads one more word, of which the key has `bit`.
    fn narrow(self, word: u64, bit: bool) -> Halves
        ensures below { (i : ℕ) → i < 64 → has_bit result.below i ≡ (if bit then has_bit self.below i || (has_bit self.equal i && not (has_bit word i)) else has_bit self.below i) }
        ensures equal { (i : ℕ) → i < 64 → has_bit result.equal i ≡ (has_bit self.equal i && (if bit then has_bit word i else not (has_bit word i))) }
    {
        if bit {
            Halves {
                below: self.below | self.equal & !word,
                equal: self.equal & word,
            }
        } else {
            Halves {
                below: self.below,
                equal: self.equal & !word,
            }
        }
    }

    /// The bits of a relation.
    fn related(self, rel: Order) -> u64
        ensures { (i n key : ℕ) → i < 64 → has_bit self.below i ≡ nat_lt n key → has_bit self.equal i ≡ nat_eq n key → has_bit result i ≡ holds rel n key }
    {
        match rel {
            Order::Eq => self.equal,
            Order::Ne => !self.equal,
            Order::Lt => self.below,
            Order::Le => self.below | self.equal,
            Order::Gt => !(self.below | self.equal),
            Order::Ge => !self.below,
        }
    }
}

/// The rows of a block that are asked: all, or those that have a key.
fn asked(blocks: &Blocks, block: usize, all: bool) -> u64
    requires { block < length blocks.now.blocks }
    ensures { (i : ℕ) → i < 64 → has_bit result i ≡ (all || has_bit (get_or (get_or blocks.now.blocks block []) 0 0) i) }
{
    if all { u64::MAX } else { blocks.word(block, 0) }
}

/// Splits the bits of `among` by the number that `count` lines of a block from `first` on spell, from the highest down.
/// Lines that have the key's bit at all of these rows are passed over, and nothing more is read once no number is equal
/// to the key's first bits.
fn split(blocks: &Blocks, block: usize, first: usize, count: usize, key: u64, among: u64) -> Halves
    requires few { count ≤ 64 }
    requires block { block < length blocks.now.blocks }
    requires some { 0 < first }
    requires inside { first + count ≤ blocks.now.width + 1 }
    requires narrow { first ≤ 2 ^ 40 }
    ensures below { (i : ℕ) → i < 64 → has_bit result.below i ≡ (has_bit among i && nat_lt (number_in (get_or blocks.now.blocks block []) first count i) key) }
    ensures equal { (i : ℕ) → i < 64 → has_bit result.equal i ≡ (has_bit among i && nat_eq (number_in (get_or blocks.now.blocks block []) first count i) key) }
{
    let mut halves = Halves::begin(count, key, among);
    let mut j = 0;
    while j < count && halves.equal != 0 {
        let same = blocks.same(block, first + j, key << (64 - (count - j)), among);
        j = count.min(j + same);
        if j < count {
            let bit = has_bit(key, count - 1 - j);
            halves = halves.narrow(blocks.word(block, first + j), bit);
            j += 1;
        }
    }
    halves
}

/// What is asked of a table's lines: whether the number that `count` lines from `first` on spell, the highest first,
/// stands in a relation to a key.
#[derive(Clone, Copy)]
pub(crate) struct Question {
    pub(crate) first: usize,
    pub(crate) count: usize,
    pub(crate) rel: Order,
    pub(crate) key: u64,
}

impl Question {
    /// The answer in one block, among all of its rows or those that have a key.
    fn block(&self, blocks: &Blocks, block: usize, all: bool) -> u64
        requires few { self.now.count ≤ 64 }
        requires block { block < length blocks.now.blocks }
        requires some { 0 < self.now.first }
        requires inside { self.now.first + self.now.count ≤ blocks.now.width + 1 }
        requires narrow { self.now.first ≤ 2 ^ 40 }
        ensures { (i : ℕ) → i < 64 → has_bit result i ≡ ((all || has_bit (get_or (get_or blocks.now.blocks block []) 0 0) i) && holds self.now.rel (number_in (get_or blocks.now.blocks block []) self.now.first self.now.count i) self.now.key) }
    {
        let among = asked(blocks, block, all);
        let halves = split(blocks, block, self.first, self.count, self.key, among);
        among & halves.related(self.rel)
    }

    /// The answer in a block of `blocks`, or in the one behind them, which is `last`.
    fn word(&self, blocks: &Blocks, last: &Blocks, block: usize, all: bool) -> u64
        requires few { self.now.count ≤ 64 }
        requires block { block ≤ length blocks.now.blocks }
        requires one { length last.now.blocks ≡ 1 }
        requires width { last.now.width ≡ blocks.now.width }
        requires some { 0 < self.now.first }
        requires inside { self.now.first + self.now.count ≤ blocks.now.width + 1 }
        requires narrow { self.now.first ≤ 2 ^ 40 }
        ensures { (i : ℕ) → i < 64 → has_bit result i ≡ ((all || has_bit (get_or (block_in blocks.now last.now block) 0 0) i) && holds self.now.rel (number_in (block_in blocks.now last.now block) self.now.first self.now.count i) self.now.key) }
    {
        if block < blocks.count() {
            self.block(blocks, block, all)
        } else {
            self.block(last, 0, all)
        }
    }
}

/// The answer row by row, of all rows or of those that have a key. The rows stand in `blocks`, and those behind in
/// `last`.
pub(crate) fn answer<B: Bits>(
    blocks: &Blocks,
    last: &Blocks,
    alloc: Global,
    rows: u64,
    all: bool,
    question: Question,
) -> Result<B, AllocError>
    requires short { rows ≤ 2 ^ 40 }
    requires near { rows ≤ 64 * length blocks.now.blocks + 64 }
    requires one { length last.now.blocks ≡ 1 }
    requires width { last.now.width ≡ blocks.now.width }
    requires few { question.count ≤ 64 }
    requires some { 0 < question.first }
    requires within { question.first + question.count ≤ blocks.now.width + 1 }
    requires narrow { question.first ≤ 2 ^ 40 }
    ensures { IfOk result (λ b. IsAnswer (B.bits b) (asked_rows (bit_in blocks.now last.now) rows all) (λ row. holds question.rel (number_in (block_in blocks.now last.now (row / 64)) question.first question.count (row % 64)) question.key)) }
{
    let mut bits = B::empty(alloc);
    for block in 0..blocks_of(rows) {
        let n = (rows - 64 * block as u64).min(64);
        let word = question.word(blocks, last, block, all);
        match bits.push_word(word, n) {
            Ok(()) => {}
            Err(_) => return Err(AllocError),
        }
    }
    Ok(bits)
}

/// The word of a line in a block of `blocks`, or in the one behind them, which is `last`.
fn word(blocks: &Blocks, last: &Blocks, block: usize, at: usize) -> u64
    requires block { block ≤ length blocks.now.blocks }
    requires one { length last.now.blocks ≡ 1 }
    requires width { last.now.width ≡ blocks.now.width }
    requires at { at ≤ blocks.now.width }
    ensures { result ≡ get_or (block_in blocks.now last.now block) at 0 }
{
    if block < blocks.count() {
        blocks.word(block, at)
    } else {
        last.word(0, at)
    }
}

/// A line's bits.
pub(crate) fn line<B: Bits>(
    blocks: &Blocks,
    last: &Blocks,
    alloc: Global,
    rows: u64,
    at: usize,
) -> Result<B, AllocError>
    requires short { rows ≤ 2 ^ 40 }
    requires near { rows ≤ 64 * length blocks.now.blocks + 64 }
    requires one { length last.now.blocks ≡ 1 }
    requires width { last.now.width ≡ blocks.now.width }
    requires within { at ≤ blocks.now.width }
    ensures { IfOk result (λ b. B.bits b ≡ line_of (bit_in blocks.now last.now) rows at) }
{
    let mut bits = B::empty(alloc);
    for block in 0..blocks_of(rows) {
        let n = (rows - 64 * block as u64).min(64);
        match bits.push_word(word(blocks, last, block, at), n) {
            Ok(()) => {}
            Err(_) => return Err(AllocError),
        }
    }
    Ok(bits)
}
