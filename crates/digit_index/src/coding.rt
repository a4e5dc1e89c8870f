ghost use Rattle.std.specs.Prelude.{◌≡◌, ℕ, ◌+◌, ◌-◌, ◌<◌, ◌≤◌, ◌*◌, ◌^◌, ◌&&◌, ◌||◌, length, get_or, nat_eq, nat_le, nat_lt};
ghost use Rattle.bits_law.specs.Numbers.{has_bit};
ghost use Rattle.digit_index.specs.declared.coding.Coding.TheVariants.{Equality};
ghost use Rattle.digit_index.specs.Digits.{AreBases, columns_of, is_coded, width, digit_bit};

use crate::bases::Bases;
use bits_law::RowBits;

/// Which bitmaps a digit has.
#[derive(Clone, Copy, Debug, PartialEq, Eq)]
pub enum Coding {
    /// One for each value: the rows whose digit has that value.
    Equality,
    /// One for each value but the highest: the rows whose digit is at most that value.
    Range,
}

/// How many bitmaps a digit of this base has.
pub(crate) fn columns_of(coding: Coding, base: u16) -> usize
    ensures { result ≡ columns_of coding base }
{
    match coding {
        Coding::Equality => base as usize,
        Coding::Range => (base as usize).saturating_sub(1),
    }
}

/// Whether a digit is in the bitmap of `value`.
fn is_coded(coding: Coding, value: usize, digit: u64) -> bool
    ensures { result ≡ is_coded coding value digit }
{
    match coding {
        Coding::Equality => digit == value as u64,
        Coding::Range => digit <= value as u64,
    }
}

/// How many bitmaps all digits have.
pub(crate) fn width(coding: Coding, bases: &Bases) -> usize
    ensures { result ≡ width coding bases.now }
{
    let bases = bases.as_slice();
    let mut columns = 0;
    for j in 0..bases.len() {
        columns += columns_of(coding, bases[j]);
    }
    columns
}

/// Whether a key is in the bitmap `column`.
fn digit_bit(coding: Coding, bases: &Bases, column: usize, key: u64) -> bool
    ensures { result ≡ digit_bit coding bases.now column key }
{
    let bases = bases.as_slice();
    let mut column = column;
    let mut rest = key;
    for j in 0..bases.len() {
        let base = bases[j] as u64;
        let count = columns_of(coding, bases[j]);
        if column < count {
            return is_coded(coding, column, rest % base);
        }
        column -= count;
        rest /= base;
    }
    false
}

/// The columns from `at` on among 64, the first column's bit highest.
fn ones_from(at: usize) -> u64
    ensures { (j : ℕ) → j < 64 → has_bit result (63 - j) ≡ nat_le at j }
{
    if at < 64 { u64::MAX >> at } else { 0 }
}

/// The columns before `at` among 64, the first column's bit highest.
fn ones_before(at: usize) -> u64
    ensures { (j : ℕ) → j < 64 → has_bit result (63 - j) ≡ nat_lt j at }
{
    !ones_from(at)
}

/// Sets bits of the word at `at`, if there is one.
fn add_ones(words: &mut [u64], at: usize, ones: u64)
    ensures long { length words.new ≡ length words.old }
    ensures bits { (part i : ℕ) → part < length words.old → has_bit (get_or words.new part 0) i ≡ (has_bit (get_or words.old part 0) i || (nat_eq part at && has_bit ones i)) }
{
    if at < words.len() {
        words[at] |= ones;
    }
}

/// Sets all bits of the words from `from` on and before `to`.
fn fill_words(words: &mut [u64], from: usize, to: usize)
    ensures long { length words.new ≡ length words.old }
    ensures bits { (part i : ℕ) → part < length words.old → i < 64 → has_bit (get_or words.new part 0) i ≡ (has_bit (get_or words.old part 0) i || (nat_le from part && nat_lt part to)) }
{
    for part in from..words.len().min(to) {
        words[part] = u64::MAX;
    }
}

/// Sets the bits of the columns from `first` on and before `end` in words of 64 columns, the first column's bit highest.
fn set_columns(words: &mut [u64], first: usize, end: usize)
    ensures long { length words.new ≡ length words.old }
    ensures bits { (part j : ℕ) → part < length words.old → j < 64 → has_bit (get_or words.new part 0) (63 - j) ≡ (has_bit (get_or words.old part 0) (63 - j) || (nat_le first (64 * part + j) && nat_lt (64 * part + j) end)) }
{
    if end <= first {
        return;
    }
    let at = first / 64;
    let last = end / 64;
    let ones = ones_from(first % 64);
    let more = ones_before(end % 64);
    if at == last {
        add_ones(words, at, ones & more);
        return;
    }
    add_ones(words, at, ones);
    fill_words(words, at + 1, last);
    add_ones(words, last, more);
}

/// Sets the bits of a digit's columns in words of 64 columns, the first column's bit highest. The digit has `count`
/// columns from `from` on.
fn add_digit(words: &mut [u64], coding: Coding, from: usize, count: usize, digit: usize)
    requires room { from + count ≤ 4096 }
    requires small { digit ≤ 256 }
    requires within { coding ≡ Equality → digit < count }
    requires long { length words.old ≤ 2 ^ 57 }
    ensures long { length words.new ≡ length words.old }
    ensures bits { (part j : ℕ) → part < length words.old → j < 64 → has_bit (get_or words.new part 0) (63 - j) ≡ (has_bit (get_or words.old part 0) (63 - j) || (nat_le from (64 * part + j) && nat_lt (64 * part + j) (from + count) && is_coded coding (64 * part + j - from) digit)) }
{
    let first = from + digit;
    let end = match coding {
        Coding::Equality => first + 1,
        Coding::Range => from + count,
    };
    set_columns(words, first, end);
}

/// Makes `words` the bits of all digits' columns, 64 in each word, the first column's bit highest.
fn digit_words(words: &mut [u64], coding: Coding, bases: &Bases, key: u64)
    requires { length words.old ≤ 2 ^ 57 }
    ensures long { length words.new ≡ length words.old }
    ensures bits { (part j : ℕ) → part < length words.old → j < 64 → has_bit (get_or words.new part 0) (63 - j) ≡ digit_bit coding bases.now (64 * part + j) key }
{
    words.fill(0);
    let bases = bases.as_slice();
    let mut from = 0;
    let mut rest = key;
    for k in 0..bases.len() {
        let base = bases[k] as u64;
        let count = columns_of(coding, bases[k]);
        add_digit(words, coding, from, count, (rest % base) as usize);
        from += count;
        rest /= base;
    }
}

/// The bits that a key sets.
#[derive(Drop)]
pub(crate) struct DigitKey<'a> {
    pub(crate) key: u64,
    pub(crate) coding: Coding,
    pub(crate) bases: &'a Bases,
}

impl<'a> RowBits for DigitKey<'a> {
    ghost bit = { λ k j. digit_bit k.coding k.bases.now j k.key };

    fn bit(&self, column: usize) -> bool {
        digit_bit(self.coding, self.bases, column, self.key)
    }

    fn words(&self, words: &mut [u64]) {
        digit_words(words, self.coding, self.bases, self.key);
    }
}
