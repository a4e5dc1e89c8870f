ghost use Rattle.std.specs.Prelude.{◌≡◌, ℕ, ◌+◌, ◌-◌, ◌*◌, ◌/◌, ◌%◌, ◌^◌, ◌<◌, ◌≤◌, ◌&&◌, Bool, true, false, List, length, get_or, map, count_ones, OnOk, IfOk, nat_eq};
ghost use Rattle.std.specs.Simd.Lanes.{mask_l};
ghost use Rattle.bits_law.specs.Numbers.{has_bit};
ghost use Rattle.bits_law.specs.declared.head.Head.{Head};
ghost use Rattle.bits_law.specs.Packed.{column_word, IsInside, IsHead, IsPlane, AreFilled, Begins};

use crate::slices::has_bit;
use std::alloc::AllocError;
use std::simd::prelude::*;

/// 64 columns of a block, the first column's bit highest. A literal column has a word: those of a head stand from `from`
/// on, in the order of their columns. A column that has no word of `own` has that of the first one below it that has. Of
/// the columns that aren't literal, a full one is set at each row that has a key, and the rest at none.
#[derive(Clone, Copy)]
pub(crate) struct Head {
    pub(crate) literal: u64,
    pub(crate) own: u64,
    pub(crate) full: u64,
    pub(crate) from: usize,
}

impl Head {
    /// The word of the column at bit `at`.
    pub(crate) fn column(&self, present: u64, words: &[u64], at: usize) -> u64
        requires inside { IsInside self.now words.now }
        requires at { at < 64 }
        ensures { result ≡ column_word present words.now self.now at }
    {
        if has_bit(self.literal, at) {
            let above = (self.own >> at) >> 1;
            words[self.from + above.count_ones() as usize]
        } else if has_bit(self.full, at) {
            present
        } else {
            0
        }
    }
}

/// The columns at which a row of `among` may not have the bit of `key`, of a head with these literal and full columns. In
/// the others each row has it, which is seen without a word.
pub(crate) fn apart(literal: u64, full: u64, present: u64, among: u64, key: u64) -> u64
    ensures { (words : List ℕ) (head : Head) (c i : ℕ) → head.literal ≡ literal → head.full ≡ full → c < 64 → i < 64 → has_bit result c ≡ false → has_bit among i ≡ true → has_bit (column_word present words head c) i ≡ has_bit key c }
{
    let other = (full & !key) | (key & !full);
    let apart = literal | other;
    if among & !present == 0 {
        apart
    } else {
        apart | full
    }
}

/// The bits that any, and those that each of some keys has, and those of which any key has not the next higher one too,
/// or that one alone.
#[derive(Clone, Copy)]
struct Shared {
    any: u64,
    each: u64,
    apart: u64,
}

/// The bits of 64 keys, of which all count.
fn shared_by_all(keys: &[u64]) -> Shared
    requires long { length keys.now ≡ 64 }
    ensures any { (taken c i : ℕ) → c < 64 → i < 64 → has_bit taken i ≡ true → has_bit (get_or keys.now i 0) c ≡ true → has_bit result.any c ≡ true }
    ensures each { (taken c i : ℕ) → c < 64 → i < 64 → has_bit taken i ≡ true → has_bit result.each c ≡ true → has_bit (get_or keys.now i 0) c ≡ true }
    ensures apart { (taken c i : ℕ) → c + 1 < 64 → i < 64 → has_bit taken i ≡ true → has_bit result.apart c ≡ false → has_bit (get_or keys.now i 0) (c + 1) ≡ has_bit (get_or keys.now i 0) c }
    ensures small { result.each < 2 ^ 64 }
    ensures narrow { result.apart < 2 ^ 64 }
{
    let mut any = 0;
    let mut each = u64::MAX;
    let mut apart = 0;
    for i in 0..64 {
        let key = keys[i];
        any |= key;
        each &= key;
        apart |= key ^ (key >> 1);
    }
    Shared { any, each, apart }
}

/// The bits of the keys that `taken` has.
fn shared_bits(keys: &[u64], taken: u64) -> Shared
    requires long { length keys.now ≡ 64 }
    ensures any { (c i : ℕ) → c < 64 → i < 64 → has_bit taken i ≡ true → has_bit (get_or keys.now i 0) c ≡ true → has_bit result.any c ≡ true }
    ensures each { (c i : ℕ) → c < 64 → i < 64 → has_bit taken i ≡ true → has_bit result.each c ≡ true → has_bit (get_or keys.now i 0) c ≡ true }
    ensures apart { (c i : ℕ) → c + 1 < 64 → i < 64 → has_bit taken i ≡ true → has_bit result.apart c ≡ false → has_bit (get_or keys.now i 0) (c + 1) ≡ has_bit (get_or keys.now i 0) c }
    ensures small { result.each < 2 ^ 64 }
    ensures narrow { result.apart < 2 ^ 64 }
{
    if taken == u64::MAX {
        return shared_by_all(keys);
    }
    let mut any = 0;
    let mut each = u64::MAX;
    let mut apart = 0;
    for i in 0..64 {
        let key = keys[i];
        if has_bit(taken, i) {
            any |= key;
            each &= key;
            apart |= key ^ (key >> 1);
        }
    }
    Shared { any, each, apart }
}

/// Makes `plane` that of a byte of the keys, the lowest being byte 0. It is that of byte `made` already.
fn turn(plane: &mut [u8], keys: &[u64], byte: usize, made: usize)
    requires size { length plane.old ≡ 64 }
    requires long { length keys.now ≡ 64 }
    requires byte { byte < 8 }
    requires before { made < 8 → IsPlane plane.old keys.now made 64 }
    ensures size { length plane.new ≡ 64 }
    ensures plane { IsPlane plane.new keys.now byte 64 }
{
    if byte == made {
        return;
    }
    for i in 0..64 {
        plane[i] = ((keys[i] >> (8 * byte)) % 256) as u8;
    }
}

/// The bit `at` of each byte of a plane.
fn marks(plane: &[u8], at: usize) -> u64
    requires size { length plane.now ≡ 64 }
    requires at { at < 8 }
    ensures { result ≡ mask_l (map (λ b. has_bit b at) plane.now) }
{
    let v = u8x64::from_slice(plane);
    let mark = u8x64::splat(1 << at);
    (v & mark).simd_eq(mark).to_bitmask()
}

/// Adds the words of the columns that `own` has, the highest first. After a refusal some may stand behind the old words.
fn fill(words: &mut Vec<u64>, keys: &[u64], taken: u64, own: u64) -> Result<(), AllocError>
    requires long { length keys.now ≡ 64 }
    ensures ok { OnOk result (AreFilled words.old.items words.new.items own 0 (λ c i. has_bit taken i && has_bit (get_or keys.now i 0) c)) }
    ensures before { Begins words.old.items words.new.items }
{
    if own == 0 {
        return Ok(());
    }
    let mut plane = [0; 64];
    let mut made = 8;
    let mut at = 64;
    let mut left = own;
    while left != 0 {
        at = 63 - left.leading_zeros() as usize;
        left &= !(1 << at);
        turn(&mut plane, keys, at / 8, made);
        made = at / 8;
        words.push(marks(&plane, at % 8) & taken)?;
    }
    Ok(())
}

/// Adds the words of 64 columns of keys, and makes their head. After a refusal some may stand behind the old words.
pub(crate) fn pack(words: &mut Vec<u64>, keys: &[u64], taken: u64) -> Result<Head, AllocError>
    requires long { length keys.now ≡ 64 }
    ensures ok { IfOk result (λ h. IsHead h words.new.items (λ i. get_or keys.now i 0) taken) }
    ensures before { Begins words.old.items words.new.items }
{
    let Shared { any, each, apart } = shared_bits(keys, taken);
    let literal = any & !each;
    let own = literal & !((literal & !apart) << 1);
    let from = words.len();
    fill(words, keys, taken, own)?;
    Ok(Head {
        literal,
        own,
        full: each,
        from,
    })
}
