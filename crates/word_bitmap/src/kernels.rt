//! Loops over literal words.
ghost use Rattle.std.specs.Prelude.{◌≡◌, ◌+◌, ◌*◌, ◌^◌, ◌<◌, ◌≤◌, ◌++◌, ℕ, map, length, take, drop, count_by, get_or, vec_len, vec_capacity};
ghost use Rattle.bits_law.specs.Bitwise.{bits_below};
ghost use Rattle.word_bitmap.specs.Words.{spelled, word_of, chosen};
ghost use lib.Lanes.{zip2};

use crate::combine::Ones;
use std::simd::prelude::*;

/// Joins to each word the other list's word at its place.
pub fn join_all(words: &mut [u64], others: &[u64], ones: Ones)
    requires { length words.old ≡ length others.now }
    ensures { words.new ≡ zip2 (word_of ones) words.old others.now }
{
    let whole = words.len() / 8;
    for k in 0..whole {
        let a = u64x8::from_slice(&words[8 * k..]);
        let b = u64x8::from_slice(&others[8 * k..]);
        ones.lanes(a, b).copy_to_slice(&mut words[8 * k..]);
    }
    for i in 8 * whole..words.len() {
        words[i] = ones.word(words[i], others[i]);
    }
}

/// Takes for each one of the words the bit of `set` at its place, and for each zero that of `clear`.
pub fn choose_all(words: &mut [u64], clear: u64, set: u64)
    ensures { words.new ≡ map (chosen clear set) words.old }
{
    let turned = clear ^ set;
    for i in 0..words.len() {
        words[i] = clear ^ (words[i] & turned);
    }
}

/// How many ones the words have.
pub fn count_all(words: &[u64]) -> u64
    requires { length words.now ≤ 2 ^ 40 }
    ensures value { result ≡ count_by (λ bit. bit) (spelled words.now) }
    ensures bounded { result ≤ 64 * length words.now }
{
    let mut ones = 0;
    for word in words {
        ones += word.count_ones() as u64;
    }
    ones
}

/// The index of the first word that isn't 0, or the number of words.
pub fn first_set(words: &[u64]) -> usize
    ensures within { result ≤ length words.now }
    ensures clear { (k : ℕ) → k < result → get_or words.now k 0 ≡ 0 }
    ensures set { result < length words.now → 0 < get_or words.now result 0 }
{
    for i in 0..words.len() {
        if words[i] != 0 {
            return i;
        }
    }
    words.len()
}

/// Appends words behind an unfinished one of `held` bits, and gives what is unfinished then.
pub fn shift_in(literals: &mut Vec<u64>, words: &[u64], last: u64, held: u64) -> u64
    requires held { held < 64 }
    requires last { last < 2 ^ held }
    requires room { vec_len literals.old + length words.now ≤ vec_capacity literals.old }
    ensures bits { spelled (drop (vec_len literals.old) literals.new.items) ++ bits_below result held ≡ bits_below last held ++ spelled words.now }
    ensures kept { take (vec_len literals.old) literals.new.items ≡ literals.old.items }
    ensures last { result < 2 ^ held }
    ensures len { vec_len literals.new ≡ vec_len literals.old + length words.now }
    ensures capacity { vec_capacity literals.old ≤ vec_capacity literals.new }
{
    let mut rest = last;
    for word in words {
        let joined = rest as u128 + ((*word as u128) << held);
        literals.push((joined % (1 << 64)) as u64).unwrap();
        rest = (joined >> 64) as u64;
    }
    rest
}
