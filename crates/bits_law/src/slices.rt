ghost use Rattle.std.specs.Prelude.{◌≡◌, ℕ, ◌/◌, ◌%◌, ◌^◌, ◌<◌, ◌≤◌, ◌&&◌, ◌||◌, Bool, false, List, length, map, replicate, IfOk, get_or, [], nat_lt, nat_eq, if◌then◌else◌};
ghost use Rattle.bits_law.specs.Bitwise.{bitwise, and_not};
ghost use Rattle.bits_law.specs.Numbers.{number_at, holds, IsAnswer};

use crate::bits::Bits;
use std::alloc::{AllocError, Global};

/// A relation between a number and a key.
#[derive(Clone, Copy, Debug, PartialEq, Eq)]
pub enum Order {
    Eq,
    Ne,
    Lt,
    Le,
    Gt,
    Ge,
}

/// The rows whose number, as far as it is read, is below the key's, and those where the two are equal.
#[derive(Drop)]
struct Split<B: Bits> {
    below: B,
    equal: B,
}

impl<B: Bits> Split<B> {
    /// Reads one more slice, of which the key has `bit`.
    fn narrow(self, slice: &B, bit: bool) -> Result<Split<B>, AllocError>
        requires below { length (B.bits self.below) ≡ length (B.bits slice.now) }
        requires equal { length (B.bits self.equal) ≡ length (B.bits slice.now) }
        ensures below { IfOk result (λ s. B.bits s.below
            ≡ (if bit then bitwise ◌||◌ (B.bits self.below) (bitwise and_not (B.bits self.equal) (B.bits slice.now)) else B.bits self.below)) }
        ensures equal { IfOk result (λ s. B.bits s.equal
            ≡ (if bit then bitwise ◌&&◌ (B.bits self.equal) (B.bits slice.now) else bitwise and_not (B.bits self.equal) (B.bits slice.now))) }
    {
        let Split { below, equal } = self;
        let lacking = equal.and_not(slice)?;
        if bit {
            Ok(Split {
                below: below.or(&lacking)?,
                equal: equal.and(slice)?,
            })
        } else {
            Ok(Split {
                below,
                equal: lacking,
            })
        }
    }
}

/// Whether the bit `at` of a key is set, the lowest being bit 0.
pub(crate) fn has_bit(key: u64, at: usize) -> bool
    requires { at < 64 }
    ensures { result ≡ nat_eq (key / 2 ^ at % 2) 1 }
{
    key >> at & 1 == 1
}

/// `rows` bits that are all 0.
fn clear<B: Bits>(alloc: Global, rows: u64) -> Result<B, AllocError>
    ensures { IfOk result (λ b. B.bits b ≡ replicate rows false) }
{
    let mut bits = B::empty(alloc);
    match bits.push_run(false, rows) {
        Ok(()) => Ok(bits),
        Err(_) => Err(AllocError),
    }
}

/// The split before any of `count` slices is read. A key of more than `count` bits is above every number.
fn begin<B: Bits>(
    alloc: Global,
    present: &B,
    count: usize,
    key: u64,
) -> Result<Split<B>, AllocError>
    requires { count ≤ 64 }
    ensures below { IfOk result (λ s. IsAnswer (B.bits s.below) (B.bits present.now) (λ _. nat_lt 0 (key / 2 ^ count))) }
    ensures equal { IfOk result (λ s. IsAnswer (B.bits s.equal) (B.bits present.now) (λ _. nat_eq 0 (key / 2 ^ count))) }
{
    let none = clear(alloc, present.len())?;
    let all = present.duplicate()?;
    if count < 64 && key >> count != 0 {
        Ok(Split {
            below: all,
            equal: none,
        })
    } else {
        Ok(Split {
            below: none,
            equal: all,
        })
    }
}

/// Splits the present rows by the key, from the highest slice down.
fn split_by_key<B: Bits>(
    alloc: Global,
    slices: &[B],
    present: &B,
    key: u64,
) -> Result<Split<B>, AllocError>
    requires few { length slices.now ≤ 64 }
    requires even { (j : ℕ) → j < length slices.now → length (get_or (map B.bits slices.now) j []) ≡ length (B.bits present.now) }
    ensures below { IfOk result (λ s. IsAnswer (B.bits s.below) (B.bits present.now) (λ row. nat_lt (number_at (map B.bits slices.now) row) key)) }
    ensures equal { IfOk result (λ s. IsAnswer (B.bits s.equal) (B.bits present.now) (λ row. nat_eq (number_at (map B.bits slices.now) row) key)) }
{
    let count = slices.len();
    let mut split = begin(alloc, present, count, key)?;
    for (j, slice) in slices.iter().enumerate() {
        let bit = has_bit(key, count - 1 - j);
        split = split.narrow(slice, bit)?;
    }
    Ok(split)
}

/// The present rows whose number stands in the relation `rel` to `key`. A row's number is read from its slices, the
/// highest first. Equality and order are found together, from the highest slice down (O'Neil and Quass, "Improved
/// Query Performance with Variant Indexes", 1997), with two or three bitmap operations for each slice.
pub fn slices_ask<B: Bits>(
    alloc: Global,
    slices: &[B],
    present: &B,
    rel: Order,
    key: u64,
) -> Result<B, AllocError>
    requires some { 0 < length slices.now }
    requires few { length slices.now ≤ 64 }
    requires even { (j : ℕ) → j < length slices.now → length (get_or (map B.bits slices.now) j []) ≡ length (B.bits present.now) }
    ensures { IfOk result (λ b. IsAnswer (B.bits b) (B.bits present.now) (λ row. holds rel (number_at (map B.bits slices.now) row) key)) }
{
    let Split { below, equal } = split_by_key(alloc, slices, present, key)?;
    match rel {
        Order::Eq => Ok(equal),
        Order::Ne => present.and_not(&equal),
        Order::Lt => Ok(below),
        Order::Le => below.or(&equal),
        Order::Gt => present.and_not(&below.or(&equal)?),
        Order::Ge => present.and_not(&below),
    }
}
