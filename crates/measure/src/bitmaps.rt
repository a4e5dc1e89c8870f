//! Appends of single bits to two bitmaps of one form, and what is then joined, counted and walked.
ghost use Rattle.std.specs.Prelude.{◌<◌};

use bits_law::Bits;
use std::alloc::Global;
use std::rt::Clock;
use std::time::{Duration, Instant};

/// How long the appends to both bitmaps took, and each operation on them, and how many ones both have in common.
#[derive(Clone, Copy)]
pub struct Spent {
    pub append: Duration,
    pub and: Duration,
    pub or: Duration,
    pub not: Duration,
    pub count: Duration,
    pub walk: Duration,
    pub ones: u64,
}

/// Measures two bitmaps of so many bits, of which one in so many is set.
pub fn measure<B: Bits, R: Clock>(
    rt: &R,
    alloc: Global,
    bits: u64,
    one_in: u64,
) -> anyhow::Result<Option<Spent>> {
    if one_in == 0 {
        return Ok(None);
    }
    let start = Instant::now(rt)?;
    let first = made::<B>(alloc, bits, one_in, 1);
    let second = made::<B>(alloc, bits, one_in, 2);
    let append = start.elapsed(rt)?;
    let (Some(first), Some(second)) = (first, second) else {
        return Ok(None);
    };
    if first.len() != second.len() {
        return Ok(None);
    }
    // each operation once before it is measured, so that its memory is there
    let _warm = first.and(&second)?.count();
    let start = Instant::now(rt)?;
    let both = first.and(&second)?;
    let and = start.elapsed(rt)?;
    let _warm = first.or(&second)?.count();
    let start = Instant::now(rt)?;
    let either = first.or(&second)?;
    let or = start.elapsed(rt)?;
    let _warm = first.not()?.count();
    let start = Instant::now(rt)?;
    let turned = first.not()?;
    let not = start.elapsed(rt)?;
    let start = Instant::now(rt)?;
    let ones = both.count();
    let more = either.count().wrapping_add(turned.count());
    let count = start.elapsed(rt)?;
    let start = Instant::now(rt)?;
    let walked = walked(&both);
    let walk = start.elapsed(rt)?;
    if walked != ones || more < ones {
        return Ok(None);
    }
    Ok(Some(Spent {
        append,
        and,
        or,
        not,
        count,
        walk,
        ones,
    }))
}

// How many ones there are, walked over one by one.
fn walked<B: Bits>(bits: &B) -> u64 {
    let mut ones = 0u64;
    let mut from = 0;
    for _ in 0..bits.len() {
        match bits.next_one(from) {
            Some(at) => {
                ones = ones.wrapping_add(1);
                from = at.wrapping_add(1);
            }
            None => return ones,
        }
    }
    ones
}

// A bitmap of so many bits, each put behind the others by itself.
fn made<B: Bits>(alloc: Global, bits: u64, one_in: u64, seed: u64) -> Option<B>
    requires { 0 < one_in }
{
    let mut bitmap = B::empty(alloc);
    let mut state = seed;
    for _ in 0..bits {
        state = state
            .wrapping_mul(6364136223846793005)
            .wrapping_add(1442695040888963407);
        if bitmap.push_run((state >> 33) % one_in == 0, 1).is_err() {
            return None;
        }
    }
    Some(bitmap)
}
