//! Searches for a byte that is mostly near.
ghost use Rattle.std.specs.Prelude.{◌≡◌, ◌≢◌, ◌↔◌, ◌≤◌, ◌<◌, ℕ, Some, true, length, slice_index, IfSome};
ghost use Rattle.std.specs.Int.{bit_at};
ghost use Rattle.memchr.specs.Find.{IsFirstByte, is_byte};

use memchr::memchr;
use std::simd::prelude::*;

/// The place of the first such byte. It is looked for among the next 16 bytes before all others.
#[inline(always)]
pub fn first_near(byte: u8, text: &[u8]) -> Option<usize>
    ensures { IsFirstByte (is_byte byte) text.now result }
{
    if text.len() >= 16 {
        if let Some(at) = first_of_16(byte, text) {
            return Some(at);
        }
    }
    memchr(byte, text)
}

// The place of the first such byte, if it is among the first 16.
#[inline(always)]
fn first_of_16(byte: u8, text: &[u8]) -> Option<usize>
    requires { 16 ≤ length text.now }
    ensures { IfSome result (λ at. IsFirstByte (is_byte byte) text.now (Some at)) }
{
    let marks = marks_of_16(byte, text);
    if marks == 0 {
        return None;
    }
    Some(lowest(marks))
}

// Which of the first 16 bytes are this one, the bit of the first being the lowest.
#[inline(always)]
fn marks_of_16(byte: u8, text: &[u8]) -> u64
    requires { 16 ≤ length text.now }
    ensures { (k : ℕ) → (bit_at result k ≡ 1) ↔ ((k < 16) × (is_byte byte (slice_index text.now k) ≡ true)) }
{
    u8x16::from_slice(text)
        .simd_eq(u8x16::splat(byte))
        .to_bitmask()
}

// The place of the lowest bit that is set.
#[inline(always)]
fn lowest(marks: u64) -> usize
    requires { marks ≢ 0 }
    ensures set { bit_at marks result ≡ 1 }
    ensures below { (k : ℕ) → k < result → bit_at marks k ≡ 0 }
{
    marks.trailing_zeros() as usize
}
