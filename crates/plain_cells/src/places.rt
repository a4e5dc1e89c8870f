//! The places of a byte, found 32 bytes at a time.
ghost use Rattle.std.specs.Prelude.{◌≡◌, ◌+◌, ◌^◌, ◌<◌, ◌≤◌, ◌==◌, ◌++◌, [], ◌∷◌, length, take, map, IfSome, IsNone};
ghost use Rattle.std.specs.Simd.Lanes.{mask_l};
ghost use Rattle.plain_cells.specs.Places.{places_of, ones_of, CutsLine, IsShort};

use std::simd::prelude::*;

/// The bytes of a load.
const LANES: usize = 32;

// Which of the first 32 bytes are this one, the bit of the first being the lowest.
#[inline(always)]
fn marks_of_32(byte: u8, text: &[u8]) -> u64
    requires { 32 ≤ length text.now }
    ensures { result ≡ mask_l (map (λ b. b == byte) (take 32 text.now)) }
{
    u8x32::from_slice(text)
        .simd_eq(u8x32::splat(byte))
        .to_bitmask()
}

// Puts the places of the bits of a mask behind the first `count` places, the lowest bit being at `at`.
#[inline(always)]
fn put_ones(marks: u64, at: u32, places: &mut [u32], count: usize) -> Option<usize>
    requires low { at + 64 < 2 ^ 32 }
    requires within { count ≤ length places.old }
    ensures within { IfSome result (λ n. n ≤ length places.old) }
    ensures put { IfSome result (λ n. take n places.new ≡ take count places.old ++ ones_of 64 at marks) }
    ensures short { IsNone result → length places.old < count + length (ones_of 64 at marks) }
{
    let mut left = marks;
    let mut n = count;
    while left != 0 {
        if n >= places.len() {
            return None;
        }
        let lowest = left.trailing_zeros();
        places[n] = at + lowest;
        n += 1;
        left -= 1 << lowest;
    }
    Some(n)
}

/// Writes the places of a byte among the first `count` bytes to the front of `places`, and answers how many they are, or
/// `None` where `places` is too short for them.
#[inline(never)]
pub fn byte_places(byte: u8, text: &[u8], count: usize, places: &mut [u32]) -> Option<usize>
    requires room { count + 32 ≤ length text.now }
    requires few { count < 2 ^ 31 }
    ensures within { IfSome result (λ n. n ≤ length places.old) }
    ensures are { IfSome result (λ n. take n places.new ≡ places_of (λ b. b == byte) 0 (take count text.now)) }
    ensures short { IsNone result → length places.old < length (places_of (λ b. b == byte) 0 (take count text.now)) }
{
    let mut n = 0;
    let mut at = 0;
    while at + LANES <= count {
        let (_, rest) = text.split_at(at);
        n = put_ones(marks_of_32(byte, rest), at as u32, places, n)?;
        at += LANES;
    }
    let (_, rest) = text.split_at(at);
    let marks = marks_of_32(byte, rest) % (1 << (count - at));
    let all = put_ones(marks, at as u32, places, n)?;
    Some(all)
}

// Puts one place behind the first `count` places.
#[inline(always)]
fn put_place(place: u32, places: &mut [u32], count: usize) -> Option<usize>
    ensures within { IfSome result (λ n. n ≤ length places.old) }
    ensures put { IfSome result (λ n. take n places.new ≡ take count places.old ++ place ∷ []) }
    ensures short { IsNone result → length places.old < count + 1 }
{
    if count >= places.len() {
        return None;
    }
    places[count] = place;
    Some(count + 1)
}

/// Writes the places of a separator before the first newline, and behind them the place of that newline, to the front of
/// `places`, and answers how many they are. It answers `None` where `places` is too short for them, and where no newline
/// stands before the last 32 bytes.
#[inline(never)]
pub fn line_places(separator: u8, text: &[u8], places: &mut [u32]) -> Option<usize>
    requires { length text.now < 2 ^ 31 }
    ensures cuts { IfSome result (λ n. CutsLine separator text.now places.new n) }
    ensures short { IsNone result → IsShort separator text.now (length places.old) }
{
    let mut n = 0;
    let mut at = 0;
    while at + LANES <= text.len() {
        let (_, rest) = text.split_at(at);
        let marks = marks_of_32(separator, rest);
        let ends = marks_of_32(b'\n', rest);
        if ends != 0 {
            let last = ends.trailing_zeros();
            let before = put_ones(marks % (1 << last), at as u32, places, n)?;
            let all = put_place(at as u32 + last, places, before)?;
            return Some(all);
        }
        n = put_ones(marks, at as u32, places, n)?;
        at += LANES;
    }
    None
}
