//! Digits, and the numbers that they are.
ghost use Rattle.std.specs.Prelude.{◌≡◌, ◌+◌, ◌*◌, ◌<◌, ◌≤◌, true, not, length, take, map, IsTrue, slice_index};
ghost use Rattle.std.specs.List.{list_all, prefix_len};
ghost use Rattle.std.specs.Simd.Lanes.{mask_l};
ghost use Rattle.value_reading.specs.Numbers.{is_digit};
ghost use Rattle.plain_cells.specs.Readable.{IsReadable};

use std::simd::prelude::*;
use vast_value::{Elem, Kind};

/// The bytes of a load.
const LANES: usize = 16;

// Five digits of a port of 65,535, as the sum of their bytes, each ten times the next.
const HIGHEST_PORT: u32 = 65_535 + 48 * 11_111;

// Which of the first 16 bytes are no digits, the bit of the first being the lowest.
#[inline(always)]
pub(crate) fn other_marks(text: &[u8]) -> u64
    requires { 16 ≤ length text.now }
    ensures { result ≡ mask_l (map (λ b. not (is_digit b)) (take 16 text.now)) }
{
    (u8x16::from_slice(text) - u8x16::splat(b'0'))
        .simd_gt(u8x16::splat(9))
        .to_bitmask()
}

/// How many of the first 16 bytes are digits before one that is none.
#[inline(always)]
pub(crate) fn leading_digits(text: &[u8]) -> usize
    requires { 16 ≤ length text.now }
    ensures value { result ≡ prefix_len is_digit (take 16 text.now) }
    ensures within { result ≤ 16 }
{
    let others = other_marks(text);
    if others == 0 {
        LANES
    } else {
        others.trailing_zeros() as usize
    }
}

/// Whether the first `count` bytes are a number of at most 16 digits, which reads as a count and as an int. Each such number
/// is taken.
#[inline(always)]
pub fn is_plain_count(text: &[u8], count: usize) -> bool
    requires { 16 ≤ length text.now }
    ensures count { IsTrue result → IsReadable (Kind.One Elem.Count) (take count text.now) }
    ensures int { IsTrue result → IsReadable (Kind.One Elem.Int) (take count text.now) }
    ensures taken { 0 < count → count ≤ 16 → list_all is_digit (take count text.now) ≡ true → IsTrue result }
{
    if count == 0 {
        return false;
    }
    leading_digits(text) >= count
}

// Whether five digits are a number of at most 65,535.
#[inline(always)]
fn is_low_port(text: &[u8]) -> bool
    requires { 5 ≤ length text.now }
    ensures { IsTrue result → (((slice_index text.now 0 * 10 + slice_index text.now 1) * 10 + slice_index text.now 2) * 10 + slice_index text.now 3) * 10 + slice_index text.now 4 ≤ 598863 }
{
    let sum = (((text[0] as u32 * 10 + text[1] as u32) * 10 + text[2] as u32) * 10 + text[3] as u32)
        * 10
        + text[4] as u32;
    sum <= HIGHEST_PORT
}

/// Whether the first `count` bytes are the number of a port, of at most five digits, without a transport.
#[inline(always)]
pub fn is_plain_port(text: &[u8], count: usize) -> bool
    requires { 16 ≤ length text.now }
    ensures { IsTrue result → IsReadable (Kind.One Elem.Port) (take count text.now) }
{
    if count == 0 || count > 5 {
        return false;
    }
    if leading_digits(text) < count {
        return false;
    }
    if count < 5 {
        return true;
    }
    is_low_port(text)
}
