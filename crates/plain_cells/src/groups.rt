//! Addresses in groups.
ghost use Rattle.std.specs.Prelude.{◌≡◌, ◌+◌, ◌≤◌, not, length, map, take, IsTrue, IfSome};
ghost use Rattle.std.specs.List.{prefix_len};
ghost use Rattle.std.specs.Simd.Lanes.{mask_l};
ghost use Rattle.value_reading.specs.Addresses.{is_hexadecimal};
ghost use Rattle.plain_cells.specs.Groups.{AreGroups};
ghost use Rattle.plain_cells.specs.Readable.{IsReadable};

use std::simd::prelude::*;
use vast_value::{Elem, Kind};

// The bytes of a load.
const LANES: usize = 16;

// The groups of an address.
const GROUPS: usize = 8;

// The most digits of a group.
const MOST_DIGITS: usize = 4;

// Which of the first 16 bytes are no hexadecimal digits, the bit of the first being the lowest.
#[inline(always)]
fn other_marks(text: &[u8]) -> u64
    requires { 16 ≤ length text.now }
    ensures { result ≡ mask_l (map (λ b. not (is_hexadecimal b)) (take 16 text.now)) }
{
    let v = u8x16::from_slice(text);
    let others = (v - u8x16::splat(b'0')).simd_gt(u8x16::splat(9));
    let letters = (v | u8x16::splat(0x20)) - u8x16::splat(b'a');
    (others & letters.simd_gt(u8x16::splat(5))).to_bitmask()
}

// How many of the first 16 bytes are hexadecimal digits before one that is none.
#[inline(always)]
fn leading_hexadecimal(text: &[u8]) -> usize
    requires { 16 ≤ length text.now }
    ensures value { result ≡ prefix_len is_hexadecimal (take 16 text.now) }
    ensures within { result ≤ 16 }
{
    let others = other_marks(text);
    if others == 0 {
        LANES
    } else {
        others.trailing_zeros() as usize
    }
}

// Where a group ends that begins at `at`, where a byte stands behind it.
#[inline(always)]
fn group_end(text: &[u8], at: usize) -> Option<usize>
    ensures { IfSome result (λ end. AreGroups text.now at end 1) }
{
    if text.len() < LANES || at > text.len() - LANES {
        return None;
    }
    let (_, rest) = text.split_at(at);
    let count = leading_hexadecimal(rest);
    if count == 0 || count > MOST_DIGITS {
        return None;
    }
    Some(at + count)
}

// How many groups with a colon between two stand from `from` on, and where they end.
fn group_run(text: &[u8], from: usize) -> Option<(usize, usize)>
    ensures are { IfSome result (λ run. AreGroups text.now from run.1 run.0) }
    ensures few { IfSome result (λ run. run.0 ≤ GROUPS) }
{
    let mut at = from;
    for count in 0..GROUPS {
        let end = group_end(text, at)?;
        if end + 1 >= text.len() {
            return None;
        }
        if text[end] != b':' {
            return Some((count + 1, end));
        }
        if text[end + 1] == b':' {
            return Some((count + 1, end));
        }
        at = end + 1;
    }
    None
}

// The same, or no group where a colon or the end stands.
#[inline(always)]
fn groups_from(text: &[u8], from: usize, count: usize) -> Option<(usize, usize)>
    ensures are { IfSome result (λ run. AreGroups text.now from run.1 run.0) }
    ensures few { IfSome result (λ run. run.0 ≤ GROUPS) }
{
    if from >= text.len() {
        return None;
    }
    if from == count || text[from] == b':' {
        return Some((0, from));
    }
    let run = group_run(text, from)?;
    Some(run)
}

/// Whether the first `count` bytes are eight groups of one to four hexadecimal digits with a colon between two, or at most
/// seven with `::` once.
pub fn is_plain_groups(text: &[u8], count: usize) -> bool
    ensures { IsTrue result → IsReadable (Kind.One Elem.Addr) (take count text.now) }
{
    let Some((left, end)) = groups_from(text, 0, count) else {
        return false;
    };
    if end == count {
        return left == GROUPS;
    }
    if end + 2 > count || end + 2 > text.len() {
        return false;
    }
    if text[end] != b':' || text[end + 1] != b':' {
        return false;
    }
    let Some((right, last)) = groups_from(text, end + 2, count) else {
        return false;
    };
    if last != count {
        return false;
    }
    left + right < GROUPS
}
