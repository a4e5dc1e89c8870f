//! Texts that stand in a log as they are written.
ghost use Rattle.std.specs.Prelude.{◌≡◌, ◌+◌, ◌≤◌, not, true, length, map, take, IsTrue};
ghost use Rattle.std.specs.List.{list_all, prefix_len};
ghost use Rattle.std.specs.Simd.Lanes.{mask_l};
ghost use Rattle.plain_cells.specs.Own.{IsOwnText, stands_bare};

use std::simd::prelude::*;
use vast_value::{Elem, Kind};

// The bytes of a load.
const LANES: usize = 16;

// Which of the first 16 bytes don't stand for themselves, the bit of the first being the lowest: a backslash, and what is
// not printable ASCII.
#[inline(always)]
fn escaped_marks(text: &[u8]) -> u64
    requires { 16 ≤ length text.now }
    ensures { result ≡ mask_l (map (λ b. not (stands_bare b)) (take 16 text.now)) }
{
    let v = u8x16::from_slice(text);
    let outside = (v - u8x16::splat(b' ')).simd_gt(u8x16::splat(b'~' - b' '));
    let backslashes = v.simd_eq(u8x16::splat(b'\\'));
    (outside | backslashes).to_bitmask()
}

// How many of the first 16 bytes stand for themselves before one that doesn't.
#[inline(always)]
fn leading_bare(text: &[u8]) -> usize
    requires { 16 ≤ length text.now }
    ensures value { result ≡ prefix_len stands_bare (take 16 text.now) }
    ensures within { result ≤ 16 }
{
    let escaped = escaped_marks(text);
    if escaped == 0 {
        LANES
    } else {
        escaped.trailing_zeros() as usize
    }
}

// Whether each of the first `count` bytes stands for itself.
#[inline(always)]
fn are_bare(text: &[u8], count: usize) -> bool
    requires { count + 16 ≤ length text.now }
    ensures { IsTrue result → list_all stands_bare (take count text.now) ≡ true }
{
    let mut at = 0;
    while at < count {
        let (_, rest) = text.split_at(at);
        let bare = leading_bare(rest);
        if bare < LANES {
            return at + bare >= count;
        }
        at += LANES;
    }
    true
}

/// Whether the first `count` bytes are at least one, and each is printable ASCII and no backslash, as which a string and an
/// enum are written. (That holds of the text of an unset and of an empty cell too.)
#[inline(always)]
pub fn is_own_text(text: &[u8], count: usize) -> bool
    requires { count + 16 ≤ length text.now }
    ensures text { IsTrue result → IsOwnText (Kind.One Elem.Text) (take count text.now) }
    ensures name { IsTrue result → IsOwnText (Kind.One Elem.Name) (take count text.now) }
{
    if count == 0 {
        return false;
    }
    are_bare(text, count)
}
