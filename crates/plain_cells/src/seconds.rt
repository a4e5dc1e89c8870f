//! Times and intervals in seconds.
ghost use Rattle.std.specs.Prelude.{◌≡◌, ◌<◌, ◌≤◌, length, take, IsTrue, IfSome, slice_index};
ghost use Rattle.plain_cells.specs.Own.{IsOwnText};
ghost use Rattle.plain_cells.specs.Readable.{IsReadable};
ghost use Rattle.plain_cells.specs.Seconds.{AreSeconds};

use crate::digits::leading_digits;
use crate::own::has_no_leading_zero;
use vast_value::{Elem, Kind};

// The most digits behind the point.
const MOST_DECIMALS: usize = 9;

// Whether so many digits are a number below 9,000,000,000.
#[inline(always)]
fn is_short_whole(text: &[u8], count: usize) -> bool
    requires { 1 ≤ length text.now }
    ensures some { IsTrue result → 0 < count }
    ensures few { IsTrue result → count ≤ 10 }
    ensures first { IsTrue result → count ≡ 10 → slice_index text.now 0 < 57 }
{
    if count == 10 {
        return text[0] < b'9';
    }
    count != 0 && count < 10
}

// How many digits stand before the point, where the first `count` bytes are seconds: one to nine digits, or ten of which
// the first is below 9, a point, and none to nine digits.
#[inline(always)]
fn whole_digits(text: &[u8], count: usize) -> Option<usize>
    requires { 32 ≤ length text.now }
    ensures { IfSome result (λ whole. AreSeconds text.now whole count) }
{
    let whole = leading_digits(text);
    if !is_short_whole(text, whole) {
        return None;
    }
    if text[whole] != b'.' {
        return None;
    }
    if count <= whole || count > whole + 1 + MOST_DECIMALS {
        return None;
    }
    let (_, behind) = text.split_at(whole + 1);
    if leading_digits(behind) < count - (whole + 1) {
        return None;
    }
    Some(whole)
}

/// Whether the first `count` bytes are seconds: one to nine digits, or ten of which the first is below 9, a point, and none
/// to nine digits. They read as a time and as a span.
#[inline(always)]
pub fn is_plain_time(text: &[u8], count: usize) -> bool
    requires { 32 ≤ length text.now }
    ensures time { IsTrue result → IsReadable (Kind.One Elem.Time) (take count text.now) }
    ensures span { IsTrue result → IsReadable (Kind.One Elem.Span) (take count text.now) }
{
    let Some(_whole) = whole_digits(text, count) else {
        return false;
    };
    true
}

/// Whether the first `count` bytes are seconds as a time and a span are written: without a leading zero and with six
/// decimals. (A span with nanoseconds is written with nine.)
#[inline(always)]
pub fn is_own_time(text: &[u8], count: usize) -> bool
    requires { 32 ≤ length text.now }
    ensures time { IsTrue result → IsOwnText (Kind.One Elem.Time) (take count text.now) }
    ensures span { IsTrue result → IsOwnText (Kind.One Elem.Span) (take count text.now) }
{
    let Some(whole) = whole_digits(text, count) else {
        return false;
    };
    if count != whole + 7 {
        return false;
    }
    has_no_leading_zero(text, whole)
}
