//! Cells that stand in a log as they are written.
ghost use Rattle.std.specs.Prelude.{◌≡◌, ◌≤◌, true, length, take, IsTrue};
ghost use Rattle.std.specs.List.{list_all};
ghost use Rattle.value_reading.specs.Numbers.{is_digit};
ghost use Rattle.plain_cells.specs.Own.{IsOwnText, HasNoLeadingZero};

use crate::digits::leading_digits;
use vast_value::{Elem, Kind};

/// Whether the first `count` bytes begin with another byte than 0, or are one byte.
#[inline(always)]
pub(crate) fn has_no_leading_zero(text: &[u8], count: usize) -> bool
    requires some { 1 ≤ length text.now }
    requires within { count ≤ length text.now }
    ensures { IsTrue result → HasNoLeadingZero (take count text.now) }
{
    count == 1 || text[0] != b'0'
}

// Whether the first `count` bytes are one to 16 digits without a leading zero.
#[inline(always)]
fn are_own_digits(text: &[u8], count: usize) -> bool
    requires { 16 ≤ length text.now }
    ensures digits { IsTrue result → list_all is_digit (take count text.now) ≡ true }
    ensures first { IsTrue result → HasNoLeadingZero (take count text.now) }
{
    if count == 0 || leading_digits(text) < count {
        return false;
    }
    has_no_leading_zero(text, count)
}

/// Whether the first `count` bytes are one to 16 digits without a leading zero, as which a count, an int and a port without
/// a transport are written.
#[inline(always)]
pub fn is_own_number(text: &[u8], count: usize) -> bool
    requires { 16 ≤ length text.now }
    ensures count { IsTrue result → IsOwnText (Kind.One Elem.Count) (take count text.now) }
    ensures int { IsTrue result → IsOwnText (Kind.One Elem.Int) (take count text.now) }
    ensures port { IsTrue result → IsOwnText (Kind.One Elem.Port) (take count text.now) }
{
    are_own_digits(text, count)
}
