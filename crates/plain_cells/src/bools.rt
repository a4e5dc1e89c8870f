//! Bools.
ghost use Rattle.std.specs.Prelude.{◌≤◌, length, take, IsTrue};
ghost use Rattle.plain_cells.specs.Own.{IsOwnText};
ghost use Rattle.plain_cells.specs.Readable.{IsReadable};

use vast_value::{Elem, Kind};

/// Whether the first `count` bytes are `T` or `F` alone, as a bool is read and written.
#[inline(always)]
pub fn is_plain_bool(text: &[u8], count: usize) -> bool
    requires { 1 ≤ length text.now }
    ensures readable { IsTrue result → IsReadable (Kind.One Elem.Bool) (take count text.now) }
    ensures own { IsTrue result → IsOwnText (Kind.One Elem.Bool) (take count text.now) }
{
    if count != 1 {
        return false;
    }
    text[0] == b'T' || text[0] == b'F'
}
