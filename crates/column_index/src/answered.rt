//! Answers that are known without an index, or exact.
ghost use Rattle.std.specs.Prelude.{◌≡◌, [], IfOk};

use crate::kept::{Bitmap, Pair};
use bits_law::Bits;
use std::alloc::{AllocError, Global};

/// No rows.
pub(crate) fn nothing(alloc: Global) -> Pair
    ensures sure { result.sure ≡ [] }
    ensures maybe { result.maybe ≡ [] }
{
    Pair {
        sure: Bitmap::empty(alloc),
        maybe: Bitmap::empty(alloc),
    }
}

/// Rows where a test is known to hold, and nowhere else.
pub(crate) fn exact(rows: Bitmap) -> Result<Pair, AllocError>
    ensures sure { IfOk result (λ pair. pair.sure ≡ rows) }
    ensures maybe { IfOk result (λ pair. pair.maybe ≡ rows) }
{
    let sure = rows.duplicate()?;
    Ok(Pair { sure, maybe: rows })
}
