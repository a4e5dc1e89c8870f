//! The marks of a log.
ghost use Rattle.std.specs.Prelude.{◌≡◌, codes, IfOk};

use std::alloc::{AllocError, Global};
use vast_value::Bytes;

/// How a log marks what has no spelling of its own. All three are raw: no escape is undone in them.
#[derive(Debug, Drop)]
pub struct Marks {
    /// The byte between the elements of a set or a vector.
    pub set_separator: u8,
    /// The text of an empty container, and of an empty string or enum.
    pub empty: Bytes,
    /// The text of an unset cell or element.
    pub unset: Bytes,
}

impl Marks {
    /// The marks where a log tells no others: a comma, `(empty)` and `-`.
    pub fn usual(alloc: Global) -> Result<Marks, AllocError>
        ensures separator { IfOk result (λ marks. marks.set_separator ≡ 44) }
        ensures empty { IfOk result (λ marks. marks.empty ≡ codes "(empty)") }
        ensures unset { IfOk result (λ marks. marks.unset ≡ codes "-") }
    {
        Ok(Marks {
            set_separator: b',',
            empty: Bytes::copy(alloc, b"(empty)")?,
            unset: Bytes::copy(alloc, b"-")?,
        })
    }
}
