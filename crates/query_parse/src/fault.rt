//! Why a text is no query.
ghost use Rattle.std.specs.Prelude.{◌≡◌};
ghost use Rattle.query_parse.specs.declared.fault.ParseEnd.TheVariants.{Memory};

use std::alloc::AllocError;
use thiserror::Error;

/// What is wrong with a text at some place.
#[derive(Clone, Copy, Debug, PartialEq, Eq, Error)]
pub enum QueryWhat {
    /// A token that can't continue the grammar, a byte of no token, or the end.
    #[error("unexpected")]
    Unexpected,
    /// A word or text that begins like a literal and is none.
    #[error("a bad literal")]
    BadLiteral,
    /// A test whose relation and literal don't go with each other, or with the kind of its pick.
    #[error("a clash of kinds")]
    KindClash,
    /// The 65th `!` or `(` that is open at once.
    #[error("more than 64 open constructs")]
    TooDeep,
    /// A text of more than 65,536 bytes.
    #[error("more than 65,536 bytes")]
    TooLong,
}

/// The leftmost fault of a text, and the offset of its byte.
#[derive(Clone, Copy, Debug, PartialEq, Eq)]
pub struct QueryFault {
    pub at: u32,
    pub what: QueryWhat,
}

/// Why a text gives no expression.
#[derive(Clone, Copy, Debug, PartialEq, Eq)]
pub enum ParseEnd {
    Fault(QueryFault),
    /// No memory was left.
    Memory,
}

impl From<AllocError> for ParseEnd {
    ghost from_gives = { λ _ e. e ≡ Memory };

    fn from(_e: AllocError) -> ParseEnd {
        ParseEnd::Memory
    }
}
