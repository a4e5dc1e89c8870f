//! What can be wrong with a log.
ghost use Rattle.std.specs.Prelude.{◌≡◌};
ghost use Rattle.zeek_log.specs.declared.fault.LineEnd.TheVariants.{Bad, Memory};

use std::alloc::AllocError;
use thiserror::Error;

/// What is wrong with a log at some place.
#[derive(Clone, Copy, Debug, PartialEq, Eq, Error)]
pub enum ZeekFault {
    #[error("no head")]
    NoHead,
    #[error("the separator is not one byte")]
    BadSeparator,
    #[error("the number of types is not that of the fields")]
    FieldsTypes,
    #[error("more than 256 columns")]
    TooManyColumns,
    #[error("a column without a name")]
    EmptyName,
    #[error("two columns of one name")]
    SameName,
    #[error("an unknown type")]
    UnknownKind,
    #[error("a floating point type")]
    Floating,
    #[error("the number of cells is not that of the columns")]
    CellCount,
    #[error("a cell that its type does not read")]
    BadCell,
    #[error("a line of more than 1,048,576 bytes")]
    LineTooLong,
}

/// A fault in a column, counted from 1, or 0 for the line as a whole.
#[derive(Clone, Copy, Debug, PartialEq, Eq)]
pub struct At {
    pub column: u32,
    pub what: ZeekFault,
}

/// Why a line was not taken.
#[derive(Clone, Copy, Debug, PartialEq, Eq)]
pub enum LineEnd {
    /// The line is wrong.
    Bad(At),
    /// No memory was left.
    Memory,
}

/// A line that is wrong as a whole.
pub fn bad_line(what: ZeekFault) -> LineEnd
    ensures { result ≡ LineEnd.Bad (record { column = 0; what = what }) }
{
    LineEnd::Bad(At { column: 0, what })
}

impl From<AllocError> for LineEnd {
    ghost from_gives = { λ _ e. e ≡ Memory };

    fn from(_e: AllocError) -> LineEnd {
        LineEnd::Memory
    }
}

impl From<At> for LineEnd {
    ghost from_gives = { λ at e. e ≡ Bad at };

    fn from(at: At) -> LineEnd {
        LineEnd::Bad(at)
    }
}
