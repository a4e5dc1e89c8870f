//! What a reader of logs answers.
ghost use Rattle.std.specs.Prelude.{◌≡◌};
ghost use Rattle.zeek_log.specs.declared.step.ZeekEnd.TheVariants.{Memory};

use crate::fault::ZeekFault;
use std::alloc::AllocError;
use vast_value::{Layout, Row};

/// A step of a log.
#[derive(Debug, Drop)]
pub enum Step {
    /// A layout begins.
    Head(Layout),
    /// A row of the last layout.
    Line(Row),
}

/// Where a reader stands that went on by itself.
#[derive(Clone, Copy, Debug, PartialEq, Eq)]
pub enum Moved {
    /// At a head: a layout begins.
    Head,
    /// At a row of the last layout.
    Line,
}

/// Why a reader gives no more steps. Once given, it is given again.
#[derive(Clone, Copy, Debug, PartialEq, Eq)]
pub enum ZeekEnd {
    /// The whole log was given.
    Done,
    /// The log is wrong at a line, counted from 1, and a column, counted from 1, or 0 for the line as a whole.
    Fault {
        line: u64,
        column: u32,
        what: ZeekFault,
    },
    /// A read of the source failed.
    ReadFault,
    /// The source went on past the bound.
    TooLong,
    /// No memory was left.
    Memory,
}

impl From<AllocError> for ZeekEnd {
    ghost from_gives = { λ _ e. e ≡ Memory };

    fn from(_e: AllocError) -> ZeekEnd {
        ZeekEnd::Memory
    }
}
