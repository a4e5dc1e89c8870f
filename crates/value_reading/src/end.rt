//! Why a text gives no value.
ghost use Rattle.std.specs.Prelude.{◌≡◌};
ghost use Rattle.value_reading.specs.declared.end.CellEnd.TheVariants.{Memory};

use std::alloc::AllocError;

/// Why a text gives no value or cell.
#[derive(Clone, Copy, Debug, PartialEq, Eq)]
pub enum CellEnd {
    /// No value or cell of the kind has this spelling.
    BadText,
    /// No memory was left.
    Memory,
}

impl From<AllocError> for CellEnd {
    ghost from_gives = { λ _ e. e ≡ Memory };

    fn from(_e: AllocError) -> CellEnd {
        CellEnd::Memory
    }
}
