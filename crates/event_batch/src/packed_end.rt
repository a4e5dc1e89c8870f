//! Why bytes are no packed batch.
ghost use Rattle.std.specs.Prelude.{◌≡◌};
ghost use Rattle.event_batch.specs.declared.packed_end.PackedEnd.TheVariants.{Memory};

use std::alloc::{AllocError, AllocFailed};

/// Why bytes are no packed batch.
#[derive(Clone, Copy, Debug, PartialEq, Eq)]
pub enum PackedEnd {
    /// The bytes spell no batch in either format.
    NotABatch,
    /// There was no memory to read them.
    Memory,
}

impl From<AllocError> for PackedEnd {
    ghost from_gives = { λ _ e. e ≡ Memory };

    fn from(_e: AllocError) -> PackedEnd {
        PackedEnd::Memory
    }
}

impl<T: Drop> From<AllocFailed<T>> for PackedEnd {
    ghost from_gives = { λ _ e. e ≡ Memory };

    fn from(_e: AllocFailed<T>) -> PackedEnd {
        PackedEnd::Memory
    }
}
