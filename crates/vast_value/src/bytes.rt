//! Texts as bytes.
ghost use Rattle.std.specs.Prelude.{◌≡◌, ◌≤◌, ◌^◌, [], ◌∷◌, ◌++◌, length, take, OnOk, OnErr, IfOk};

use smallvec::SmallVec;
use std::alloc::{AllocError, Global};
use std::marker::Model;

/// A text of any bytes. Up to 24 of them are kept in the value itself, so a short text takes no memory of its own.
#[derive(Debug, Drop)]
pub struct Bytes {
    bytes: SmallVec<u8, 24>,
}

impl Model for Bytes {
    ghost use Rattle.std.specs.Prelude.{ℕ, List};

    ghost Value = { List ℕ };

    ghost view = { λ text. text.bytes.items };
}

impl Bytes {
    /// The empty text.
    pub fn new(alloc: Global) -> Self
        ensures { result ≡ [] }
    {
        Bytes {
            bytes: SmallVec::new(alloc),
        }
    }

    /// A text with the same bytes as `from`, which are at most 2^24.
    pub fn copy(alloc: Global, from: &[u8]) -> Result<Self, AllocError>
        requires { length from.now ≤ 2 ^ 24 }
        ensures { IfOk result (λ text. text ≡ from.now) }
    {
        let bytes = SmallVec::from_slice(alloc, from)?;
        Ok(Bytes { bytes })
    }

    /// The empty text, with memory for `count` bytes.
    pub fn with_capacity(alloc: Global, count: usize) -> Result<Self, AllocError>
        ensures { IfOk result (λ text. text ≡ []) }
    {
        let bytes = SmallVec::with_capacity(alloc, count)?;
        Ok(Bytes { bytes })
    }

    /// The bytes.
    pub fn as_slice(&self) -> &[u8]
        ensures { result.now ≡ self.now }
    {
        self.bytes.as_slice()
    }

    /// Puts one byte behind the others.
    pub fn push(&mut self, item: u8) -> Result<(), AllocError>
        ensures ok { OnOk result (self.new ≡ self.old ++ item ∷ []) }
        ensures err { OnErr result (self.new ≡ self.old) }
    {
        self.bytes.push(item)?;
        Ok(())
    }

    /// Puts the bytes of `from` behind the others.
    pub fn append(&mut self, from: &[u8]) -> Result<(), AllocError>
        ensures ok { OnOk result (self.new ≡ self.old ++ from.now) }
        ensures err { OnErr result (self.new ≡ self.old) }
    {
        self.bytes.extend_from_slice(from)
    }

    /// Keeps the first `count` bytes alone, and the memory.
    pub fn truncate(&mut self, count: usize)
        ensures { self.new ≡ take count self.old }
    {
        self.bytes.truncate(count);
    }

    /// An equal copy.
    pub fn duplicate(&self, alloc: Global) -> Result<Self, AllocError>
        ensures { IfOk result (λ text. text ≡ self.now) }
    {
        let bytes = SmallVec::from_slice(alloc, self.bytes.as_slice())?;
        Ok(Bytes { bytes })
    }
}
