ghost use Rattle.std.specs.Prelude.{◌≡◌, ◌<◌, ◌≤◌, [], ◌∷◌, ◌++◌, length, OnOk, OnErr};
ghost use Rattle.digit_index.specs.Digits.{AreBases};

use std::alloc::{AllocError, Global};
use std::marker::Model;

/// The bases of a key's digits, the lowest digit's first: at most 16, each of 2 to 256.
#[derive(Drop)]
pub struct Bases {
    bases: Vec<u16>,
}

impl Model for Bases {
    ghost use Rattle.std.specs.Prelude.{List, ℕ};
    ghost use Rattle.digit_index.specs.Digits.{AreBases};

    ghost Value = { List ℕ };

    ghost view = { λ b. b.bases.items };

    ghost invariant = { λ b. AreBases b.bases.items };
}

impl Bases {
    /// No bases.
    pub fn new(alloc: Global) -> Self
        ensures { result ≡ [] }
    {
        Bases {
            bases: Vec::new(alloc),
        }
    }

    /// Adds the base of the next higher digit.
    pub fn push(&mut self, base: u16) -> Result<(), AllocError>
        requires few { length self.old < 16 }
        requires least { 2 ≤ base }
        requires most { base ≤ 256 }
        ensures ok { OnOk result (self.new ≡ self.old ++ base ∷ []) }
        ensures err { OnErr result (self.new ≡ self.old) }
    {
        self.bases.push(base)?;
        Ok(())
    }

    /// The bases.
    pub fn as_slice(&self) -> &[u16]
        ensures value { result.now ≡ self.now }
        ensures are { AreBases self.now }
    {
        self.bases.as_slice()
    }
}
