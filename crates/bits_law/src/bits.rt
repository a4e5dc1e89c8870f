ghost use Rattle.std.specs.Prelude.{◌≡◌, ℕ, ◌+◌, ◌^◌, ◌<◌, ◌≤◌, Bool, List, [], ◌++◌, ◌&&◌, ◌||◌, not, map, length, replicate, count_by, slice_get, Some, OnOk, OnErr, IfOk, IfErr, MatchOption};
ghost use Rattle.bits_law.specs.declared.bits.BitsEnd.TheVariants.{Memory};
ghost use Rattle.bits_law.specs.Bitwise.{bitwise, bits_below, and_not, IsNextOne, IsClearFrom};
ghost use Rattle.bits_law.specs.Refusal.{refusal};

use std::alloc::{AllocError, AllocFailed, Global};

/// The most bits that a bitmap has: 2^40.
pub const LONGEST: u64 = 1_099_511_627_776;

/// Why a bitmap, or an index over bitmaps, didn't grow.
#[derive(Clone, Copy, Debug, PartialEq, Eq)]
pub enum BitsEnd {
    /// `have` bits and `more` would pass 2^40.
    TooLong { have: u64, more: u64 },
    /// Memory ran out.
    Memory,
}

impl From<AllocError> for BitsEnd {
    ghost from_gives = { λ _ e. e ≡ Memory };

    fn from(_error: AllocError) -> BitsEnd {
        BitsEnd::Memory
    }
}

impl<T: Drop> From<AllocFailed<T>> for BitsEnd {
    ghost from_gives = { λ _ e. e ≡ Memory };

    fn from(_error: AllocFailed<T>) -> BitsEnd {
        BitsEnd::Memory
    }
}

/// A bitmap of at most 2^40 bits, seen as a list of bools.
pub trait Bits: Drop {
    /// The bits, from the first row on.
    ghost bits: { Self → List Bool };

    /// No bits.
    fn empty(alloc: Global) -> Self
        ensures { bits result ≡ [] };

    /// How many bits there are.
    fn len(&self) -> u64
        ensures value { result ≡ length (bits self.now) }
        ensures bounded { length (bits self.now) ≤ 2 ^ 40 };

    /// The bit at `at`.
    fn get(&self, at: u64) -> bool
        requires { at < length (bits self.now) }
        ensures { slice_get (bits self.now) at ≡ Some result };

    /// Appends `n` equal bits. `TooLong` comes exactly where the length would pass 2^40. After a refusal the bits are
    /// as before.
    fn push_run(&mut self, bit: bool, n: u64) -> Result<(), BitsEnd>
        ensures ok { OnOk result (bits self.new ≡ bits self.old ++ replicate n bit) }
        ensures fits { OnOk result (length (bits self.old) + n ≤ 2 ^ 40) }
        ensures end { IfErr result (λ e. e ≡ refusal (length (bits self.old)) n) }
        ensures err { OnErr result (bits self.new ≡ bits self.old) };

    /// Appends the `n` lowest bits of a word, the lowest first; `n` is from 1 to 64. `TooLong` comes exactly where the
    /// length would pass 2^40, and then the bits are as before. Where memory runs out, some of the word's first bits
    /// may have been appended.
    fn push_word(&mut self, word: u64, n: u64) -> Result<(), BitsEnd>
        requires some { 0 < n }
        requires wide { n ≤ 64 }
        ensures ok { OnOk result (bits self.new ≡ bits self.old ++ bits_below word n) }
        ensures fits { OnOk result (length (bits self.old) + n ≤ 2 ^ 40) }
        ensures end { IfErr result (λ e. e ≡ refusal (length (bits self.old)) n) }
    {
        let have = self.len();
        if n > LONGEST - have {
            return Err(BitsEnd::TooLong { have, more: n });
        }
        let mut rest = word;
        for _ in 0..n {
            self.push_run(rest % 2 == 1, 1)?;
            rest /= 2;
        }
        Ok(())
    }

    /// Appends the bits of another bitmap. `TooLong` comes exactly where the length would pass 2^40. After a refusal
    /// the bits are as before.
    fn append(&mut self, other: &Self) -> Result<(), BitsEnd>
        ensures ok { OnOk result (bits self.new ≡ bits self.old ++ bits other.now) }
        ensures fits { OnOk result (length (bits self.old) + length (bits other.now) ≤ 2 ^ 40) }
        ensures end { IfErr result (λ e. e ≡ refusal (length (bits self.old)) (length (bits other.now))) }
        ensures err { OnErr result (bits self.new ≡ bits self.old) };

    /// The ones of both.
    fn and(&self, other: &Self) -> Result<Self, AllocError>
        requires { length (bits self.now) ≡ length (bits other.now) }
        ensures { IfOk result (λ b. bits b ≡ bitwise ◌&&◌ (bits self.now) (bits other.now)) };

    /// The ones of either.
    fn or(&self, other: &Self) -> Result<Self, AllocError>
        requires { length (bits self.now) ≡ length (bits other.now) }
        ensures { IfOk result (λ b. bits b ≡ bitwise ◌||◌ (bits self.now) (bits other.now)) };

    /// The ones of the first that the second lacks.
    fn and_not(&self, other: &Self) -> Result<Self, AllocError>
        requires { length (bits self.now) ≡ length (bits other.now) }
        ensures { IfOk result (λ b. bits b ≡ bitwise and_not (bits self.now) (bits other.now)) };

    /// Each bit turned round.
    fn not(&self) -> Result<Self, AllocError>
        ensures { IfOk result (λ b. bits b ≡ map not (bits self.now)) };

    /// An equal copy.
    fn duplicate(&self) -> Result<Self, AllocError>
        ensures { IfOk result (λ b. bits b ≡ bits self.now) };

    /// How many ones there are.
    fn count(&self) -> u64
        ensures { result ≡ count_by (λ bit. bit) (bits self.now) };

    /// The place of the first one from `from` on; `None` exactly where there is none.
    fn next_one(&self, from: u64) -> Option<u64>
        ensures { MatchOption result (IsClearFrom (bits self.now) from) (λ at. IsNextOne (bits self.now) from at) };
}
