ghost use Rattle.std.specs.Prelude.{◌≡◌, ◌+◌, ◌^◌, ◌<◌, ◌≤◌, ◌++◌, length, OnOk, OnErr, IfErr};
ghost use Rattle.bits_law.specs.Bitwise.{bits_below};
ghost use Rattle.bits_law.specs.Refusal.{refusal};

use crate::combine::Ones;
use crate::pieces::Pieces;
use crate::words;
use crate::words::Words;
use bits_law::{Bits, BitsEnd, LONGEST};
use std::alloc::{AllocError, Global};
use std::marker::Model;

/// A bitmap as words of 64 bits, seen as a list of bools.
#[derive(Drop)]
pub struct WordBitmap {
    words: Words,
}

impl Model for WordBitmap {
    ghost use Rattle.std.specs.Prelude.{List, Bool};

    ghost Value = { List Bool };

    ghost use Rattle.word_bitmap.specs.Words.{shown, IsSound};

    ghost view = { λ b. shown b.words };

    ghost invariant = { λ b. IsSound b.words };
}

impl Bits for WordBitmap {
    ghost bits = { λ b. b };

    fn empty(alloc: Global) -> Self {
        WordBitmap {
            words: Words {
                pieces: Pieces::new(alloc),
                last: 0,
                held: 0,
            },
        }
    }

    fn len(&self) -> u64 {
        self.words.len()
    }

    fn get(&self, at: u64) -> bool {
        self.words.word(at / 64) >> (at % 64) & 1 == 1
    }

    fn push_run(&mut self, bit: bool, n: u64) -> Result<(), BitsEnd> {
        let have = self.words.len();
        if n > LONGEST - have {
            return Err(BitsEnd::TooLong { have, more: n });
        }
        self.words.pieces.reserve(3, 8)?;
        self.words.extend(bit, n);
        Ok(())
    }

    /// After a refusal the bits are as before.
    fn push_word(&mut self, word: u64, n: u64) -> Result<(), BitsEnd>
        requires some { 0 < n }
        requires wide { n ≤ 64 }
        ensures ok { OnOk result (self.new ≡ self.old ++ bits_below word n) }
        ensures fits { OnOk result (length self.old + n ≤ 2 ^ 40) }
        ensures end { IfErr result (λ e. e ≡ refusal (length self.old) n) }
        ensures err { OnErr result (self.new ≡ self.old) }
    {
        let have = self.words.len();
        if n > LONGEST - have {
            return Err(BitsEnd::TooLong { have, more: n });
        }
        self.words.pieces.reserve(1, 0)?;
        self.words.put(words::low(word, n), n);
        Ok(())
    }

    fn append(&mut self, other: &Self) -> Result<(), BitsEnd> {
        let have = self.words.len();
        let more = other.words.len();
        if more > LONGEST - have {
            return Err(BitsEnd::TooLong { have, more });
        }
        self.words.join(&other.words)?;
        Ok(())
    }

    fn and(&self, other: &Self) -> Result<Self, AllocError> {
        Ok(WordBitmap {
            words: self.words.combined(&other.words, Ones::OfBoth)?,
        })
    }

    fn or(&self, other: &Self) -> Result<Self, AllocError> {
        Ok(WordBitmap {
            words: self.words.combined(&other.words, Ones::OfEither)?,
        })
    }

    fn and_not(&self, other: &Self) -> Result<Self, AllocError> {
        Ok(WordBitmap {
            words: self.words.combined(&other.words, Ones::OfFirstAlone)?,
        })
    }

    fn not(&self) -> Result<Self, AllocError> {
        Ok(WordBitmap {
            words: self.words.combined(&self.words, Ones::OfNotFirst)?,
        })
    }

    fn duplicate(&self) -> Result<Self, AllocError> {
        Ok(WordBitmap {
            words: self.words.duplicate()?,
        })
    }

    fn count(&self) -> u64 {
        self.words.count()
    }

    fn next_one(&self, from: u64) -> Option<u64> {
        self.words.next_one(from)
    }
}
