ghost use Rattle.std.specs.Prelude.{◌≡◌, ◌+◌, ◌-◌, ◌^◌, ◌<◌, ◌≤◌, ◌++◌, map, nat_eq, if◌then◌else◌, length, IfOk, OnOk};
ghost use Rattle.bits_law.specs.Bitwise.{bitwise};
ghost use Rattle.word_bitmap.specs.Words.{IsLaid, Within, words_of, part, spelled, joins, word_of, chosen};
ghost use lib.Lanes.{zip2};

use crate::kernels;
use crate::piece::{Kind, Piece};
use crate::pieces::Pieces;
use std::alloc::AllocError;
use std::simd::prelude::*;

/// Which ones are kept of two bitmaps.
#[derive(Clone, Copy, Debug, PartialEq, Eq)]
pub enum Ones {
    OfBoth,
    OfEither,
    OfFirstAlone,
    OfNotFirst,
}

impl Ones {
    /// Two words, joined bit by bit.
    pub fn word(self, first: u64, second: u64) -> u64
        ensures { result ≡ word_of self first second }
    {
        match self {
            Ones::OfBoth => first & second,
            Ones::OfEither => first | second,
            Ones::OfFirstAlone => first ^ (first & second),
            Ones::OfNotFirst => first ^ u64::MAX,
        }
    }

    /// Eight words, joined bit by bit.
    pub fn lanes(self, first: u64x8, second: u64x8) -> u64x8
        requires one { length first ≡ 8 }
        requires two { length second ≡ 8 }
        ensures { result ≡ zip2 (word_of self) first second }
    {
        match self {
            Ones::OfBoth => first & second,
            Ones::OfEither => first | second,
            Ones::OfFirstAlone => first ^ (first & second),
            Ones::OfNotFirst => first ^ u64x8::splat(u64::MAX),
        }
    }
}

/// The index of the piece that a place is in once `to` is reached, where the piece at `index` ends at `end`.
fn passed(index: usize, end: u64, to: u64) -> usize
    requires { index < 2 ^ 64 - 1 }
    ensures { result ≡ (if nat_eq end to then index + 1 else index) }
{
    if end == to { index + 1 } else { index }
}

impl Pieces {
    /// Appends the words of two lists, joined.
    fn add_joined(&mut self, first: &[u64], second: &[u64], ones: Ones) -> Result<(), AllocError>
        requires laid { IsLaid self.old }
        requires even { length first.now ≡ length second.now }
        requires short { self.old.end + length first.now ≤ 2 ^ 40 }
        ensures words { OnOk result (words_of self.new ≡ words_of self.old ++ zip2 (word_of ones) first.now second.now) }
        ensures laid { OnOk result (IsLaid self.new) }
        ensures end { OnOk result (self.new.end ≡ self.old.end + length first.now) }
    {
        let to = self.end + first.len() as u64;
        let have = self.copy(first)?;
        kernels::join_all(&mut self.literals[have..], second, ones);
        self.stretch(have, to);
        Ok(())
    }

    /// Appends words, in which each one becomes the bit of `set` at its place, and each zero that of `clear`.
    fn add_chosen(&mut self, words: &[u64], clear: u64, set: u64) -> Result<(), AllocError>
        requires laid { IsLaid self.old }
        requires short { self.old.end + length words.now ≤ 2 ^ 40 }
        ensures bits { OnOk result (spelled (words_of self.new) ≡ spelled (words_of self.old) ++ spelled (map (chosen clear set) words.now)) }
        ensures laid { OnOk result (IsLaid self.new) }
        ensures end { OnOk result (self.new.end ≡ self.old.end + length words.now) }
    {
        if clear == set {
            let to = self.end + words.len() as u64;
            self.reserve(1, 0)?;
            self.extend(clear, to);
            return Ok(());
        }
        self.add_turned(words, clear, set)?;
        Ok(())
    }

    /// The same, where what is chosen differs.
    fn add_turned(&mut self, words: &[u64], clear: u64, set: u64) -> Result<(), AllocError>
        requires laid { IsLaid self.old }
        requires short { self.old.end + length words.now ≤ 2 ^ 40 }
        ensures words { OnOk result (words_of self.new ≡ words_of self.old ++ map (chosen clear set) words.now) }
        ensures laid { OnOk result (IsLaid self.new) }
        ensures end { OnOk result (self.new.end ≡ self.old.end + length words.now) }
    {
        let to = self.end + words.len() as u64;
        let have = self.copy(words)?;
        kernels::choose_all(&mut self.literals[have..], clear, set);
        self.stretch(have, to);
        Ok(())
    }

    /// Appends the words of two pieces from word `at` up to word `to`, joined.
    fn add_parts(
        &mut self,
        ones: Ones,
        first: &Pieces,
        left: Kind,
        second: &Pieces,
        right: Kind,
        to: u64,
    ) -> Result<(), AllocError>
        requires laid { IsLaid self.old }
        requires order { self.old.end ≤ to }
        requires one { Within (length first.now.literals.items) left self.old.end to }
        requires two { Within (length second.now.literals.items) right self.old.end to }
        requires short { to ≤ 2 ^ 40 }
        ensures bits { OnOk result (spelled (words_of self.new) ≡ spelled (words_of self.old) ++ bitwise (joins ones) (spelled (part first.now.literals.items left self.old.end to)) (spelled (part second.now.literals.items right self.old.end to))) }
        ensures laid { OnOk result (IsLaid self.new) }
        ensures end { OnOk result (self.new.end ≡ to) }
    {
        let at = self.end;
        match left {
            Kind::Fill(a) => match right {
                Kind::Fill(b) => {
                    self.reserve(1, 0)?;
                    self.extend(ones.word(a, b), to);
                    Ok(())
                }
                Kind::Literal(skipped) => {
                    let words = second.stretch_of(skipped, at, to);
                    self.add_chosen(words, ones.word(a, 0), ones.word(a, u64::MAX))?;
                    Ok(())
                }
            },
            Kind::Literal(skipped) => {
                let words = first.stretch_of(skipped, at, to);
                match right {
                    Kind::Fill(b) => {
                        self.add_chosen(words, ones.word(0, b), ones.word(u64::MAX, b))?;
                        Ok(())
                    }
                    Kind::Literal(skipped) => {
                        self.add_joined(words, second.stretch_of(skipped, at, to), ones)?;
                        Ok(())
                    }
                }
            }
        }
    }
}

/// The words of two lists of pieces, joined. Both have as many words.
pub fn combined(first: &Pieces, second: &Pieces, ones: Ones) -> Result<Pieces, AllocError>
    requires one { IsLaid first.now }
    requires two { IsLaid second.now }
    requires even { first.now.end ≡ second.now.end }
    requires short { first.now.end ≤ 2 ^ 40 }
    ensures bits { IfOk result (λ p. spelled (words_of p) ≡ bitwise (joins ones) (spelled (words_of first.now)) (spelled (words_of second.now))) }
    ensures laid { IfOk result (λ p. IsLaid p) }
    ensures end { IfOk result (λ p. p.end ≡ first.now.end) }
{
    let mut pieces = Pieces::new(*first.list.allocator());
    let mut at = 0;
    let mut i = 0;
    let mut j = 0;
    while at < first.end {
        let left = first.piece(i);
        let right = second.piece(j);
        let to = left.end.min(right.end);
        pieces.add_parts(ones, first, left.kind, second, right.kind, to)?;
        i = passed(i, left.end, to);
        j = passed(j, right.end, to);
        at = to;
    }
    Ok(pieces)
}
