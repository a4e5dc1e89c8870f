ghost use Rattle.std.specs.Prelude.{◌≡◌, ℕ, ◌+◌, ◌-◌, ◌*◌, ◌^◌, ◌<◌, ◌≤◌, ◌++◌, ◌∷◌, [], take, drop, true, false, nat_le, length, count_by, get_or, replicate, IfOk, vec_len};
ghost use Rattle.std.specs.List.Sorted.{IsPartitionedBy, IsPartitionPoint};
ghost use Rattle.word_bitmap.specs.Words.{IsLaid, Within, all_of, words_of, part, spelled, needs};

use crate::kernels;
use crate::piece::{Kind, Piece};
use crate::pieces::Pieces;
use std::alloc::AllocError;

/// How many pieces end at or before word `at`.
fn ended_by(pieces: &[Piece], at: u64) -> usize
    requires { IsPartitionedBy (λ p. nat_le p.end at) pieces.now }
    ensures within { result ≤ length pieces.now }
    ensures place { IsPartitionPoint (λ p. nat_le p.end at ≡ true) (λ p. nat_le p.end at ≡ false) pieces.now result }
{
    pieces.partition_point(|piece| piece.end <= at)
}

/// How many ones `n` equal words have.
fn ones_in(word: u64, n: u64) -> u64
    requires { n ≤ 2 ^ 40 }
    ensures value { result ≡ count_by (λ bit. bit) (spelled (replicate n word)) }
    ensures bounded { result ≤ 64 * n }
{
    n * word.count_ones() as u64
}

impl Pieces {
    /// The piece at an index, the last of which is that of the newest equal words.
    pub fn piece(&self, index: usize) -> Piece
        requires { index ≤ length self.now.list.items }
        ensures { (d : Piece) → result ≡ get_or (all_of self.now) index d }
    {
        if index < self.list.len() {
            self.list[index]
        } else {
            Piece {
                kind: Kind::Fill(self.word),
                end: self.end,
            }
        }
    }

    /// The literals of a literal piece from word `at` up to word `to`.
    pub fn stretch_of(&self, skipped: u64, at: u64, to: u64) -> &[u64]
        requires start { skipped ≤ at }
        requires order { at ≤ to }
        requires end { to ≤ skipped + length self.now.literals.items }
        ensures { result.now ≡ take (to - at) (drop (at - skipped) self.now.literals.items) }
    {
        &self.literals[(at - skipped) as usize..(to - skipped) as usize]
    }

    /// The word at `index`.
    pub fn word_at(&self, index: u64) -> u64
        requires laid { IsLaid self.now }
        requires within { index < self.now.end }
        ensures { result ≡ get_or (words_of self.now) index 0 }
    {
        let k = ended_by(&self.list, index);
        match self.piece(k).kind {
            Kind::Fill(word) => word,
            Kind::Literal(skipped) => self.literals[(index - skipped) as usize],
        }
    }

    /// How many ones a piece has from word `at` up to word `to`.
    fn count_part(&self, kind: Kind, at: u64, to: u64) -> u64
        requires order { at ≤ to }
        requires within { Within (length self.now.literals.items) kind at to }
        requires short { to - at ≤ 2 ^ 40 }
        ensures value { result ≡ count_by (λ bit. bit) (spelled (part self.now.literals.items kind at to)) }
        ensures bounded { result ≤ 64 * (to - at) }
    {
        match kind {
            Kind::Fill(word) => ones_in(word, to - at),
            Kind::Literal(skipped) => kernels::count_all(self.stretch_of(skipped, at, to)),
        }
    }

    /// How many ones there are.
    pub fn count(&self) -> u64
        requires laid { IsLaid self.now }
        requires short { self.now.end ≤ 2 ^ 40 }
        ensures value { result ≡ count_by (λ bit. bit) (spelled (words_of self.now)) }
        ensures bounded { result ≤ 64 * self.now.end }
    {
        let mut ones = 0;
        let mut at = 0;
        for i in 0..self.list.len() + 1 {
            let piece = self.piece(i);
            ones += self.count_part(piece.kind, at, piece.end);
            at = piece.end;
        }
        ones
    }

    /// The place of the first word of a piece from word `at` on that isn't 0, or `to` where there is none before it.
    fn set_in(&self, kind: Kind, at: u64, to: u64) -> u64
        requires order { at ≤ to }
        requires within { Within (length self.now.literals.items) kind at to }
        ensures after { at ≤ result }
        ensures within { result ≤ to }
        ensures clear { (k : ℕ) → at + k < result → get_or (part self.now.literals.items kind at to) k 0 ≡ 0 }
        ensures set { result < to → 0 < get_or (part self.now.literals.items kind at to) (result - at) 0 }
    {
        match kind {
            Kind::Fill(0) => to,
            Kind::Fill(_) => at,
            Kind::Literal(skipped) => {
                at + kernels::first_set(self.stretch_of(skipped, at, to)) as u64
            }
        }
    }

    /// The place of the first word from `from` on that isn't 0, or `end` where there is none.
    pub fn next_set(&self, from: u64) -> u64
        requires laid { IsLaid self.now }
        requires within { from ≤ self.now.end }
        ensures after { from ≤ result }
        ensures within { result ≤ self.now.end }
        ensures clear { (j : ℕ) → from ≤ j → j < result → get_or (words_of self.now) j 0 ≡ 0 }
        ensures set { result < self.now.end → 0 < get_or (words_of self.now) result 0 }
    {
        let mut at = from;
        let mut i = ended_by(&self.list, from);
        while at < self.end {
            let piece = self.piece(i);
            at = self.set_in(piece.kind, at, piece.end);
            if at < piece.end {
                return at;
            }
            i += 1;
        }
        at
    }

    /// How many literals it takes at most to append these words at any place. More than 2^59 pieces are never appended.
    pub fn literals_needed(&self) -> Result<usize, AllocError>
        requires laid { IsLaid self.now }
        requires short { self.now.end ≤ 2 ^ 40 }
        ensures value { IfOk result (λ needed. needed ≡ needs 0 (all_of self.now)) }
        ensures bounded { IfOk result (λ needed. needed + 1 < 2 ^ 63) }
        ensures few { IfOk result (λ _. vec_len self.now.list ≤ 2 ^ 59) }
    {
        if self.list.len() > 1 << 59 {
            return Err(AllocError);
        }
        let mut needed = 0;
        let mut at = 0;
        for i in 0..self.list.len() + 1 {
            let piece = self.piece(i);
            needed += piece.kind.literals_needed(piece.end - at);
            at = piece.end;
        }
        Ok(needed)
    }

    /// An equal copy.
    pub fn duplicate(&self) -> Result<Pieces, AllocError>
        ensures list { IfOk result (λ p. p.list.items ≡ self.now.list.items) }
        ensures literals { IfOk result (λ p. p.literals.items ≡ self.now.literals.items) }
        ensures closed { IfOk result (λ p. p.closed ≡ self.now.closed) }
        ensures word { IfOk result (λ p. p.word ≡ self.now.word) }
        ensures end { IfOk result (λ p. p.end ≡ self.now.end) }
    {
        let alloc = *self.list.allocator();
        Ok(Pieces {
            list: Vec::from_slice(alloc, &self.list)?,
            literals: Vec::from_slice(alloc, &self.literals)?,
            closed: self.closed,
            word: self.word,
            end: self.end,
        })
    }
}
