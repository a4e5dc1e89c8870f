ghost use Rattle.std.specs.Prelude.{◌≡◌, ◌+◌, ◌-◌, ◌*◌, ◌/◌, ◌^◌, ◌<◌, ◌≤◌, ◌++◌, ◌∷◌, [], replicate, IfOk, OnOk, OnErr, if◌then◌else◌, ◌%◌, vec_len, vec_capacity, length, get_or, count_by, MatchOption, List, Bool, min};
ghost use Rattle.bits_law.specs.Bitwise.{bitwise, bits_below, IsNextOne, IsClearFrom};
ghost use Rattle.word_bitmap.specs.Words.{IsSound, IsLaid, shown, spelled, words_of, joins, part, need, Within};

use crate::combine;
use crate::combine::Ones;
use crate::piece::Kind;
use crate::pieces::Pieces;
use std::alloc::AllocError;

/// The `n` lowest bits of a word.
pub fn low(word: u64, n: u64) -> u64
    requires { n ≤ 64 }
    ensures value { result ≡ word % 2 ^ n }
    ensures below { result < 2 ^ n }
{
    if n == 64 { word } else { word % (1 << n) }
}

/// A word of equal bits.
fn filled(bit: bool) -> u64
    ensures { result ≡ (if bit then 2 ^ 64 - 1 else 0) }
{
    if bit { u64::MAX } else { 0 }
}

/// Whole words as pieces, and an unfinished word of `held` bits.
#[derive(Drop)]
pub struct Words {
    pub pieces: Pieces,
    pub last: u64,
    pub held: u64,
}

impl Words {
    /// How many bits there are.
    pub fn len(&self) -> u64
        requires { IsSound self.now }
        ensures value { result ≡ length (shown self.now) }
        ensures is { result ≡ 64 * self.now.pieces.end + self.now.held }
    {
        64 * self.pieces.end + self.held
    }

    /// Appends a word of `n` bits.
    pub fn put(&mut self, word: u64, n: u64)
        requires sound { IsSound self.old }
        requires wide { n ≤ 64 }
        requires word { word < 2 ^ n }
        requires short { 64 * self.old.pieces.end + self.old.held + n ≤ 2 ^ 40 }
        requires list { vec_len self.old.pieces.list + 1 ≤ vec_capacity self.old.pieces.list }
        requires literals { vec_len self.old.pieces.literals + min 7 (self.old.pieces.end - self.old.pieces.closed) ≤ vec_capacity self.old.pieces.literals }
        ensures bits { shown self.new ≡ shown self.old ++ bits_below word n }
        ensures sound { IsSound self.new }
        ensures len { 64 * self.new.pieces.end + self.new.held ≡ 64 * self.old.pieces.end + self.old.held + n }
        ensures rest { n ≡ 64 → self.new.last ≡ word / 2 ^ (64 - self.new.held) }
        ensures list { vec_len self.new.pieces.list ≤ vec_len self.old.pieces.list + 1 }
        ensures list_capacity { vec_capacity self.old.pieces.list ≤ vec_capacity self.new.pieces.list }
        ensures literals { vec_len self.new.pieces.literals + min 7 (self.new.pieces.end - self.new.pieces.closed) ≤ vec_len self.old.pieces.literals + min 7 (self.old.pieces.end - self.old.pieces.closed) + 1 }
        ensures literals_capacity { vec_capacity self.old.pieces.literals ≤ vec_capacity self.new.pieces.literals }
    {
        let joined = self.last as u128 + ((word as u128) << self.held);
        let total = self.held + n;
        let low = (joined % (1 << 64)) as u64;
        if total < 64 {
            self.last = low;
            self.held = total;
        } else {
            let to = self.pieces.end + 1;
            self.pieces.extend(low, to);
            self.last = (joined >> 64) as u64;
            self.held = total - 64;
        }
    }

    /// Appends `count` equal words.
    pub fn repeat(&mut self, word: u64, count: u64)
        requires sound { IsSound self.old }
        requires short { 64 * self.old.pieces.end + self.old.held + 64 * count ≤ 2 ^ 40 }
        requires list { vec_len self.old.pieces.list + 2 ≤ vec_capacity self.old.pieces.list }
        requires literals { vec_len self.old.pieces.literals + min 7 (self.old.pieces.end - self.old.pieces.closed) + 1 ≤ vec_capacity self.old.pieces.literals }
        ensures bits { shown self.new ≡ shown self.old ++ spelled (replicate count word) }
        ensures sound { IsSound self.new }
        ensures len { 64 * self.new.pieces.end + self.new.held ≡ 64 * self.old.pieces.end + self.old.held + 64 * count }
        ensures list { vec_len self.new.pieces.list ≤ vec_len self.old.pieces.list + 2 }
        ensures list_capacity { vec_capacity self.old.pieces.list ≤ vec_capacity self.new.pieces.list }
        ensures literals { vec_len self.new.pieces.literals + min 7 (self.new.pieces.end - self.new.pieces.closed) ≤ vec_len self.old.pieces.literals + min 7 (self.old.pieces.end - self.old.pieces.closed) + 8 }
        ensures literals_capacity { vec_capacity self.old.pieces.literals ≤ vec_capacity self.new.pieces.literals }
    {
        if count == 0 {
            return;
        }
        self.put(word, 64);
        if count == 1 {
            return;
        }
        let again = self.last as u128 + ((word as u128) << self.held);
        let turned = (again % (1 << 64)) as u64;
        let to = self.pieces.end + (count - 1);
        self.pieces.extend(turned, to);
    }
}

impl Words {
    /// Appends `n` equal bits.
    pub fn extend(&mut self, bit: bool, n: u64)
        requires sound { IsSound self.old }
        requires short { 64 * self.old.pieces.end + self.old.held + n ≤ 2 ^ 40 }
        requires list { vec_len self.old.pieces.list + 3 ≤ vec_capacity self.old.pieces.list }
        requires literals { vec_len self.old.pieces.literals + min 7 (self.old.pieces.end - self.old.pieces.closed) + 8 ≤ vec_capacity self.old.pieces.literals }
        ensures bits { shown self.new ≡ shown self.old ++ replicate n bit }
        ensures sound { IsSound self.new }
    {
        let word = filled(bit);
        self.repeat(word, n / 64);
        self.put(low(word, n % 64), n % 64);
    }

    /// Appends the bits of another one.
    pub fn join(&mut self, other: &Words) -> Result<(), AllocError>
        requires one { IsSound self.old }
        requires two { IsSound other.now }
        requires short { 64 * self.old.pieces.end + self.old.held + (64 * other.now.pieces.end + other.now.held) ≤ 2 ^ 40 }
        ensures bits { OnOk result (shown self.new ≡ shown self.old ++ shown other.now) }
        ensures sound { IsSound self.new }
        ensures err { OnErr result (shown self.new ≡ shown self.old) }
    {
        let needed = other.pieces.literals_needed()?;
        let count = other.pieces.list.len();
        self.pieces.reserve(2 * count + 3, needed + 1)?;
        let mut at = 0;
        for i in 0..count + 1 {
            let piece = other.pieces.piece(i);
            self.join_part(&other.pieces, piece.kind, at, piece.end);
            at = piece.end;
        }
        self.put(other.last, other.held);
        Ok(())
    }

    /// Appends the words of a piece from word `at` up to word `to`.
    fn join_part(&mut self, pieces: &Pieces, kind: Kind, at: u64, to: u64)
        requires sound { IsSound self.old }
        requires order { at ≤ to }
        requires within { Within (length pieces.now.literals.items) kind at to }
        requires short { 64 * self.old.pieces.end + self.old.held + 64 * (to - at) ≤ 2 ^ 40 }
        requires list { vec_len self.old.pieces.list + 2 ≤ vec_capacity self.old.pieces.list }
        requires literals { vec_len self.old.pieces.literals + min 7 (self.old.pieces.end - self.old.pieces.closed) + need kind (to - at) ≤ vec_capacity self.old.pieces.literals }
        ensures bits { shown self.new ≡ shown self.old ++ spelled (part pieces.now.literals.items kind at to) }
        ensures sound { IsSound self.new }
        ensures len { 64 * self.new.pieces.end + self.new.held ≡ 64 * self.old.pieces.end + self.old.held + 64 * (to - at) }
        ensures list { vec_len self.new.pieces.list ≤ vec_len self.old.pieces.list + 2 }
        ensures list_capacity { vec_capacity self.old.pieces.list ≤ vec_capacity self.new.pieces.list }
        ensures literals { vec_len self.new.pieces.literals + min 7 (self.new.pieces.end - self.new.pieces.closed) ≤ vec_len self.old.pieces.literals + min 7 (self.old.pieces.end - self.old.pieces.closed) + need kind (to - at) }
        ensures literals_capacity { vec_capacity self.old.pieces.literals ≤ vec_capacity self.new.pieces.literals }
    {
        match kind {
            Kind::Fill(word) => self.repeat(word, to - at),
            Kind::Literal(skipped) => self.put_all(pieces.stretch_of(skipped, at, to)),
        }
    }

    /// Appends words.
    fn put_all(&mut self, words: &[u64])
        requires sound { IsSound self.old }
        requires short { 64 * self.old.pieces.end + self.old.held + 64 * length words.now ≤ 2 ^ 40 }
        requires list { vec_len self.old.pieces.list + 2 ≤ vec_capacity self.old.pieces.list }
        requires literals { vec_len self.old.pieces.literals + min 7 (self.old.pieces.end - self.old.pieces.closed) + length words.now ≤ vec_capacity self.old.pieces.literals }
        ensures bits { shown self.new ≡ shown self.old ++ spelled words.now }
        ensures sound { IsSound self.new }
        ensures len { 64 * self.new.pieces.end + self.new.held ≡ 64 * self.old.pieces.end + self.old.held + 64 * length words.now }
        ensures list { vec_len self.new.pieces.list ≤ vec_len self.old.pieces.list + 2 }
        ensures list_capacity { vec_capacity self.old.pieces.list ≤ vec_capacity self.new.pieces.list }
        ensures literals { vec_len self.new.pieces.literals + min 7 (self.new.pieces.end - self.new.pieces.closed) ≤ vec_len self.old.pieces.literals + min 7 (self.old.pieces.end - self.old.pieces.closed) + length words.now }
        ensures literals_capacity { vec_capacity self.old.pieces.literals ≤ vec_capacity self.new.pieces.literals }
    {
        self.last = self.pieces.add_shifted(words, self.last, self.held);
    }

    /// The word at `index`, which may be the unfinished one.
    pub fn word(&self, index: u64) -> u64
        requires sound { IsSound self.now }
        requires within { index ≤ self.now.pieces.end }
        ensures { result ≡ get_or (words_of self.now.pieces ++ self.now.last ∷ []) index 0 }
    {
        if index < self.pieces.end {
            self.pieces.word_at(index)
        } else {
            self.last
        }
    }

    /// How many ones there are.
    pub fn count(&self) -> u64
        requires { IsSound self.now }
        ensures { result ≡ count_by (λ bit. bit) (shown self.now) }
    {
        self.pieces.count() + self.last.count_ones() as u64
    }

    /// An equal copy.
    pub fn duplicate(&self) -> Result<Words, AllocError>
        requires sound { IsSound self.now }
        ensures sound { IfOk result (λ w. IsSound w) }
        ensures bits { IfOk result (λ w. shown w ≡ shown self.now) }
    {
        Ok(Words {
            pieces: self.pieces.duplicate()?,
            last: self.last,
            held: self.held,
        })
    }

    /// The bits of two of equal length, joined.
    pub fn combined(&self, other: &Words, ones: Ones) -> Result<Words, AllocError>
        requires one { IsSound self.now }
        requires two { IsSound other.now }
        requires even { length (shown self.now) ≡ length (shown other.now) }
        ensures sound { IfOk result (λ w. IsSound w) }
        ensures bits { IfOk result (λ w. shown w ≡ bitwise (joins ones) (shown self.now) (shown other.now)) }
    {
        let pieces = combine::combined(&self.pieces, &other.pieces, ones)?;
        let last = low(ones.word(self.last, other.last), self.held);
        Ok(Words {
            pieces,
            last,
            held: self.held,
        })
    }

    /// The place of the first one from `from` on.
    pub fn next_one(&self, from: u64) -> Option<u64>
        requires { IsSound self.now }
        ensures { MatchOption result (IsClearFrom (shown self.now) from) (λ at. IsNextOne (shown self.now) from at) }
    {
        if from >= self.len() {
            return None;
        }
        let index = from / 64;
        let rest = self.word(index) >> (from % 64);
        if rest != 0 {
            return Some(from + rest.trailing_zeros() as u64);
        }
        if index == self.pieces.end {
            return None;
        }
        let at = self.pieces.next_set(index + 1);
        let word = self.word(at);
        if word != 0 {
            Some(64 * at + word.trailing_zeros() as u64)
        } else {
            None
        }
    }
}
