ghost use Rattle.std.specs.Prelude.{◌≡◌, ℕ, ◌+◌, ◌-◌, ◌*◌, ◌^◌, ◌<◌, ◌≤◌, ◌++◌, ◌∷◌, [], replicate, map, take, drop, true, false, IsOk, OnOk, OnErr, IfOk, vec_len, vec_capacity, nat_le, nat_eq, if◌then◌else◌, length, count_by, get_or, min};
ghost use Rattle.bits_law.specs.Bitwise.{bits_below};
ghost use Rattle.word_bitmap.specs.Words.{IsLaid, IsBegun, words_of, words_from, spelled};

use crate::kernels;
use crate::piece::{Kind, Piece};
use std::alloc::{AllocError, Global};

/// As many equal words are kept as a fill. Fewer are literals.
const LEAST_FILL: u64 = 8;

/// Words as pieces, and the literal words of all pieces. The newest equal words, from word `closed` up to word `end`,
/// aren't in the list yet.
#[derive(Drop)]
pub struct Pieces {
    pub list: Vec<Piece>,
    pub literals: Vec<u64>,
    pub closed: u64,
    pub word: u64,
    pub end: u64,
}

impl Pieces {
    /// No words.
    pub fn new(alloc: Global) -> Pieces
        ensures words { words_of result ≡ [] }
        ensures laid { IsLaid result }
        ensures end { result.end ≡ 0 }
    {
        Pieces {
            list: Vec::new(alloc),
            literals: Vec::new(alloc),
            closed: 0,
            word: 0,
            end: 0,
        }
    }

    /// Takes the literals from `have` on as the words up to word `to`, in place of the newest equal words.
    pub fn stretch(&mut self, have: usize, to: u64)
        requires begun { IsBegun self.old have }
        requires order { self.old.closed ≤ to }
        requires literals { length self.old.literals.items ≡ have + (to - self.old.closed) }
        requires room { vec_len self.old.list + 1 ≤ vec_capacity self.old.list }
        ensures words { words_of self.new ≡ words_from (take have self.old.literals.items) 0 self.old.list.items ++ drop have self.old.literals.items }
        ensures laid { IsLaid self.new }
        ensures end { self.new.end ≡ to }
        ensures closed { self.new.closed ≡ to }
        ensures literals { self.new.literals ≡ self.old.literals }
        ensures list { vec_len self.new.list ≤ vec_len self.old.list + 1 }
        ensures capacity { vec_capacity self.old.list ≤ vec_capacity self.new.list }
    {
        let skipped = self.closed - have as u64;
        self.closed = to;
        self.end = to;
        let count = self.list.len();
        if count > 0 && self.list[count - 1].kind.is_literal(skipped) {
            self.list[count - 1].end = to;
            return;
        }
        self.list
            .push(Piece {
                kind: Kind::Literal(skipped),
                end: to,
            })
            .unwrap();
    }

    /// Takes the newest equal words into the list.
    fn close(&mut self)
        requires laid { IsLaid self.old }
        requires list { vec_len self.old.list + 1 ≤ vec_capacity self.old.list }
        requires literals { vec_len self.old.literals + min 7 (self.old.end - self.old.closed) ≤ vec_capacity self.old.literals }
        ensures words { words_of self.new ≡ words_of self.old }
        ensures laid { IsLaid self.new }
        ensures end { self.new.end ≡ self.old.end }
        ensures closed { self.new.closed ≡ self.old.end }
        ensures list { vec_len self.new.list ≤ vec_len self.old.list + 1 }
        ensures list_capacity { vec_capacity self.old.list ≤ vec_capacity self.new.list }
        ensures literals { vec_len self.new.literals ≤ vec_len self.old.literals + min 7 (self.old.end - self.old.closed) }
        ensures literals_capacity { vec_capacity self.old.literals ≤ vec_capacity self.new.literals }
    {
        let n = self.end - self.closed;
        if n == 0 {
            return;
        }
        if n < LEAST_FILL {
            let have = self.literals.len();
            self.literals.resize(have + n as usize, self.word).unwrap();
            self.stretch(have, self.end);
            return;
        }
        self.list
            .push(Piece {
                kind: Kind::Fill(self.word),
                end: self.end,
            })
            .unwrap();
        self.closed = self.end;
    }

    /// Appends equal words up to word `to`.
    pub fn extend(&mut self, word: u64, to: u64)
        requires laid { IsLaid self.old }
        requires order { self.old.end ≤ to }
        requires list { vec_len self.old.list + 1 ≤ vec_capacity self.old.list }
        requires literals { vec_len self.old.literals + min 7 (self.old.end - self.old.closed) ≤ vec_capacity self.old.literals }
        ensures words { words_of self.new ≡ words_of self.old ++ replicate (to - self.old.end) word }
        ensures laid { IsLaid self.new }
        ensures end { self.new.end ≡ to }
        ensures list { vec_len self.new.list ≤ vec_len self.old.list + 1 }
        ensures list_capacity { vec_capacity self.old.list ≤ vec_capacity self.new.list }
        ensures literals { vec_len self.new.literals + min 7 (to - self.new.closed) ≤ vec_len self.old.literals + min 7 (self.old.end - self.old.closed) + min 7 (to - self.old.end) }
        ensures literals_capacity { vec_capacity self.old.literals ≤ vec_capacity self.new.literals }
    {
        if self.word == word {
            self.end = to;
            return;
        }
        self.close();
        self.word = word;
        self.end = to;
    }

    /// Makes room for as many more pieces, and for as many more literals besides the newest equal words.
    pub fn reserve(&mut self, pieces: usize, literals: usize) -> Result<(), AllocError>
        requires { literals < 2 ^ 63 }
        ensures words { words_of self.new ≡ words_of self.old }
        ensures laid { IsLaid self.old → IsLaid self.new }
        ensures end { self.new.end ≡ self.old.end }
        ensures closed { self.new.closed ≡ self.old.closed }
        ensures list { OnOk result (vec_len self.new.list + pieces ≤ vec_capacity self.new.list) }
        ensures literals { OnOk result (vec_len self.new.literals + min 7 (self.new.end - self.new.closed) + literals ≤ vec_capacity self.new.literals) }
    {
        self.list.reserve(pieces)?;
        self.literals.reserve(literals + 7)
    }

    /// Copies words behind the literals, for `stretch` to take them, and gives the place of the first one.
    pub fn copy(&mut self, words: &[u64]) -> Result<usize, AllocError>
        requires laid { IsLaid self.old }
        requires short { self.old.end + length words.now ≤ 2 ^ 40 }
        ensures begun { IfOk result (λ have. IsBegun self.new have) }
        ensures words { IfOk result (λ have. words_from (take have self.new.literals.items) 0 self.new.list.items ≡ words_of self.old) }
        ensures literals { IfOk result (λ have. drop have self.new.literals.items ≡ words.now) }
        ensures len { IfOk result (λ have. length self.new.literals.items ≡ have + length words.now) }
        ensures end { OnOk result (self.new.end ≡ self.old.end) }
        ensures closed { OnOk result (self.new.closed ≡ self.old.end) }
        ensures room { OnOk result (vec_len self.new.list + 1 ≤ vec_capacity self.new.list) }
    {
        self.reserve(2, words.len())?;
        self.close();
        let have = self.literals.len();
        self.literals.extend_from_slice(words).unwrap();
        Ok(have)
    }

    /// Appends words behind an unfinished one of `held` bits, and gives what is unfinished then.
    pub fn add_shifted(&mut self, words: &[u64], last: u64, held: u64) -> u64
        requires laid { IsLaid self.old }
        requires held { held < 64 }
        requires last { last < 2 ^ held }
        requires short { self.old.end + length words.now ≤ 2 ^ 40 }
        requires list { vec_len self.old.list + 2 ≤ vec_capacity self.old.list }
        requires literals { vec_len self.old.literals + min 7 (self.old.end - self.old.closed) + length words.now ≤ vec_capacity self.old.literals }
        ensures bits { spelled (words_of self.new) ++ bits_below result held ≡ (spelled (words_of self.old) ++ bits_below last held) ++ spelled words.now }
        ensures last { result < 2 ^ held }
        ensures laid { IsLaid self.new }
        ensures end { self.new.end ≡ self.old.end + length words.now }
        ensures closed { self.new.closed ≡ self.new.end }
        ensures list { vec_len self.new.list ≤ vec_len self.old.list + 2 }
        ensures list_capacity { vec_capacity self.old.list ≤ vec_capacity self.new.list }
        ensures literals { vec_len self.new.literals ≤ vec_len self.old.literals + min 7 (self.old.end - self.old.closed) + length words.now }
        ensures literals_capacity { vec_capacity self.old.literals ≤ vec_capacity self.new.literals }
    {
        self.close();
        let have = self.literals.len();
        let rest = kernels::shift_in(&mut self.literals, words, last, held);
        self.stretch(have, self.end + words.len() as u64);
        rest
    }
}
