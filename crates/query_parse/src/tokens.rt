//! The tokens of a query.
ghost use Rattle.std.specs.Prelude.{◌≡◌, ◌≤◌, ◌<◌, ◌+◌, ◌∷◌, if◌then◌else◌, length, take, true, IfOk};
ghost use Rattle.std.specs.List.{prefix_len};
ghost use Rattle.std.specs.Str.{IsAscii};
ghost use Rattle.query_parse.specs.Lexemes.{is_word_byte};
ghost use Rattle.query_parse.specs.Tokens.{piece_of, is_next, word_length, word_piece, short_piece, double_piece};

use crate::lexeme::Lexeme;
use crate::texts::text_piece;
use crate::words::{is_word_byte, word_lexeme};
use query_meaning::Rel;
use std::alloc::{AllocError, Global};

/// A token, and how many bytes it takes.
#[derive(Drop)]
pub struct Piece {
    pub length: usize,
    pub lexeme: Lexeme,
}

/// The longest token that a text begins with, which is this byte and those behind it. The byte is no blank.
#[tactic(auto, unfolding(crate::specs::Tokens::piece_of))]
pub fn next_piece(alloc: Global, text: &[u8], first: u8, behind: &[u8]) -> Result<Piece, AllocError>
    requires { text.now ≡ first ∷ behind.now }
    ensures piece { IfOk result (λ piece. piece ≡ piece_of first behind.now) }
    ensures within { IfOk result (λ piece. piece.length ≤ length text.now) }
{
    if first == b'=' {
        return Ok(either(behind, b'=', Lexeme::Rel(Rel::Eq), Lexeme::Unknown));
    }
    if first == b'!' {
        return Ok(either(behind, b'=', Lexeme::Rel(Rel::Ne), Lexeme::Not));
    }
    if first == b'<' {
        return Ok(either(behind, b'=', Lexeme::Rel(Rel::Le), Lexeme::Rel(Rel::Lt)));
    }
    if first == b'>' {
        return Ok(either(behind, b'=', Lexeme::Rel(Rel::Ge), Lexeme::Rel(Rel::Gt)));
    }
    if first == b'|' {
        return Ok(either(behind, b'|', Lexeme::Or, Lexeme::Unknown));
    }
    if first == b'(' {
        return Ok(short(Lexeme::Open));
    }
    if first == b')' {
        return Ok(short(Lexeme::Close));
    }
    if first == b'"' {
        return text_piece(alloc, behind);
    }
    if first == b'&' && is_next(b'&', behind) {
        return Ok(double(Lexeme::And));
    }
    if first == b'&' || is_word_byte(first) {
        return word_piece(alloc, text, first, behind);
    }
    Ok(short(Lexeme::Unknown))
}

fn short(lexeme: Lexeme) -> Piece
    ensures { result ≡ short_piece lexeme }
{
    Piece { length: 1, lexeme }
}

fn double(lexeme: Lexeme) -> Piece
    ensures { result ≡ double_piece lexeme }
{
    Piece { length: 2, lexeme }
}

// The token of two bytes where the second follows, else that of one.
fn either(behind: &[u8], second: u8, two: Lexeme, one: Lexeme) -> Piece
    ensures value { result ≡ (if is_next second behind.now then double_piece two else short_piece one) }
    ensures within { result.length ≤ 1 + length behind.now }
{
    if is_next(second, behind) {
        return double(two);
    }
    short(one)
}

pub(crate) fn is_next(byte: u8, behind: &[u8]) -> bool
    ensures value { result ≡ is_next byte behind.now }
    ensures some { result ≡ true → 0 < length behind.now }
{
    match behind {
        [] => false,
        [first, ..] => *first == byte,
    }
}

// A word, which is this byte and those behind it.
fn word_piece(alloc: Global, text: &[u8], first: u8, behind: &[u8]) -> Result<Piece, AllocError>
    requires { text.now ≡ first ∷ behind.now }
    ensures value { IfOk result (λ piece. piece ≡ word_piece text.now) }
    ensures within { IfOk result (λ piece. piece.length ≤ length text.now) }
{
    let length = word_length(text, first, behind);
    let (word, _) = text.split_at(length);
    let lexeme = word_lexeme(alloc, word)?;
    Ok(Piece { length, lexeme })
}

fn word_length(text: &[u8], first: u8, behind: &[u8]) -> usize
    requires { text.now ≡ first ∷ behind.now }
    ensures value { result ≡ word_length text.now }
    ensures within { result ≤ length text.now }
    ensures ascii { IsAscii (take result text.now) }
{
    if first == b'&' {
        return 1 + run_length(behind);
    }
    run_length(text)
}

// The length of the longest run of a word's bytes.
fn run_length(text: &[u8]) -> usize
    ensures value { result ≡ prefix_len is_word_byte text.now }
    ensures within { result ≤ length text.now }
{
    for (at, byte) in text.iter().enumerate() {
        if !is_word_byte(*byte) {
            return at;
        }
    }
    text.len()
}
