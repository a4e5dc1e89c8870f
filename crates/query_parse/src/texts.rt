//! Texts between quotes.
ghost use Rattle.std.specs.Prelude.{◌≡◌, ℕ, ◌≤◌, ◌<◌, ◌+◌, if◌then◌else◌, List, ◌∷◌, length, IfOk, IfSome};
ghost use Rattle.query_parse.specs.Tokens.{quoted, quote_step, text_piece, taken, is_pair};

use crate::lexeme::Lexeme;
use crate::tokens::{Piece, is_next};
use query_meaning::Literal;
use std::alloc::{AllocError, Global};
use value_text::escaped_byte;
use vast_value::{Bytes, Value};

/// What a text holds, and how many bytes it takes up to its closing quote and with it.
#[derive(Drop)]
pub struct Quoted {
    pub content: Bytes,
    pub length: usize,
}

/// A byte of a text, and how many bytes it takes.
#[derive(Clone, Copy, Debug, PartialEq, Eq)]
pub struct Taken {
    pub count: usize,
    pub byte: u8,
}

/// The text behind an opening quote, and its length.
pub fn text_piece(alloc: Global, rest: &[u8]) -> Result<Piece, AllocError>
    ensures value { IfOk result (λ piece. piece ≡ text_piece rest.now (quoted rest.now)) }
    ensures within { IfOk result (λ piece. piece.length ≤ 1 + length rest.now) }
{
    match read_quoted(alloc, rest)? {
        None => Ok(Piece {
            length: 1 + rest.len(),
            lexeme: Lexeme::Bad,
        }),
        Some(text) => Ok(Piece {
            length: 1 + text.length,
            lexeme: Lexeme::Literal(Literal::Of(Value::Text(text.content))),
        }),
    }
}

// The content up to the first quote that no escape takes.
fn read_quoted(alloc: Global, rest: &[u8]) -> Result<Option<Quoted>, AllocError>
    ensures value { IfOk result (λ text. text ≡ quoted rest.now) }
    ensures within { IfOk result (λ text. IfSome text (λ quoted. quoted.length ≤ length rest.now)) }
{
    let mut content = Bytes::new(alloc);
    let mut at = 0;
    while at < rest.len() {
        let (_, left) = rest.split_at(at);
        if is_next(b'"', left) {
            let length = at + 1;
            return Ok(Some(Quoted { content, length }));
        }
        let taken = take_byte(left);
        content.push(taken.byte)?;
        at += taken.count;
    }
    Ok(None)
}

// The first byte of a text, with its escape undone.
fn take_byte(rest: &[u8]) -> Taken
    requires { 0 < length rest.now }
    ensures step { result ≡ quote_step rest.now }
    ensures some { 0 < result.count }
    ensures within { result.count ≤ length rest.now }
{
    match rest {
        [first, second, third, fourth, ..] => take_of_four(*first, *second, *third, *fourth),
        [first, second, ..] => take_of_two(*first, *second),
        [first] => single(*first),
        [] => single(0),
    }
}

fn single(byte: u8) -> Taken
    ensures { result ≡ taken 1 byte }
{
    Taken { count: 1, byte }
}

fn is_pair(first: u8, second: u8) -> bool
    ensures { result ≡ is_pair first second }
{
    first == b'\\' && (second == b'"' || second == b'\\')
}

fn take_of_two(first: u8, second: u8) -> Taken
    ensures { result ≡ (if is_pair first second then taken 2 second else taken 1 first) }
{
    if is_pair(first, second) {
        return Taken {
            count: 2,
            byte: second,
        };
    }
    single(first)
}

fn take_of_four(first: u8, second: u8, third: u8, fourth: u8) -> Taken
    ensures step { (rest : List ℕ) → result ≡ quote_step (first ∷ (second ∷ (third ∷ (fourth ∷ rest)))) }
    ensures some { 0 < result.count }
    ensures within { result.count ≤ 4 }
{
    if is_pair(first, second) {
        return Taken {
            count: 2,
            byte: second,
        };
    }
    if first != b'\\' {
        return single(first);
    }
    match escaped_byte(second, third, fourth) {
        Some(byte) => Taken { count: 4, byte },
        None => single(first),
    }
}
