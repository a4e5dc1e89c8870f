//! What the words of a query are.
ghost use Rattle.std.specs.Prelude.{◌≡◌, ◌==◌, IfOk};
ghost use Rattle.std.specs.Str.{IsAscii};
ghost use Rattle.std.specs.List.{list_all, list_any};
ghost use Rattle.query_parse.specs.Lexemes.{is_letter, is_word_byte, is_name_byte, is_name, kind_picked, begins_literal, literal_or_bad, plain_word, word_lexeme, is_blank};
ghost use Rattle.value_text.specs.Numbers.{is_digit};

use crate::lexeme::Lexeme;
use query_meaning::{Literal, Pick, Rel};
use std::alloc::{AllocError, Global};
use value_text::{CellEnd, read_literal};
use vast_value::{Bytes, Elem, Value};

/// Space, tab, newline or carriage return.
pub fn is_blank(byte: u8) -> bool
    ensures { result ≡ is_blank byte }
{
    byte == b' ' || byte == b'\t' || byte == b'\n' || byte == b'\r'
}

fn is_letter(byte: u8) -> bool
    ensures { result ≡ is_letter byte }
{
    (b'a' <= byte && byte <= b'z') || (b'A' <= byte && byte <= b'Z')
}

fn is_digit(byte: u8) -> bool
    ensures { result ≡ is_digit byte }
{
    b'0' <= byte && byte <= b'9'
}

/// A letter, a digit, or one of `_ . : / ? @ + -`.
pub fn is_word_byte(byte: u8) -> bool
    ensures { result ≡ is_word_byte byte }
{
    is_letter(byte)
        || is_digit(byte)
        || byte == b'_'
        || byte == b'.'
        || byte == b':'
        || byte == b'/'
        || byte == b'?'
        || byte == b'@'
        || byte == b'+'
        || byte == b'-'
}

fn is_name_byte(byte: u8) -> bool
    ensures { result ≡ is_name_byte byte }
{
    is_letter(byte) || is_digit(byte) || byte == b'_' || byte == b'-' || byte == b'.'
}

fn are_name_bytes(bytes: &[u8]) -> bool
    ensures { result ≡ list_all is_name_byte bytes.now }
{
    bytes.iter().all(|byte| is_name_byte(*byte))
}

fn is_name(word: &[u8]) -> bool
    ensures { result ≡ is_name word.now }
{
    match word {
        [] => false,
        [first, behind @ ..] => (is_letter(*first) || *first == b'_') && are_name_bytes(behind),
    }
}

fn has_colon(word: &[u8]) -> bool
    ensures { result ≡ list_any (λ c. c == 58) word.now }
{
    word.iter().any(|byte| *byte == b':')
}

// Whether a word begins like a literal: by `@`, a digit or a sign, or with a colon anywhere.
fn begins_literal(word: &[u8]) -> bool
    ensures { result ≡ begins_literal word.now }
{
    match word {
        [] => false,
        [first, ..] => {
            *first == b'@'
                || is_digit(*first)
                || *first == b'+'
                || *first == b'-'
                || has_colon(word)
        }
    }
}

// The kind that `:` and a type's name pick.
fn kind_picked(word: &[u8]) -> Option<Elem>
    ensures { result ≡ kind_picked word.now }
{
    match word {
        [] => None,
        [first, name @ ..] => {
            if *first == b':' {
                Elem::named(name)
            } else {
                None
            }
        }
    }
}

/// What a word is, by the first rule that applies.
#[tactic(auto, unfolding(crate::specs::Lexemes::word_lexeme))]
pub fn word_lexeme(alloc: Global, word: &[u8]) -> Result<Lexeme, AllocError>
    requires { IsAscii word.now }
    ensures { IfOk result (λ lexeme. lexeme ≡ word_lexeme word.now) }
{
    if word == b"in".as_slice() {
        return Ok(Lexeme::Rel(Rel::Within));
    }
    if word == b"ni".as_slice() {
        return Ok(Lexeme::Rel(Rel::Contains));
    }
    if word == b"nil".as_slice() {
        return Ok(Lexeme::Literal(Literal::Nil));
    }
    if word == b"T".as_slice() {
        return Ok(Lexeme::Literal(Literal::Of(Value::Bool(true))));
    }
    if word == b"F".as_slice() {
        return Ok(Lexeme::Literal(Literal::Of(Value::Bool(false))));
    }
    if word == b"&type".as_slice() {
        return Ok(Lexeme::Pick(Pick::TypeName));
    }
    if word == b"&time".as_slice() {
        return Ok(Lexeme::Pick(Pick::EventTime));
    }
    match kind_picked(word) {
        Some(elem) => Ok(Lexeme::Pick(Pick::OfKind(elem))),
        None => plain_word(alloc, word),
    }
}

// A literal, a name, or nothing.
fn plain_word(alloc: Global, word: &[u8]) -> Result<Lexeme, AllocError>
    requires { IsAscii word.now }
    ensures { IfOk result (λ lexeme. lexeme ≡ plain_word word.now) }
{
    if begins_literal(word) {
        return literal_or_bad(alloc, word);
    }
    if !is_name(word) {
        return Ok(Lexeme::Unknown);
    }
    let mut name = Bytes::new(alloc);
    name.append(word)?;
    Ok(Lexeme::Pick(Pick::Named(name)))
}

fn literal_or_bad(alloc: Global, word: &[u8]) -> Result<Lexeme, AllocError>
    requires { IsAscii word.now }
    ensures { IfOk result (λ lexeme. lexeme ≡ literal_or_bad word.now) }
{
    let Ok(text) = str::from_utf8(word) else {
        unreachable!()
    };
    match read_literal(alloc, text) {
        Ok(value) => Ok(Lexeme::Literal(Literal::Of(value))),
        Err(CellEnd::BadText) => Ok(Lexeme::Bad),
        Err(CellEnd::Memory) => unreachable!(),
    }
}
