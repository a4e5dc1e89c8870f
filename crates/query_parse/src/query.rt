//! From a text to an expression.
ghost use Rattle.std.specs.Prelude.{◌≡◌, ◌≤◌, ◌<◌, ◌∷◌, length, IfOk, IfErr, MatchResult};
ghost use Rattle.query_meaning.specs.declared.expr.Expr.{Expr};
ghost use Rattle.query_parse.specs.Faults.{most_bytes, Refuses};
ghost use Rattle.query_parse.specs.Grammar.{Reads};
ghost use Rattle.query_parse.specs.Parsing.{run, start, Reached, ReadsOn, Parses};
ghost use Rattle.query_parse.specs.Tokens.{tokens_of, lexemes_of};

use crate::fault::{ParseEnd, QueryWhat};
use crate::parser::{Parser, fault};
use crate::tokens::{Piece, next_piece};
use crate::words::is_blank;
use query_meaning::Expr;
use std::alloc::Global;

/// The longest text of a query, in bytes.
const MOST_BYTES: u32 = 65_536;

/// The expression that a text is a query of, or its leftmost fault.
///
/// ```text
/// expr = conj { "||" conj }     conj = unit { "&&" unit }     unit = "!" unit | "(" expr ")" | test
/// test = pick rel literal | literal rel pick
/// ```
///
/// Blanks part tokens. Two or more members make one list, parentheses leave no node, and the reversed form is turned.
/// At most 64 `!` and parentheses are open at once, and the text has at most 65,536 bytes.
#[tactic(auto, unfolding(crate::specs::Parsing::parsed))]
pub fn parse(alloc: Global, text: &str) -> Result<Expr, ParseEnd>
    ensures exact { Parses text.now result }
    ensures reads { IfOk result (λ expr. Reads (lexemes_of text.now) expr) }
    ensures fault { IfErr result (λ end. Refuses text.now end) }
    ensures read { (expr : Expr) → length text.now ≤ most_bytes → Reads (lexemes_of text.now) expr → MatchResult result (λ e. e ≡ expr) (λ end. end ≡ ParseEnd.Memory) }
{
    let bytes = text.as_bytes();
    if bytes.len() > MOST_BYTES as usize {
        return Err(fault(MOST_BYTES, QueryWhat::TooLong));
    }
    read(alloc, bytes)
}

// Reads the tokens from left to right.
fn read(alloc: Global, text: &[u8]) -> Result<Expr, ParseEnd>
    requires { length text.now ≤ most_bytes }
    ensures { Reached (run start (tokens_of text.now)) result }
{
    let mut parser = Parser::new(alloc);
    let mut at = 0;
    while at < text.len() {
        let (_, left) = text.split_at(at);
        let count = read_token(alloc, &mut parser, at as u32, left)?;
        at += count;
    }
    parser.finish(at as u32)
}

// Reads a blank or a token, and answers how many bytes it took.
fn read_token(alloc: Global, parser: &mut Parser, at: u32, left: &[u8]) -> Result<usize, ParseEnd>
    requires { 0 < length left.now }
    ensures { ReadsOn parser.old parser.new at left.now result }
{
    match left {
        [first, behind @ ..] => read_first(alloc, parser, at, left, *first, behind),
        [] => unreachable!(),
    }
}

// The same of a text that is this byte and those behind it.
#[tactic(auto, using(crate::proofs::PieceLemmas::blank_moves, crate::proofs::PieceLemmas::token_moves, crate::proofs::PieceLemmas::token_refuses))]
fn read_first(
    alloc: Global,
    parser: &mut Parser,
    at: u32,
    left: &[u8],
    first: u8,
    behind: &[u8],
) -> Result<usize, ParseEnd>
    requires { left.now ≡ first ∷ behind.now }
    ensures { ReadsOn parser.old parser.new at left.now result }
{
    if is_blank(first) {
        return Ok(1);
    }
    let Piece { length, lexeme } = next_piece(alloc, left, first, behind)?;
    parser.take(alloc, at, lexeme)?;
    Ok(length)
}
