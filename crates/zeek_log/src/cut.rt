//! Texts cut at a byte.
ghost use Rattle.std.specs.Prelude.{◌≡◌, ◌≤◌, ◌+◌, ◌==◌, length};
ghost use Rattle.std.specs.List.{before_first, after_first, position_or_len};
ghost use Rattle.std.specs.Option.{option_copied};
ghost use Rattle.memchr.specs.Find.{IsFirstByte, Nowhere, Passes, is_byte};
ghost use Rattle.zeek_log.specs.Cuts.{SplitsPiece, has_backslash};
ghost use Rattle.zeek_log.specs.Lines.{pieces_of};

use crate::near::first_near;
use memchr::memchr;

/// The place of the first newline, where none stands before `from`.
pub fn newline_from(bytes: &[u8], from: usize) -> Option<usize>
    requires within { from ≤ length bytes.now }
    requires none { Nowhere (Passes (is_byte 10) bytes.now) 0 from }
    ensures { IsFirstByte (is_byte 10) bytes.now result }
{
    let (_, rest) = bytes.split_at(from);
    let at = memchr(b'\n', rest)?;
    Some(from + at)
}

/// Whether a backslash is among the bytes.
#[tactic(auto, using(crate::proofs::CutLemmas::backslash_found, crate::proofs::CutLemmas::backslash_none))]
pub fn has_backslash(text: &[u8]) -> bool
    ensures { result ≡ has_backslash text.now }
{
    match memchr(b'\\', text) {
        Some(_) => true,
        None => false,
    }
}

/// The first piece of a text, and what follows its separator, if there is one.
pub fn split_piece(separator: u8, text: &[u8]) -> (&[u8], Option<&[u8]>)
    ensures { SplitsPiece separator text.now result.0.now (option_copied result.1) }
{
    let Some(at) = first_near(separator, text) else {
        return (text, None);
    };
    let (piece, behind) = text.split_at(at);
    let (_, rest) = behind.split_at(1);
    (piece, Some(rest))
}

/// What stands before the first separator, and what stands behind it.
#[tactic(auto, using(source_block::proofs::BufferLemmas::drop_more))]
pub fn split_head(separator: u8, line: &[u8]) -> (&[u8], &[u8])
    ensures name { result.0.now ≡ before_first (λ b. b == separator) line.now }
    ensures value { result.1.now ≡ after_first (λ b. b == separator) line.now }
    ensures name_within { length result.0.now ≤ length line.now }
    ensures value_within { length result.1.now ≤ length line.now }
{
    let at = first_separator(separator, line);
    let (name, behind) = line.split_at(at);
    if behind.is_empty() {
        return (name, behind);
    }
    let (_, value) = behind.split_at(1);
    (name, value)
}

#[tactic(auto, using(crate::proofs::CutLemmas::position_found, crate::proofs::CutLemmas::position_none))]
fn first_separator(separator: u8, line: &[u8]) -> usize
    ensures value { result ≡ position_or_len (λ b. b == separator) line.now }
    ensures within { result ≤ length line.now }
{
    match memchr(separator, line) {
        Some(at) => at,
        None => line.len(),
    }
}

/// Whether a text has so many pieces.
#[tactic(auto, using(crate::proofs::CutLemmas::pieces_not_zero))]
pub fn has_pieces(separator: u8, text: &[u8], count: usize) -> bool
    ensures { result ≡ (length (pieces_of separator text.now) == count) }
{
    let mut left = count;
    let mut rest = Some(text);
    while let Some(piece) = rest {
        if left == 0 {
            return false;
        }
        let (_, after) = split_piece(separator, piece);
        left -= 1;
        rest = after;
    }
    left == 0
}
