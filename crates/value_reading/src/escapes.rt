//! Escapes in cells.
ghost use Rattle.std.specs.Prelude.{◌≡◌, ◌+◌, ◌*◌, ◌<◌, ◌≤◌, ◌==◌, [], ◌∷◌, if◌then◌else◌, length, IfOk, IfSome, MatchOption, Some, None};
ghost use Rattle.std.specs.List.{list_any};
ghost use Rattle.value_reading.specs.Addresses.{digit_value};
ghost use Rattle.value_reading.specs.Escapes.{is_byte_escape, unescaped};

use crate::addresses::digit_value;
use crate::numbers::behind_one;
use std::alloc::{AllocError, Global};
use vast_value::Bytes;

pub(crate) fn has_backslash(raw: &[u8]) -> bool
    ensures { result ≡ list_any (λ b. b == 92) raw.now }
{
    raw.iter().any(|byte| *byte == b'\\')
}

/// The byte of `xHH` behind a backslash, with hexadecimal digits in either case.
pub fn escaped_byte(x: u8, high: u8, low: u8) -> Option<u8>
    ensures { result ≡ (if is_byte_escape x high low then Some (digit_value high * 16 + digit_value low) else None) }
{
    if x != b'x' {
        return None;
    }
    Some(digit_value(high)? * 16 + digit_value(low)?)
}

// What a backslash gives with what stands behind it, and what is left.
fn escape_at(behind: &[u8]) -> (u8, &[u8])
    ensures value { unescaped (92 ∷ behind.now) ≡ result.0 ∷ unescaped result.1.now }
    ensures shorter { length result.1.now ≤ length behind.now }
{
    if behind.is_empty() {
        return (b'\\', behind);
    }
    if behind[0] == b'\\' {
        return (b'\\', behind_one(behind));
    }
    if behind.len() < 3 {
        return (b'\\', behind);
    }
    match escaped_byte(behind[0], behind[1], behind[2]) {
        None => (b'\\', behind),
        Some(byte) => {
            let (_, rest) = behind.split_at(3);
            (byte, rest)
        }
    }
}

fn next_byte(rest: &[u8]) -> Option<(u8, &[u8])>
    ensures value { MatchOption result (rest.now ≡ []) (λ x. unescaped rest.now ≡ x.0 ∷ unescaped x.1.now) }
    ensures shorter { IfSome result (λ x. length x.1.now < length rest.now) }
{
    match rest {
        [] => None,
        [first, behind @ ..] => {
            if *first == b'\\' {
                return Some(escape_at(behind));
            }
            Some((*first, behind))
        }
    }
}

/// The bytes with their escapes undone.
pub(crate) fn unescape(alloc: Global, raw: &[u8]) -> Result<Bytes, AllocError>
    ensures { IfOk result (λ text. text ≡ unescaped raw.now) }
{
    let mut text = Bytes::with_capacity(alloc, raw.len())?;
    let mut rest = raw;
    while let Some((byte, behind)) = next_byte(rest) {
        text.push(byte)?;
        rest = behind;
    }
    Ok(text)
}
