//! Numbers in decimal digits, and times in seconds.
ghost use Rattle.std.specs.Prelude.{◌≡◌, ℕ, ◌+◌, ◌-◌, ◌*◌, ◌^◌, ◌<◌, ◌≤◌, ◌==◌, if◌then◌else◌, length, drop, IfSome, nat_le, None};
ghost use Rattle.std.specs.List.{position_or_len};
ghost use Rattle.std.specs.Option.{option_and_then};
ghost use Rattle.value_reading.specs.Numbers.{is_digit, number_behind, number_up_to, if_at_most, is_negative, without_sign, if_i64, int_of, fraction_of, nanoseconds_of, span_of};

/// The most digits whose number is below 2^64 in any case.
const FEW_DIGITS: usize = 19;

/// The nanoseconds of a second.
pub const SECOND: u64 = 1_000_000_000;

#[inline]
pub(crate) fn is_digit(byte: u8) -> bool
    ensures { result ≡ is_digit byte }
{
    48 <= byte && byte <= 57
}

/// The number of so few digits that it fits, or `None` where a byte is no digit. Of no digits it is 0.
pub fn few_digits(text: &[u8]) -> Option<u64>
    requires { length text.now ≤ 19 }
    ensures value { result ≡ number_behind 0 text.now }
    ensures below { IfSome result (λ n. n < 10 ^ length text.now) }
{
    let mut number = 0u64;
    for byte in text {
        if !is_digit(*byte) {
            return None;
        }
        number = number * 10 + (*byte - 48) as u64;
    }
    Some(number)
}

fn with_digit(number: u64, byte: u8, most: u64) -> Option<u64>
    ensures value { result ≡ (if is_digit byte then if_at_most most (number * 10 + (byte - 48)) else None) }
    ensures below { IfSome result (λ n. n ≤ most) }
{
    if !is_digit(byte) {
        return None;
    }
    let next = number as u128 * 10 + (byte - 48) as u128;
    if next <= most as u128 {
        Some(next as u64)
    } else {
        None
    }
}

// The number of any digits, if it is at most so much.
fn many_digits(text: &[u8], most: u64) -> Option<u64>
    ensures value { result ≡ option_and_then (if_at_most most) (number_behind 0 text.now) }
    ensures below { IfSome result (λ n. n ≤ most) }
{
    let mut number = 0u64;
    for byte in text {
        number = with_digit(number, *byte, most)?;
    }
    Some(number)
}

/// The number of one or more digits, if it is at most `most`.
pub fn number_up_to(most: u64, text: &[u8]) -> Option<u64>
    ensures value { result ≡ number_up_to most text.now }
    ensures below { IfSome result (λ n. n ≤ most) }
{
    if text.is_empty() {
        return None;
    }
    if text.len() > FEW_DIGITS {
        return many_digits(text, most);
    }
    let number = few_digits(text)?;
    if number > most {
        return None;
    }
    Some(number)
}

fn is_negative(text: &[u8]) -> bool
    ensures { result ≡ is_negative text.now }
{
    match text {
        [] => false,
        [first, ..] => *first == b'-',
    }
}

fn without_sign(text: &[u8]) -> &[u8]
    ensures { result.now ≡ without_sign text.now }
{
    match text {
        [] => text,
        [first, rest @ ..] => { if *first == b'-' { rest } else { text } }
    }
}

/// The number with its sign, or `None` where it is out of the range of 64 bits.
pub fn with_sign(negative: bool, number: u64) -> Option<i64>
    ensures { result ≡ if_i64 negative number }
{
    if negative {
        if number > 1 << 63 {
            return None;
        }
        return Some(number.wrapping_neg().cast_signed());
    }
    if number > i64::MAX as u64 {
        return None;
    }
    Some(number as i64)
}

/// The number of digits with or without a minus.
pub(crate) fn int_of(text: &[u8]) -> Option<i64>
    ensures { result ≡ int_of text.now }
{
    let number = number_up_to(u64::MAX, without_sign(text))?;
    with_sign(is_negative(text), number)
}

/// The place of the first `byte`, or the length where there is none.
pub(crate) fn first_at(byte: u8, text: &[u8]) -> usize
    ensures value { result ≡ position_or_len (λ b. b == byte) text.now }
    ensures within { result ≤ length text.now }
{
    for (at, b) in text.iter().enumerate() {
        if *b == byte {
            return at;
        }
    }
    text.len()
}

/// What stands behind the first byte, if there is one.
pub(crate) fn behind_one(text: &[u8]) -> &[u8]
    ensures { result.now ≡ drop 1 text.now }
{
    match text {
        [] => text,
        [_, rest @ ..] => rest,
    }
}

fn ten_to(power: usize) -> u64
    requires { power ≤ 9 }
    ensures { result ≡ 10 ^ power }
{
    match power {
        0 => 1,
        1 => 10,
        2 => 100,
        3 => 1_000,
        4 => 10_000,
        5 => 100_000,
        6 => 1_000_000,
        7 => 10_000_000,
        8 => 100_000_000,
        _ => 1_000_000_000,
    }
}

/// The nanoseconds of none to nine digits behind a second's point.
#[tactic(auto, using(crate::proofs::NumberLemmas::fraction_fits))]
pub fn fraction_of(digits: &[u8]) -> Option<u64>
    ensures value { result ≡ fraction_of digits.now }
    ensures below { IfSome result (λ n. n < 10 ^ 9) }
{
    if digits.len() > 9 {
        return None;
    }
    let number = few_digits(digits)?;
    Some(number * ten_to(9 - digits.len()))
}

// The nanoseconds of whole seconds and of the digits behind the point, if they are at most 2^63.
fn nanoseconds_by(whole: &[u8], digits: &[u8]) -> Option<u64>
    ensures { result ≡ option_and_then (λ w. option_and_then (λ p. if_at_most (2 ^ 63) (w * 10 ^ 9 + p)) (fraction_of digits.now)) (number_up_to (2 ^ 64 - 1) whole.now) }
{
    let whole = number_up_to(u64::MAX, whole)?;
    let part = fraction_of(digits)?;
    let sum = whole as u128 * SECOND as u128 + part as u128;
    if sum <= 1 << 63 {
        Some(sum as u64)
    } else {
        None
    }
}

// The nanoseconds of seconds, if they are at most 2^63.
fn nanoseconds_of(text: &[u8]) -> Option<u64>
    ensures { result ≡ option_and_then (if_at_most (2 ^ 63)) (nanoseconds_of text.now) }
{
    let (whole, rest) = text.split_at(first_at(b'.', text));
    nanoseconds_by(whole, behind_one(rest))
}

/// The nanoseconds of seconds with or without a minus.
pub fn span_of(text: &[u8]) -> Option<i64>
    ensures { result ≡ span_of text.now }
{
    let number = nanoseconds_of(without_sign(text))?;
    with_sign(is_negative(text), number)
}
