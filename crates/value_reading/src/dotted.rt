//! Four numbers with dots between them.
ghost use Rattle.std.specs.Prelude.{◌≡◌, ◌+◌, ◌*◌, ◌^◌, ◌<◌, ◌≤◌, ◌&&◌, not, IfSome, Bool, true, false};
ghost use Rattle.std.specs.Option.{option_map};
ghost use Rattle.value_reading.specs.Addresses.{dotted_of};
ghost use Rattle.value_reading.specs.Places.{octet_behind, octet_at, octet_and_point, last_octet, dotted_at};

use crate::numbers::is_digit;

// The digits have ended: a point or the end follows, and the number is at most 255.
#[inline]
#[tactic(auto, using(crate::proofs::OctetLemmas::ending))]
fn octet_ended(number: u32, text: &[u8]) -> Option<(u32, &[u8])>
    ensures value { option_map (λ x. (x.0, x.1.now)) result ≡ octet_behind 0 number text.now }
    ensures below { IfSome result (λ x. x.0 ≤ 255) }
{
    if number > 255 {
        return None;
    }
    match text {
        [] => Some((number, text)),
        [first, ..] => {
            if *first == b'.' {
                Some((number, text))
            } else {
                None
            }
        }
    }
}

#[inline]
#[tactic(auto, using(crate::proofs::OctetLemmas::stepping))]
fn third_digit(number: u32, text: &[u8]) -> Option<(u32, &[u8])>
    requires { number ≤ 99 }
    ensures value { option_map (λ x. (x.0, x.1.now)) result ≡ octet_behind 1 number text.now }
    ensures below { IfSome result (λ x. x.0 ≤ 255) }
{
    match text {
        [] => octet_ended(number, text),
        [first, rest @ ..] => {
            if !is_digit(*first) {
                return octet_ended(number, text);
            }
            octet_ended(number * 10 + (*first - 48) as u32, rest)
        }
    }
}

#[inline]
#[tactic(auto, using(crate::proofs::OctetLemmas::stepping))]
fn second_digit(number: u32, text: &[u8]) -> Option<(u32, &[u8])>
    requires { number ≤ 9 }
    ensures value { option_map (λ x. (x.0, x.1.now)) result ≡ octet_behind 2 number text.now }
    ensures below { IfSome result (λ x. x.0 ≤ 255) }
{
    match text {
        [] => octet_ended(number, text),
        [first, rest @ ..] => {
            if !is_digit(*first) {
                return octet_ended(number, text);
            }
            third_digit(number * 10 + (*first - 48) as u32, rest)
        }
    }
}

#[inline]
#[tactic(auto, using(crate::proofs::OctetLemmas::beginning))]
fn octet_at(text: &[u8]) -> Option<(u32, &[u8])>
    ensures value { option_map (λ x. (x.0, x.1.now)) result ≡ octet_at text.now }
    ensures below { IfSome result (λ x. x.0 ≤ 255) }
{
    match text {
        [] => None,
        [first, rest @ ..] => {
            if !is_digit(*first) {
                return None;
            }
            second_digit((*first - 48) as u32, rest)
        }
    }
}

#[inline]
fn octet_and_point(number: u32, text: &[u8]) -> Option<(u32, &[u8])>
    requires { number < 2 ^ 24 }
    ensures value { option_map (λ x. (x.0, x.1.now)) result ≡ octet_and_point number text.now }
    ensures below { IfSome result (λ x. x.0 ≤ number * 256 + 255) }
{
    let (octet, rest) = octet_at(text)?;
    match rest {
        [] => None,
        [_, behind @ ..] => Some((number * 256 + octet, behind)),
    }
}

#[inline]
fn last_octet(number: u32, text: &[u8]) -> Option<u32>
    requires { number < 2 ^ 24 }
    ensures { result ≡ last_octet number text.now }
{
    let (octet, rest) = octet_at(text)?;
    match rest {
        [] => Some(number * 256 + octet),
        [_, ..] => None,
    }
}

fn dotted_at(text: &[u8]) -> Option<u32>
    ensures { result ≡ dotted_at text.now }
{
    let (a, text) = octet_and_point(0, text)?;
    let (b, text) = octet_and_point(a, text)?;
    let (c, text) = octet_and_point(b, text)?;
    last_octet(c, text)
}

/// The number of four numbers of one to three digits, each at most 255, with dots between them.
#[tactic(auto, using(crate::proofs::OctetLemmas::whole))]
pub(crate) fn dotted_of(text: &[u8]) -> Option<u32>
    ensures { result ≡ dotted_of text.now }
{
    dotted_at(text)
}
