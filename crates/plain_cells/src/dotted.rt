//! Addresses in the dotted form.
ghost use Rattle.std.specs.Prelude.{◌≡◌, ◌+◌, ◌-◌, ◌*◌, ◌<◌, ◌≤◌, not, length, map, take, drop, IsTrue, IfSome, slice_index};
ghost use Rattle.std.specs.Simd.Lanes.{mask_l};
ghost use Rattle.value_reading.specs.Numbers.{is_digit};
ghost use Rattle.plain_cells.specs.Octets.{IsOctet, AreOctets};
ghost use Rattle.plain_cells.specs.Own.{IsOwnText};
ghost use Rattle.plain_cells.specs.Readable.{IsReadable};

use crate::digits::other_marks;
use crate::own::has_no_leading_zero;
use vast_value::{Elem, Kind};

// Three digits of an octet of 255, as the sum of their bytes, each ten times the next.
const HIGHEST_OCTET: u32 = 255 + 48 * 111;

// Whether so many digits are one to three of a number of at most 255.
#[inline(always)]
fn is_octet(text: &[u8], count: usize) -> bool
    requires { 3 ≤ length text.now }
    ensures some { IsTrue result → 0 < count }
    ensures few { IsTrue result → count ≤ 3 }
    ensures low { IsTrue result → count ≡ 3 → (slice_index text.now 0 * 10 + slice_index text.now 1) * 10 + slice_index text.now 2 ≤ 5583 }
{
    let sum = (text[0] as u32 * 10 + text[1] as u32) * 10 + text[2] as u32;
    if count == 0 || count > 3 {
        return false;
    }
    if count < 3 {
        return true;
    }
    sum <= HIGHEST_OCTET
}

// The marks of the bytes from `at` on, by those of the first 16.
#[inline(always)]
#[tactic(auto, using(crate::proofs::OctetLemmas::marks_behind))]
fn marks_from(others: u64, text: &[u8], at: usize) -> u64
    requires few { at < 16 }
    requires marks { others ≡ mask_l (map (λ b. not (is_digit b)) (take 16 text.now)) }
    ensures { result ≡ mask_l (map (λ b. not (is_digit b)) (take (16 - at) (drop at text.now))) }
{
    others >> at
}

// Where an octet ends that begins at `at`, and before the last of the first 16 bytes. `others` marks which of these
// are no digits, from that place on.
#[inline(always)]
fn octet_end(text: &[u8], at: usize, others: u64) -> Option<usize>
    requires room { at + 16 ≤ length text.now }
    requires few { at < 16 }
    requires marks { others ≡ mask_l (map (λ b. not (is_digit b)) (take (16 - at) (drop at text.now))) }
    ensures { IfSome result (λ end. IsOctet text.now at end) }
{
    let count = others.trailing_zeros() as usize;
    let (_, rest) = text.split_at(at);
    if !is_octet(rest, count) {
        return None;
    }
    Some(at + count)
}

// Where the point behind an octet is that begins at `at`, by the marks of the first 16 bytes.
#[inline(always)]
fn point_behind(text: &[u8], at: usize, others: u64) -> Option<usize>
    requires room { at + 16 ≤ length text.now }
    requires few { at < 16 }
    requires marks { others ≡ mask_l (map (λ b. not (is_digit b)) (take 16 text.now)) }
    ensures octet { IfSome result (λ end. IsOctet text.now at end) }
    ensures point { IfSome result (λ end. slice_index text.now end ≡ 46) }
{
    let end = octet_end(text, at, marks_from(others, text, at))?;
    if text[end] != b'.' {
        return None;
    }
    Some(end)
}

// Where the points are, where the first `count` bytes are four numbers of one to three digits, each at most 255, with
// points between them.
#[inline(always)]
fn points(text: &[u8], count: usize) -> Option<(usize, usize, usize)>
    requires { 32 ≤ length text.now }
    ensures { IfSome result (λ p. AreOctets text.now p.0 p.1 p.2 count) }
{
    let others = other_marks(text);
    let a = point_behind(text, 0, others)?;
    let b = point_behind(text, a + 1, others)?;
    let c = point_behind(text, b + 1, others)?;
    let end = octet_end(text, c + 1, marks_from(others, text, c + 1))?;
    if end != count {
        return None;
    }
    Some((a, b, c))
}

/// Whether the first `count` bytes are four numbers of one to three digits, each at most 255, with points between them. A
/// digit behind them is answered by false.
#[inline(always)]
pub fn is_plain_address(text: &[u8], count: usize) -> bool
    requires { 32 ≤ length text.now }
    ensures { IsTrue result → IsReadable (Kind.One Elem.Addr) (take count text.now) }
{
    let Some((_a, _b, _c)) = points(text, count) else {
        return false;
    };
    true
}

/// Whether the first `count` bytes are such numbers without a leading zero, as which an address of IPv4 is written.
#[inline(always)]
pub fn is_own_address(text: &[u8], count: usize) -> bool
    requires { 32 ≤ length text.now }
    ensures { IsTrue result → IsOwnText (Kind.One Elem.Addr) (take count text.now) }
{
    let Some((a, b, c)) = points(text, count) else {
        return false;
    };
    let (_, second) = text.split_at(a + 1);
    let (_, third) = text.split_at(b + 1);
    let (_, last) = text.split_at(c + 1);
    if !has_no_leading_zero(text, a) {
        return false;
    }
    if !has_no_leading_zero(second, b - (a + 1)) {
        return false;
    }
    if !has_no_leading_zero(third, c - (b + 1)) {
        return false;
    }
    has_no_leading_zero(last, count - (c + 1))
}
