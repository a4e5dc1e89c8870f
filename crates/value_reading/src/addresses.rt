//! Addresses and subnets.
ghost use Rattle.std.specs.Prelude.{◌≡◌, ℕ, ◌+◌, ◌-◌, ◌*◌, ◌/◌, ◌^◌, ◌<◌, ◌≤◌, ◌%◌, ◌==◌, ◌&&◌, [], ◌∷◌, if◌then◌else◌, length, drop, replicate, IfSome, Some, None, nat_le, true, false};
ghost use Rattle.std.specs.Option.{option_map, option_and_then};
ghost use Rattle.std.specs.List.{position_or_len};
ghost use Rattle.vast_value.specs.Nets.{net_of};
ghost use Rattle.value_reading.specs.Addresses.{is_colon, is_hexadecimal, digit_value, hexadecimal_behind, group_of, around_gap, eight_groups, with_gap, groups_to_end, plain_groups, pieces_of, grouped_of, mapped, address_of, short_number, subnet, subnet_from, subnet_of, dotted_of};
ghost use Rattle.value_reading.specs.Places.{one_group, groups_in, last_in, groups_behind, groups_read, zeros_between, if_eight, with_zeros, gap_read};

use crate::dotted::dotted_of;
use crate::groups::Groups;
use crate::numbers::{behind_one, first_at, is_digit, number_up_to};
use vast_value::Net;

/// The number of groups.
const GROUPS: u8 = 8;

/// The value of a hexadecimal digit in either case.
#[inline]
pub(crate) fn digit_value(byte: u8) -> Option<u8>
    ensures value { result ≡ (if is_hexadecimal byte then Some (digit_value byte) else None) }
    ensures below { IfSome result (λ d. d < 16) }
{
    if is_digit(byte) {
        return Some(byte - 48);
    }
    if 97 <= byte && byte <= 102 {
        return Some(byte - 87);
    }
    if 65 <= byte && byte <= 70 {
        return Some(byte - 55);
    }
    None
}

fn group_digits(piece: &[u8]) -> Option<u32>
    requires { length piece.now ≤ 4 }
    ensures value { result ≡ hexadecimal_behind 0 piece.now }
    ensures below { IfSome result (λ g. g < 65536) }
{
    let mut group = 0u32;
    for byte in piece {
        let digit = digit_value(*byte)?;
        group = group * 16 + digit as u32;
    }
    Some(group)
}

fn group_of(piece: &[u8]) -> Option<u32>
    ensures value { result ≡ group_of piece.now }
    ensures below { IfSome result (λ g. g < 65536) }
{
    if piece.is_empty() {
        return None;
    }
    if piece.len() > 4 {
        return None;
    }
    group_digits(piece)
}

fn no_groups() -> Groups
    ensures number { result.number ≡ 0 }
    ensures count { result.count ≡ 0 }
{
    Groups {
        number: 0,
        count: 0,
    }
}

fn with_group(groups: Groups, group: u32) -> Option<Groups>
    requires { group < 65536 }
    ensures { option_map (λ g. (g.number, g.count)) result ≡ groups_behind groups.number groups.count (group ∷ []) }
{
    if groups.count >= GROUPS {
        return None;
    }
    let number = groups.number * 65536 + group as u128;
    let count = groups.count + 1;
    Some(Groups { number, count })
}

fn with_piece(groups: Groups, piece: &[u8]) -> Option<Groups>
    ensures { option_map (λ g. (g.number, g.count)) result ≡ groups_read groups.number groups.count (one_group piece.now) }
{
    with_group(groups, group_of(piece)?)
}

// Two groups, from a dotted number.
fn with_dotted(groups: Groups, number: u32) -> Option<Groups>
    ensures { option_map (λ g. (g.number, g.count)) result ≡ groups_behind groups.number groups.count (number / 65536 ∷ (number % 65536 ∷ [])) }
{
    with_group(with_group(groups, number / 65536)?, number % 65536)
}

fn with_last(groups: Groups, dotted: bool, piece: &[u8]) -> Option<Groups>
    ensures { option_map (λ g. (g.number, g.count)) result ≡ groups_read groups.number groups.count (last_in dotted piece.now) }
{
    if !dotted {
        return with_piece(groups, piece);
    }
    match group_of(piece) {
        Some(group) => with_group(groups, group),
        None => with_dotted(groups, dotted_of(piece)?),
    }
}

// The groups of a text behind others.
fn with_text(start: Groups, dotted: bool, text: &[u8]) -> Option<Groups>
    ensures { option_map (λ g. (g.number, g.count)) result ≡ groups_read start.number start.count (groups_in dotted text.now) }
{
    if text.is_empty() {
        return Some(start);
    }
    let mut groups = start;
    let mut rest = text;
    let mut at = first_at(b':', rest);
    while at < rest.len() {
        let (piece, behind) = rest.split_at(at);
        groups = with_piece(groups, piece)?;
        rest = behind_one(behind);
        at = first_at(b':', rest);
    }
    with_last(groups, dotted, rest)
}

fn with_zeros(start: Groups, zeros: u8) -> Option<Groups>
    ensures { option_map (λ g. (g.number, g.count)) result ≡ groups_behind start.number start.count (replicate zeros 0) }
{
    let mut groups = start;
    for _ in 0..zeros {
        groups = with_group(groups, 0)?;
    }
    Some(groups)
}

fn eight_groups(text: &[u8]) -> Option<u128>
    ensures { result ≡ option_and_then if_eight (groups_read 0 0 (groups_in true text.now)) }
{
    let groups = with_text(no_groups(), true, text)?;
    if groups.count == GROUPS {
        Some(groups.number)
    } else {
        None
    }
}

#[inline]
fn is_gap(first: u8, second: u8) -> bool
    ensures { result ≡ (is_colon first && is_colon second) }
{
    first == b':' && second == b':'
}

// The first `::`, as what stands before it and behind it.
fn around_gap(text: &[u8]) -> Option<(&[u8], &[u8])>
    ensures { option_map (λ p. (p.0.now, p.1.now)) result ≡ around_gap text.now }
{
    for at in 1..text.len() {
        if is_gap(text[at - 1], text[at]) {
            let (left, _) = text.split_at(at - 1);
            let (_, right) = text.split_at(at + 1);
            return Some((left, right));
        }
    }
    None
}

fn gap_read(left: &[u8], right: &[u8]) -> Option<u128>
    ensures { result ≡ gap_read (groups_in false left.now) (groups_in true right.now) }
{
    let before = with_text(no_groups(), false, left)?;
    let behind = with_text(no_groups(), true, right)?;
    let known = before.count + behind.count;
    if known >= GROUPS {
        return None;
    }
    let padded = with_zeros(before, GROUPS - known)?;
    let all = with_text(padded, true, right)?;
    Some(all.number)
}

fn grouped_of(text: &[u8]) -> Option<u128>
    ensures { result ≡ grouped_of text.now }
{
    match around_gap(text) {
        None => eight_groups(text),
        Some((left, right)) => gap_read(left, right),
    }
}

fn mapped(number: u32) -> u128
    ensures { result ≡ mapped number }
{
    (0xffff << 32) + number as u128
}

/// The number of an address, in the dotted form or in groups.
pub fn address_of(text: &[u8]) -> Option<u128>
    ensures { result ≡ address_of text.now }
{
    match dotted_of(text) {
        Some(number) => Some(mapped(number)),
        None => grouped_of(text),
    }
}

fn short_number(most: u64, text: &[u8]) -> Option<u64>
    ensures value { result ≡ short_number most text.now }
    ensures below { IfSome result (λ n. n ≤ most) }
{
    if text.len() > 3 {
        return None;
    }
    number_up_to(most, text)
}

fn masked(address: u128, bits: u8) -> u128
    requires { bits ≤ 128 }
    ensures { result ≡ address / 2 ^ (128 - bits) * 2 ^ (128 - bits) }
{
    if bits == 0 {
        return 0;
    }
    (address >> (128 - bits)) << (128 - bits)
}

// Whether the address has only zeros past the first bits.
fn has_zeros(base: u128, bits: u8) -> bool
    requires { bits ≤ 128 }
    ensures { result ≡ (base % 2 ^ (128 - bits) == 0) }
{
    if bits == 0 {
        return base == 0;
    }
    base % (1 << (128 - bits)) == 0
}

#[tactic(auto, unfolding(vast_value::specs::Nets::net_of))]
fn net_of(base: u128, bits: u8) -> Option<Net>
    ensures { result ≡ net_of base bits }
{
    if bits > 128 || !has_zeros(base, bits) {
        return None;
    }
    Some(Net { base, bits })
}

// The subnet of the first bits of an address, whose other bits are set to 0.
fn subnet(address: u128, bits: u64) -> Option<Net>
    requires { bits ≤ 128 }
    ensures { result ≡ subnet address bits }
{
    let bits = bits as u8;
    let base = masked(address, bits);
    net_of(base, bits)
}

fn subnet_by(address: &[u8], bits: &[u8]) -> Option<Net>
    ensures { result ≡ subnet_from (dotted_of address.now) (grouped_of address.now) bits.now }
{
    match dotted_of(address) {
        Some(number) => {
            let bits = short_number(32, bits)?;
            subnet(mapped(number), 96 + bits)
        }
        None => {
            let address = grouped_of(address)?;
            let bits = short_number(128, bits)?;
            subnet(address, bits)
        }
    }
}

/// The subnet of an address, a slash and one to three digits.
pub fn subnet_of(text: &[u8]) -> Option<Net>
    ensures { result ≡ subnet_of text.now }
{
    let (address, rest) = text.split_at(first_at(b'/', text));
    subnet_by(address, behind_one(rest))
}
