//! The texts of addresses and subnets.
ghost use Rattle.std.specs.Prelude.{◌≡◌, ◌<◌, ◌≤◌, ◌+◌, ◌/◌, ◌%◌, ◌^◌, ◌∷◌, [], ◌++◌, length, take, drop, OnOk, OnErr};
ghost use Rattle.std.specs.Fmt.{decimal};
ghost use Rattle.std.specs.List.{flat_map};
ghost use Rattle.value_writing.specs.Writing.{BeginsWith, dotted_text, groups_of, group_text, joined_groups, hexadecimal, longest_run, gapped_text, grouped_text, is_mapped, address_text, subnet_text};

use crate::run::Run;
use crate::write_numbers::push_count;
use crate::write_texts::hexadecimal;
use std::alloc::AllocError;
use vast_value::{Bytes, Net};

/// Puts the text of an address behind the others.
#[tactic(auto, using(crate::proofs::WritingFronts::fronts))]
pub(crate) fn push_address(address: u128, out: &mut Bytes) -> Result<(), AllocError>
    ensures written { OnOk result (out.new ≡ out.old ++ address_text address) }
    ensures front { OnErr result (BeginsWith out.new out.old) }
{
    if is_mapped(address) {
        push_dotted(low_half(address), out)
    } else {
        push_grouped(&groups_of(address), out)
    }
}

/// Puts the text of a subnet behind the others.
#[tactic(auto, using(crate::proofs::WritingFronts::fronts))]
pub(crate) fn push_subnet(net: &Net, out: &mut Bytes) -> Result<(), AllocError>
    ensures written { OnOk result (out.new ≡ out.old ++ subnet_text net.now) }
    ensures front { OnErr result (BeginsWith out.new out.old) }
{
    if 96 <= net.bits && is_mapped(net.base) {
        push_dotted(low_half(net.base), out)?;
        push_bits(net.bits - 96, out)
    } else {
        push_grouped(&groups_of(net.base), out)?;
        push_bits(net.bits, out)
    }
}

#[tactic(auto, using(crate::proofs::WritingFronts::fronts))]
fn push_bits(bits: u8, out: &mut Bytes) -> Result<(), AllocError>
    ensures written { OnOk result (out.new ≡ out.old ++ 47 ∷ decimal bits) }
    ensures front { OnErr result (BeginsWith out.new out.old) }
{
    out.push(b'/')?;
    push_count(u64::from(bits), out)
}

fn is_mapped(address: u128) -> bool
    ensures { result ≡ is_mapped address }
{
    address >> 32 == 65535
}

// The last 32 bits of an address.
fn low_half(address: u128) -> u32
    ensures { result ≡ address % 2 ^ 32 }
{
    (address % (1 << 32)) as u32
}

#[tactic(auto, using(crate::proofs::WritingFronts::fronts, crate::proofs::WritingFronts::front_behind_two), unfolding(crate::specs::Writing::dotted_text))]
fn push_dotted(address: u32, out: &mut Bytes) -> Result<(), AllocError>
    ensures written { OnOk result (out.new ≡ out.old ++ dotted_text address) }
    ensures front { OnErr result (BeginsWith out.new out.old) }
{
    push_octet_and_dot(address >> 24, out)?;
    push_octet_and_dot(address >> 16, out)?;
    push_two_octets(address, out)
}

// The last two octets of a number.
#[tactic(auto, using(crate::proofs::WritingFronts::fronts))]
fn push_two_octets(number: u32, out: &mut Bytes) -> Result<(), AllocError>
    ensures written { OnOk result (out.new ≡ out.old ++ (decimal (number / 2 ^ 8 % 256) ++ 46 ∷ decimal (number % 256))) }
    ensures front { OnErr result (BeginsWith out.new out.old) }
{
    push_octet_and_dot(number >> 8, out)?;
    push_octet(number, out)
}

// The last octet of a number, and a dot behind it.
#[tactic(auto, using(crate::proofs::WritingOctets::octet_digits))]
fn push_octet_and_dot(number: u32, out: &mut Bytes) -> Result<(), AllocError>
    ensures written { OnOk result (out.new ≡ out.old ++ (decimal (number % 256) ++ 46 ∷ [])) }
    ensures kept { OnErr result (out.new ≡ out.old) }
{
    let octet = number % 256;
    let last = decimal_digit(octet);
    if octet < 10 {
        return out.append(&[last, b'.']);
    }
    let middle = decimal_digit(octet / 10);
    if octet < 100 {
        return out.append(&[middle, last, b'.']);
    }
    out.append(&[decimal_digit(octet / 100), middle, last, b'.'])
}

// The last octet of a number, which has one to three digits.
#[tactic(auto, using(crate::proofs::WritingOctets::octet_digits))]
fn push_octet(number: u32, out: &mut Bytes) -> Result<(), AllocError>
    ensures written { OnOk result (out.new ≡ out.old ++ decimal (number % 256)) }
    ensures kept { OnErr result (out.new ≡ out.old) }
{
    let octet = number % 256;
    let last = decimal_digit(octet);
    if octet < 10 {
        return out.push(last);
    }
    let middle = decimal_digit(octet / 10);
    if octet < 100 {
        return out.append(&[middle, last]);
    }
    out.append(&[decimal_digit(octet / 100), middle, last])
}

// The last decimal digit of a number.
fn decimal_digit(number: u32) -> u8
    ensures { result ≡ 48 + number % 10 }
{
    48 + (number % 10) as u8
}

fn groups_of(address: u128) -> [u16; 8]
    ensures { result ≡ groups_of address }
{
    [
        group(address >> 112),
        group(address >> 96),
        group(address >> 80),
        group(address >> 64),
        group(address >> 48),
        group(address >> 32),
        group(address >> 16),
        group(address),
    ]
}

// The last 16 bits of an address.
fn group(address: u128) -> u16
    ensures { result ≡ address % 2 ^ 16 }
{
    (address % (1 << 16)) as u16
}

#[tactic(auto, using(crate::proofs::WritingFronts::fronts), unfolding(crate::specs::Writing::grouped_text))]
fn push_grouped(groups: &[u16], out: &mut Bytes) -> Result<(), AllocError>
    requires { length groups.now ≡ 8 }
    ensures written { OnOk result (out.new ≡ out.old ++ grouped_text groups.now) }
    ensures front { OnErr result (BeginsWith out.new out.old) }
{
    let run = longest_run(groups);
    push_gapped(run, groups, out)
}

#[tactic(auto, using(crate::proofs::WritingFronts::fronts))]
fn push_gapped(run: Run, groups: &[u16], out: &mut Bytes) -> Result<(), AllocError>
    requires { run.start + run.count ≤ length groups.now }
    ensures written { OnOk result (out.new ≡ out.old ++ gapped_text run groups.now) }
    ensures front { OnErr result (BeginsWith out.new out.old) }
{
    if run.count < 2 {
        return push_groups(groups, out);
    }
    let (left, rest) = groups.split_at(run.start);
    let (_, right) = rest.split_at(run.count);
    push_around_gap(left, right, out)
}

#[tactic(auto, using(crate::proofs::WritingFronts::fronts, crate::proofs::WritingFronts::front_behind_two))]
fn push_around_gap(left: &[u16], right: &[u16], out: &mut Bytes) -> Result<(), AllocError>
    ensures written { OnOk result (out.new ≡ out.old ++ (joined_groups left.now ++ 58 ∷ (58 ∷ joined_groups right.now))) }
    ensures front { OnErr result (BeginsWith out.new out.old) }
{
    push_groups(left, out)?;
    out.append(b"::")?;
    push_groups(right, out)
}

// The first longest run of zero groups, found from the last group on.
fn longest_run(groups: &[u16]) -> Run
    ensures longest { result ≡ longest_run 0 groups.now }
    ensures within { result.start + result.count ≤ length groups.now }
{
    let mut longest = Run {
        start: groups.len(),
        count: 0,
    };
    let mut zeros = 0;
    for behind in 0..groups.len() {
        let at = groups.len() - 1 - behind;
        zeros = if groups[at] == 0 { zeros + 1 } else { 0 };
        if longest.count <= zeros {
            longest = Run {
                start: at,
                count: zeros,
            };
        }
    }
    longest
}

#[tactic(auto, using(crate::proofs::WritingFronts::fronts))]
fn push_groups(groups: &[u16], out: &mut Bytes) -> Result<(), AllocError>
    ensures written { OnOk result (out.new ≡ out.old ++ joined_groups groups.now) }
    ensures front { OnErr result (BeginsWith out.new out.old) }
{
    match groups {
        [] => Ok(()),
        [first, rest @ ..] => {
            push_group(*first, out)?;
            push_more_groups(rest, out)
        }
    }
}

// The groups behind the first one.
#[tactic(auto, using(crate::proofs::WritingFronts::fronts))]
fn push_more_groups(groups: &[u16], out: &mut Bytes) -> Result<(), AllocError>
    ensures written { OnOk result (out.new ≡ out.old ++ flat_map (λ g. 58 ∷ group_text g) groups.now) }
    ensures front { OnErr result (BeginsWith out.new out.old) }
{
    for group in groups {
        push_next_group(*group, out)?;
    }
    Ok(())
}

#[tactic(auto, using(crate::proofs::WritingFronts::fronts))]
fn push_next_group(group: u16, out: &mut Bytes) -> Result<(), AllocError>
    ensures written { OnOk result (out.new ≡ out.old ++ 58 ∷ group_text group) }
    ensures front { OnErr result (BeginsWith out.new out.old) }
{
    out.push(b':')?;
    push_group(group, out)
}

fn push_group(group: u16, out: &mut Bytes) -> Result<(), AllocError>
    ensures written { OnOk result (out.new ≡ out.old ++ group_text group) }
    ensures kept { OnErr result (out.new ≡ out.old) }
{
    let last = digit(group);
    if group < 16 {
        return out.push(last);
    }
    let third = digit(group / 16);
    if group < 256 {
        return out.append(&[third, last]);
    }
    let second = digit(group / 256);
    if group < 4096 {
        return out.append(&[second, third, last]);
    }
    out.append(&[digit(group / 4096), second, third, last])
}

// The last hexadecimal digit of a number.
fn digit(number: u16) -> u8
    ensures { result ≡ hexadecimal (number % 16) }
{
    hexadecimal((number % 16) as u8)
}
