//! IPv4, IPv6 and the ports of what they carry.
ghost use Rattle.std.specs.Prelude.{◌≡◌, ◌≤◌, ◌<◌, ◌+◌, length};
ghost use Rattle.pcap_packet.specs.Packets.{parts_of_ip, parts_of_v4, parts_of_v6};
ghost use Rattle.pcap_packet.specs.Packets.{carried_by_v4, is_v4_head, is_v6_head, mapped};
ghost use Rattle.pcap_packet.specs.Headers.{carried_behind, header_length, is_further, is_later_fragment, needed, nothing_carried, ports_of, reached};

use crate::parts::{Carried, Parts, Ports};
use crate::take::{after, u16_at, u32_at, u128_at};

const TCP: u8 = 6;

const UDP: u8 = 17;

const HOP_BY_HOP: u8 = 0;

const ROUTING: u8 = 43;

const FRAGMENT: u8 = 44;

const DESTINATION_OPTIONS: u8 = 60;

const MOST_FURTHER_HEADERS: u8 = 8;

/// The parts of an IP packet, which tells its version itself.
#[tactic(auto, unfolding(crate::specs::Packets::parts_of_ip))]
pub fn parts_of_ip(bytes: &[u8]) -> Parts
    ensures { result ≡ parts_of_ip bytes.now }
{
    if bytes.is_empty() {
        return Parts::none();
    }
    match bytes[0] / 16 {
        4 => parts_of_v4(bytes),
        6 => parts_of_v6(bytes),
        _ => Parts::none(),
    }
}

/// The parts of an IPv4 packet (RFC 791).
#[tactic(auto, unfolding(crate::specs::Packets::parts_of_v4))]
pub fn parts_of_v4(bytes: &[u8]) -> Parts
    ensures { result ≡ parts_of_v4 bytes.now }
{
    if !is_v4_head(bytes) {
        return Parts::none();
    }
    let source = mapped(u32_at(bytes, 12));
    let target = mapped(u32_at(bytes, 16));
    Parts::between(source, target, carried_by_v4(bytes))
}

fn is_v4_head(bytes: &[u8]) -> bool
    ensures { result ≡ is_v4_head bytes.now }
{
    if bytes.len() < 20 {
        return false;
    }
    let first = bytes[0];
    first / 16 == 4 && first % 16 >= 5
}

/// The IPv4 address as one of 128 bits.
fn mapped(address: u32) -> u128
    ensures { result ≡ mapped address }
{
    0xffff_0000_0000 + u128::from(address)
}

#[tactic(auto, unfolding(crate::specs::Packets::carried_by_v4))]
fn carried_by_v4(bytes: &[u8]) -> Carried
    requires { 20 ≤ length bytes.now }
    ensures { result ≡ carried_by_v4 bytes.now }
{
    let protocol = bytes[9];
    if u16_at(bytes, 6) % 8192 != 0 {
        return Carried {
            protocol: Some(protocol),
            ports: None,
        };
    }
    let length = 4 * usize::from(bytes[0] % 16);
    reached(protocol, after(bytes, length))
}

/// The parts of an IPv6 packet (RFC 8200).
#[tactic(auto, unfolding(crate::specs::Packets::parts_of_v6))]
pub fn parts_of_v6(bytes: &[u8]) -> Parts
    ensures { result ≡ parts_of_v6 bytes.now }
{
    if !is_v6_head(bytes) {
        return Parts::none();
    }
    let carried = carried_behind(bytes[6], after(bytes, 40));
    Parts::between(u128_at(bytes, 8), u128_at(bytes, 24), carried)
}

fn is_v6_head(bytes: &[u8]) -> bool
    ensures { result ≡ is_v6_head bytes.now }
{
    if bytes.len() < 40 {
        return false;
    }
    bytes[0] / 16 == 6
}

/// What stands behind the extension headers of IPv6.
fn carried_behind(first: u8, bytes: &[u8]) -> Carried
    ensures { result ≡ carried_behind 8 first bytes.now }
{
    let mut next = first;
    let mut rest = bytes;
    for _followed in 0..MOST_FURTHER_HEADERS {
        if !is_further(next) {
            return reached(next, rest);
        }
        if rest.len() < needed(next) {
            return nothing_carried();
        }
        if is_later_fragment(next, rest) {
            return Carried {
                protocol: Some(rest[0]),
                ports: None,
            };
        }
        let length = header_length(next, rest);
        next = rest[0];
        rest = after(rest, length);
    }
    if is_further(next) {
        return nothing_carried();
    }
    reached(next, rest)
}

fn is_further(next: u8) -> bool
    ensures { result ≡ is_further next }
{
    next == HOP_BY_HOP || next == ROUTING || next == FRAGMENT || next == DESTINATION_OPTIONS
}

/// How many bytes of a extension header must be captured for it to be followed.
fn needed(next: u8) -> usize
    ensures { result ≡ needed next }
{
    if next == FRAGMENT { 8 } else { 2 }
}

fn header_length(next: u8, rest: &[u8]) -> usize
    requires { needed next ≤ length rest.now }
    ensures { result ≡ header_length next rest.now }
{
    if next == FRAGMENT {
        return 8;
    }
    8 * (usize::from(rest[1]) + 1)
}

/// Whether the header is that of a fragment other than the first.
fn is_later_fragment(next: u8, rest: &[u8]) -> bool
    requires { needed next ≤ length rest.now }
    ensures { result ≡ is_later_fragment next rest.now }
{
    if next != FRAGMENT {
        return false;
    }
    u16_at(rest, 2) / 8 != 0
}

fn nothing_carried() -> Carried
    ensures { result ≡ nothing_carried }
{
    Carried {
        protocol: None,
        ports: None,
    }
}

/// The protocol whose bytes are `rest`, and its ports.
fn reached(protocol: u8, rest: &[u8]) -> Carried
    ensures { result ≡ reached protocol rest.now }
{
    Carried {
        protocol: Some(protocol),
        ports: ports_of(protocol, rest),
    }
}

fn ports_of(protocol: u8, rest: &[u8]) -> Option<Ports>
    ensures { result ≡ ports_of protocol rest.now }
{
    if protocol != TCP && protocol != UDP {
        return None;
    }
    if rest.len() < 4 {
        return None;
    }
    Some(Ports {
        source: u16_at(rest, 0),
        target: u16_at(rest, 2),
    })
}
