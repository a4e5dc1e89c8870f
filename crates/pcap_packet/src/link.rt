//! From the link's frame to the IP packet in it.
ghost use Rattle.std.specs.Prelude.{◌≡◌};
ghost use Rattle.pcap_packet.specs.Packets.{parts_of, parts_of_framed, untagged};

use crate::ip::{parts_of_ip, parts_of_v4, parts_of_v6};
use crate::parts::Parts;
use crate::take::{after, u16_at};

const ETHERNET: u16 = 1;

const RAW_IP: u16 = 101;

const LINUX_COOKED: u16 = 113;

const TAG: u16 = 0x8100;

const IPV4: u16 = 0x0800;

const IPV6: u16 = 0x86dd;

/// The parts of a packet whose link type is `link` (1 Ethernet, 101 raw IP, 113 Linux cooked) and whose
/// captured bytes are `bytes`.
///
/// Any bytes have an answer: a part that isn't captured, or that the packet doesn't have, is unset. At
/// most two 802.1Q tags and eight extension headers of IPv6 are followed. Ports are those of TCP and UDP,
/// and only of a first fragment. Lengths of the packet and its payload aren't looked at.
pub fn decode(link: u16, bytes: &[u8]) -> Parts
    ensures { result ≡ parts_of link bytes.now }
{
    match link {
        ETHERNET => parts_of_framed(after(bytes, 12)),
        LINUX_COOKED => parts_of_framed(after(bytes, 14)),
        RAW_IP => parts_of_ip(bytes),
        _ => Parts::none(),
    }
}

/// The parts of a frame, from its EtherType on.
#[tactic(auto, unfolding(crate::specs::Packets::parts_of_framed))]
fn parts_of_framed(frame: &[u8]) -> Parts
    ensures { result ≡ parts_of_framed frame.now }
{
    let inner = untagged(untagged(frame));
    if inner.len() < 2 {
        return Parts::none();
    }
    let content = after(inner, 2);
    match u16_at(inner, 0) {
        IPV4 => parts_of_v4(content),
        IPV6 => parts_of_v6(content),
        _ => Parts::none(),
    }
}

/// The frame behind its first VLAN tag, or itself where it begins with none.
fn untagged(frame: &[u8]) -> &[u8]
    ensures { result.now ≡ untagged frame.now }
{
    if frame.len() >= 4 && u16_at(frame, 0) == TAG {
        after(frame, 4)
    } else {
        frame
    }
}
