//! Captured packets.
use pcap_packet::Parts;

/// A captured packet: when it was captured, in nanoseconds since 1970-01-01T00:00:00Z, how many of its
/// bytes were captured, how many it had, and its parts.
#[derive(Clone, Copy, Debug, PartialEq, Eq)]
pub struct Packet {
    pub time: i64,
    pub captured: u32,
    pub original: u32,
    pub parts: Parts,
}
