//! Packets that belong to a flow.
ghost use Rattle.std.specs.Prelude.{◌≡◌, pos, ◌≤ℤ◌, ◌<◌, ◌^◌, IfSome};
ghost use Rattle.pcap_flow.specs.Sightings.{sighting_of, key_of};

use crate::key::{Endpoint, FlowKey};
use crate::packet::Packet;

/// A packet with all its parts.
#[derive(Clone, Copy, Debug, PartialEq, Eq)]
pub struct Sighting {
    pub source: Endpoint,
    pub target: Endpoint,
    pub protocol: u8,
    /// Nanoseconds since 1970-01-01T00:00:00Z.
    pub time: u64,
    /// How many bytes the packet had.
    pub original: u32,
}

impl Sighting {
    /// The packet with its parts, if it has all of them.
    pub fn of(packet: &Packet) -> Option<Self>
        requires { pos 0 ≤ℤ packet.now.time }
        ensures value { result ≡ sighting_of packet.now }
        ensures time { IfSome result (λ sighting. sighting.time < 2 ^ 63) }
    {
        let parts = packet.parts;
        let source = Endpoint {
            address: parts.source?,
            port: parts.source_port?,
        };
        let target = Endpoint {
            address: parts.target?,
            port: parts.target_port?,
        };
        Some(Sighting {
            source,
            target,
            protocol: parts.protocol?,
            time: packet.time as u64,
            original: packet.original,
        })
    }

    pub fn key(self) -> FlowKey
        ensures { result ≡ key_of self }
    {
        FlowKey::between(self.source, self.target, self.protocol)
    }
}
