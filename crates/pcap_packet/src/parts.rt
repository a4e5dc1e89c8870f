//! What is read from a packet.
ghost use Rattle.std.specs.Prelude.{◌≡◌};
ghost use Rattle.pcap_packet.specs.Parts.{no_parts, between};

/// The parts of one packet, each unset where the packet doesn't show it.
///
/// Addresses are held in 128 bits; the IPv4 address a.b.c.d is held as ::ffff:a.b.c.d (RFC 4291,
/// section 2.5.5.2).
#[derive(Clone, Copy, Debug, PartialEq, Eq)]
pub struct Parts {
    pub source: Option<u128>,
    pub target: Option<u128>,
    pub protocol: Option<u8>,
    pub source_port: Option<u16>,
    pub target_port: Option<u16>,
}

/// The ports of a packet of TCP or UDP.
#[derive(Clone, Copy, Debug, PartialEq, Eq)]
pub struct Ports {
    pub source: u16,
    pub target: u16,
}

/// What an IP packet carries: the protocol above it, and its ports.
#[derive(Clone, Copy, Debug, PartialEq, Eq)]
pub struct Carried {
    pub protocol: Option<u8>,
    pub ports: Option<Ports>,
}

impl Parts {
    /// All parts unset.
    pub fn none() -> Self
        ensures { result ≡ no_parts }
    {
        Parts {
            source: None,
            target: None,
            protocol: None,
            source_port: None,
            target_port: None,
        }
    }

    /// The parts of a packet between two addresses.
    pub fn between(source: u128, target: u128, carried: Carried) -> Self
        ensures { result ≡ between source target carried }
    {
        let (source_port, target_port) = match carried.ports {
            Some(ports) => (Some(ports.source), Some(ports.target)),
            None => (None, None),
        };
        Parts {
            source: Some(source),
            target: Some(target),
            protocol: carried.protocol,
            source_port,
            target_port,
        }
    }
}
