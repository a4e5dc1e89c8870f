//! Transport protocols of ports.
ghost use Rattle.std.specs.Prelude.{◌≡◌, ◌≤◌};
ghost use Rattle.vast_value.specs.Ports.{transport_code, transport_coded, transport_eq};

/// The transport protocol of a port.
#[derive(Clone, Copy, Debug, PartialEq, Eq)]
pub enum Transport {
    /// No transport is known.
    Unknown,
    Tcp,
    Udp,
    Icmp,
}

impl Transport {
    /// The number by which a transport is ordered and written in batches: 0 for an unknown one, 1 for TCP, 2 for UDP
    /// and 3 for ICMP.
    pub fn code(self) -> u8
        ensures code { result ≡ transport_code self }
        ensures small { result ≤ 3 }
    {
        match self {
            Transport::Unknown => 0,
            Transport::Tcp => 1,
            Transport::Udp => 2,
            Transport::Icmp => 3,
        }
    }

    /// The transport with this number, or `None` above 3.
    pub fn coded(code: u8) -> Option<Transport>
        ensures { result ≡ transport_coded code }
    {
        match code {
            0 => Some(Transport::Unknown),
            1 => Some(Transport::Tcp),
            2 => Some(Transport::Udp),
            3 => Some(Transport::Icmp),
            _ => None,
        }
    }

    /// Whether both are one transport.
    pub fn is(self, other: Transport) -> bool
        ensures { result ≡ transport_eq self other }
    {
        self == other
    }
}
