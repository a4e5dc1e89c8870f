//! What the packets of a flow have in common.
ghost use Rattle.std.specs.Prelude.{◌≡◌};
ghost use Rattle.pcap_flow.specs.Keys.{same_endpoint, endpoint_before, key_between};

/// One end of a flow.
#[derive(Clone, Copy, Debug, PartialEq, Eq, Hash)]
pub struct Endpoint {
    pub address: u128,
    pub port: u16,
}

/// The unordered pair of a flow's ends, kept with the lower first, and its protocol.
#[derive(Clone, Copy, Debug, PartialEq, Eq, Hash)]
pub struct FlowKey {
    pub low: Endpoint,
    pub high: Endpoint,
    pub protocol: u8,
}

impl Endpoint {
    pub fn is(self, other: Endpoint) -> bool
        ensures { result ≡ same_endpoint self other }
    {
        self.address == other.address && self.port == other.port
    }

    fn is_before(self, other: Endpoint) -> bool
        ensures { result ≡ endpoint_before self other }
    {
        if self.address == other.address {
            return self.port < other.port;
        }
        self.address < other.address
    }
}

impl FlowKey {
    pub fn between(source: Endpoint, target: Endpoint, protocol: u8) -> Self
        ensures { result ≡ key_between source target protocol }
    {
        if target.is_before(source) {
            return FlowKey {
                low: target,
                high: source,
                protocol,
            };
        }
        FlowKey {
            low: source,
            high: target,
            protocol,
        }
    }
}
