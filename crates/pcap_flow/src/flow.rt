//! Flows.
ghost use Rattle.std.specs.Prelude.{◌≡◌, ◌≤◌, ◌<◌, ◌^◌, ◌+◌, ◌-◌, ◌*◌, ℕ, IsTrue};
ghost use Rattle.pcap_flow.specs.Steps.{begun, joined, is_over, flow_key, is_bounded};

use crate::key::{Endpoint, FlowKey};
use crate::sighting::Sighting;

/// A packet of the same ends joins a flow unless it comes more than so many nanoseconds after it.
const IDLE_TIMEOUT: u64 = 60_000_000_000;

/// The packets of one flow, counted. Its originator is the source of its first packet.
#[derive(Clone, Copy, Debug, PartialEq, Eq)]
pub struct Flow {
    pub source: Endpoint,
    pub target: Endpoint,
    pub protocol: u8,
    /// The time of the first packet, in nanoseconds since 1970-01-01T00:00:00Z.
    pub first: u64,
    /// The greatest time of its packets.
    pub last: u64,
    /// The packets from the originator, and the bytes that they had.
    pub orig_packets: u64,
    pub orig_bytes: u64,
    /// The packets from the other end, and the bytes that they had.
    pub resp_packets: u64,
    pub resp_bytes: u64,
}

impl Flow {
    /// The flow of its first packet.
    #[tactic(auto, using(crate::proofs::FlowLemmas::bounded_begun))]
    pub fn begun(sighting: Sighting) -> Self
        requires { sighting.time < 2 ^ 63 }
        ensures value { result ≡ begun sighting }
        ensures more { (n : ℕ) → IsTrue (is_bounded (n + 1) result) }
    {
        Flow {
            source: sighting.source,
            target: sighting.target,
            protocol: sighting.protocol,
            first: sighting.time,
            last: sighting.time,
            orig_packets: 1,
            orig_bytes: u64::from(sighting.original),
            resp_packets: 0,
            resp_bytes: 0,
        }
    }

    /// The flow with one more packet.
    #[tactic(auto, using(crate::proofs::FlowLemmas::bounded_joined, crate::proofs::FlowLemmas::key_joined))]
    pub fn joined(self, sighting: Sighting) -> Self
        requires bounded { IsTrue (is_bounded (2 ^ 32 - 1) self) }
        requires time { sighting.time < 2 ^ 63 }
        ensures value { result ≡ joined sighting self }
        ensures same { flow_key result ≡ flow_key self }
        ensures more { (n : ℕ) → IsTrue (is_bounded n self) → IsTrue (is_bounded (n + 1) result) }
    {
        let mut flow = self;
        flow.last = self.last.max(sighting.time);
        if sighting.source.is(self.source) {
            flow.orig_packets += 1;
            flow.orig_bytes += u64::from(sighting.original);
            return flow;
        }
        flow.resp_packets += 1;
        flow.resp_bytes += u64::from(sighting.original);
        flow
    }

    /// Whether a packet of this time comes too late for the flow.
    pub fn is_over(self, time: u64) -> bool
        requires { self.last < 2 ^ 63 }
        ensures { result ≡ is_over time self }
    {
        self.last + IDLE_TIMEOUT < time
    }
}
