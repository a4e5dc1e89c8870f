//! The flows of a list of packets, packet by packet.
ghost use Rattle.std.specs.Prelude.{◌≡◌, ◌≤◌, ◌<◌, ◌^◌, ◌+◌, pos, ◌≤ℤ◌, [], ◌∷◌, ◌++◌, length, map, slice_get, slice_set, IsTrue, IsSomeAnd, OnOk, OnErr, IfOk};
ghost use Rattle.std.specs.List.{list_all};
ghost use Rattle.vast_value.specs.Headings.{fits_fields};
ghost use Rattle.pcap_flow.specs.Steps.{with_packet, with_sighting, begun, is_bounded, flow_key};
ghost use Rattle.pcap_flow.specs.Rows.{flow_row, flow_heading};
ghost use Rattle.pcap_flow.specs.Tracked.{latest_place};

use crate::flow::Flow;
use crate::key::FlowKey;
use crate::packet::Packet;
use crate::rows::{Rows, flow_rows};
use crate::sighting::Sighting;
use indexmap::IndexMap;
use std::alloc::{AllocError, Global};
use std::marker::Model;

/// The flows of the packets that were added. Contracts see their list, in the order of their first
/// packets, and how many packets were added.
#[derive(Drop)]
pub struct Flows {
    flows: Vec<Flow>,
    /// Where the latest flow of each key stands in `flows`.
    latest: IndexMap<FlowKey, usize>,
    added: u64,
}

impl Model for Flows {
    ghost use Rattle.std.specs.Prelude.{◌≡◌, true};
    ghost use Rattle.std.specs.List.{list_all};
    ghost use Rattle.indexmap.specs.IndexMap.{get};
    ghost use Rattle.pcap_flow.specs.declared.key.FlowKey.{FlowKey};
    ghost use Rattle.pcap_flow.specs.Keys.{same_key};
    ghost use Rattle.pcap_flow.specs.Steps.{is_bounded};
    ghost use Rattle.pcap_flow.specs.Tracked.{Tracked, latest_place};

    ghost Value = { Tracked };

    ghost view = { λ s. record { flows = s.flows.items; added = s.added } };

    ghost invariant = { λ s. ((k : FlowKey) → get same_key s.latest k ≡ latest_place k s.flows.items) × (list_all (is_bounded s.added) s.flows.items ≡ true) };
}

impl Flows {
    /// No flows, and no packets yet.
    pub fn new(alloc: Global) -> Self
        ensures { result ≡ record { flows = []; added = 0 } }
    {
        Flows {
            flows: Vec::new(alloc),
            latest: IndexMap::new(alloc),
            added: 0,
        }
    }

    /// Adds a packet: it joins the latest flow of its ends and protocol, begins one, or belongs to none.
    ///
    /// A refusal leaves the flows as they were.
    pub fn add(&mut self, packet: &Packet) -> Result<(), AllocError>
        requires time { pos 0 ≤ℤ packet.now.time }
        requires few { self.old.added < 2 ^ 32 }
        ensures ok { OnOk result (self.new ≡ record { flows = with_packet self.old.flows packet.now; added = self.old.added + 1 }) }
        ensures err { OnErr result (self.new ≡ self.old) }
    {
        match Sighting::of(packet) {
            Some(sighting) => self.add_sighting(sighting),
            None => {
                self.count();
                Ok(())
            }
        }
    }

    /// The rows of the flows, in the order of their first packets, in the columns of
    /// [`crate::flow_layout`].
    #[tactic(auto, using(crate::proofs::FlowLemmas::all_timed))]
    pub fn finish(self, alloc: Global) -> Result<Rows, AllocError>
        ensures value { IfOk result (λ rows. rows ≡ map flow_row self.flows) }
        ensures fits { IfOk result (λ rows. IsTrue (list_all (fits_fields flow_heading.fields) rows)) }
    {
        flow_rows(alloc, self.flows.as_slice())
    }

    fn add_sighting(&mut self, sighting: Sighting) -> Result<(), AllocError>
        requires time { sighting.time < 2 ^ 63 }
        requires few { self.old.added < 2 ^ 32 }
        ensures ok { OnOk result (self.new ≡ record { flows = with_sighting self.old.flows sighting; added = self.old.added + 1 }) }
        ensures err { OnErr result (self.new ≡ self.old) }
    {
        let key = sighting.key();
        let Some(place) = self.place(&key) else {
            return self.begin(sighting);
        };
        let flow = self.flow(place);
        if flow.is_over(sighting.time) {
            return self.begin(sighting);
        }
        self.replace(place, flow.joined(sighting));
        Ok(())
    }

    /// Where the latest flow of the key stands.
    fn place(&self, key: &FlowKey) -> Option<usize>
        ensures { result ≡ latest_place key.now self.now.flows }
    {
        self.latest.get(key).copied()
    }

    /// The flow at a place.
    fn flow(&self, place: usize) -> Flow
        requires { place < length self.now.flows }
        ensures value { slice_get self.now.flows place ≡ Some result }
        ensures bounded { IsTrue (is_bounded self.now.added result) }
    {
        self.flows[place]
    }

    /// Counts a packet that belongs to no flow.
    fn count(&mut self)
        requires { self.old.added < 2 ^ 32 }
        ensures { self.new ≡ record { flows = self.old.flows; added = self.old.added + 1 } }
    {
        self.added += 1;
    }

    /// Puts a flow that got one more packet in its place.
    fn replace(&mut self, place: usize, flow: Flow)
        requires few { self.old.added < 2 ^ 32 }
        requires same { IsSomeAnd (slice_get self.old.flows place) (λ old. flow_key flow ≡ flow_key old) }
        requires bounded { IsTrue (is_bounded (self.old.added + 1) flow) }
        ensures { self.new ≡ record { flows = slice_set self.old.flows place flow; added = self.old.added + 1 } }
    {
        self.flows[place] = flow;
        self.added += 1;
    }

    /// Begins a flow.
    fn begin(&mut self, sighting: Sighting) -> Result<(), AllocError>
        requires time { sighting.time < 2 ^ 63 }
        requires few { self.old.added < 2 ^ 32 }
        ensures ok { OnOk result (self.new ≡ record { flows = self.old.flows ++ begun sighting ∷ []; added = self.old.added + 1 }) }
        ensures err { OnErr result (self.new ≡ self.old) }
    {
        let place = self.flows.as_slice().len();
        self.flows.push(Flow::begun(sighting))?;
        if self.latest.insert(sighting.key(), place).is_err() {
            self.flows.pop();
            return Err(AllocError);
        }
        self.added += 1;
        Ok(())
    }
}
