//! The packets of a capture, as rows.
ghost use Rattle.std.specs.Prelude.{◌≡◌, ◌≤◌, ◌<◌, ◌⊎◌, [], None, Some, MatchOption, true, false, length, is_some, IfOk, IfSome, IsSome, IsTrue, OnOk};
ghost use Rattle.source_block.specs.Holding.{most_bytes};
ghost use Rattle.vast_value.specs.Headings.{fits_fields, heading_of};
ghost use Rattle.zeek_log.specs.Reader.{StepFits};
ghost use Rattle.zeek_log.specs.Steps.{step_of};
ghost use Rattle.pcap_file.specs.declared.reader.Phase.TheVariants.{Start};
ghost use Rattle.pcap_file.specs.Reading.{CountsOf, HoldsRecord, is_headed, most_kept};
ghost use Rattle.pcap_flow.specs.Rows.{packet_heading};
ghost use Rattle.importer.specs.Captures.{flows_behind, packet_cells, packet_of, packets_heading};
ghost use Rattle.importer.specs.Coming.{HasFaults, IsLost, Packets, StepsOn, heading_at, steps_left};
ghost use Rattle.importer.specs.Ending.{end_of_capture};
ghost use Rattle.importer.specs.Reads.{CountsPacket, ReadsPacket, is_memory, capture_after, capture_given};

use crate::carrying::carry;
use crate::ends::end_of_capture;
use crate::flows::FlowReader;
use pcap_file::{Captured, PcapEnd, PcapReader};
use pcap_flow::{Flows, Packet, flows_of_packets, packet_layout, packet_row};
use pcap_packet::decode;
use source_block::Block;
use std::alloc::{AllocError, Global};
use std::marker::Model;
use std::mem;
use vast_io::Source;
use vast_value::{Layout, Row};
use zeek_log::Step;

/// The place of the column `proto` among those of a packet.
const PROTOCOL: usize = 7;

/// Reads the packets of a capture from any source, and gathers their flows.
///
/// Contracts see how far its reader of records is, the row of the first packet until it is given, and the flows so far; and
/// the cells of the row at which it stands.
#[derive(Drop)]
pub struct PacketReader {
    reader: PcapReader,
    flows: Flows,
    /// The row of the first packet, until it is given.
    first: Option<Row>,
    /// The layout of packets.
    layout: Layout,
    /// The row at which the reader stands, without cells where it stands at none.
    row: Row,
}

impl Model for PacketReader {
    ghost use Rattle.std.specs.Prelude.{◌≡◌, true, IfSome};
    ghost use Rattle.vast_value.specs.Headings.{fits_fields, heading_of};
    ghost use Rattle.pcap_file.specs.Reading.{is_headed, is_open};
    ghost use Rattle.pcap_flow.specs.Rows.{packet_heading};
    ghost use Rattle.importer.specs.Captures.{PacketsAt, Rowed};
    ghost use Rattle.importer.specs.Reads.{IsNewBy, IsWithin};

    ghost Value = { Rowed PacketsAt };

    ghost view = { λ p. record { at = record { reader = p.reader; first = p.first; flows = p.flows.flows }; row = p.row } };

    ghost invariant = { λ p. IsWithin p.reader.phase p.flows.added p.reader.given × (heading_of p.layout ≡ packet_heading) × IsNewBy (is_headed p.reader.phase) p.flows.flows p.first × IfSome p.first (λ row. (fits_fields packet_heading.fields row ≡ true) × (is_open p.reader.phase ≡ true)) };
}

impl PacketReader {
    /// A reader of a capture of which the block holds all bytes that were taken so far.
    pub fn with_block(alloc: Global, block: Block) -> Result<Self, AllocError>
        requires all { block.taken ≡ length block.bytes }
        requires bound { block.taken ≤ most_bytes }
        requires kept { block.kept ≤ most_kept }
        ensures { IfOk result (λ packets. packets ≡ record { at = record { reader = record { phase = Start; held = block.bytes; taken = block.taken; kept = block.kept; given = 0 }; first = None; flows = [] }; row = [] }) }
    {
        let layout = packet_layout(alloc)?;
        Ok(PacketReader {
            reader: PcapReader::with_block(alloc, block),
            flows: Flows::new(alloc),
            first: None,
            layout,
            row: Row::new(alloc),
        })
    }

    /// The next step, and the reader of the flows where no more packets come; or why there is none.
    pub fn next<S: Source>(
        &mut self,
        alloc: Global,
        source: &mut S,
    ) -> Result<(Step, Option<FlowReader>), PcapEnd>
        ensures goes { StepsOn (Packets self.old.at) (capture_after self.new.at result) (S.left source.old) (S.left source.new) (capture_given result) }
        ensures faults { HasFaults (Packets self.old.at) (capture_after self.new.at result) (S.faults source.old) (S.faults source.new) }
        ensures fits { IfOk result (λ came. StepFits (packets_heading self.old.at.reader.phase) (heading_at (capture_after self.new.at result)) (step_of came.0)) }
        ensures there { OnOk result (¬ IsLost (capture_after self.new.at result)) }
        ensures tells { is_some (S.left source.new) ≡ is_some (S.left source.old) }
        ensures less { OnOk result (steps_left (capture_after self.new.at result) < steps_left (Packets self.old.at)) }
        ensures row { OnOk result (self.new.row ≡ []) }
        ensures rows { IfOk result (λ came. IfSome came.1 (λ flows. flows.row ≡ [])) }
    {
        self.row = Row::new(alloc);
        if self.reader.has_head() {
            return self.go_on(alloc, source);
        }
        self.begin(alloc, source)
    }

    /// Whether the next row is there without reading more of the source.
    pub fn holds_row(&self) -> bool
        ensures { IsTrue result → IsSome self.now.at.first ⊎ HoldsRecord self.now.at.reader }
    {
        self.first.is_some() || self.reader.holds_record()
    }

    /// Stands at a row.
    pub fn stand_at(&mut self, row: Row)
        ensures { self.new ≡ record { at = self.old.at; row = row } }
    {
        self.row = row;
    }

    /// The row at which the reader stands.
    pub fn row(&self) -> &Row
        ensures { result.now ≡ self.now.row }
    {
        &self.row
    }

    /// The layout of the last head, if it stands.
    pub fn layout(&self) -> Option<&Layout>
        ensures { MatchOption result (packets_heading self.now.at.reader.phase ≡ None) (λ layout. packets_heading self.now.at.reader.phase ≡ Some (heading_of layout.now)) }
    {
        if self.reader.has_head() {
            return Some(&self.layout);
        }
        None
    }

    /// Reads the file head and the first packet. The head of packets stands before it.
    fn begin<S: Source>(
        &mut self,
        alloc: Global,
        source: &mut S,
    ) -> Result<(Step, Option<FlowReader>), PcapEnd>
        requires fresh { is_headed self.old.at.reader.phase ≡ false }
        requires none { (self.old.at.flows ≡ []) × (self.old.at.first ≡ None) }
        ensures goes { StepsOn (Packets self.old.at) (capture_after self.new.at result) (S.left source.old) (S.left source.new) (capture_given result) }
        ensures faults { HasFaults (Packets self.old.at) (capture_after self.new.at result) (S.faults source.old) (S.faults source.new) }
        ensures fits { IfOk result (λ came. StepFits (packets_heading self.old.at.reader.phase) (heading_at (capture_after self.new.at result)) (step_of came.0)) }
        ensures there { OnOk result (¬ IsLost (capture_after self.new.at result)) }
        ensures tells { is_some (S.left source.new) ≡ is_some (S.left source.old) }
        ensures less { OnOk result (steps_left (capture_after self.new.at result) < steps_left (Packets self.old.at)) }
        ensures row { self.new.row ≡ self.old.row }
        ensures rows { IfOk result (λ came. IfSome came.1 (λ flows. flows.row ≡ [])) }
    {
        flows_of_packets();
        match self.read(alloc, source) {
            Ok(row) => {
                let layout = packet_layout(alloc)?;
                self.first = Some(row);
                Ok((Step::Head(layout), None))
            }
            Err(end) => {
                if is_memory(end) || !self.reader.has_head() {
                    return Err(end);
                }
                let layout = packet_layout(alloc)?;
                let flows = self.take_flows(alloc, end)?;
                Ok((Step::Head(layout), Some(flows)))
            }
        }
    }

    /// Goes on behind the head of packets.
    fn go_on<S: Source>(
        &mut self,
        alloc: Global,
        source: &mut S,
    ) -> Result<(Step, Option<FlowReader>), PcapEnd>
        requires begun { is_headed self.old.at.reader.phase ≡ true }
        ensures goes { StepsOn (Packets self.old.at) (capture_after self.new.at result) (S.left source.old) (S.left source.new) (capture_given result) }
        ensures faults { HasFaults (Packets self.old.at) (capture_after self.new.at result) (S.faults source.old) (S.faults source.new) }
        ensures fits { IfOk result (λ came. StepFits (packets_heading self.old.at.reader.phase) (heading_at (capture_after self.new.at result)) (step_of came.0)) }
        ensures there { OnOk result (¬ IsLost (capture_after self.new.at result)) }
        ensures tells { is_some (S.left source.new) ≡ is_some (S.left source.old) }
        ensures less { OnOk result (steps_left (capture_after self.new.at result) < steps_left (Packets self.old.at)) }
        ensures row { self.new.row ≡ self.old.row }
        ensures rows { IfOk result (λ came. IfSome came.1 (λ flows. flows.row ≡ [])) }
    {
        if let Some(row) = mem::replace(&mut self.first, None) {
            return Ok((Step::Line(row), None));
        }
        match self.read(alloc, source) {
            Ok(row) => Ok((Step::Line(row), None)),
            Err(end) => {
                if is_memory(end) {
                    return Err(end);
                }
                let flows = self.take_flows(alloc, end)?;
                let mut flows = flows;
                let layout = flows.head(alloc)?;
                Ok((Step::Head(layout), Some(flows)))
            }
        }
    }

    /// Reads a record, puts its packet to the flows, and answers its row.
    fn read<S: Source>(&mut self, alloc: Global, source: &mut S) -> Result<Row, PcapEnd>
        requires { self.old.at.first ≡ None }
        ensures reads { ReadsPacket self.old.at self.new.at (S.left source.old) (S.left source.new) result }
        ensures counts { CountsPacket self.old.at.reader.phase result (S.faults source.old) (S.faults source.new) }
        ensures fits { IfOk result (λ row. fits_fields packet_heading.fields row ≡ true) }
        ensures row { self.new.row ≡ self.old.row }
        ensures first { self.new.at.first ≡ self.old.at.first }
    {
        let captured = self.reader.next(source)?;
        let packet = packet_of(&captured);
        let row = packet_line(alloc, &packet)?;
        self.flows.add(&packet)?;
        Ok(row)
    }

    /// The reader of the flows so far, behind which the input ends so. They are gone here.
    fn take_flows(&mut self, alloc: Global, end: PcapEnd) -> Result<FlowReader, AllocError>
        requires there { is_memory end ≡ false }
        ensures flows { IfOk result (λ flows. flows ≡ record { at = flows_behind self.old.at.flows (end_of_capture end); row = [] }) }
        ensures reader { self.new.at.reader ≡ self.old.at.reader }
        ensures row { self.new.row ≡ self.old.row }
    {
        let flows = mem::replace(&mut self.flows, Flows::new(alloc));
        FlowReader::new(alloc, flows, end_of_capture(end))
    }
}

/// Whether memory was wanting.
fn is_memory(end: PcapEnd) -> bool
    ensures { result ≡ is_memory end }
{
    match end {
        PcapEnd::Memory => true,
        _ => false,
    }
}

/// The packet of a record.
fn packet_of(captured: &Captured) -> Packet
    ensures { result ≡ packet_of captured.now }
{
    Packet {
        time: captured.time,
        captured: captured.captured,
        original: captured.original,
        parts: decode(captured.link, captured.bytes.as_slice()),
    }
}

/// The row of a packet, carried.
fn packet_line(alloc: Global, packet: &Packet) -> Result<Row, AllocError>
    ensures row { IfOk result (λ row. row ≡ packet_cells packet.now) }
    ensures fits { IfOk result (λ row. fits_fields packet_heading.fields row ≡ true) }
{
    carry(alloc, Some(PROTOCOL), packet_row(alloc, packet)?)
}
