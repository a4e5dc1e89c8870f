//! The reader of a capture file.
ghost use Rattle.std.specs.Prelude.{◌≡◌, ◌≤◌, ◌+◌, [], pos, ◌≤ℤ◌, length, drop, IfOk, IsTrue};
ghost use Rattle.source_block.specs.Holding.{most_bytes};
ghost use Rattle.pcap_file.specs.Records.{CountsBy};
ghost use Rattle.pcap_file.specs.Reading.{Answer, Follows, CountsOf, HoldsRecord, is_headed, most_kept};

use crate::end::PcapEnd;
use crate::head::FileHead;
use crate::opening::whole_head;
use crate::record::{Captured, begins_with_record, next_record};
use source_block::Block;
use std::alloc::{AllocError, Global};
use std::marker::Model;
use vast_io::Source;

/// How far a reader is.
#[derive(Clone, Copy, Debug, PartialEq, Eq)]
pub enum Phase {
    /// Nothing was read.
    Start,
    /// Records come. The bytes held begin at this offset of the file.
    Records { head: FileHead, offset: u64 },
    /// No more records come. The file head was read, or it was not.
    Ended { end: PcapEnd, has_head: bool },
}

/// Reads a capture file of libpcap's format, version 2.4, from any source.
///
/// It takes at most 2^36 bytes, and keeps memory for at most one record and a block of 65,536 bytes. Contracts see how
/// far it is, the bytes that it holds, how many it took, for how many it keeps memory, and how many records it gave.
#[derive(Drop)]
pub struct PcapReader {
    phase: Phase,
    block: Block,
    given: u32,
    alloc: Global,
}

impl Model for PcapReader {
    ghost use Rattle.std.specs.Prelude.{◌≤◌, length};
    ghost use Rattle.source_block.specs.Holding.{most_bytes};
    ghost use Rattle.pcap_file.specs.Reading.{Reading, IsSound, most_kept};

    ghost Value = { Reading };

    ghost view = { λ r. record { phase = r.phase; held = r.block.bytes; taken = r.block.taken; kept = r.block.kept; given = r.given } };

    ghost invariant = { λ r. (r.block.taken ≤ most_bytes) × (r.block.kept ≤ most_kept) × IsSound r.phase (length r.block.bytes) r.block.taken r.given };
}

impl PcapReader {
    /// A reader that has read nothing.
    pub fn new(alloc: Global) -> Result<Self, AllocError>
        ensures { IfOk result (λ reader. reader ≡ record { phase = Phase.Start; held = []; taken = 0; kept = 65536; given = 0 }) }
    {
        Ok(PcapReader::with_block(alloc, Block::new(alloc)?))
    }

    /// A reader that has read nothing of a capture whose first bytes were taken already: the block holds all of them. It
    /// takes no memory.
    pub fn with_block(alloc: Global, block: Block) -> Self
        requires all { block.taken ≡ length block.bytes }
        requires bound { block.taken ≤ most_bytes }
        requires kept { block.kept ≤ most_kept }
        ensures { result ≡ record { phase = Phase.Start; held = block.bytes; taken = block.taken; kept = block.kept; given = 0 } }
    {
        PcapReader {
            phase: Phase::Start,
            block,
            given: 0,
            alloc,
        }
    }

    /// Whether the file head was read, and has no fault.
    pub fn has_head(&self) -> bool
        ensures { result ≡ is_headed self.now.phase }
    {
        match self.phase {
            Phase::Start => false,
            Phase::Records { .. } => true,
            Phase::Ended { has_head, .. } => has_head,
        }
    }

    /// Whether a whole record is among the bytes held. The next one is then given without reading more of the source.
    pub fn holds_record(&self) -> bool
        ensures { IsTrue result → HoldsRecord self.now }
    {
        match self.phase {
            Phase::Records { head, .. } => begins_with_record(head, self.block.as_slice()),
            _ => false,
        }
    }

    /// The next record of the capture, or why there is none.
    ///
    /// A fault comes at the first of these places: fewer than 24 bytes (their number), a magic that is none (0), a major
    /// version other than 2 (4), a link type other than 1, 101 and 113 (20), and at a record's start where the file ends
    /// within it or where it tells more than 262,144 captured bytes, which is told before these are read. After any end
    /// every later call gives the same.
    pub fn next<S: Source>(&mut self, s: &mut S) -> Result<Captured, PcapEnd>
        ensures next { Follows self.old.phase self.old self.new (S.left s.old) (S.left s.new) result }
        ensures counts { CountsOf self.old.phase result (S.faults s.old) (S.faults s.new) }
        ensures time { IfOk result (λ captured. pos 0 ≤ℤ captured.time) }
        ensures few { self.new.given ≤ 4294967295 }
        ensures kept { self.new.kept ≤ most_kept }
    {
        match self.phase {
            Phase::Start => self.begin(s),
            Phase::Records { head, offset } => self.go_on(s, head, offset),
            Phase::Ended { end, .. } => Err(end),
        }
    }

    /// The file head and the first record.
    fn begin<S: Source>(&mut self, s: &mut S) -> Result<Captured, PcapEnd>
        requires { self.old.phase ≡ Phase.Start }
        ensures next { Answer self.old self.new (S.left s.old) (S.left s.new) result }
        ensures counts { CountsBy result (S.faults s.old) (S.faults s.new) }
        ensures time { IfOk result (λ captured. pos 0 ≤ℤ captured.time) }
        ensures few { self.new.given ≤ 4294967295 }
        ensures kept { self.new.kept ≤ most_kept }
    {
        match whole_head(s, &mut self.block) {
            Ok(head) => {
                self.block.skip(24);
                self.phase = Phase::Records { head, offset: 24 };
                self.go_on(s, head, 24)
            }
            Err(end) => {
                self.phase = Phase::Ended {
                    end,
                    has_head: false,
                };
                Err(end)
            }
        }
    }

    /// A record behind the file head.
    fn go_on<S: Source>(
        &mut self,
        s: &mut S,
        head: FileHead,
        offset: u64,
    ) -> Result<Captured, PcapEnd>
        requires { self.old.phase ≡ Phase.Records head offset }
        ensures next { Answer self.old self.new (S.left s.old) (S.left s.new) result }
        ensures counts { CountsBy result (S.faults s.old) (S.faults s.new) }
        ensures time { IfOk result (λ captured. pos 0 ≤ℤ captured.time) }
        ensures few { self.new.given ≤ 4294967295 }
        ensures kept { self.new.kept ≤ most_kept }
    {
        match next_record(self.alloc, s, &mut self.block, head, offset) {
            Ok(captured) => {
                let offset = offset + (16 + u64::from(captured.captured));
                self.phase = Phase::Records { head, offset };
                self.given += 1;
                Ok(captured)
            }
            Err(end) => {
                self.phase = Phase::Ended {
                    end,
                    has_head: true,
                };
                Err(end)
            }
        }
    }
}
