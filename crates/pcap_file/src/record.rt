//! The records of a capture.
ghost use Rattle.std.specs.Prelude.{◌≡◌, ◌≤◌, ◌+◌, pos, ◌≤ℤ◌, length, max, IfOk, IfErr, IsTrue};
ghost use Rattle.source_block.specs.Holding.{most_bytes};
ghost use Rattle.source_block.specs.Taking.{Takes};
ghost use Rattle.pcap_file.specs.Reading.{most_kept};
ghost use Rattle.pcap_file.specs.Records.{record_of, size_of_record, captured_of, nanoseconds, records_from, end_of, end_after, Ends, IsWhole, CountsBy, StepsTo, ClosesAs};

use crate::end::{CaptureFault, PcapEnd};
use crate::head::{FileHead, Fraction, u32_at};
use source_block::{Block, Stop, Took};
use std::alloc::{AllocError, Global};
use vast_io::Source;
use vast_value::Bytes;

/// No record has more captured bytes.
const MOST_CAPTURED: u32 = 262_144;

/// A captured packet.
#[derive(Debug, Drop)]
pub struct Captured {
    /// When it was captured, in nanoseconds since 1970-01-01T00:00:00Z.
    pub time: i64,
    /// How many of its bytes were captured, at most 262,144.
    pub captured: u32,
    /// How many bytes it had.
    pub original: u32,
    /// The link type of the file: 1 Ethernet, 101 raw IP, 113 Linux cooked.
    pub link: u16,
    /// The captured bytes.
    pub bytes: Bytes,
}

/// How many bytes the record at hand has captured.
pub fn captured_of(head: FileHead, bytes: &[u8]) -> u32
    requires { 16 ≤ length bytes.now }
    ensures { result ≡ captured_of head bytes.now }
{
    u32_at(head.magic.endian, bytes, 8)
}

/// Whether the bytes begin with a whole record.
pub fn begins_with_record(head: FileHead, bytes: &[u8]) -> bool
    ensures { IsTrue result → IsWhole head (size_of_record head bytes.now) bytes.now }
{
    if bytes.len() < 16 {
        return false;
    }
    let captured = captured_of(head, bytes);
    captured <= MOST_CAPTURED && 16 + captured as usize <= bytes.len()
}

/// The record that the bytes begin with.
pub fn record_of(alloc: Global, head: FileHead, bytes: &[u8]) -> Result<Captured, AllocError>
    requires whole { size_of_record head bytes.now ≤ length bytes.now }
    requires short { captured_of head bytes.now ≤ 262144 }
    ensures { IfOk result (λ captured. captured ≡ record_of head bytes.now) }
{
    let endian = head.magic.endian;
    let seconds = u32_at(endian, bytes, 0);
    let fraction = u32_at(endian, bytes, 4);
    let captured = captured_of(head, bytes);
    let size = captured as usize;
    let content = Bytes::copy(alloc, &bytes[16..16 + size])?;
    Ok(Captured {
        time: time_of(head.magic.fraction, seconds, fraction),
        captured,
        original: u32_at(endian, bytes, 12),
        link: head.link,
        bytes: content,
    })
}

fn time_of(fraction: Fraction, seconds: u32, part: u32) -> i64
    ensures { result ≡ nanoseconds fraction seconds part }
{
    let unit = match fraction {
        Fraction::Micro => 1000u64,
        Fraction::Nano => 1,
    };
    (u64::from(seconds) * 1_000_000_000 + u64::from(part) * unit) as i64
}

/// Takes bytes until a whole record is held, and answers its size.
pub fn whole_record<S: Source>(
    source: &mut S,
    block: &mut Block,
    head: FileHead,
    offset: u64,
) -> Result<usize, PcapEnd>
    ensures takes { Takes block.old block.new (S.left source.old) (S.left source.new) }
    ensures whole { IfOk result (λ size. IsWhole head size block.new.bytes) }
    ensures ends { IfErr result (λ e. Ends (records_from head offset) block.new.bytes (S.left source.new) block.new.taken e) }
    ensures counts { CountsBy result (S.faults source.old) (S.faults source.new) }
    ensures bound { block.new.taken ≤ most_bytes }
    ensures kept { block.new.kept ≤ max block.old.kept most_kept }
{
    match block.fill(source, 16)? {
        Took::Enough => {}
        Took::Stopped(stop) => return Err(end_after(stop, block.as_slice().is_empty(), offset)),
    }
    let captured = captured_of(head, block.as_slice());
    if captured > MOST_CAPTURED {
        return Err(PcapEnd::Fault {
            offset,
            what: CaptureFault::RecordTooLong,
        });
    }
    let size = 16 + captured as usize;
    match block.fill(source, size)? {
        Took::Enough => Ok(size),
        Took::Stopped(stop) => Err(end_after(stop, false, offset)),
    }
}

/// The end where no more bytes come.
pub fn end_of(stop: Stop) -> PcapEnd
    ensures { result ≡ end_of stop }
{
    match stop {
        Stop::AtEnd => PcapEnd::Done,
        Stop::Failed => PcapEnd::ReadFault,
        Stop::AtBound => PcapEnd::TooLong,
    }
}

/// The end where no more bytes come of a record, of which there are none or too few.
fn end_after(stop: Stop, nothing: bool, offset: u64) -> PcapEnd
    ensures { result ≡ end_after stop nothing offset }
{
    if stop == Stop::AtEnd && !nothing {
        return PcapEnd::Fault {
            offset,
            what: CaptureFault::ShortRecord,
        };
    }
    end_of(stop)
}

/// Takes the next record.
pub fn next_record<S: Source>(
    alloc: Global,
    source: &mut S,
    block: &mut Block,
    head: FileHead,
    offset: u64,
) -> Result<Captured, PcapEnd>
    requires room { offset + length block.old.bytes ≡ block.old.taken }
    ensures next { IfOk result (λ captured. StepsTo (records_from head offset) (records_from head (offset + (16 + captured.captured))) block.old block.new (S.left source.old) (S.left source.new) captured) }
    ensures room { IfOk result (λ captured. offset + (16 + captured.captured) + length block.new.bytes ≡ block.new.taken) }
    ensures time { IfOk result (λ captured. pos 0 ≤ℤ captured.time) }
    ensures ends { IfErr result (λ e. ClosesAs (records_from head offset) block.old block.new (S.left source.old) (S.left source.new) e) }
    ensures counts { CountsBy result (S.faults source.old) (S.faults source.new) }
    ensures bound { block.new.taken ≤ most_bytes }
    ensures kept { block.new.kept ≤ max block.old.kept most_kept }
{
    let size = whole_record(source, block, head, offset)?;
    let captured = record_of(alloc, head, block.as_slice())?;
    block.skip(size);
    Ok(captured)
}
