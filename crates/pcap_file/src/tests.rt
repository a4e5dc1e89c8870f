//! Captures by hand.
ghost use Rattle.std.specs.Prelude.{◌≤◌};

use crate::{CaptureFault, PcapEnd, PcapReader};
use std::alloc::{AllocError, Global};
use std::test::Fail;
use vast_io::MemSource;
use vast_value::Bytes;

// Big-endian nanoseconds of Ethernet: 50 bytes, 42 bytes, 20 of 60 bytes, and five bytes of a record's head.
const CAPTURE: [u8; 189] = [
    0xa1, 0xb2, 0x3c, 0x4d, 0, 2, 0, 4, 0, 0, 0, 0, 0, 0, 0, 0, 0, 4, 0, 0, 0, 0, 0, 1, //
    0, 0, 0, 0x0a, 0, 0, 0, 5, 0, 0, 0, 0x32, 0, 0, 0, 0x32, //
    2, 0, 0, 0, 0, 2, 2, 0, 0, 0, 0, 1, 0x81, 0, 0, 1, 0x81, 0, 0, 2, 8, 0, //
    0x45, 0, 0, 0x1c, 0, 0, 0, 0, 0x40, 0x11, 0, 0, 0x0a, 0, 0, 1, 0x0a, 0, 0, 2, 3, 0xe8, 0, 0x35,
    0, 8, 0, 0, //
    0, 0, 0, 0x0b, 0, 0, 0, 0, 0, 0, 0, 0x2a, 0, 0, 0, 0x2a, //
    2, 0, 0, 0, 0, 2, 2, 0, 0, 0, 0, 1, 8, 0, //
    0x45, 0, 0, 0x1c, 0, 0, 0, 1, 0x40, 0x11, 0, 0, 0x0a, 0, 0, 1, 0x0a, 0, 0, 2, 0, 0, 0, 0, 0, 0,
    0, 0, //
    0, 0, 0, 0x0c, 0, 0, 0, 0, 0, 0, 0, 0x14, 0, 0, 0, 0x3c, //
    2, 0, 0, 0, 0, 2, 2, 0, 0, 0, 0, 1, 8, 0, 0x45, 0, 0, 0x3c, 0, 0, //
    0, 0, 0, 0x0d, 0,
];

/// What a reader gave of some bytes: how many records, the time of the first, the captured and original
/// bytes of all together, whether it read the file head, and its end.
#[derive(Clone, Copy, Debug, PartialEq, Eq)]
struct Told {
    records: u32,
    time: i64,
    captured: u64,
    original: u64,
    has_head: bool,
    end: PcapEnd,
}

fn read_all(alloc: Global, bytes: &[u8], piece: u32, fails: Vec<u64>) -> Result<Told, AllocError>
    requires { 1 ≤ piece }
{
    let mut copy = Bytes::new(alloc);
    copy.append(bytes)?;
    let mut source = MemSource::new(copy, piece, fails);
    let mut reader = PcapReader::new(alloc)?;
    let mut told = Told {
        records: 0,
        time: 0,
        captured: 0,
        original: 0,
        has_head: false,
        end: PcapEnd::Memory,
    };
    for number in 0..9u32 {
        match reader.next(&mut source) {
            Ok(captured) => {
                if number == 0 {
                    told.time = captured.time;
                }
                told.records = number + 1;
                told.captured = told
                    .captured
                    .wrapping_add(captured.bytes.as_slice().len() as u64);
                told.original = told.original.wrapping_add(u64::from(captured.original));
            }
            Err(end) => told.end = end,
        }
    }
    told.has_head = reader.has_head();
    Ok(told)
}

fn whole(alloc: Global, bytes: &[u8]) -> Result<Told, AllocError> {
    read_all(alloc, bytes, 7, Vec::new(alloc))
}

fn fault(offset: u64, what: CaptureFault) -> PcapEnd {
    PcapEnd::Fault { offset, what }
}

#[test]
fn three_records_and_a_cut(rt: HostRuntime) -> Result<(), Fail> {
    let end = fault(184, CaptureFault::ShortRecord);
    let want = Told {
        records: 3,
        time: 10_000_000_005,
        captured: 112,
        original: 152,
        has_head: true,
        end,
    };
    assert_eq!(rt; whole(rt.alloc(), CAPTURE.as_slice())?, want);
    assert_eq!(rt;
        read_all(rt.alloc(), CAPTURE.as_slice(), 1000, Vec::new(rt.alloc()))?,
        want
    );
    Ok(())
}

#[test]
fn a_capture_cut_at_every_length(rt: HostRuntime) -> Result<(), Fail> {
    for length in 0..190usize {
        let (records, start) = match length {
            0..=89 => (0, 24),
            90..=147 => (1, 90),
            148..=183 => (2, 148),
            _ => (3, 184),
        };
        let end = match length {
            0..=23 => fault(length as u64, CaptureFault::ShortHead),
            24 | 90 | 148 | 184 => PcapEnd::Done,
            _ => fault(start, CaptureFault::ShortRecord),
        };
        let told = whole(rt.alloc(), &CAPTURE[..length])?;
        assert_eq!(rt; told.records, records, "at {length}");
        assert_eq!(rt; told.has_head, 24 <= length, "at {length}");
        assert_eq!(rt; told.end, end, "at {length}");
    }
    Ok(())
}

#[test]
fn heads_and_records_with_a_fault(rt: HostRuntime) -> Result<(), Fail> {
    // The places that are changed, what stands there, and the end.
    for (place, byte, end) in [
        (0usize, 0xa2, fault(0, CaptureFault::BadMagic)),
        (5, 3, fault(4, CaptureFault::VersionUnknown)),
        (23, 2, fault(20, CaptureFault::LinkUnknown)),
        (33, 4, fault(24, CaptureFault::RecordTooLong)),
    ] {
        let mut bytes = CAPTURE;
        bytes[place] = byte;
        let told = whole(rt.alloc(), bytes.as_slice())?;
        assert_eq!(rt; (told.records, told.has_head), (0, place == 33));
        assert_eq!(rt; told.end, end);
    }
    Ok(())
}

#[test]
fn little_endian_microseconds(rt: HostRuntime) -> Result<(), Fail> {
    let bytes = [
        0xd4, 0xc3, 0xb2, 0xa1, 2, 0, 4, 0, 0, 0, 0, 0, 0, 0, 0, 0, 0, 0, 4, 0, 101, 0, 0, 0, //
        10, 0, 0, 0, 5, 0, 0, 0, 2, 0, 0, 0, 3, 0, 0, 0, 7, 8,
    ];
    let want = Told {
        records: 1,
        time: 10_000_005_000,
        captured: 2,
        original: 3,
        has_head: true,
        end: PcapEnd::Done,
    };
    assert_eq!(rt; whole(rt.alloc(), bytes.as_slice())?, want);
    Ok(())
}

#[test]
fn a_failed_read_ends_in_place_of_a_cut(rt: HostRuntime) -> Result<(), Fail> {
    // Seven bytes a read: read 20 would give the bytes from 140 on, and read 3 those from 21 on.
    for (call, records, has_head) in [(20u64, 1u32, true), (3, 0, false)] {
        let fails = vec![in rt.alloc(); call; 1]?;
        let told = read_all(rt.alloc(), CAPTURE.as_slice(), 7, fails)?;
        assert_eq!(rt; (told.records, told.has_head), (records, has_head));
        assert_eq!(rt; told.end, PcapEnd::ReadFault);
    }
    Ok(())
}
