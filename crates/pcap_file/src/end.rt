//! Why there are no more records.
ghost use Rattle.std.specs.Prelude.{◌≡◌};
ghost use Rattle.pcap_file.specs.declared.end.PcapEnd.TheVariants.{Memory};

use std::alloc::AllocError;
use thiserror::Error;

/// What is wrong with the bytes of a capture.
#[derive(Clone, Copy, Debug, PartialEq, Eq, Error)]
pub enum CaptureFault {
    /// The first four bytes are no capture's.
    #[error("neither magic of a capture")]
    BadMagic,
    /// The major version is not 2.
    #[error("unknown version")]
    VersionUnknown,
    /// The link type is none of 1, 101 and 113.
    #[error("unknown link type")]
    LinkUnknown,
    /// A record tells more than 262,144 captured bytes.
    #[error("record too long")]
    RecordTooLong,
    /// The file has fewer than 24 bytes.
    #[error("file head cut off")]
    ShortHead,
    /// The file ends within a record.
    #[error("record cut off")]
    ShortRecord,
}

/// The end of a capture.
#[derive(Clone, Copy, Debug, PartialEq, Eq)]
pub enum PcapEnd {
    /// All bytes were read.
    Done,
    /// The bytes from `offset` on are faulty.
    Fault { offset: u64, what: CaptureFault },
    /// The source's count of faults rose.
    ReadFault,
    /// 2^36 bytes were taken, and these have no end.
    TooLong,
    /// No memory was left.
    Memory,
}

impl From<AllocError> for PcapEnd {
    ghost from_gives = { λ _ e. e ≡ Memory };

    fn from(_e: AllocError) -> PcapEnd {
        PcapEnd::Memory
    }
}
