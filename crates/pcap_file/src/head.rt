//! The head of a capture file.
ghost use Rattle.std.specs.Prelude.{◌≡◌, ◌≤◌, ◌<◌, ◌+◌, ◌^◌, length};
ghost use Rattle.pcap_file.specs.Heads.{number_at, magic_of, head_of, is_link, version_end};

use crate::end::{CaptureFault, PcapEnd};
use byteorder::{BigEndian, ByteOrder, LittleEndian};

const MICROSECONDS: u32 = 0xa1b2_c3d4;

const NANOSECONDS: u32 = 0xa1b2_3c4d;

/// In which order the bytes of a number stand: the highest first, or the lowest.
#[derive(Clone, Copy, Debug, PartialEq, Eq)]
pub enum Endian {
    Big,
    Little,
}

/// What the fraction of a second counts.
#[derive(Clone, Copy, Debug, PartialEq, Eq)]
pub enum Fraction {
    Micro,
    Nano,
}

/// What the first four bytes tell.
#[derive(Clone, Copy, Debug, PartialEq, Eq)]
pub struct Magic {
    pub endian: Endian,
    pub fraction: Fraction,
}

/// What a capture's first 24 bytes tell.
#[derive(Clone, Copy, Debug, PartialEq, Eq)]
pub struct FileHead {
    pub magic: Magic,
    pub link: u16,
}

/// The 16 bits at `at`.
pub fn u16_at(endian: Endian, bytes: &[u8], at: usize) -> u16
    requires { at + 2 ≤ length bytes.now }
    ensures { result ≡ number_at endian 2 at bytes.now }
{
    match endian {
        Endian::Big => BigEndian::read_u16(&bytes[at..]),
        Endian::Little => LittleEndian::read_u16(&bytes[at..]),
    }
}

/// The 32 bits at `at`.
pub fn u32_at(endian: Endian, bytes: &[u8], at: usize) -> u32
    requires { at + 4 ≤ length bytes.now }
    ensures { result ≡ number_at endian 4 at bytes.now }
{
    match endian {
        Endian::Big => BigEndian::read_u32(&bytes[at..]),
        Endian::Little => LittleEndian::read_u32(&bytes[at..]),
    }
}

fn magic_of(bytes: &[u8]) -> Option<Magic>
    requires { 4 ≤ length bytes.now }
    ensures { result ≡ magic_of bytes.now }
{
    let big = u32_at(Endian::Big, bytes, 0);
    let little = u32_at(Endian::Little, bytes, 0);
    if big == MICROSECONDS {
        return Some(Magic {
            endian: Endian::Big,
            fraction: Fraction::Micro,
        });
    }
    if big == NANOSECONDS {
        return Some(Magic {
            endian: Endian::Big,
            fraction: Fraction::Nano,
        });
    }
    if little == MICROSECONDS {
        return Some(Magic {
            endian: Endian::Little,
            fraction: Fraction::Micro,
        });
    }
    if little == NANOSECONDS {
        return Some(Magic {
            endian: Endian::Little,
            fraction: Fraction::Nano,
        });
    }
    None
}

fn is_link(link: u16) -> bool
    ensures { result ≡ is_link link }
{
    link == 1 || link == 101 || link == 113
}

/// The file head in the first 24 bytes, or the first of its faults.
#[tactic(auto, unfolding(crate::specs::Heads::head_of))]
pub fn head_of(bytes: &[u8]) -> Result<FileHead, PcapEnd>
    requires { 24 ≤ length bytes.now }
    ensures { result ≡ head_of bytes.now }
{
    let Some(magic) = magic_of(bytes) else {
        return Err(PcapEnd::Fault {
            offset: 0,
            what: CaptureFault::BadMagic,
        });
    };
    with_magic(magic, bytes)
}

fn with_magic(magic: Magic, bytes: &[u8]) -> Result<FileHead, PcapEnd>
    requires { 24 ≤ length bytes.now }
    ensures { result ≡ version_end magic bytes.now }
{
    if u16_at(magic.endian, bytes, 4) != 2 {
        return Err(PcapEnd::Fault {
            offset: 4,
            what: CaptureFault::VersionUnknown,
        });
    }
    let link = (u32_at(magic.endian, bytes, 20) % 0x1_0000) as u16;
    if !is_link(link) {
        return Err(PcapEnd::Fault {
            offset: 20,
            what: CaptureFault::LinkUnknown,
        });
    }
    Ok(FileHead { magic, link })
}
