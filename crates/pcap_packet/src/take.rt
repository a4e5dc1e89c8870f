//! Numbers at a place in a list of bytes, and what follows a place.
ghost use Rattle.std.specs.Prelude.{◌≡◌, ◌+◌, ◌≤◌, ◌<◌, ◌^◌, length, drop};
ghost use Rattle.pcap_packet.specs.Numbers.{number_at};

use byteorder::{BigEndian, ByteOrder};

/// The 16 bits at `at`, highest byte first.
pub fn u16_at(bytes: &[u8], at: usize) -> u16
    requires { at + 2 ≤ length bytes.now }
    ensures { result ≡ number_at 2 at bytes.now }
{
    BigEndian::read_u16(&bytes[at..])
}

/// The 32 bits at `at`, highest byte first.
pub fn u32_at(bytes: &[u8], at: usize) -> u32
    requires { at + 4 ≤ length bytes.now }
    ensures { result ≡ number_at 4 at bytes.now }
{
    BigEndian::read_u32(&bytes[at..])
}

/// The 128 bits at `at`, highest byte first.
pub fn u128_at(bytes: &[u8], at: usize) -> u128
    requires { at + 16 ≤ length bytes.now }
    ensures { result ≡ number_at 16 at bytes.now }
{
    BigEndian::read_u128(&bytes[at..])
}

/// What follows the first `count` bytes, nothing where there are no more.
pub fn after(bytes: &[u8], count: usize) -> &[u8]
    ensures { result.now ≡ drop count bytes.now }
{
    &bytes[count.min(bytes.len())..]
}
