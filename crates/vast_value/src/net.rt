//! Subnets.
ghost use Rattle.std.specs.Prelude.{◌≡◌, ◌↔◌, ◌≤◌, ◌-◌, ◌%◌, ◌^◌, IsTrue};

/// A subnet of IPv6 addresses: those that agree with `base` in the first `bits` bits.
///
/// An IPv4 subnet of n bits is held as the subnet of 96 + n bits within ::ffff:0:0/96 (RFC 4291, 2.5.5.2).
#[derive(Clone, Copy, Debug, PartialEq, Eq)]
pub struct Net {
    /// The lowest address. All its bits past the first `bits` are 0.
    pub base: u128,
    /// The number of leading bits, 0 to 128.
    pub bits: u8,
    ghost narrow: { bits ≤ 128 },
    ghost masked: { base % 2 ^ (128 - bits) ≡ 0 },
}

impl Net {
    /// Whether both are one subnet.
    pub(crate) fn is(&self, other: &Net) -> bool
        ensures { IsTrue result ↔ (self.now ≡ other.now) }
    {
        self.base == other.base && self.bits == other.bits
    }
}
