//! The groups of an address, with colons between them.
ghost use Rattle.std.specs.Prelude.{◌^◌, ◌<◌, ◌≤◌};

/// Groups that were read: at most eight.
#[derive(Clone, Copy, Debug)]
pub(crate) struct Groups {
    /// The number of all groups, the first of which counts most.
    pub(crate) number: u128,
    /// How many they are.
    pub(crate) count: u8,
    ghost few: { count ≤ 8 },
    ghost small: { number < 65536 ^ count },
}
