//! Groups in a row.

/// Groups in a row.
#[derive(Clone, Copy, Debug, PartialEq, Eq)]
pub(crate) struct Run {
    /// Where the first of them stands, from 0.
    pub(crate) start: usize,
    /// How many they are.
    pub(crate) count: usize,
}
