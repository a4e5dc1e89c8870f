//! Why no more bytes of a source come.

/// Why no more bytes of a source come.
#[derive(Clone, Copy, Debug, PartialEq, Eq)]
pub enum Stop {
    /// The source has none left.
    AtEnd,
    /// A read failed.
    Failed,
    /// 2^36 bytes were taken, and no reader takes more.
    AtBound,
}

/// How a taking of bytes went.
#[derive(Clone, Copy, Debug, PartialEq, Eq)]
pub enum Took {
    /// As many came as were wanted.
    Enough,
    /// Fewer came.
    Stopped(Stop),
}
