//! Columns.
ghost use Rattle.std.specs.Prelude.{◌≤◌, ◌^◌, length};

use crate::bytes::Bytes;
use crate::kind::Kind;

/// A column of a layout.
#[derive(Debug, Drop)]
pub struct Column {
    /// At most 2^24 bytes.
    pub name: Bytes,
    pub kind: Kind,
    ghost short: { length name ≤ 2 ^ 24 },
}
