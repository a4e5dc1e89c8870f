//! What the head lines of a log have told.
ghost use Rattle.std.specs.Prelude.{◌≤◌, ◌^◌, length};

use crate::looked::LookedLayout;
use crate::names::Names;
use value_text::Marks;
use vast_value::Bytes;

/// What the lines so far have told.
#[derive(Debug, Drop)]
pub struct Known {
    /// The byte that parts cells.
    pub separator: u8,
    pub marks: Marks,
    /// Empty where none is set.
    pub path: Bytes,
    pub names: Names,
    /// The layout that the last `#types` gave.
    pub layout: Option<LookedLayout>,
    ghost short: { length path ≤ 2 ^ 24 },
}
