//! Whether the cells of a line are well spelled, seen in place and by vectors of bytes.
//!
//! Each check is one-sided. Where it answers true, the cell can be read; where it answers false, nothing is said, and the
//! reader of all spellings decides. A check gets the bytes from the cell's beginning on, with enough bytes behind the cell
//! that a vector can be loaded, and the cell's length.
#![tactic(auto)]

mod bools;
mod digits;
mod dotted;
mod groups;
mod laws;
mod numbers;
mod own;
mod places;
mod seconds;
mod texts;

pub use bools::is_plain_bool;
pub use digits::{is_plain_count, is_plain_port};
pub use dotted::{is_own_address, is_plain_address};
pub use groups::is_plain_groups;
pub use laws::{
    marks_are_readable, marks_stand_as_written, pieces_stand_between, texts_are_readable,
};
pub use numbers::plain_number;
pub use own::is_own_number;
pub use places::{byte_places, line_places};
pub use seconds::{is_own_time, is_plain_time};
pub use texts::is_own_text;

#[cfg(test)]
mod tests;
