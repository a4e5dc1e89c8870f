//! Batches of events and their bytes.
//!
//! A [`Batch`] is a source's rows of one layout, and a [`Packed`] the bytes that spell one in one of two formats.
//! Contracts see a `Packed` as what its bytes say: their format and the source, the heading and the rows of the batch.
#![tactic(auto)]

mod batch;
mod format;
mod law;
mod packed;
mod packed_end;
mod place;
mod reading;
mod rows;
mod size;
mod steps;
#[cfg(test)]
mod tests;
mod writing;

pub use batch::Batch;
pub use format::Format;
pub use law::{each_batch_is_spellable, one_spelling};
pub use packed::{Packed, encode, unpack};
pub use packed_end::PackedEnd;
pub use rows::Rows;
pub use size::row_size;
pub use steps::Steps;
