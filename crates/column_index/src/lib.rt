//! Columns of cells of one kind, each asked a test: at which rows it surely holds, and at which it may.
#![tactic(auto)]

mod addresses;
mod answered;
mod asked;
mod asking;
mod buckets;
mod column;
mod flags;
mod growing;
mod kept;
mod keys;
mod numbers;
mod ports;
mod presence;
mod subnets;
mod texts;

pub use column::ColumnIndex;
pub use kept::{Bitmap, Pair};

#[cfg(test)]
mod tests;
