//! Bitmaps as sorted runs of ones that never touch each other. An operation costs the runs, and not the bits.
#![tactic(auto)]

mod bitmap;
mod combine;
mod edits;
mod run;
mod sweep;

pub use bitmap::RunsBitmap;

#[cfg(test)]
mod tests;
