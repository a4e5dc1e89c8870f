//! What every reader of a source stands on: the bytes that were taken of it and not let go yet, and why no more come.
//!
//! A [`Block`] takes bytes of any source and lets the first of them go. It takes at most 2^36 bytes, and keeps no more
//! memory than one block beside the most that was ever held at once.
#![tactic(auto)]

mod block;
mod buffer;
mod stop;

pub use block::Block;
pub use stop::{Stop, Took};
