//! Numbers by slices: one bitmap for each bit of the keys, and one of the rows that have a key.
//!
//! A relation to a key is found from the highest slice down, with two or three bitmap operations for each slice.
#![tactic(auto)]

mod index;

pub use index::{SliceIndex, key_of};
