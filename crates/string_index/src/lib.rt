//! Texts by their length, up to 255, and their first eight bytes: a bitmap for each bit of these.
//!
//! Equality is answered by the rows where it is sure, and those where it may be. It costs one comparison of eight
//! slices for the length and one for each byte.
#![tactic(auto)]

mod index;

pub use index::StringIndex;
