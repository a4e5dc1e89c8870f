//! Addresses and subnets by their bits: a bitmap for each of the 128 bits of an address, the highest first, and for a
//! subnet one for each of the eight bits of its length.
//!
//! Equality of addresses costs two comparisons of 64 slices, a prefix one for each 64 bits that it has. Of subnets, the
//! length costs one comparison of eight slices more; those that hold a given subnet cost one bitmap operation and one
//! comparison of lengths for each bit that it has.
#![tactic(auto)]

mod index;
mod net;

pub use index::AddrIndex;
pub use net::NetIndex;
