//! Decoded batches, of which a bounded number is kept.
//!
//! A [`Cache`] decodes a batch where it is asked for one that it doesn't keep, and then keeps it in the place of the one
//! that was asked for longest ago. Contracts see a cache as its size and its entries, most recent first.
#![tactic(auto)]

mod cache;
mod law;
#[cfg(test)]
mod tests;

pub use cache::Cache;
pub use law::keeps_the_latest;
