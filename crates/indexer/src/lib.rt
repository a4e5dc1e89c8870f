//! Claims to indexes, and groups of indexes to merged ones.
//!
//! Both are done outside a store, on what it handed out.
#![tactic(auto)]

mod indexing;
#[cfg(test)]
mod tests;

pub use indexing::{index_claim, seal_group};
