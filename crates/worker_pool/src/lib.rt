//! A worker's turns on a store that threads share, and their steps: reading a batch, registering queries, indexing, merging
//! and paging.
//!
//! Contracts say of each call which entries the worker's pass has made, in order. Others may have made entries of their
//! own meanwhile, which stand between them.
#![tactic(auto)]

mod feeding;
mod indexing;
mod paging;
mod registering;
mod sealing;
#[cfg(test)]
mod tests;
mod turning;

pub use feeding::{Feed, read_one};
pub use indexing::index_one;
pub use paging::{Pages, QueryEnd, page_all, page_one};
pub use registering::{Query, register_all};
pub use sealing::seal_one;
pub use turning::make_turns;
