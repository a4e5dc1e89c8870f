//! A store that threads share: each call is one turn.
//!
//! [`Vast`] keeps a store under a turn lock. Whoever holds the root or a pass calls it: the call waits for its turn, makes
//! one call on the store, and hands the turn on. Decoding, indexing, merging and evaluating are done between turns, on
//! what a turn handed out, which no later turn changes.
//!
//! Contracts see of a root or a pass what it has seen of the one history. Each call is the step of its request at the
//! history that its turn found, which begins with all that the caller had seen.
#![tactic(auto)]

mod moves;
mod shared;
#[cfg(test)]
mod tests;
mod vast;

pub use shared::Shared;
pub use turn_book::Turner;
pub use vast::{Pass, Root, Vast};
