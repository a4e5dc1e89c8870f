//! Pages: what a query is told by a snapshot of its ranges.
//!
//! [`finish`] asks the indexes of a snapshot, reads the batches that it has to, and finds the events that match.
#![tactic(auto)]

mod finishing;
mod founds;
mod laws;
mod live;
mod past;
mod rows;
mod tally;
#[cfg(test)]
mod tests;

pub use finishing::{Page, finish};
pub use founds::{Found, Founds};
pub use laws::{a_cache_serves_a_store, finds_the_answers, kept_are_not_loaded};
