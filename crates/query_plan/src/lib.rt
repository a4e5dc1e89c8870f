//! Which events of a part a query matches, as its indexes tell.
#![tactic(auto)]

mod plan;
#[cfg(test)]
mod tests;

pub use plan::candidates;
