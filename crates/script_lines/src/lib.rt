//! The lines of scripts: a grammar of commands on a store, one a line.
//!
//! A line's words are parted by one space. A number is decimal digits, at most 2^64 - 1; leading zeros are allowed. A name
//! or a query is the rest of its line.
#![tactic(auto)]

mod line;
mod reading;
#[cfg(test)]
mod tests;

pub use line::{Line, Quantity};
pub use reading::{is_skipped, read_line};
