//! The canonical texts of values and cells, which read as them again.
//!
//! The spellings are those of Zeek's ASCII logs; addresses are spelled by RFC 5952.
#![tactic(auto)]

mod gap_law;
mod place;
mod run;
mod write_addresses;
mod write_numbers;
mod write_texts;
mod writing;

pub use gap_law::first_longest_gap;
pub use write_texts::write_escaped;
pub use writing::write_cell;

#[cfg(test)]
mod tests;
