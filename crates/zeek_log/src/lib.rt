//! The reader of Zeek's logs.
//!
//! A log is read line by line from any source, and gives heads, rows and one end. Contracts see what is still to come
//! of it by the bytes that its source still gives.
#![tactic(auto)]

mod columns;
mod cut;
mod data;
mod fault;
mod fields;
mod finding;
mod head;
mod known;
mod laws;
mod line;
mod line_reader;
mod looked;
mod names;
mod near;
mod opening;
mod plain;
mod plain_row;
mod reader;
mod step;
#[cfg(test)]
mod tests;
mod types;

pub use fault::ZeekFault;
pub use laws::{a_written_log_is_read, a_written_row_is_read, cells_are_a_line, lines_are_a_text};
pub use reader::ZeekReader;
pub use step::{Moved, Step, ZeekEnd};
