//! The texts of `scan` and of `check` over an importer's input.
//!
//! [`scan_source`] writes the rows of a source that match a query, and [`check_source`] its layouts, each as the steps of an
//! input come and with each row carried. Nothing that was told waits for the source.
#![tactic(auto)]

mod buffer;
mod checking;
mod report;
mod scanning;
mod sources;
mod status;
#[cfg(test)]
mod tests;
mod texts;

pub use sources::{check_source, scan_source};
pub use status::Status;
pub use texts::push_end;
