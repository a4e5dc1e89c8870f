//! The records of a capture file of libpcap's format, version 2.4, read from a source in whatever pieces
//! its bytes come.
#![tactic(auto)]

mod end;
mod head;
mod opening;
mod reader;
mod record;

pub use end::{CaptureFault, PcapEnd};
pub use reader::PcapReader;
pub use record::Captured;

#[cfg(test)]
mod tests;
