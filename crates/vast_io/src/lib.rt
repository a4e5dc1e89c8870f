//! The outside: where bytes come from and where texts go.
//!
//! Each object counts its faults. The count never falls, and a call answers [`Failed`] only where it rose in that call.
//! An object may tell its bytes to contracts, as those in memory do; one over the real machine tells none. Whether an
//! object tells is the same before and after each call.
#![tactic(auto)]

mod front;
mod memory;
mod outside;
mod real;
mod write;

pub use front::Front;
pub use memory::{File, Files, MemOpener, MemSink, MemSource, OpenGate};
pub use outside::{Failed, Gate, OpenEnd, Opener, Place, Sink, Source};
pub use real::{DiskOpener, FileSource, OutSink};
pub use write::write_all;

#[cfg(test)]
mod tests;
