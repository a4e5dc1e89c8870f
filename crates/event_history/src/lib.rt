//! Histories of an event store: their entries, what they mean, and what a query was told.
//!
//! A history is the list of what was done to a store, each deed with the seat that did it. All that a store answers is a
//! function of its history. Definitions go over the past, which is the history with its newest entry first.
#![tactic(auto)]

mod entry;
mod laws;

pub use entry::{Deed, Entry, Limits, Mode, SharedExpr};
pub use laws::{batches_answer, delivered_exactly, each_is_told_once, histories_grow, parts_cover};
