//! The importer: inputs to batches.
//!
//! An [`Input`] gives the steps of a source, a log or a capture by its first bytes, each row carried: its ports get the
//! transport that its protocol names. The steps of a capture are its packets, and behind them its flows. A
//! [`Place`] is the step at which it stands, whose row is not made where that isn't needed. An
//! [`Import`] cuts these steps into batches. Contracts see what is still to come of either by the bytes that its source
//! still gives, and the source itself.
#![tactic(auto)]

mod carrying;
mod current;
mod ends;
mod flows;
mod form;
mod gathered;
mod import;
mod input;
mod laws;
mod log;
mod packets;
mod place;
#[cfg(test)]
mod tests;

pub use carrying::carried;
pub use ends::{FormFault, How, ImportEnd, InputFault, SourceEnd};
pub use import::Import;
pub use input::Input;
pub use laws::{
    a_carried_row_is_carried, all_is_given, answers_join, no_row_is_lost, no_row_of_a_log_is_lost,
    pieces_are_rows, what_is_given_comes_first,
};
pub use place::Place;
