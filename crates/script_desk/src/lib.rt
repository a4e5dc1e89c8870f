//! A store as the lines of a script use it: each line's reply, and what a script holds between lines.
#![tactic(auto)]

mod claims;
mod desk;
mod groups;
mod laws;
mod page_text;
mod pages;
mod queries;
mod replies;
#[cfg(test)]
mod tests;

pub use desk::{Desk, Refused};
pub use laws::kept_stays;
pub use replies::{push_line, push_told};
