//! The store: one history of entries, and what each call replies at it.
//!
//! Contracts see a [`Store`] as its limits and its history. Each call replies and appends as `step` says at that history,
//! or finds no memory and leaves all as it was.
#![tactic(auto)]

mod answers;
mod kept;
mod laws;
mod session;
mod shared;
mod store;
mod taken;
#[cfg(test)]
mod tests;

pub use answers::{
    AcceptEnd, Accepted, Claim, Fragments, Group, LeaveEnd, PublishEnd, RegisterEnd, SealEnd,
    TakeEnd,
};
pub use event_history::{Deed, Entry, Limits, Mode, SharedExpr};
pub use laws::given_stays;
pub use session::Session;
pub use store::Store;
pub use taken::{Held, Taken};
