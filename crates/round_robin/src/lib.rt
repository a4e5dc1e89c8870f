//! Lists that are dealt out to hands in turn, and taken back in order.
#![tactic(auto)]

mod dealing;
mod laws;
mod room;

pub use dealing::{collect, deal};
pub use laws::{hands_get_their_share, hands_tell_the_list};
pub use room::{hands, share_of};

#[cfg(test)]
mod tests;
