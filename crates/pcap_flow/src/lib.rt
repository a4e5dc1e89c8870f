//! Rows of captured packets, and of the flows that they form.
//!
//! A packet with both addresses, both ports and a protocol belongs to a flow. Contracts see [`Flows`] as
//! the list of its flows: each packet is one step on this list.
#![tactic(auto)]

mod flow;
mod flows;
mod key;
mod law;
mod layout;
mod packet;
mod rows;
mod sighting;

pub use flows::Flows;
pub use law::flows_of_packets;
pub use layout::{flow_layout, packet_layout};
pub use packet::Packet;
pub use rows::{Rows, packet_row};

#[cfg(test)]
mod tests;
