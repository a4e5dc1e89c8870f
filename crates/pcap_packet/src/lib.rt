//! The addresses, protocol and ports of a captured packet, read from its first bytes in place.
#![tactic(auto)]

mod ip;
mod law;
mod link;
mod parts;
mod take;
#[cfg(test)]
mod tests;

pub use law::chains_of_headers;
pub use link::decode;
pub use parts::Parts;
