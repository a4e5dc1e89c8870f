//! Parts of a history: the indexes of batches and of groups of them.
#![tactic(auto)]

mod asking;
mod building;
mod fragment;
mod index;
mod merging;
mod part;
mod sealed;
#[cfg(test)]
mod tests;

pub use fragment::Fragment;
pub use part::Part;
pub use sealed::Sealed;
