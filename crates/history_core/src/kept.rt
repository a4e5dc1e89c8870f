//! What a store keeps beside its history.
use crate::shared::{SharedFragment, SharedSealed};
use event_batch::Packed;
use event_history::Mode;

/// An accepted batch: its first and last event's ids (the last one's and one more), its index, and whether it is claimed.
#[derive(Drop)]
pub(crate) struct Kept {
    pub(crate) packed: Packed,
    pub(crate) first: u64,
    pub(crate) end: u64,
    pub(crate) index: Option<SharedFragment>,
    pub(crate) marked: bool,
}

/// A registered query: where its entry stands, and how far it was told.
#[derive(Clone, Copy, Debug, PartialEq, Eq)]
pub(crate) struct Query {
    pub(crate) place: usize,
    pub(crate) mode: Mode,
    pub(crate) registered: u64,
    pub(crate) past_to: u64,
    pub(crate) live_to: u64,
    pub(crate) left: bool,
}

/// The merged index of a group, if it has one.
#[derive(Drop)]
pub(crate) struct Seal {
    pub(crate) sealed: Option<SharedSealed>,
}
