//! The state under the lock.
ghost use Rattle.std.specs.Prelude.{◌≡◌};
ghost use Rattle.event_history.specs.Histories.{past};
ghost use Rattle.event_history.specs.Legal.{Legal};
ghost use Rattle.shared_store.specs.Turns.{seat_of};

use history_core::{Entry, Limits, Store};
use turn_book::{History, Told};

/// A store, as the turn lock keeps it: its history is the store's, and its frame the store's limits.
#[derive(Drop)]
pub struct Shared {
    pub(crate) store: Store,
}

impl History for Shared {
    type Entry = Entry;

    type Frame = Limits;

    ghost history = { λ s. s.store.history };

    ghost frame = { λ s. s.store.limits };

    ghost maker = { seat_of };

    fn told(&self) -> u64 {
        self.store.entries().len() as u64
    }
}

impl Told for Shared {}

impl Shared {
    /// The history, which is legal.
    pub(crate) fn entries(&self) -> &[Entry]
        ensures history { result.now ≡ self.now.store.history }
        ensures legal { Legal self.now.store.limits (past self.now.store.history) }
    {
        self.store.entries()
    }
}
