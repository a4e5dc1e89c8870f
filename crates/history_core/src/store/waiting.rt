//! The inboxes of queries.
//!
//! The batches that come after a query's last take have consecutive numbers up to the newest one, so an inbox is kept as
//! the query's position alone: it takes no memory, and an accepted batch is in each of them at once.
ghost use Rattle.std.specs.Prelude.{◌≡◌, ◌<◌, ◌≤◌, ℕ, false};
ghost use Rattle.event_history.specs.Histories.{batch_count, first_of, past};
ghost use Rattle.event_history.specs.Queries.{has_left, registration};
ghost use Rattle.history_core.specs.Replies.{IsRegistered};
ghost use Rattle.history_core.specs.Waiting.{batches_from, waiting_for, waiting_in};

use super::Store;
use event_history::Mode;

impl Store {
    /// How many batches came since a query's last take, or since its registration; 0 for a query without a live part.
    /// `None` comes exactly where they are more than an inbox holds.
    pub fn waiting(&self, query: u32) -> Option<u32>
        requires known { IsRegistered self.now query }
        requires here { has_left query (past self.now.history) ≡ false }
        ensures { result ≡ waiting_in self.now.limits.inbox (past self.now.history) query (registration query (past self.now.history)) }
    {
        let known = self.queries[query as usize - 1];
        let count = self.waiting_for(known.mode, known.live_to);
        if count <= self.limits.inbox as usize {
            Some(count as u32)
        } else {
            None
        }
    }

    fn waiting_for(&self, mode: Mode, live: u64) -> usize
        ensures { result ≡ waiting_for mode live (past self.now.history) }
    {
        match mode {
            Mode::Past => 0,
            _ => self.batches_from(live),
        }
    }

    fn batches_from(&self, id: u64) -> usize
        ensures { result ≡ batches_from id (past self.now.history) }
    {
        self.kept.len() - self.begins_at(id)
    }

    /// How many batches begin before an id: a search by halves.
    fn begins_at(&self, id: u64) -> usize
        ensures within { result ≤ batch_count (past self.now.history) }
        ensures before { (b : ℕ) → b < result → first_of b (past self.now.history) < id }
        ensures after { (b : ℕ) → result ≤ b → b < batch_count (past self.now.history) → id ≤ first_of b (past self.now.history) }
    {
        let mut low = 0;
        let mut high = self.kept.len();
        while low < high {
            let middle = low + (high - low) / 2;
            if self.kept[middle].first < id {
                low = middle + 1;
            } else {
                high = middle;
            }
        }
        low
    }
}
