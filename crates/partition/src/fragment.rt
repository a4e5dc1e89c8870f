//! The index of one batch.
ghost use Rattle.std.specs.Prelude.{◌≡◌, ◌∷◌, [], length, IfOk};
ghost use Rattle.event_batch.specs.Contents.{content_of};
ghost use Rattle.event_history.specs.Pieces.{piece_events};
ghost use Rattle.partition.specs.Asking.{maybe_bits, sure_bits};
ghost use Rattle.partition.specs.Indexes.{IndexStands};

use crate::index::Index;
use column_index::Pair;
use event_batch::Batch;
use query_meaning::Test;
use std::alloc::{AllocError, Global};
use std::marker::Model;
use std::snapshot::Snapshot;

/// The index of one batch. Contracts see it as what it stands for: the batch's number, the id of its first event, and
/// what the batch says.
#[derive(Drop)]
pub struct Fragment {
    no: u64,
    first: u64,
    index: Index,
    batch: Snapshot<Batch>,
}

impl Model for Fragment {
    ghost use Rattle.std.specs.Prelude.{◌∷◌, []};
    ghost use Rattle.event_batch.specs.Contents.{content_of};
    ghost use Rattle.event_history.specs.Events.{events_of};
    ghost use Rattle.event_history.specs.Pieces.{Piece};
    ghost use Rattle.partition.specs.Indexes.{IndexStands};

    ghost Value = { Piece };

    ghost view = { λ f. record { batch = f.no; first = f.first; contents = content_of f.batch.value ∷ [] } };

    ghost invariant = { λ f. IndexStands f.index (events_of (content_of f.batch.value)) };
}

impl Fragment {
    /// The index of a batch: the `no`-th one, whose first event has the id `first`.
    pub fn build(alloc: Global, no: u64, first: u64, batch: &Batch) -> Result<Fragment, AllocError>
        ensures { IfOk result (λ f. f ≡ record { batch = no; first = first; contents = content_of batch.now ∷ [] }) }
    {
        let index = Index::of_batch(alloc, batch)?;
        Ok(Fragment {
            no,
            first,
            index,
            batch: Snapshot::of(batch),
        })
    }

    /// The batch's number.
    pub fn no(&self) -> u64
        ensures { result ≡ self.now.batch }
    {
        self.no
    }

    /// How many batches this is of: one.
    pub(crate) fn batches(&self) -> u64
        ensures { result ≡ length self.now.contents }
    {
        let _ = &self.no;
        1
    }

    /// The id of the batch's first event.
    pub fn first(&self) -> u64
        ensures { result ≡ self.now.first }
    {
        self.first
    }

    /// The events of the batch that surely meet a test, and those that may.
    pub fn ask(&self, alloc: Global, test: &Test) -> Result<Pair, AllocError>
        ensures sure { IfOk result (λ pair. pair.sure ≡ sure_bits test.now (piece_events self.now)) }
        ensures maybe { IfOk result (λ pair. pair.maybe ≡ maybe_bits test.now (piece_events self.now)) }
    {
        let pair = self.index.ask(alloc, test, &self.batch)?;
        Ok(pair)
    }

    /// The index of the batch's events.
    pub(crate) fn index(&self) -> &Index
        ensures { IndexStands result.now (piece_events self.now) }
    {
        &self.index
    }

    /// How many events the batch has.
    pub fn rows(&self) -> u64
        ensures { result ≡ length (piece_events self.now) }
    {
        self.index.rows
    }
}
