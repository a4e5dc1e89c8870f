//! The index of adjacent batches, merged.
ghost use Rattle.std.specs.Prelude.{◌≡◌, ◌≤◌, ◌<◌, length, map, flat_map, IfOk};
ghost use Rattle.std.specs.Arc.{arc_value};
ghost use Rattle.event_history.specs.Pieces.{AreAdjacent, joined, piece_events};
ghost use Rattle.partition.specs.Asking.{maybe_bits, sure_bits};
ghost use Rattle.partition.specs.Merged.{pieces_of};

use crate::fragment::Fragment;
use crate::index::Index;
use column_index::Pair;
use query_meaning::Test;
use std::alloc::{AllocError, Global};
use std::marker::Model;
use std::snapshot::Snapshot;
use std::sync::Arc;

/// The merged index of adjacent batches. Contracts see it as what it stands for: the number of the first batch, the id of
/// its first event, and what the batches say.
#[derive(Drop)]
pub struct Sealed {
    batch: u64,
    batches: u64,
    first: u64,
    index: Index,
    fragments: Vec<Snapshot<Fragment>>,
}

impl Model for Sealed {
    ghost use Rattle.std.specs.Prelude.{◌≡◌, length};
    ghost use Rattle.event_history.specs.Events.{events_in};
    ghost use Rattle.event_history.specs.Pieces.{Piece};
    ghost use Rattle.partition.specs.Indexes.{IndexStands};
    ghost use Rattle.partition.specs.Merged.{contents_of};

    ghost Value = { Piece };

    ghost view = { λ s. record { batch = s.batch; first = s.first; contents = contents_of s.fragments.items } };

    ghost invariant = { λ s. (s.batches ≡ length (contents_of s.fragments.items)) × IndexStands s.index (events_in (contents_of s.fragments.items)) };
}

impl Sealed {
    /// The merged index of the batches of 1 to 256 fragments, which follow each other.
    pub fn merge(alloc: Global, fragments: &[Arc<Fragment>]) -> Result<Sealed, AllocError>
        requires some { 0 < length fragments.now }
        requires few { length fragments.now ≤ 256 }
        requires adjacent { AreAdjacent (map arc_value fragments.now) }
        ensures { IfOk result (λ s. s ≡ joined (map arc_value fragments.now)) }
    {
        let index = Index::merged(alloc, fragments)?;
        let batches = all_batches(fragments)?;
        let kept = snapshots(alloc, fragments)?;
        let batch = fragments[0].no();
        let first = fragments[0].first();
        Ok(Sealed {
            batch,
            batches,
            first,
            index,
            fragments: kept,
        })
    }

    /// The events of the batches that surely meet a test, and those that may.
    pub fn ask(&self, alloc: Global, test: &Test) -> Result<Pair, AllocError>
        ensures sure { IfOk result (λ pair. pair.sure ≡ sure_bits test.now (piece_events self.now)) }
        ensures maybe { IfOk result (λ pair. pair.maybe ≡ maybe_bits test.now (piece_events self.now)) }
    {
        let pair = self.index.ask(alloc, test, &self.fragments)?;
        Ok(pair)
    }

    /// How many batches these are.
    pub fn batches(&self) -> u64
        ensures { result ≡ length self.now.contents }
    {
        self.batches
    }

    /// The number of the first batch.
    pub fn first_batch(&self) -> u64
        ensures { result ≡ self.now.batch }
    {
        self.batch
    }

    /// The id of the first event.
    pub fn first(&self) -> u64
        ensures { result ≡ self.now.first }
    {
        self.first
    }

    /// How many events the batches have.
    pub fn rows(&self) -> u64
        ensures { result ≡ length (piece_events self.now) }
    {
        self.index.rows
    }
}

/// How many batches the fragments have.
fn all_batches(fragments: &[Arc<Fragment>]) -> Result<u64, AllocError>
    ensures { IfOk result (λ batches. batches ≡ length (flat_map (λ q. q.contents) (map arc_value fragments.now))) }
{
    let mut batches: u64 = 0;
    for fragment in fragments {
        batches = match batches.checked_add(fragment.batches()) {
            Some(more) => more,
            None => return Err(AllocError),
        };
    }
    Ok(batches)
}

/// What the fragments stand for.
fn snapshots(
    alloc: Global,
    fragments: &[Arc<Fragment>],
) -> Result<Vec<Snapshot<Fragment>>, AllocError>
    ensures { IfOk result (λ kept. pieces_of kept.items ≡ map arc_value fragments.now) }
{
    let mut kept = Vec::with_capacity(alloc, fragments.len())?;
    for fragment in fragments {
        kept.push(Snapshot::of(&**fragment))?;
    }
    Ok(kept)
}
