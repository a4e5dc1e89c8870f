//! What a take hands out.
ghost use Rattle.std.specs.Prelude.{◌≡◌, map};
ghost use Rattle.std.specs.Option.{option_map, option_or};
ghost use Rattle.history_core.specs.Snapshots.{WasTaken, packed_of};
ghost use Rattle.partition.specs.Parts.{piece_of};

use crate::session::Session;
use event_batch::Packed;
use event_history::SharedExpr;
use partition::Part;
use query_meaning::Expr;
use std::marker::Model;

/// A batch that has events in a range: its number, the id of its first event, and its bytes.
#[derive(Drop)]
pub struct Held {
    pub(crate) no: u64,
    pub(crate) first: u64,
    pub(crate) packed: Packed,
}

impl Model for Held {
    ghost use Rattle.event_history.specs.Pieces.{Held as HeldBatch};

    ghost Value = { HeldBatch };

    ghost view = { λ h. record { no = h.no; first = h.first; packed = h.packed } };
}

impl Held {
    /// The batch's number.
    pub fn no(&self) -> u64
        ensures { result ≡ self.now.no }
    {
        self.no
    }

    /// The id of its first event.
    pub fn first(&self) -> u64
        ensures { result ≡ self.now.first }
    {
        self.first
    }

    /// Its bytes.
    pub fn packed(&self) -> &Packed
        ensures { result.now ≡ self.now.packed }
    {
        &self.packed
    }
}

/// What a take found: the query's expression, both ranges, the batch it stopped at, parts and batches.
#[derive(Drop)]
pub(crate) struct Snapshot {
    pub(crate) expr: SharedExpr,
    pub(crate) past: (u64, u64),
    pub(crate) live: (u64, u64),
    pub(crate) again: Option<u64>,
    pub(crate) parts: Vec<Part>,
    pub(crate) past_batches: Vec<Held>,
    pub(crate) live_batches: Vec<Held>,
}

impl Model for Snapshot {
    ghost use Rattle.std.specs.Prelude.{map};
    ghost use Rattle.history_core.specs.Snapshots.{Snapshot as Seen, WasTaken, snapshot_of};
    ghost use Rattle.partition.specs.Parts.{piece_of};
    ghost use Rattle.query_meaning.specs.contracts.expr.Expr as e;
    ghost use Rattle.std.specs.Coded.{codes};

    ghost Value = { Seen };

    ghost coded = { Prim.hlevel (codes, e.the_row.coded) };

    ghost view = { λ s. snapshot_of s.expr s.past s.live s.again (map piece_of s.parts.items) s.past_batches.items s.live_batches.items };

    ghost invariant = { λ s. WasTaken (snapshot_of s.expr s.past s.live s.again (map piece_of s.parts.items) s.past_batches.items s.live_batches.items) };
}

impl Snapshot {
    pub(crate) fn past(&self) -> (u64, u64)
        ensures { result ≡ (self.now.taking.past_from, self.now.taking.past_to) }
    {
        self.past
    }

    pub(crate) fn live(&self) -> (u64, u64)
        ensures { result ≡ (self.now.taking.live_from, self.now.taking.live_to) }
    {
        self.live
    }
}

/// A snapshot of a query's two ranges, which no later call changes, with the session that took it.
#[derive(Drop)]
pub struct Taken {
    pub(crate) session: Session,
    pub(crate) snapshot: Snapshot,
}

impl Taken {
    /// The query's number.
    pub fn query(&self) -> u32
        ensures { result ≡ self.now.session.query }
    {
        self.session.query
    }

    /// The range in the past part: from the first id on and below the second.
    pub fn past(&self) -> (u64, u64)
        ensures { result ≡ (self.now.snapshot.taking.past_from, self.now.snapshot.taking.past_to) }
    {
        self.snapshot.past
    }

    /// The range in the live part.
    pub fn live(&self) -> (u64, u64)
        ensures { result ≡ (self.now.snapshot.taking.live_from, self.now.snapshot.taking.live_to) }
    {
        self.snapshot.live
    }

    /// The batch that the past range ends at since it has no index, if there is one.
    pub fn again(&self) -> Option<u64>
        ensures { result ≡ self.now.snapshot.taking.again }
    {
        self.snapshot.again
    }

    /// The query's expression.
    pub fn expr(&self) -> &Expr
        ensures { result.now ≡ self.now.snapshot.taking.expr }
    {
        self.snapshot.expr.get()
    }

    /// The parts of the past range, in ascending order. The snapshot is that of a take.
    pub fn parts(&self) -> &[Part]
        ensures parts { map piece_of result.now ≡ self.now.snapshot.parts }
        ensures taken { WasTaken self.now.snapshot }
    {
        self.snapshot.parts.as_slice()
    }

    /// The batches that have events in the past range, in ascending order.
    pub fn past_batches(&self) -> &[Held]
        ensures { result.now ≡ self.now.snapshot.past_batches }
    {
        self.snapshot.past_batches.as_slice()
    }

    /// The batches that have events in the live range, in ascending order.
    pub fn live_batches(&self) -> &[Held]
        ensures { result.now ≡ self.now.snapshot.live_batches }
    {
        self.snapshot.live_batches.as_slice()
    }

    /// The batch with a number. `None` comes exactly where it has no event in either range.
    pub fn batch(&self, number: u64) -> Option<&Packed>
        ensures { option_map (λ packed. packed.now) result ≡ option_or (packed_of number self.now.snapshot.past_batches) (packed_of number self.now.snapshot.live_batches) }
    {
        match packed_of(self.past_batches(), number) {
            Some(packed) => Some(packed),
            None => packed_of(self.live_batches(), number),
        }
    }

    /// The session without a page.
    pub fn settle(self) -> Session
        ensures { result ≡ self.session }
    {
        self.session
    }
}

/// The batch with a number among some.
fn packed_of(held: &[Held], number: u64) -> Option<&Packed>
    ensures { option_map (λ packed. packed.now) result ≡ packed_of number held.now }
{
    for at in 0..held.len() {
        let batch = &held[at];
        if batch.no == number {
            return Some(&batch.packed);
        }
    }
    None
}
