//! The past range: what its parts tell, and the batches that have to be read.
ghost use Rattle.std.specs.Prelude.{◌≡◌, ℕ, ◌+◌, ◌<◌, ◌≤◌, ◌++◌, All, Contains, false, true, length, map, slice_index_or, OnErr, OnOk};
ghost use Rattle.event_history.specs.Covers.{Cover, StandsIn};
ghost use Rattle.event_history.specs.Pieces.{Held as HeldBatch, piece_events};
ghost use Rattle.history_core.specs.Snapshots.{WasTaken};
ghost use Rattle.partition.specs.Parts.{piece_of};
ghost use Rattle.query_plan.specs.Candidates.{maybe_bits, sure_bits};
ghost use Rattle.exporter.specs.Asks.{AgreesWith, KeepsOnly};
ghost use Rattle.exporter.specs.Pages.{held_by, is_touched};
ghost use Rattle.exporter.specs.Told.{belongs};
ghost use Rattle.exporter.specs.Walks.{gathered, one_of, past_reading, reads, walk, with_batch};

use crate::rows::{next_candidate, push_candidates, rows_within};
use crate::tally::Tally;
use archive_cache::Cache;
use column_index::Pair;
use event_batch::Steps;
use history_core::{Held, Taken};
use partition::Part;
use query_plan::candidates;
use std::alloc::AllocError;
use std::sync::ledger::Ledger;

/// Adds a batch of the past range. It is read only where one of its rows in the range may match.
fn add_batch<L: Ledger>(
    taken: &Taken,
    part: &Part,
    pair: &Pair,
    held: &Held,
    tally: &mut Tally,
    cache: &mut Cache,
    steps: &mut Steps<L>,
) -> Result<(), AllocError>
    requires taken { WasTaken taken.now.snapshot }
    requires own { Contains (held_by taken.now.snapshot) held.now }
    requires stands { StandsIn (piece_of part.now) held.now }
    requires sure { pair.now.sure ≡ sure_bits taken.now.snapshot.taking.expr (piece_events (piece_of part.now)) }
    requires maybe { pair.now.maybe ≡ maybe_bits taken.now.snapshot.taking.expr (piece_events (piece_of part.now)) }
    requires agree { AgreesWith (held_by taken.now.snapshot) cache.old }
    ensures page { OnOk result (gathered tally.new cache.new steps.new ≡ with_batch (past_reading taken.now.snapshot.taking.expr taken.now.snapshot.taking.past_from taken.now.snapshot.taking.past_to held.now) held.now (gathered tally.old cache.old steps.old)) }
    ensures few { OnErr result (steps.new ≤ steps.old + one_of (is_touched taken.now.snapshot.taking.expr taken.now.snapshot.taking.past_from taken.now.snapshot.taking.past_to held.now)) }
    ensures only { KeepsOnly (held_by taken.now.snapshot) cache.old cache.new }
    ensures agree { AgreesWith (held_by taken.now.snapshot) cache.new }
{
    let first = held.first();
    let offset = first - part.first();
    let (low, high) = rows_within(taken.past(), held);
    let place = next_candidate(&pair.maybe, offset, low, high);
    if place >= high {
        // That counts are below 2^64 is known once they are read.
        let _ = (tally.checked(), tally.touched(), tally.loads());
        return Ok(());
    }
    let batch = tally.ask(taken, held, cache, steps)?;
    let alloc = tally.alloc;
    let checked = push_candidates(
        alloc,
        &mut tally.found,
        taken.expr(),
        pair,
        offset,
        &batch,
        first,
        place,
        high,
    )?;
    tally.checked = tally.checked.saturating_add(checked);
    Ok(())
}

/// Adds the batches of a part, which is asked for its candidates once.
pub(crate) fn add_part<L: Ledger>(
    taken: &Taken,
    part: &Part,
    mine: &[Held],
    tally: &mut Tally,
    cache: &mut Cache,
    steps: &mut Steps<L>,
) -> Result<(), AllocError>
    requires taken { WasTaken taken.now.snapshot }
    requires own { All (λ h. Contains (held_by taken.now.snapshot) h) mine.now }
    requires stand { All (λ h. StandsIn (piece_of part.now) h) mine.now }
    requires agree { AgreesWith (held_by taken.now.snapshot) cache.old }
    ensures page { OnOk result (gathered tally.new cache.new steps.new ≡ walk (past_reading taken.now.snapshot.taking.expr taken.now.snapshot.taking.past_from taken.now.snapshot.taking.past_to) mine.now (gathered tally.old cache.old steps.old)) }
    ensures few { OnErr result (steps.new ≤ steps.old + reads (past_reading taken.now.snapshot.taking.expr taken.now.snapshot.taking.past_from taken.now.snapshot.taking.past_to) mine.now) }
    ensures only { KeepsOnly (held_by taken.now.snapshot) cache.old cache.new }
    ensures agree { AgreesWith (held_by taken.now.snapshot) cache.new }
{
    let pair = candidates(tally.alloc, taken.expr(), part)?;
    for held in mine {
        add_batch(taken, part, &pair, held, tally, cache, steps)?;
    }
    Ok(())
}

/// Whether a batch is one of a part's, by its number.
fn belongs(part: &Part, held: &Held) -> bool
    ensures { result ≡ belongs (piece_of part.now) held.now }
{
    let begin = part.first_batch();
    held.no() >= begin && held.no() - begin < part.batches()
}

/// How many batches in front are a part's.
fn count_of(part: &Part, held: &[Held]) -> usize
    ensures within { result ≤ length held.now }
    ensures mine { (k : ℕ) (d : HeldBatch) → k < result → belongs (piece_of part.now) (slice_index_or held.now k d) ≡ true }
    ensures rest { (d : HeldBatch) → result < length held.now → belongs (piece_of part.now) (slice_index_or held.now result d) ≡ false }
{
    for at in 0..held.len() {
        if !belongs(part, &held[at]) {
            return at;
        }
    }
    held.len()
}

/// The batches in front that are a part's, and the others.
fn split_off<'a>(part: &Part, held: &'a [Held]) -> (&'a [Held], &'a [Held])
    ensures whole { held.now ≡ result.0.now ++ result.1.now }
    ensures mine { All (λ h. belongs (piece_of part.now) h ≡ true) result.0.now }
    ensures rest { (d : HeldBatch) → 0 < length result.1.now → belongs (piece_of part.now) (slice_index_or result.1.now 0 d) ≡ false }
{
    held.split_at(count_of(part, held))
}

/// Adds the batches of the past range, part by part.
pub(crate) fn add_parts<L: Ledger>(
    taken: &Taken,
    parts: &[Part],
    held: &[Held],
    tally: &mut Tally,
    cache: &mut Cache,
    steps: &mut Steps<L>,
) -> Result<(), AllocError>
    requires taken { WasTaken taken.now.snapshot }
    requires own { All (λ h. Contains (held_by taken.now.snapshot) h) held.now }
    requires cover { Cover (map piece_of parts.now) held.now }
    requires agree { AgreesWith (held_by taken.now.snapshot) cache.old }
    ensures page { OnOk result (gathered tally.new cache.new steps.new ≡ walk (past_reading taken.now.snapshot.taking.expr taken.now.snapshot.taking.past_from taken.now.snapshot.taking.past_to) held.now (gathered tally.old cache.old steps.old)) }
    ensures few { OnErr result (steps.new ≤ steps.old + reads (past_reading taken.now.snapshot.taking.expr taken.now.snapshot.taking.past_from taken.now.snapshot.taking.past_to) held.now) }
    ensures only { KeepsOnly (held_by taken.now.snapshot) cache.old cache.new }
    ensures agree { AgreesWith (held_by taken.now.snapshot) cache.new }
{
    let mut rest = held;
    for part in parts {
        let (mine, others) = split_off(part, rest);
        add_part(taken, part, mine, tally, cache, steps)?;
        rest = others;
    }
    Ok(())
}
