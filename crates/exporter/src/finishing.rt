//! The page of a snapshot.
ghost use Rattle.std.specs.Prelude.{◌≡◌, ◌+◌, ◌≤◌, length, IfErr, IfOk, OnErr, OnOk};
ghost use Rattle.history_core.specs.Snapshots.{WasTaken};
ghost use Rattle.exporter.specs.Asks.{AgreesWith, KeepsOnly, after_run, asks_of};
ghost use Rattle.exporter.specs.Finished.{IsPage};
ghost use Rattle.exporter.specs.Pages.{held_by, touched_in};

use crate::founds::Founds;
use crate::live::add_batches;
use crate::past::add_parts;
use crate::tally::Tally;
use archive_cache::Cache;
use event_batch::Steps;
use history_core::{Session, Taken};
use std::alloc::{AllocError, Global};
use std::sync::ledger::Ledger;

/// What a query is told: the events of its past range and then of its live range that match, each in ascending order.
#[derive(Drop)]
pub struct Page {
    pub found: Founds,
    /// Where the past range ends.
    pub past_to: u64,
    /// Where the live range ends.
    pub live_to: u64,
    /// The batch that the past range ends at since it has no index, if there is one.
    pub again: Option<u64>,
    /// How many events were looked at: of the past range those that indexes don't decide, and all of the live range.
    pub checked: u64,
    /// How many batches were read.
    pub touched: u64,
    /// How many of them the cache didn't keep.
    pub loads: u64,
}

/// The page of a snapshot, and its session. The snapshot comes back whole where memory is wanting, and the cache may then
/// keep other batches than before.
///
/// A batch of the past range is read only where one of its events in the range may match, and a batch of the live range
/// always. The cache is asked for each of them once, the past ones first, in ascending order. Each load counts one step.
/// A snapshot that came back may be finished again with the same cache.
pub fn finish<L: Ledger>(
    alloc: Global,
    taken: Taken,
    cache: &mut Cache,
    steps: &mut Steps<L>,
) -> Result<(Session, Page), (Taken, AllocError)>
    requires agree { AgreesWith (held_by taken.snapshot) cache.old }
    ensures session { IfOk result (λ r. r.0 ≡ taken.session) }
    ensures page { IfOk result (λ r. IsPage taken.snapshot cache.old r.1) }
    ensures cache { OnOk result (cache.new ≡ after_run (asks_of (touched_in taken.snapshot)) cache.old) }
    ensures steps { IfOk result (λ r. steps.new ≡ steps.old + r.1.loads) }
    ensures back { IfErr result (λ e. e.0 ≡ taken) }
    ensures few { OnErr result (steps.new ≤ steps.old + length (touched_in taken.snapshot)) }
    ensures only { KeepsOnly (held_by taken.snapshot) cache.old cache.new }
    ensures agree { AgreesWith (held_by taken.snapshot) cache.new }
{
    match page_of(alloc, &taken, cache, steps) {
        Ok(page) => Ok((taken.settle(), page)),
        Err(end) => Err((taken, end)),
    }
}

/// How many batches a snapshot holds.
fn batches_of(taken: &Taken) -> usize
    ensures { result ≡ length taken.now.snapshot.past_batches + length taken.now.snapshot.live_batches }
{
    taken.past_batches().len() + taken.live_batches().len()
}

fn page_of<L: Ledger>(
    alloc: Global,
    taken: &Taken,
    cache: &mut Cache,
    steps: &mut Steps<L>,
) -> Result<Page, AllocError>
    requires agree { AgreesWith (held_by taken.now.snapshot) cache.old }
    ensures page { IfOk result (λ page. IsPage taken.now.snapshot cache.old page) }
    ensures cache { OnOk result (cache.new ≡ after_run (asks_of (touched_in taken.now.snapshot)) cache.old) }
    ensures steps { IfOk result (λ page. steps.new ≡ steps.old + page.loads) }
    ensures few { OnErr result (steps.new ≤ steps.old + length (touched_in taken.now.snapshot)) }
    ensures only { KeepsOnly (held_by taken.now.snapshot) cache.old cache.new }
    ensures agree { AgreesWith (held_by taken.now.snapshot) cache.new }
{
    let parts = taken.parts();
    // There are fewer than 2^64 of them, so no count stands still.
    let _ = batches_of(taken);
    let mut tally = Tally::new(alloc);
    add_parts(taken, parts, taken.past_batches(), &mut tally, cache, steps)?;
    add_batches(taken, taken.live_batches(), &mut tally, cache, steps)?;
    let past_to = taken.past().1;
    let live_to = taken.live().1;
    Ok(Page {
        found: tally.found,
        past_to,
        live_to,
        again: taken.again(),
        checked: tally.checked,
        touched: tally.touched,
        loads: tally.loads,
    })
}
