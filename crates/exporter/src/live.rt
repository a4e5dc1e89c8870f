//! The live range, whose batches may have no index yet: each is read.
ghost use Rattle.std.specs.Prelude.{◌≡◌, ◌+◌, ◌≤◌, All, Contains, length, OnErr, OnOk};
ghost use Rattle.history_core.specs.Snapshots.{WasTaken};
ghost use Rattle.exporter.specs.Asks.{AgreesWith, KeepsOnly};
ghost use Rattle.exporter.specs.Pages.{held_by};
ghost use Rattle.exporter.specs.Walks.{gathered, live_reading, walk, with_batch};

use crate::rows::{push_all, rows_within};
use crate::tally::Tally;
use archive_cache::Cache;
use event_batch::Steps;
use history_core::{Held, Taken};
use std::alloc::AllocError;
use std::sync::ledger::Ledger;

/// Adds a batch of the live range. Each of its rows in the range is looked at.
fn add_batch<L: Ledger>(
    taken: &Taken,
    held: &Held,
    tally: &mut Tally,
    cache: &mut Cache,
    steps: &mut Steps<L>,
) -> Result<(), AllocError>
    requires taken { WasTaken taken.now.snapshot }
    requires own { Contains (held_by taken.now.snapshot) held.now }
    requires agree { AgreesWith (held_by taken.now.snapshot) cache.old }
    ensures page { OnOk result (gathered tally.new cache.new steps.new ≡ with_batch (live_reading taken.now.snapshot.taking.expr taken.now.snapshot.taking.live_from taken.now.snapshot.taking.live_to held.now) held.now (gathered tally.old cache.old steps.old)) }
    ensures few { OnErr result (steps.new ≤ steps.old + 1) }
    ensures only { KeepsOnly (held_by taken.now.snapshot) cache.old cache.new }
    ensures agree { AgreesWith (held_by taken.now.snapshot) cache.new }
{
    let first = held.first();
    let (low, high) = rows_within(taken.live(), held);
    let batch = tally.ask(taken, held, cache, steps)?;
    let alloc = tally.alloc;
    push_all(
        alloc,
        &mut tally.found,
        taken.expr(),
        &batch,
        first,
        low,
        high,
    )?;
    tally.checked = tally.checked.saturating_add(high - low);
    Ok(())
}

/// Adds the batches of the live range.
pub(crate) fn add_batches<L: Ledger>(
    taken: &Taken,
    held: &[Held],
    tally: &mut Tally,
    cache: &mut Cache,
    steps: &mut Steps<L>,
) -> Result<(), AllocError>
    requires taken { WasTaken taken.now.snapshot }
    requires own { All (λ h. Contains (held_by taken.now.snapshot) h) held.now }
    requires agree { AgreesWith (held_by taken.now.snapshot) cache.old }
    ensures page { OnOk result (gathered tally.new cache.new steps.new ≡ walk (live_reading taken.now.snapshot.taking.expr taken.now.snapshot.taking.live_from taken.now.snapshot.taking.live_to) held.now (gathered tally.old cache.old steps.old)) }
    ensures few { OnErr result (steps.new ≤ steps.old + length held.now) }
    ensures only { KeepsOnly (held_by taken.now.snapshot) cache.old cache.new }
    ensures agree { AgreesWith (held_by taken.now.snapshot) cache.new }
{
    for batch in held {
        add_batch(taken, batch, tally, cache, steps)?;
    }
    Ok(())
}
