//! What was gathered of a page so far.
ghost use Rattle.std.specs.Prelude.{◌≡◌, ◌+◌, [], Contains, IfOk, OnOk};
ghost use Rattle.std.specs.Arc.{arc_value};
ghost use Rattle.archive_cache.specs.Caches.{decodings};
ghost use Rattle.event_batch.specs.Contents.{content_of};
ghost use Rattle.history_core.specs.Snapshots.{WasTaken};
ghost use Rattle.exporter.specs.Asks.{AgreesWith, KeepsOnly};
ghost use Rattle.exporter.specs.Pages.{held_by};
ghost use Rattle.exporter.specs.Walks.{asked, gathered};

use crate::founds::Founds;
use archive_cache::Cache;
use event_batch::{Batch, Steps};
use history_core::{Held, Taken};
use std::alloc::{AllocError, Global};
use std::sync::Arc;
use std::sync::ledger::Ledger;

/// The events that were found, and the counts of a page.
#[derive(Drop)]
pub(crate) struct Tally {
    pub(crate) alloc: Global,
    pub(crate) found: Founds,
    pub(crate) checked: u64,
    pub(crate) touched: u64,
    pub(crate) loads: u64,
}

impl Tally {
    /// Nothing yet.
    pub(crate) fn new(alloc: Global) -> Tally
        ensures found { result.found ≡ [] }
        ensures checked { result.checked ≡ 0 }
        ensures touched { result.touched ≡ 0 }
        ensures loads { result.loads ≡ 0 }
    {
        Tally {
            alloc,
            found: Founds::new(alloc),
            checked: 0,
            touched: 0,
            loads: 0,
        }
    }

    /// How many events were looked at.
    pub(crate) fn checked(&self) -> u64
        ensures { result ≡ self.now.checked }
    {
        self.checked
    }

    /// How many batches were read.
    pub(crate) fn touched(&self) -> u64
        ensures { result ≡ self.now.touched }
    {
        self.touched
    }

    /// How many of them weren't kept.
    pub(crate) fn loads(&self) -> u64
        ensures { result ≡ self.now.loads }
    {
        self.loads
    }

    /// Asks the cache for a batch.
    pub(crate) fn ask<L: Ledger>(
        &mut self,
        taken: &Taken,
        held: &Held,
        cache: &mut Cache,
        steps: &mut Steps<L>,
    ) -> Result<Arc<Batch>, AllocError>
        requires taken { WasTaken taken.now.snapshot }
        requires own { Contains (held_by taken.now.snapshot) held.now }
        requires agree { AgreesWith (held_by taken.now.snapshot) cache.old }
        ensures batch { IfOk result (λ batch. content_of (arc_value batch) ≡ held.now.packed.content) }
        ensures page { OnOk result (gathered self.new cache.new steps.new ≡ asked held.now (gathered self.old cache.old steps.old)) }
        ensures step { steps.new ≡ steps.old + decodings held.now.no cache.old }
        ensures only { KeepsOnly (held_by taken.now.snapshot) cache.old cache.new }
        ensures agree { AgreesWith (held_by taken.now.snapshot) cache.new }
    {
        let kept = cache.keeps(held.no());
        let batch = cache.get(held.no(), held.packed(), steps)?;
        self.touched = self.touched.saturating_add(1);
        self.loads = self.loads.saturating_add(u64::from(!kept));
        Ok(batch)
    }
}
