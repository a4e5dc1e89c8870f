//! Laws of pages, each the contract of a function with an empty body.
ghost use Rattle.std.specs.Prelude.{ℕ, List};
ghost use Rattle.archive_cache.specs.Caches.{Caching, Kept};
ghost use Rattle.event_history.specs.declared.entry.Entry.{Entry};
ghost use Rattle.event_history.specs.declared.entry.Limits.{Limits};
ghost use Rattle.history_core.specs.Snapshots.{Snapshot};
ghost use Rattle.exporter.specs.Asks.{KeptAreNotLoaded};
ghost use Rattle.exporter.specs.Laws.{FindsTheAnswers};
ghost use Rattle.exporter.specs.Stores.{ServesStore};

/// What is found in the snapshot of a take are the answers of its query over both ranges.
pub fn finds_the_answers()
    ensures { (limits : Limits) (past : List Entry) (query : ℕ) (x : Snapshot) → FindsTheAnswers limits past query x }
{}

/// Where the batches that a cache keeps and those it is asked for are together no more than its size, none that it keeps
/// is decoded.
pub fn kept_are_not_loaded()
    ensures { (asks : List Kept) (cache : Caching) → KeptAreNotLoaded asks cache }
{}

/// One cache serves the pages of one store, whatever the store does meanwhile: it agrees with the batches that a take hands
/// out, and a page leaves it so.
pub fn a_cache_serves_a_store()
    ensures { (limits : Limits) (past : List Entry) → ServesStore limits past }
{}
