//! The law of a run of asks.
ghost use Rattle.std.specs.Prelude.{ℕ, List};
ghost use Rattle.archive_cache.specs.Caches.{Kept};
ghost use Rattle.archive_cache.specs.Laws.{KeepsTheLatest};

/// Whatever was asked for in what order, a cache keeps the batches that were asked for last, as many as its size, each
/// once and the latest in front.
pub fn keeps_the_latest()
    ensures { (size : ℕ) (asks : List Kept) → KeepsTheLatest size asks }
{}
