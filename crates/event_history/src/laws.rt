//! Laws of histories, each the contract of a function with an empty body.
ghost use Rattle.std.specs.Prelude.{ℕ, List};
ghost use Rattle.event_history.specs.declared.entry.Entry.{Entry};
ghost use Rattle.event_history.specs.declared.entry.Limits.{Limits};
ghost use Rattle.event_history.specs.Covers.{PartsCover};
ghost use Rattle.event_history.specs.Laws.{DeliversExactly, TellsOnce, BatchesAnswer, Grows};

/// The law of telling: whatever was done in what order, what a query was told are the matching events of its past part up
/// to its past position and those of its live part up to its live position, each once and in ascending order.
pub fn delivered_exactly()
    ensures { (limits : Limits) (past : List Entry) (query : ℕ) → DeliversExactly limits past query }
{}

/// The same law by ids: of each id that is due, the event with that id was told once, where it matches; and of no other id
/// anything was told.
pub fn each_is_told_once()
    ensures { (limits : Limits) (past : List Entry) (query : ℕ) → TellsOnce limits past query }
{}

/// The law of snapshots: the matching events of a range are those of the batches that reach into it.
pub fn batches_answer()
    ensures { (past : List Entry) → BatchesAnswer past }
{}

/// The law of parts: whatever groups are sealed, each batch with an event in a range stands in one of the parts of that
/// range, both in ascending order.
pub fn parts_cover()
    ensures { (past : List Entry) → PartsCover past }
{}

/// The law of longer histories: they keep batches, ids, registrations, and what was indexed, sealed or ended.
pub fn histories_grow()
    ensures { (limits : Limits) (later past : List Entry) → Grows limits later past }
{}
