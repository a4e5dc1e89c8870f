//! Laws of desks, each the contract of a function with an empty body.
ghost use Rattle.std.specs.Prelude.{List};
ghost use Rattle.event_history.specs.declared.entry.Entry.{Entry};
ghost use Rattle.history_core.specs.Shown.{Shown};
ghost use Rattle.script_desk.specs.Kept.{KeptStays};

/// The takes that are held and the cache stay good however the store's history goes on: their batches are accepted ones.
pub fn kept_stays()
    ensures { (store : Shown) (more : List Entry) → KeptStays store more }
{}
