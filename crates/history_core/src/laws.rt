//! Laws of stores, each the contract of a function with an empty body.
ghost use Rattle.std.specs.Prelude.{List};
ghost use Rattle.event_history.specs.declared.entry.Entry.{Entry};
ghost use Rattle.history_core.specs.Given.{GivenStays};
ghost use Rattle.history_core.specs.Shown.{Shown};

/// What a store handed out stays good however its history goes on: a claim names an accepted batch with its bytes, a
/// group's indexes stand for its batches, which are all indexed, and a registered query is registered.
pub fn given_stays()
    ensures { (store : Shown) (more : List Entry) → GivenStays store more }
{}
