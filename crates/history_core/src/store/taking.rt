//! Telling queries what matches.
ghost use Rattle.std.specs.Prelude.{◌≡◌, true, is_some, Some, IfErr, IfOk};
ghost use Rattle.event_history.specs.Histories.{past};
ghost use Rattle.event_history.specs.Queries.{registration};
ghost use Rattle.event_history.specs.Steps as s;
ghost use Rattle.history_core.specs.Replies.{IsRegistered, Makes, take_reply};
ghost use Rattle.history_core.specs.Snapshots.{IsSnapshot};
ghost use Rattle.history_core.specs.Stores.{expr_at};
ghost use Rattle.history_core.specs.Telling.{TellsUpTo};

use super::Store;
use crate::answers::TakeEnd;
use crate::kept::Query;
use crate::session::Session;
use crate::taken::{Snapshot, Taken};
use event_history::{Deed, Entry, SharedExpr, each_is_told_once};
use std::alloc::AllocError;

impl Store {
    /// Moves a query on, and hands out what it is to be told: the ranges up to its new positions with their parts and
    /// batches. `Left` comes exactly where the query has left.
    ///
    /// With these ranges the query was told the matching events of its past part below the first position, and those of
    /// its live part below the second, each once; where `again` is none, these are the matching events of its whole span.
    pub fn take(&mut self, seat: u32, session: Session) -> Result<Taken, (Session, TakeEnd)>
        requires { IsRegistered self.old session.query }
        ensures step { Makes self.old self.new seat (s.Take session.query) (take_reply result) }
        ensures snapshot { IfOk result (λ t. IsSnapshot self.old.limits.group (past self.old.history) session.query t.snapshot (registration session.query (past self.old.history))) }
        ensures told { IfOk result (λ t. TellsUpTo (past self.new.history) session.query t.snapshot.taking (registration session.query (past self.new.history))) }
        ensures known { IsRegistered self.new session.query }
        ensures session { IfOk result (λ t. t.session ≡ session) }
        ensures back { IfErr result (λ e. e.0 ≡ session) }
    {
        each_is_told_once();
        let query = session.query;
        let at = query as usize - 1;
        let known = self.queries[at];
        if known.left {
            return Err((session, TakeEnd::Left { query }));
        }
        let Ok(snapshot) = self.look(query) else {
            return Err((session, TakeEnd::Memory));
        };
        let past_to = snapshot.past().1;
        let live_to = snapshot.live().1;
        if self.entries.reserve(1).is_err() {
            return Err((session, TakeEnd::Memory));
        }
        self.queries[at] = Query {
            past_to,
            live_to,
            ..known
        };
        self.entries.push_reserved(Entry {
            seat,
            deed: Deed::Take {
                query,
                past_to,
                live_to,
            },
        });
        Ok(Taken { session, snapshot })
    }

    fn look(&self, number: u32) -> Result<Snapshot, AllocError>
        requires { IsRegistered self.now number }
        ensures { IfOk result (λ x. IsSnapshot self.now.limits.group (past self.now.history) number x (registration number (past self.now.history))) }
    {
        let query = self.queries[number as usize - 1];
        let expr = expr_at(self.entries.as_slice(), query.place)?;
        let (past_to, again) = self.stop(query.past_to, query.registered);
        let live_to = query.mode.live_end(query.registered, self.rows);
        let parts = self.parts_over(query.past_to, past_to)?;
        let past_batches = self.batches_over(query.past_to, past_to)?;
        let live_batches = self.batches_over(query.live_to, live_to)?;
        Ok(Snapshot {
            expr,
            past: (query.past_to, past_to),
            live: (query.live_to, live_to),
            again,
            parts,
            past_batches,
            live_batches,
        })
    }
}

/// A share of the expression of the registration that stands at a place.
fn expr_at(entries: &[Entry], place: usize) -> Result<SharedExpr, AllocError>
    requires { is_some (expr_at entries.now place) ≡ true }
    ensures { IfOk result (λ expr. expr_at entries.now place ≡ Some expr) }
{
    match &entries[place].deed {
        Deed::Register { expr, .. } => expr.share(),
        _ => unreachable!(),
    }
}
