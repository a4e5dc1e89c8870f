//! Registering queries, and their leaving.
ghost use Rattle.std.specs.Prelude.{◌≡◌, IfErr, IfOk, IsTrue};
ghost use Rattle.event_history.specs.Histories.{past};
ghost use Rattle.event_history.specs.Queries.{has_left};
ghost use Rattle.event_history.specs.Steps as s;
ghost use Rattle.history_core.specs.Replies.{IsRegistered, Makes, is_registered, leave_reply, register_reply};

use super::Store;
use crate::answers::{LeaveEnd, RegisterEnd};
use crate::kept::Query;
use crate::session::Session;
use event_history::{Deed, Entry, Mode, SharedExpr};
use query_meaning::Expr;

impl Store {
    /// Registers a query: the next one. `TooMany` comes exactly where as many as the limit are registered, and else `Ahead`
    /// exactly where it would begin at an event that is not there.
    pub fn register(
        &mut self,
        seat: u32,
        mode: Mode,
        expr: Expr,
    ) -> Result<Session, (Expr, RegisterEnd)>
        ensures step { Makes self.old self.new seat (s.Register mode expr) (register_reply result) }
        ensures known { IfOk result (λ session. IsRegistered self.new session.query) }
        ensures back { IfErr result (λ e. e.0 ≡ expr) }
    {
        let count = self.queries.len();
        let limit = self.limits.queries;
        if count >= limit as usize {
            return Err((expr, RegisterEnd::TooMany { limit }));
        }
        let have = self.rows;
        let from = mode.past_begin(have);
        if from > have {
            return Err((expr, RegisterEnd::Ahead { from, have }));
        }
        if self.queries.reserve(1).is_err() || self.entries.reserve(1).is_err() {
            return Err((expr, RegisterEnd::Memory));
        }
        let expr = match SharedExpr::new(self.alloc, expr) {
            Ok(expr) => expr,
            Err((expr, _)) => return Err((expr, RegisterEnd::Memory)),
        };
        let query = count as u32 + 1;
        let place = self.entries.len();
        self.queries.push_reserved(Query {
            place,
            mode,
            registered: have,
            past_to: from,
            live_to: have,
            left: false,
        });
        self.entries.push_reserved(Entry {
            seat,
            deed: Deed::Register { query, mode, expr },
        });
        Ok(Session {
            query,
            mode,
            registered: have,
        })
    }

    /// Ends a query. `Left` comes exactly where it has left.
    pub fn leave(&mut self, seat: u32, query: u32) -> Result<(), LeaveEnd>
        requires { IsRegistered self.old query }
        ensures step { Makes self.old self.new seat (s.Leave query) (leave_reply result) }
        ensures known { IsRegistered self.new query }
    {
        let at = query as usize - 1;
        if self.queries[at].left {
            return Err(LeaveEnd::Left { query });
        }
        if self.entries.reserve(1).is_err() {
            return Err(LeaveEnd::Memory);
        }
        self.queries[at].left = true;
        self.entries.push_reserved(Entry {
            seat,
            deed: Deed::Leave { query },
        });
        Ok(())
    }

    /// Whether a query is registered: queries count from 1.
    pub fn is_registered(&self, query: u32) -> bool
        ensures value { result ≡ is_registered (past self.now.history) query }
        ensures known { IsTrue result → IsRegistered self.now query }
    {
        0 < query && query as usize <= self.queries.len()
    }

    /// Whether a registered query has left.
    pub fn left(&self, query: u32) -> bool
        requires { IsRegistered self.now query }
        ensures { result ≡ has_left query (past self.now.history) }
    {
        self.queries[query as usize - 1].left
    }
}
