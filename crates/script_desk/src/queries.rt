//! The lines on queries.
ghost use Rattle.std.specs.Prelude.{◌≡◌, ◌≢◌, ◌+◌, None, Some, is_some, IfOk, MatchOption, OnErr, OnOk};
ghost use Rattle.event_history.specs.Histories.{past};
ghost use Rattle.event_history.specs.Steps as s;
ghost use Rattle.history_core.specs.Replies.{IsRegistered, Makes};
ghost use Rattle.script_desk.specs.Desks.{Plays, held_of_query, moved, play_leave, play_query, play_take, register_played, step_at, taken_at, holding};
ghost use Rattle.script_desk.specs.Kept.{HoldsAccepted, query_of, take_in, take_reply};

use crate::desk::{Desk, Hold, SEAT};
use crate::laws::kept_stays;
use crate::replies::{push_both, push_line, push_refused};
use event_history::Mode;
use history_core::{LeaveEnd, RegisterEnd, Store, TakeEnd, given_stays};
use query_meaning::Expr;
use query_parse::{ParseEnd, parse};
use std::alloc::AllocError;
use std::mem;
use vast_value::Bytes;

impl Desk {
    /// `query MODE TEXT`: registers a query.
    pub fn query(&mut self, mode: Mode, text: &str, out: &mut Bytes) -> Result<(), AllocError>
        ensures { OnOk result (Plays (play_query mode text.now self.old) self.new out.old out.new) }
    {
        match parse(self.alloc, text) {
            Ok(expr) => self.register(mode, expr, out),
            Err(ParseEnd::Fault(fault)) => push_refused(fault, out),
            Err(ParseEnd::Memory) => Err(AllocError),
        }
    }

    fn register(&mut self, mode: Mode, expr: Expr, out: &mut Bytes) -> Result<(), AllocError>
        ensures { OnOk result (Plays (register_played (moved self.old (s.Register mode expr)) (step_at self.old (s.Register mode expr)).reply) self.new out.old out.new) }
    {
        given_stays();
        kept_stays();
        self.queries.reserve(1)?;
        let end = self.store.register(SEAT, mode, expr);
        let _ = self.store.entries();
        match end {
            Ok(session) => {
                let query = u64::from(session.query());
                let from = session.registered();
                self.queries.push_reserved(Hold::Session(session));
                push_both(b"query ", query, b" from ", from, out)
            }
            Err((_, RegisterEnd::TooMany { limit })) => {
                push_line(b"too many ", u64::from(limit), out)
            }
            Err((_, RegisterEnd::Ahead { from, have })) => {
                push_both(b"ahead ", from, b" ", have, out)
            }
            Err((_, RegisterEnd::Memory)) => Err(AllocError),
        }
    }

    /// `take Q`: takes what a query is to be told, and holds it.
    pub fn take(&mut self, query: u64, out: &mut Bytes) -> Result<(), AllocError>
        ensures { OnOk result (Plays (play_take query self.old) self.new out.old out.new) }
    {
        let Some(at) = self.free_place(query) else {
            return push_line(b"no session ", query, out);
        };
        if self.take_at(at, query)? {
            push_line(b"taken ", query, out)
        } else {
            push_line(b"already left ", query, out)
        }
    }

    // The place of a query whose session is held.
    pub(crate) fn free_place(&self, query: u64) -> Option<usize>
        ensures { MatchOption result (held_of_query self.now.queries query ≢ Some None) (λ at. (at + 1 ≡ query) × (held_of_query self.now.queries query ≡ Some None)) }
    {
        if query == 0 || query > self.queries.len() as u64 {
            return None;
        }
        let at = (query - 1) as usize;
        match &self.queries[at] {
            Hold::Session(_) => Some(at),
            _ => None,
        }
    }

    // Whether the query was told, which then has its take; else it has left.
    pub(crate) fn take_at(&mut self, at: usize, query: u64) -> Result<bool, AllocError>
        requires place { at + 1 ≡ query }
        requires free { held_of_query self.old.queries query ≡ Some None }
        ensures desk { IfOk result (λ told. self.new ≡ holding query (taken_at query self.old) (moved self.old (s.Take query))) }
        ensures told { IfOk result (λ told. told ≡ is_some (taken_at query self.old)) }
    {
        given_stays();
        kept_stays();
        let _ = self.store.entries();
        let told = take_hold(&mut self.store, &mut self.queries[at])?;
        let _ = self.store.entries();
        Ok(told)
    }

    /// `leave Q`: ends a query.
    pub fn leave(&mut self, query: u64, out: &mut Bytes) -> Result<(), AllocError>
        ensures { OnOk result (Plays (play_leave query self.old) self.new out.old out.new) }
    {
        given_stays();
        kept_stays();
        if query == 0 || query > self.queries.len() as u64 {
            return push_line(b"no query ", query, out);
        }
        let number = self.queries[(query - 1) as usize].number();
        let end = self.store.leave(SEAT, number);
        let _ = self.store.entries();
        match end {
            Ok(()) => push_line(b"left ", query, out),
            Err(LeaveEnd::Left { .. }) => push_line(b"already left ", query, out),
            Err(LeaveEnd::Memory) => Err(AllocError),
        }
    }
}

// Takes with the session that is held, which is held again where the query has left or memory runs out.
fn take_hold(store: &mut Store, hold: &mut Hold) -> Result<bool, AllocError>
    requires free { take_in hold.old ≡ None }
    requires known { IsRegistered store.old (query_of hold.old) }
    ensures step { IfOk result (λ told. Makes store.old store.new 0 (s.Take (query_of hold.old)) (Some (take_reply (query_of hold.old) (take_in hold.new)))) }
    ensures told { IfOk result (λ told. told ≡ is_some (take_in hold.new)) }
    ensures of { query_of hold.new ≡ query_of hold.old }
    ensures accepted { HoldsAccepted (past store.old.history) hold.new }
    ensures memory { OnErr result ((store.new ≡ store.old) × (take_in hold.new ≡ None)) }
{
    let Hold::Session(session) = mem::replace(hold, Hold::Moved) else {
        unreachable!()
    };
    match store.take(SEAT, session) {
        Ok(taken) => {
            *hold = Hold::Taken(taken);
            Ok(true)
        }
        Err((session, TakeEnd::Left { .. })) => {
            *hold = Hold::Session(session);
            Ok(false)
        }
        Err((session, TakeEnd::Memory)) => {
            *hold = Hold::Session(session);
            Err(AllocError)
        }
    }
}
