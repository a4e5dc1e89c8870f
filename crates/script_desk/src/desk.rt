//! What a script holds beside a store.
ghost use Rattle.std.specs.Prelude.{◌≡◌, ◌≤◌, [], IfOk, OnOk};
ghost use Rattle.event_history.specs.Histories.{past};
ghost use Rattle.event_history.specs.Steps as s;
ghost use Rattle.script_desk.specs.Desks.{Plays, play_accept, play_rows, step_at};
ghost use Rattle.script_desk.specs.Refusals.{IsBack};
ghost use Rattle.script_desk.specs.Kept.{query_of};

use crate::laws::kept_stays;
use crate::replies::{push_both, push_line, push_told};
use archive_cache::Cache;
use event_batch::Packed;
use history_core::{AcceptEnd, Accepted, Claim, Group, Limits, Session, Store, Taken, given_stays};
use std::alloc::{AllocError, Global};
use std::marker::Model;
use vast_value::Bytes;

/// The seat that a script's deeds are of.
pub(crate) const SEAT: u32 = 0;

/// What is held of a query.
#[derive(Drop)]
pub(crate) enum Hold {
    /// Its session.
    Session(Session),
    /// A take, which has the session.
    Taken(Taken),
    /// Neither, while a call has it.
    Moved,
}

impl Hold {
    /// The query's number, and 0 where neither is held.
    pub(crate) fn number(&self) -> u32
        ensures { result ≡ query_of self.now }
    {
        match self {
            Hold::Session(session) => session.query(),
            Hold::Taken(taken) => taken.query(),
            Hold::Moved => 0,
        }
    }
}

/// A batch that the store refused, since with it the `have` events that there are would pass the limit.
#[derive(Drop)]
pub struct Refused {
    pub packed: Packed,
    pub have: u64,
    pub limit: u64,
}

/// A store with the claims, groups and takes that a script holds, and a cache for its pages. Contracts see the store's limits
/// and history, and what is held.
#[derive(Drop)]
pub struct Desk {
    pub(crate) alloc: Global,
    pub(crate) store: Store,
    pub(crate) claims: Vec<Claim>,
    pub(crate) groups: Vec<Group>,
    pub(crate) queries: Vec<Hold>,
    pub(crate) cache: Cache,
}

impl Model for Desk {
    ghost use Rattle.script_desk.specs.Desks.{Desk as Seen};
    ghost use Rattle.script_desk.specs.Kept.{desk_of, IsDesk};
    ghost use Rattle.event_history.specs.contracts.entry.Entry as e;
    ghost use Rattle.event_history.specs.contracts.entry.Limits as l;
    ghost use Rattle.query_meaning.specs.contracts.expr.Expr as x;
    ghost use Rattle.std.specs.Coded.{codes};

    ghost Value = { Seen };

    ghost coded = { Prim.hlevel (codes, e.the_row.coded, l.the_row.coded, x.the_row.coded) };

    ghost view = { λ d. desk_of d.store d.claims.items d.groups.items d.queries.items };

    ghost invariant = { λ d. IsDesk d.store d.claims.items d.groups.items d.queries.items d.cache };
}

impl Desk {
    /// A store without events, of which nothing is held, and a cache of so many batches, at least 1.
    pub fn new(alloc: Global, limits: Limits, cache: u32) -> Result<Desk, AllocError>
        requires some { 1 ≤ limits.group }
        requires few { limits.group ≤ 256 }
        requires room { 1 ≤ limits.inbox }
        requires cache { 1 ≤ cache }
        ensures { IfOk result (λ desk. desk ≡ record { limits = limits; history = []; claims = []; groups = []; queries = [] }) }
    {
        Ok(Desk {
            alloc,
            store: Store::new(alloc, limits),
            claims: Vec::new(alloc),
            groups: Vec::new(alloc),
            queries: Vec::new(alloc),
            cache: Cache::new(alloc, cache)?,
        })
    }

    /// `rows`: how many events there are.
    pub fn rows(&self, out: &mut Bytes) -> Result<(), AllocError>
        ensures { OnOk result (Plays (play_rows self.now) self.now out.old out.new) }
    {
        push_line(b"rows ", self.store.rows(), out)
    }

    /// The store, with its history. What is held is dropped.
    pub fn into_store(self) -> Store
        ensures { result ≡ record { limits = self.limits; history = self.history } }
    {
        self.store
    }

    /// A batch that a source gave is accepted, or comes back where the store is full.
    pub fn accept(&mut self, packed: Packed, out: &mut Bytes) -> Result<Option<Refused>, AllocError>
        ensures plays { IfOk result (λ back. Plays (play_accept packed self.old) self.new out.old out.new) }
        ensures back { IfOk result (λ back. IsBack back packed (step_at self.old (s.Accept packed)).reply) }
    {
        given_stays();
        kept_stays();
        let rows = u64::from(packed.rows());
        let end = self.store.accept(SEAT, packed);
        let _ = self.store.entries();
        match end {
            Ok(Accepted { batch, first }) => {
                push_told(b"batch ", batch, out)?;
                push_both(b" first ", first, b" rows ", rows, out)?;
                Ok(None)
            }
            Err((packed, end)) => match end {
                AcceptEnd::Full { have, limit } => {
                    push_both(b"full ", have, b" ", limit, out)?;
                    Ok(Some(Refused {
                        packed,
                        have,
                        limit,
                    }))
                }
                AcceptEnd::Memory => Err(AllocError),
            },
        }
    }
}
