//! The pages of a worker's query.
ghost use Rattle.std.specs.Prelude.{◌≡◌, ◌<◌, ◌++◌, ◌∷◌, [], All, None, Some, IsSomeAnd, OnErr, OnOk, length, map, vec_capacity};
ghost use Rattle.event_history.specs.Histories.{past};
ghost use Rattle.exporter.specs.Asks.{AgreesWith, KeepsOnly};
ghost use Rattle.exporter.specs.Pages.{held_by};
ghost use Rattle.exporter.specs.Stores.{IsCacheOf};
ghost use Rattle.history_core.specs.Replies.{IsRegisteredAt};
ghost use Rattle.turn_book.specs.Seats.{book_id, pass_book, pass_standing};
ghost use Rattle.worker_pool.specs.Paging.{Draws, HasSession, told_of, told_taken};
ghost use Rattle.worker_pool.specs.Registering.{ends, exprs};
ghost use Rattle.worker_pool.specs.Takes.{AreApart, IsFree, IsPaged, TakesOn, numbers_of};

use crate::registering::Query;
use archive_cache::Cache;
use event_batch::Steps;
use exporter::{Page, a_cache_serves_a_store, finds_the_answers, finish};
use history_core::{Session, TakeEnd, Taken};
use shared_store::{Pass, Vast};
use std::alloc::{AllocError, Global};
use std::mem;
use std::sync::Wait;
use std::sync::ledger::Ledger;
use vast_io::{Gate, Place};
use vast_value::Bytes;

/// The pages that a query was told, in order.
pub type Pages = Vec<Page>;

/// A query and its pages so far. While it may be asked on it has its session. A snapshot that was taken and for whose page
/// memory was wanting stands in its place.
#[derive(Drop)]
pub struct QueryEnd {
    pub label: Bytes,
    pub session: Option<Session>,
    pub taken: Option<Taken>,
    /// The limit of queries, where there were as many before it.
    pub too_many: Option<u32>,
    pub pages: Pages,
}

/// Asks each query on that has a session, in order.
pub fn page_all<G: Gate, L: Ledger, R: Wait>(
    rt: &R,
    alloc: Global,
    vast: &Vast,
    pass: &mut Pass,
    gate: &G,
    worker: u32,
    turn: u64,
    cache: &mut Cache,
    steps: &mut Steps<L>,
    queries: &mut [Query],
) -> Result<(), AllocError>
    requires book { pass_book pass.old ≡ book_id vast.now.book }
    requires paged { All (IsPaged (pass_standing pass.old)) (ends queries.old) }
    requires free { All IsFree (ends queries.old) }
    requires apart { AreApart (map numbers_of (ends queries.old)) }
    requires cache { IsCacheOf (past (pass_standing pass.old).seen) cache.old }
    ensures book { pass_book pass.new ≡ book_id vast.now.book }
    ensures takes { TakesOn result (ends queries.old) (ends queries.new) (pass_standing pass.old) (pass_standing pass.new) }
    ensures exprs { exprs queries.new ≡ exprs queries.old }
    ensures cache { IsCacheOf (past (pass_standing pass.new).seen) cache.new }
{
    match queries.split_first_mut() {
        None => Ok(()),
        Some((first, rest)) => {
            page_open(
                rt,
                alloc,
                vast,
                pass,
                gate,
                worker,
                turn,
                cache,
                steps,
                &mut first.end,
            )?;
            page_all(
                rt, alloc, vast, pass, gate, worker, turn, cache, steps, rest,
            )
        }
    }
}

/// Asks a query on, if it has a session.
fn page_open<G: Gate, L: Ledger, R: Wait>(
    rt: &R,
    alloc: Global,
    vast: &Vast,
    pass: &mut Pass,
    gate: &G,
    worker: u32,
    turn: u64,
    cache: &mut Cache,
    steps: &mut Steps<L>,
    query: &mut QueryEnd,
) -> Result<(), AllocError>
    requires book { pass_book pass.old ≡ book_id vast.now.book }
    requires paged { IsPaged (pass_standing pass.old) query.old }
    requires free { IsFree query.old }
    requires cache { IsCacheOf (past (pass_standing pass.old).seen) cache.old }
    ensures book { pass_book pass.new ≡ book_id vast.now.book }
    ensures takes { TakesOn result (query.old ∷ []) (query.new ∷ []) (pass_standing pass.old) (pass_standing pass.new) }
    ensures cache { IsCacheOf (past (pass_standing pass.new).seen) cache.new }
{
    if query.session.is_none() {
        return Ok(());
    }
    page_one(
        rt, alloc, vast, pass, gate, worker, turn, cache, steps, query,
    )
}

/// Takes what a query is to be told next, and puts its page behind the others. A query that another has ended stays as it
/// is. The memory for a page is there before the take.
pub fn page_one<G: Gate, L: Ledger, R: Wait>(
    rt: &R,
    alloc: Global,
    vast: &Vast,
    pass: &mut Pass,
    gate: &G,
    worker: u32,
    turn: u64,
    cache: &mut Cache,
    steps: &mut Steps<L>,
    query: &mut QueryEnd,
) -> Result<(), AllocError>
    requires book { pass_book pass.old ≡ book_id vast.now.book }
    requires known { IsSomeAnd query.old.session (λ session. IsRegisteredAt (past (pass_standing pass.old).seen) session.query) }
    requires free { query.old.taken ≡ None }
    requires cache { IsCacheOf (past (pass_standing pass.old).seen) cache.old }
    ensures book { pass_book pass.new ≡ book_id vast.now.book }
    ensures draws { IsSomeAnd query.old.session (λ session. Draws session.query result query.old query.new (pass_standing pass.old) (pass_standing pass.new)) }
    ensures session { OnOk result (HasSession query.old query.new) }
    ensures known { IsSomeAnd query.old.session (λ session. IsRegisteredAt (past (pass_standing pass.new).seen) session.query) }
    ensures rest { (query.new.label ≡ query.old.label) × (query.new.too_many ≡ query.old.too_many) }
    ensures cache { IsCacheOf (past (pass_standing pass.new).seen) cache.new }
{
    let Some(session) = mem::replace(&mut query.session, None) else {
        unreachable!()
    };
    if query.pages.reserve(1).is_err() {
        query.session = Some(session);
        return Err(AllocError);
    }
    draw(
        rt, alloc, vast, pass, gate, worker, turn, cache, steps, session, query,
    )
}

/// Takes by a session and finishes the snapshot, for whose page there is room.
fn draw<G: Gate, L: Ledger, R: Wait>(
    rt: &R,
    alloc: Global,
    vast: &Vast,
    pass: &mut Pass,
    gate: &G,
    worker: u32,
    turn: u64,
    cache: &mut Cache,
    steps: &mut Steps<L>,
    session: Session,
    query: &mut QueryEnd,
) -> Result<(), AllocError>
    requires book { pass_book pass.old ≡ book_id vast.now.book }
    requires known { IsRegisteredAt (past (pass_standing pass.old).seen) session.query }
    requires free { (query.old.session ≡ None) × (query.old.taken ≡ None) }
    requires room { length query.old.pages.items < vec_capacity query.old.pages }
    requires cache { IsCacheOf (past (pass_standing pass.old).seen) cache.old }
    ensures book { pass_book pass.new ≡ book_id vast.now.book }
    ensures draws { Draws session.query result query.old query.new (pass_standing pass.old) (pass_standing pass.new) }
    ensures session { OnOk result ((query.new.session ≡ Some session) × (query.new.taken ≡ None)) }
    ensures known { IsRegisteredAt (past (pass_standing pass.new).seen) session.query }
    ensures rest { (query.new.label ≡ query.old.label) × (query.new.too_many ≡ query.old.too_many) }
    ensures cache { IsCacheOf (past (pass_standing pass.new).seen) cache.new }
{
    a_cache_serves_a_store();
    finds_the_answers();
    match vast.take(rt, pass, session) {
        Ok(taken) => {
            gate.before(worker, turn, Place::Page);
            settle(alloc, taken, cache, steps, query)
        }
        Err((session, end)) => {
            query.session = Some(session);
            match end {
                TakeEnd::Left { .. } => Ok(()),
                TakeEnd::Memory => Err(AllocError),
            }
        }
    }
}

/// Finishes a snapshot, whose page gets the room that there is, or which stays as it is where memory is wanting.
fn settle<L: Ledger>(
    alloc: Global,
    taken: Taken,
    cache: &mut Cache,
    steps: &mut Steps<L>,
    query: &mut QueryEnd,
) -> Result<(), AllocError>
    requires agree { AgreesWith (held_by taken.snapshot) cache.old }
    requires room { length query.old.pages.items < vec_capacity query.old.pages }
    requires free { query.old.taken ≡ None }
    ensures told { told_of query.new ≡ told_of query.old ++ told_taken taken ∷ [] }
    ensures ok { OnOk result ((query.new.session ≡ Some taken.session) × (query.new.taken ≡ None)) }
    ensures err { OnErr result ((query.new.session ≡ query.old.session) × (query.new.taken ≡ Some taken)) }
    ensures rest { (query.new.label ≡ query.old.label) × (query.new.too_many ≡ query.old.too_many) }
    ensures only { KeepsOnly (held_by taken.snapshot) cache.old cache.new }
{
    match finish(alloc, taken, cache, steps) {
        Ok(done) => {
            let (session, page) = done;
            query.pages.push_reserved(page);
            query.session = Some(session);
            Ok(())
        }
        Err(back) => {
            let (taken, error) = back;
            query.taken = Some(taken);
            Err(error)
        }
    }
}
