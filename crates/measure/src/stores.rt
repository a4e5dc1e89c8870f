//! A store of many batches of one row, each of which is accepted, claimed, indexed, and taken by some queries.
ghost use Rattle.std.specs.Prelude.{◌≡◌, ◌<◌};

use event_batch::{Batch, Packed, Rows, Steps, encode};
use history_core::{Limits, Mode, Session, Store};
use indexer::index_claim;
use query_meaning::Expr;
use sqlite_items::Items;
use std::alloc::Global;
use std::marker::Brand;
use std::sync::ledger::{Blank, Ledger};
use std::time::{Clock, Instant};
use vast_value::{Bytes, Cell, Column, Columns, Elem, Kind, Layout, Row, Value};

/// The nanoseconds that the calls of some batches took.
#[derive(Clone, Copy)]
pub struct Spent {
    pub accept: u128,
    pub claim: u128,
    pub publish: u128,
    /// A take of each query after each batch.
    pub take: u128,
}

/// The times of the first tenth of so many batches and of the last, each taken by so many queries; `None` where a call
/// answered otherwise than it should.
pub fn measure<R: Clock>(
    rt: &R,
    alloc: Global,
    batches: u32,
    queries: u32,
) -> anyhow::Result<Option<(Spent, Spent)>> {
    measure_counted::<R, Brand>(rt, alloc, Blank::new(1), batches, queries)
}

fn measure_counted<R: Clock, L: Ledger>(
    rt: &R,
    alloc: Global,
    blank: Blank,
    batches: u32,
    queries: u32,
) -> anyhow::Result<Option<(Spent, Spent)>>
    requires name { blank.name ≡ L.name }
    requires parts { blank.parts ≡ L.parts }
    requires some { 0 < L.parts }
{
    let mut steps = Steps::<L>::new(blank);
    let Some(packed) = one_row(alloc)? else {
        return Ok(None);
    };
    let limits = Limits {
        rows: u64::from(batches),
        queries,
        group: 16,
        inbox: 64,
    };
    let mut store = Store::new(alloc, limits);
    let Some(mut sessions) = register_all(alloc, &mut store, queries)? else {
        return Ok(None);
    };
    let tenth = batches / 10;
    let first = run(
        rt,
        alloc,
        &mut store,
        &packed,
        &mut sessions,
        tenth,
        &mut steps,
    )?;
    let between = batches - tenth - tenth;
    let _between = run(
        rt,
        alloc,
        &mut store,
        &packed,
        &mut sessions,
        between,
        &mut steps,
    )?;
    let last = run(
        rt,
        alloc,
        &mut store,
        &packed,
        &mut sessions,
        tenth,
        &mut steps,
    )?;
    match (first, last) {
        (Some(first), Some(last)) => Ok(Some((first, last))),
        _ => Ok(None),
    }
}

// A batch of one row with one number.
fn one_row(alloc: Global) -> anyhow::Result<Option<Packed>> {
    let mut columns = Columns::new(alloc);
    columns.push(Column {
        name: Bytes::copy(alloc, b"n".as_slice())?,
        kind: Kind::One(Elem::Count),
    })?;
    let Ok(layout) = Layout::new(Bytes::copy(alloc, b"d".as_slice())?, columns) else {
        return Ok(None);
    };
    let mut row = Row::new(alloc);
    row.push(Cell::One(Value::Count(7)))?;
    let mut rows = Rows::new(alloc);
    rows.push(row)?;
    match Batch::new(1, layout, rows) {
        Some(batch) => Ok(Some(encode(alloc, &batch)?)),
        None => Ok(None),
    }
}

// Queries of all events.
fn register_all(
    alloc: Global,
    store: &mut Store,
    queries: u32,
) -> anyhow::Result<Option<Vec<Option<Session>>>> {
    let mut sessions = Vec::new(alloc);
    for _query in 0..queries {
        match store.register(0, Mode::Both, Expr::And(Items::new(alloc))) {
            Ok(session) => sessions.push(Some(session))?,
            Err(_) => return Ok(None),
        }
    }
    Ok(Some(sessions))
}

// So many batches more.
fn run<R: Clock, L: Ledger>(
    rt: &R,
    alloc: Global,
    store: &mut Store,
    packed: &Packed,
    sessions: &mut Vec<Option<Session>>,
    batches: u32,
    steps: &mut Steps<L>,
) -> anyhow::Result<Option<Spent>> {
    let mut spent = Spent {
        accept: 0,
        claim: 0,
        publish: 0,
        take: 0,
    };
    for _batch in 0..batches {
        let Some(one) = add(rt, alloc, store, packed.share()?, steps)? else {
            return Ok(None);
        };
        let start = Instant::now(rt)?;
        for at in 0..sessions.len() {
            if !take(store, &mut sessions[at]) {
                return Ok(None);
            }
        }
        spent.accept = spent.accept.saturating_add(one.accept);
        spent.claim = spent.claim.saturating_add(one.claim);
        spent.publish = spent.publish.saturating_add(one.publish);
        spent.take = spent.take.saturating_add(start.elapsed(rt)?.as_nanos());
    }
    Ok(Some(spent))
}

// One batch more, indexed.
fn add<R: Clock, L: Ledger>(
    rt: &R,
    alloc: Global,
    store: &mut Store,
    packed: Packed,
    steps: &mut Steps<L>,
) -> anyhow::Result<Option<Spent>> {
    let start = Instant::now(rt)?;
    if store.accept(0, packed).is_err() {
        return Ok(None);
    }
    let accept = start.elapsed(rt)?.as_nanos();
    let start = Instant::now(rt)?;
    let Some(claim) = store.claim(0)? else {
        return Ok(None);
    };
    let claimed = start.elapsed(rt)?.as_nanos();
    let fragment = index_claim(alloc, &claim, steps)?;
    let start = Instant::now(rt)?;
    if store.publish(0, claim, fragment).is_err() {
        return Ok(None);
    }
    let publish = start.elapsed(rt)?.as_nanos();
    Ok(Some(Spent {
        accept,
        claim: claimed,
        publish,
        take: 0,
    }))
}

// A take of a query, whose session stays where it was.
fn take(store: &mut Store, session: &mut Option<Session>) -> bool {
    let Some(taker) = session.take() else {
        return false;
    };
    if !store.is_registered(taker.query()) {
        return false;
    }
    match store.take(0, taker) {
        Ok(taken) => {
            *session = Some(taken.settle());
            true
        }
        Err(_) => false,
    }
}
