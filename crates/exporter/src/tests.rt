//! Pages of a small store, whose first batch has an index and whose second has none.
ghost use Rattle.std.specs.Prelude.{◌≡◌, ◌<◌, ◌≤◌, ◌^◌, length};

use super::*;
use archive_cache::Cache;
use event_batch::{Batch, Packed, Rows, Steps, encode, unpack};
use history_core::{Limits, Mode, Session, Store, Taken};
use partition::Fragment;
use query_meaning::Expr;
use query_parse::parse;
use std::alloc::{AllocError, Global};
use std::marker::Brand;
use std::sync::Arc;
use std::sync::ledger::{Blank, Ledger};
use std::test::Fail;
use vast_value::{Bytes, Cell, Cells, Column, Columns, Elem, Kind, Layout, Row, Value};

const LIMITS: Limits = Limits {
    rows: 6,
    queries: 8,
    group: 2,
    inbox: 2,
};

/// A row of a text and a set of one number.
fn row(alloc: Global, text: &[u8], number: u64) -> Result<Row, AllocError>
    requires { length text.now ≤ 2 ^ 24 }
{
    let mut cells = Cells::new(alloc);
    cells.push(Some(Value::Count(number)))?;
    let mut row = Row::new(alloc);
    row.push(Cell::One(Value::Text(Bytes::copy(alloc, text)?)))?;
    row.push(Cell::Many(cells))?;
    Ok(row)
}

fn layout(alloc: Global) -> Result<Layout, Fail> {
    let mut columns = Columns::new(alloc);
    columns.push(Column {
        name: Bytes::copy(alloc, b"s")?,
        kind: Kind::One(Elem::Text),
    })?;
    columns.push(Column {
        name: Bytes::copy(alloc, b"c")?,
        kind: Kind::SetOf(Elem::Count),
    })?;
    match Layout::new(Bytes::copy(alloc, b"d")?, columns) {
        Ok(layout) => Ok(layout),
        Err(_) => Err("no layout".into()),
    }
}

/// Two texts that an index can't tell apart, a shorter one, and two numbers that share a bucket.
fn batch(alloc: Global) -> Result<Packed, Fail> {
    let mut rows = Rows::new(alloc);
    rows.push(row(alloc, b"abcdefgh", 1)?)?;
    rows.push(row(alloc, b"abcdefghi", 2)?)?;
    rows.push(row(alloc, b"abcdefghj", 65)?)?;
    match Batch::new(1, layout(alloc)?, rows) {
        Some(batch) => Ok(encode(alloc, &batch)?),
        None => Err("no batch".into()),
    }
}

fn accept(alloc: Global, store: &mut Store) -> Result<(), Fail> {
    match store.accept(0, batch(alloc)?) {
        Ok(_) => Ok(()),
        Err(_) => Err("not accepted".into()),
    }
}

fn index_next<L: Ledger>(alloc: Global, store: &mut Store, blank: Blank) -> Result<(), Fail>
    requires name { blank.name ≡ L.name }
    requires parts { blank.parts ≡ L.parts }
    requires some { 0 < L.parts }
{
    let Some(claim) = store.claim(0)? else {
        return Err("nothing to claim".into());
    };
    let mut steps = Steps::<L>::new(blank);
    let batch = unpack(alloc, &claim.packed, &mut steps)?;
    let fragment = Fragment::build(alloc, claim.batch, claim.first, &batch)?;
    match store.publish(0, claim, Arc::new(alloc, fragment)?) {
        Ok(()) => Ok(()),
        Err(_) => Err("not published".into()),
    }
}

fn index_one(alloc: Global, store: &mut Store) -> Result<(), Fail> {
    index_next::<Brand>(alloc, store, Blank::new(1))
}

fn query(alloc: Global, text: &str) -> Result<Expr, Fail> {
    match parse(alloc, text) {
        Ok(expr) => Ok(expr),
        Err(_) => Err("no query".into()),
    }
}

/// The page of a snapshot, with a cache that keeps nothing yet.
fn finished<L: Ledger>(alloc: Global, taken: Taken, blank: Blank) -> Result<Page, Fail>
    requires name { blank.name ≡ L.name }
    requires parts { blank.parts ≡ L.parts }
    requires some { 0 < L.parts }
{
    let mut cache = Cache::new(alloc, 2)?;
    let mut steps = Steps::<L>::new(blank);
    match finish(alloc, taken, &mut cache, &mut steps) {
        Ok((_, page)) => Ok(page),
        Err(_) => Err("no memory".into()),
    }
}

fn page_of(alloc: Global, taken: Taken) -> Result<Page, Fail> {
    finished::<Brand>(alloc, taken, Blank::new(1))
}

/// For each of the ids below 6, whether it was found.
fn found(alloc: Global, page: &Page) -> Result<String, AllocError> {
    let mut text = String::new(alloc);
    for id in 0..6 {
        let there = page.found.as_slice().iter().any(|found| found.id == id);
        text.push(if there { '1' } else { '0' })?;
    }
    Ok(text)
}

/// A take of a query that registered before other calls: one more query registers first, and has no lesser number.
fn take_again(alloc: Global, store: &mut Store, session: Session) -> Result<Taken, Fail> {
    let Ok(newest) = store.register(0, Mode::Coming, query(alloc, "c ni 1")?) else {
        return Err("not registered".into());
    };
    if session.query() == 0 || session.query() > newest.query() {
        return Err("not of this store".into());
    }
    match store.take(0, session) {
        Ok(taken) => Ok(taken),
        Err(_) => Err("not taken".into()),
    }
}

#[test]
fn past_events_are_looked_at_where_no_index_decides(rt: HostRuntime) -> Result<(), Fail> {
    let alloc = rt.alloc();
    let mut store = Store::new(alloc, LIMITS);
    accept(alloc, &mut store)?;
    index_one(alloc, &mut store)?;
    accept(alloc, &mut store)?;
    let pages = [
        ("s == \"abcdefgh\"", "100000", 0, 1),
        ("s == \"abcdefghi\"", "010000", 2, 1),
        ("! (s == \"abcdefghi\")", "101000", 2, 1),
        ("c ni 1", "100000", 2, 1),
        ("s == \"x\"", "000000", 0, 0),
    ];
    for (text, ids, checked, touched) in pages {
        let Ok(session) = store.register(0, Mode::Past, query(alloc, text)?) else {
            return Err("not registered".into());
        };
        let Ok(taken) = store.take(0, session) else {
            return Err("not taken".into());
        };
        let page = page_of(alloc, taken)?;
        assert_eq!(rt; (page.past_to, page.again), (3, Some(1)));
        assert_eq!(rt; found(alloc, &page)?.as_str(), ids);
        assert_eq!(rt;
            (page.checked, page.touched, page.loads),
            (checked, touched, touched)
        );
    }
    Ok(())
}

#[test]
fn live_events_are_all_looked_at(rt: HostRuntime) -> Result<(), Fail> {
    let alloc = rt.alloc();
    let mut store = Store::new(alloc, LIMITS);
    accept(alloc, &mut store)?;
    let Ok(session) = store.register(0, Mode::Both, query(alloc, "s == \"abcdefghj\"")?) else {
        return Err("not registered".into());
    };
    accept(alloc, &mut store)?;
    let taken = take_again(alloc, &mut store, session)?;
    let page = page_of(alloc, taken)?;
    assert_eq!(rt; (page.past_to, page.live_to, page.again), (0, 6, Some(0)));
    assert_eq!(rt; found(alloc, &page)?.as_str(), "000001");
    assert_eq!(rt; (page.checked, page.touched, page.loads), (3, 1, 1));
    Ok(())
}
