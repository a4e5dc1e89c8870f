//! A worker's share of indexing, merging and paging.
ghost use Rattle.std.specs.Prelude.{◌≡◌, ◌<◌};
ghost use Rattle.turn_book.specs.Seats.{book_id, pass_book};

use super::*;
use archive_cache::Cache;
use event_batch::{Packed, Steps};
use history_core::{Limits, Mode, Store};
use importer::{How, Import};
use query_meaning::{Expr, Literal, Pick, Rel, Test};
use shared_store::{Pass, Vast};
use std::alloc::Global;
use std::marker::Brand;
use std::sync::Wait;
use std::sync::ledger::{Blank, Ledger};
use std::test::Fail;
use vast_io::{MemSource, OpenGate};
use vast_value::{Bytes, Elem, Transport, Value};

// A batch of one event.
const ONE_EVENT: [u8; 26] = [
    2, 1, 0, 0, 0, 1, 0, 0, 0, b'd', 1, 0, 9, 1, 0, 0, 0, b'p', 1, 0, 0, 0, 1, 53, 0, 0,
];

const LIMITS: Limits = Limits {
    rows: 2,
    queries: 1,
    group: 2,
    inbox: 2,
};

fn accept_one<R: Wait>(rt: &R, alloc: Global, vast: &Vast, pass: &mut Pass) -> Result<(), Fail>
    requires { pass_book pass.old ≡ book_id vast.now.book }
    ensures { pass_book pass.new ≡ book_id vast.now.book }
{
    let Ok(packed) = Packed::read(alloc, Bytes::copy(alloc, &ONE_EVENT)?) else {
        return Err("not read".into());
    };
    match vast.accept(rt, pass, packed) {
        Ok(_) => Ok(()),
        Err(_) => Err("not accepted".into()),
    }
}

fn index_with<L: Ledger, R: Wait>(
    rt: &R,
    alloc: Global,
    vast: &Vast,
    pass: &mut Pass,
    blank: Blank,
) -> Result<bool, Fail>
    requires name { blank.name ≡ L.name }
    requires parts { blank.parts ≡ L.parts }
    requires some { 0 < L.parts }
    requires book { pass_book pass.old ≡ book_id vast.now.book }
    ensures { pass_book pass.new ≡ book_id vast.now.book }
{
    let mut steps = Steps::<L>::new(blank);
    Ok(index_one(rt, alloc, vast, pass, &OpenGate, 0, 0, &mut steps)?)
}

fn index_next<R: Wait>(rt: &R, alloc: Global, vast: &Vast, pass: &mut Pass) -> Result<bool, Fail>
    requires { pass_book pass.old ≡ book_id vast.now.book }
    ensures { pass_book pass.new ≡ book_id vast.now.book }
{
    index_with::<Brand, _>(rt, alloc, vast, pass, Blank::new(1))
}

#[test]
fn each_batch_is_indexed_once_and_a_full_group_merged_once(rt: HostRuntime) -> Result<(), Fail> {
    let alloc = rt.alloc();
    let (vast, mut root) = Vast::new(alloc, Store::new(alloc, LIMITS))?;
    let mut pass = vast.split(&mut root)?;
    accept_one(&rt, alloc, &vast, &mut pass)?;
    accept_one(&rt, alloc, &vast, &mut pass)?;
    assert!(rt; index_next(&rt, alloc, &vast, &mut pass)?);
    assert!(rt; !seal_one(&rt, alloc, &vast, &mut pass, &OpenGate, 0, 0)?);
    assert!(rt; index_next(&rt, alloc, &vast, &mut pass)?);
    assert!(rt; !index_next(&rt, alloc, &vast, &mut pass)?);
    assert!(rt; seal_one(&rt, alloc, &vast, &mut pass, &OpenGate, 0, 0)?);
    assert!(rt; !seal_one(&rt, alloc, &vast, &mut pass, &OpenGate, 0, 0)?);
    Ok(())
}

// The events with port 53.
fn port_53() -> Expr {
    Expr::Test(Test {
        pick: Pick::OfKind(Elem::Port),
        rel: Rel::Eq,
        literal: Literal::Of(Value::Port {
            number: 53,
            over: Transport::Unknown,
        }),
    })
}

// How many events the next two pages tell together, the first one all of them, and where the past part is told to.
fn two_pages<L: Ledger, R: Wait>(
    rt: &R,
    alloc: Global,
    vast: &Vast,
    pass: &mut Pass,
    blank: Blank,
) -> Result<(usize, u64, Option<u64>), Fail>
    requires name { blank.name ≡ L.name }
    requires parts { blank.parts ≡ L.parts }
    requires some { 0 < L.parts }
    requires book { pass_book pass.old ≡ book_id vast.now.book }
    ensures { pass_book pass.new ≡ book_id vast.now.book }
{
    let Ok(session) = vast.register(rt, pass, Mode::Both, port_53()) else {
        return Err("not registered".into());
    };
    let mut query = QueryEnd {
        label: Bytes::new(alloc),
        session: Some(session),
        taken: None,
        too_many: None,
        pages: Vec::new(alloc),
    };
    let mut cache = Cache::new(alloc, 1)?;
    let mut steps = Steps::<L>::new(blank);
    page_one(
        rt, alloc, vast, pass, &OpenGate, 0, 0, &mut cache, &mut steps, &mut query,
    )?;
    page_one(
        rt, alloc, vast, pass, &OpenGate, 0, 1, &mut cache, &mut steps, &mut query,
    )?;
    match query.pages.as_slice() {
        [first, second] if second.found.as_slice().is_empty() => {
            Ok((first.found.as_slice().len(), first.past_to, first.again))
        }
        _ => Err("other pages".into()),
    }
}

#[test]
fn a_query_is_told_the_indexed_past_once(rt: HostRuntime) -> Result<(), Fail> {
    let alloc = rt.alloc();
    let (vast, mut root) = Vast::new(alloc, Store::new(alloc, LIMITS))?;
    let mut pass = vast.split(&mut root)?;
    accept_one(&rt, alloc, &vast, &mut pass)?;
    accept_one(&rt, alloc, &vast, &mut pass)?;
    assert!(rt; index_next(&rt, alloc, &vast, &mut pass)?);
    let told = two_pages::<Brand, _>(&rt, alloc, &vast, &mut pass, Blank::new(1))?;
    assert_eq!(rt; told, (1, 1, Some(1)));
    Ok(())
}

// The rows accepted of a log by two readings, and how it went after each.
fn read_twice<R: Wait>(
    rt: &R,
    alloc: Global,
    vast: &Vast,
    pass: &mut Pass,
    log: MemSource,
) -> (u64, How, How)
    requires { pass_book pass.old ≡ book_id vast.now.book }
    ensures { pass_book pass.new ≡ book_id vast.now.book }
{
    let mut feeds = [Feed {
        number: 1,
        import: Import::start(alloc, 1, 2, log),
        rows: 0,
        how: How::Unread,
    }];
    let _read = read_one(rt, alloc, vast, pass, &mut feeds);
    let first = feeds[0].how;
    let _read = read_one(rt, alloc, vast, pass, &mut feeds);
    (feeds[0].rows, first, feeds[0].how)
}

fn read_log<R: Wait>(rt: &R, alloc: Global, log: Bytes) -> Result<(u64, How, How), Fail> {
    let log = MemSource::new(log, 1000, Vec::new(alloc));
    let (vast, mut root) = Vast::new(alloc, Store::new(alloc, LIMITS))?;
    let mut pass = vast.split(&mut root)?;
    Ok(read_twice(rt, alloc, &vast, &mut pass, log))
}

#[test]
fn a_source_is_read_a_batch_at_a_time_up_to_its_end_or_the_limit(
    rt: HostRuntime,
) -> Result<(), Fail> {
    let alloc = rt.alloc();
    let one = read_log(
        &rt,
        alloc,
        Bytes::copy(alloc, b"#path\td\n#fields\tp\n#types\tport\n53\n")?,
    )?;
    assert_eq!(rt; one, (1, How::Unread, How::Done));
    let three = read_log(
        &rt,
        alloc,
        Bytes::copy(alloc, b"#path\td\n#fields\tp\n#types\tport\n53\n53\n53\n")?,
    )?;
    assert_eq!(rt; three, (2, How::Unread, How::Full { have: 2, limit: 2 }));
    Ok(())
}

fn both(alloc: Global) -> Query {
    Query {
        expr: Some(port_53()),
        end: QueryEnd {
            label: Bytes::new(alloc),
            session: None,
            taken: None,
            too_many: None,
            pages: Vec::new(alloc),
        },
    }
}

// The limit that refused each of two queries, and what is left to register of them.
fn register_two<R: Wait>(
    rt: &R,
    alloc: Global,
    vast: &Vast,
    pass: &mut Pass,
) -> Result<[(Option<u32>, bool); 2], Fail>
    requires { pass_book pass.old ≡ book_id vast.now.book }
{
    let mut queries = [both(alloc), both(alloc)];
    register_all(rt, vast, pass, &mut queries)?;
    Ok([
        (queries[0].end.too_many, queries[0].expr.is_some()),
        (queries[1].end.too_many, queries[1].expr.is_some()),
    ])
}

#[test]
fn no_more_queries_are_registered_than_the_limit(rt: HostRuntime) -> Result<(), Fail> {
    let alloc = rt.alloc();
    let (vast, mut root) = Vast::new(alloc, Store::new(alloc, LIMITS))?;
    let mut pass = vast.split(&mut root)?;
    let refused = register_two(&rt, alloc, &vast, &mut pass)?;
    assert_eq!(rt; refused, [(None, false), (Some(1), false)]);
    Ok(())
}
