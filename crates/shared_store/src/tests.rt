//! Calls of a root and of passes on one store.
ghost use Rattle.std.specs.Prelude.{◌≡◌, ◌<◌, ◌≤◌, ◌^◌, length};
ghost use Rattle.turn_book.specs.Seats.{book_id, pass_book, root_book};

use super::*;
use event_batch::{Packed, Steps, unpack};
use history_core::{AcceptEnd, Accepted, LeaveEnd, Limits, Mode, RegisterEnd, Store};
use partition::{Fragment, Sealed};
use query_meaning::Expr;
use sqlite_items::Items;
use std::alloc::Global;
use std::marker::Brand;
use std::sync::ledger::{Blank, Ledger};
use std::sync::{Arc, Wait};
use std::test::Fail;
use vast_value::Bytes;

// A batch of one event.
const ONE_EVENT: [u8; 26] = [
    2, 1, 0, 0, 0, 1, 0, 0, 0, b'd', 1, 0, 9, 1, 0, 0, 0, b'p', 1, 0, 0, 0, 1, 53, 0, 0,
];

const LIMITS: Limits = Limits {
    rows: 2,
    queries: 1,
    group: 2,
    inbox: 2,
};

fn one_event(alloc: Global) -> Result<Packed, Fail> {
    match Packed::read(alloc, Bytes::copy(alloc, &ONE_EVENT)?) {
        Ok(packed) => Ok(packed),
        Err(_) => Err("not read".into()),
    }
}

fn accept<R: Wait>(
    rt: &R,
    alloc: Global,
    vast: &Vast,
    pass: &mut Pass,
) -> Result<Result<Accepted, AcceptEnd>, Fail>
    requires { pass_book pass.old ≡ book_id vast.now.book }
    ensures { pass_book pass.new ≡ book_id vast.now.book }
{
    match vast.accept(rt, pass, one_event(alloc)?) {
        Ok(accepted) => Ok(Ok(accepted)),
        Err((_, end)) => Ok(Err(end)),
    }
}

// Claims and indexes a batch, and says which; or tells that there was none.
fn index_next<L: Ledger, R: Wait>(
    rt: &R,
    alloc: Global,
    vast: &Vast,
    pass: &mut Pass,
    blank: Blank,
) -> Result<Option<u64>, Fail>
    requires name { blank.name ≡ L.name }
    requires parts { blank.parts ≡ L.parts }
    requires some { 0 < L.parts }
    requires book { pass_book pass.old ≡ book_id vast.now.book }
    ensures { pass_book pass.new ≡ book_id vast.now.book }
{
    let Some(claim) = vast.claim(rt, pass)? else {
        return Ok(None);
    };
    let batch = claim.batch;
    let mut steps = Steps::<L>::new(blank);
    let rows = unpack(alloc, &claim.packed, &mut steps)?;
    let fragment = Fragment::build(alloc, batch, claim.first, &rows)?;
    let Ok(fragment) = Arc::new(alloc, fragment) else {
        return Err("no memory".into());
    };
    match vast.publish(rt, pass, claim, fragment) {
        Ok(()) => Ok(Some(batch)),
        Err(_) => Err("not published".into()),
    }
}

fn index_one<R: Wait>(
    rt: &R,
    alloc: Global,
    vast: &Vast,
    pass: &mut Pass,
) -> Result<Option<u64>, Fail>
    requires { pass_book pass.old ≡ book_id vast.now.book }
    ensures { pass_book pass.new ≡ book_id vast.now.book }
{
    index_next::<Brand, _>(rt, alloc, vast, pass, Blank::new(1))
}

#[test]
fn a_batch_that_a_pass_accepted_is_claimed_once(rt: HostRuntime) -> Result<(), Fail> {
    let alloc = rt.alloc();
    let (vast, mut root) = Vast::new(alloc, Store::new(alloc, LIMITS))?;
    let mut pass = vast.split(&mut root)?;
    let Ok(accepted) = vast.accept(&rt, &mut pass, one_event(alloc)?) else {
        return Err("not accepted".into());
    };
    assert_eq!(rt; (accepted.batch, accepted.first), (0, 0));
    let Some(claim) = vast.claim(&rt, &mut pass)? else {
        return Err("nothing to claim".into());
    };
    assert_eq!(rt; claim.batch, 0);
    assert!(rt; vast.claim(&rt, &mut pass)?.is_none());
    Ok(())
}

#[test]
fn a_claim_lost_with_its_pass_is_indexed_behind_the_close(rt: HostRuntime) -> Result<(), Fail> {
    let alloc = rt.alloc();
    let (vast, mut root) = Vast::new(alloc, Store::new(alloc, LIMITS))?;
    let mut pass = vast.split(&mut root)?;
    let accepted = accept(&rt, alloc, &vast, &mut pass)?;
    assert_eq!(rt; accepted, Ok(Accepted { batch: 0, first: 0 }));
    assert!(rt; vast.claim(&rt, &mut pass)?.is_some());
    vast.join(&mut root, pass);
    assert!(rt; vast.claim(&rt, &mut root)?.is_none());
    let store = vast.close(root);
    assert_eq!(rt; (store.batches(), store.indexed(0)), (1, false));
    assert!(rt; store.claim_for(0).is_ok());
    Ok(())
}

// Merges and publishes the next group, and says which; or tells that there was none.
fn seal_next<R: Wait>(
    rt: &R,
    alloc: Global,
    vast: &Vast,
    pass: &mut Pass,
) -> Result<Option<u64>, Fail>
    requires { pass_book pass.old ≡ book_id vast.now.book }
    ensures { pass_book pass.new ≡ book_id vast.now.book }
{
    let Some(group) = vast.claim_group(rt, pass)? else {
        return Ok(None);
    };
    let number = group.number;
    let sealed = Arc::new(alloc, Sealed::merge(alloc, group.fragments.as_slice())?)?;
    match vast.publish_group(rt, pass, group, sealed) {
        Ok(()) => Ok(Some(number)),
        Err(_) => Err("not sealed".into()),
    }
}

#[test]
fn batches_are_indexed_and_sealed_once_and_no_more_than_fit(rt: HostRuntime) -> Result<(), Fail> {
    let alloc = rt.alloc();
    let (vast, mut root) = Vast::new(alloc, Store::new(alloc, LIMITS))?;
    let mut pass = vast.split(&mut root)?;
    assert!(rt; accept(&rt, alloc, &vast, &mut pass)?.is_ok());
    assert!(rt; accept(&rt, alloc, &vast, &mut pass)?.is_ok());
    let full = AcceptEnd::Full { have: 2, limit: 2 };
    assert_eq!(rt; accept(&rt, alloc, &vast, &mut pass)?, Err(full));
    let first = index_one(&rt, alloc, &vast, &mut pass)?;
    assert_eq!(rt; seal_next(&rt, alloc, &vast, &mut pass)?, None);
    let second = index_one(&rt, alloc, &vast, &mut pass)?;
    assert_eq!(rt; (first, second), (Some(0), Some(1)));
    assert_eq!(rt; seal_next(&rt, alloc, &vast, &mut pass)?, Some(0));
    assert_eq!(rt; seal_next(&rt, alloc, &vast, &mut pass)?, None);
    Ok(())
}

#[test]
fn a_query_is_told_what_another_pass_accepted_until_it_leaves(rt: HostRuntime) -> Result<(), Fail> {
    let alloc = rt.alloc();
    let (vast, mut root) = Vast::new(alloc, Store::new(alloc, LIMITS))?;
    let mut writes = vast.split(&mut root)?;
    let mut reads = vast.split(&mut root)?;
    let all = Expr::And(Items::new(alloc));
    let Ok(session) = vast.register(&rt, &mut reads, Mode::Coming, all) else {
        return Err("not registered".into());
    };
    let query = session.query();
    assert!(rt; accept(&rt, alloc, &vast, &mut writes)?.is_ok());
    let Ok(taken) = vast.take(&rt, &mut reads, session) else {
        return Err("not taken".into());
    };
    assert_eq!(rt; (taken.query(), taken.live()), (1, (0, 1)));
    assert_eq!(rt; vast.leave(&rt, &mut reads, query), Ok(()));
    assert_eq!(rt;
        vast.leave(&rt, &mut reads, query),
        Err(LeaveEnd::Left { query: 1 })
    );
    let more = Expr::And(Items::new(alloc));
    let Err((_, end)) = vast.register(&rt, &mut root, Mode::Past, more) else {
        return Err("registered".into());
    };
    assert_eq!(rt; end, RegisterEnd::TooMany { limit: 1 });
    Ok(())
}
