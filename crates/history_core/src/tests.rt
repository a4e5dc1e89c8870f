//! Written interleavings.
ghost use Rattle.std.specs.Prelude.{◌≡◌, ◌<◌, ◌≤◌, ◌^◌, length};

use super::*;
use event_batch::{Packed, Steps, unpack};
use partition::{Fragment, Part, Sealed};
use query_meaning::Expr;
use sqlite_items::Items;
use std::alloc::Global;
use std::marker::Brand;
use std::sync::Arc;
use std::sync::ledger::{Blank, Ledger};
use std::test::Fail;
use vast_value::Bytes;

// A batch of one event.
const ONE_EVENT: [u8; 26] = [
    2, 1, 0, 0, 0, 1, 0, 0, 0, b'd', 1, 0, 9, 1, 0, 0, 0, b'p', 1, 0, 0, 0, 1, 53, 0, 0,
];

// A batch of three events.
const THREE_EVENTS: [u8; 34] = [
    2, 1, 0, 0, 0, 1, 0, 0, 0, b'd', 1, 0, 9, 1, 0, 0, 0, b'p', 3, 0, 0, 0, 1, 53, 0, 0, 1, 53, 0,
    0, 1, 53, 0, 0,
];

const LIMITS: Limits = Limits {
    rows: 3,
    queries: 8,
    group: 2,
    inbox: 2,
};

fn accept(alloc: Global, store: &mut Store, bytes: &[u8]) -> Result<(), Fail>
    requires { length bytes.now ≤ 2 ^ 24 }
{
    let Ok(packed) = Packed::read(alloc, Bytes::copy(alloc, bytes)?) else {
        return Err("not read".into());
    };
    match store.accept(0, packed) {
        Ok(_) => Ok(()),
        Err(_) => Err("not accepted".into()),
    }
}

fn index_next<L: Ledger>(alloc: Global, store: &mut Store, blank: Blank) -> Result<(), Fail>
    requires name { blank.name ≡ L.name }
    requires parts { blank.parts ≡ L.parts }
    requires some { 0 < L.parts }
{
    let Some(claim) = store.claim(0)? else {
        return Err("nothing to claim".into());
    };
    let mut steps = Steps::<L>::new(blank);
    let batch = unpack(alloc, &claim.packed, &mut steps)?;
    let Ok(fragment) = Arc::new(
        alloc,
        Fragment::build(alloc, claim.batch, claim.first, &batch)?,
    ) else {
        return Err("no memory".into());
    };
    match store.publish(0, claim, fragment) {
        Ok(()) => Ok(()),
        Err(_) => Err("not published".into()),
    }
}

fn register(alloc: Global, store: &mut Store, mode: Mode) -> Result<Session, Fail> {
    match store.register(0, mode, Expr::And(Items::new(alloc))) {
        Ok(session) => Ok(session),
        Err(_) => Err("not registered".into()),
    }
}

fn take_again(store: &mut Store, session: Session) -> Result<Taken, Fail> {
    if !store.is_registered(session.query()) {
        return Err("not of this store".into());
    }
    match store.take(0, session) {
        Ok(taken) => Ok(taken),
        Err(_) => Err("not taken".into()),
    }
}

fn index_one(alloc: Global, store: &mut Store) -> Result<(), Fail> {
    index_next::<Brand>(alloc, store, Blank::new(1))
}

#[test]
fn each_mode_stops_at_the_batch_without_an_index(rt: HostRuntime) -> Result<(), Fail> {
    let alloc = rt.alloc();
    let mut store = Store::new(alloc, LIMITS);
    accept(alloc, &mut store, &ONE_EVENT)?;
    accept(alloc, &mut store, &ONE_EVENT)?;
    index_one(alloc, &mut store)?;
    let pages = [
        (Mode::Past, (0, 1), (2, 2), Some(1)),
        (Mode::Coming, (2, 2), (2, 2), None),
        (Mode::Both, (0, 1), (2, 2), Some(1)),
        (Mode::Since { from: 1 }, (1, 1), (2, 2), Some(1)),
    ];
    for (mode, past, live, again) in pages {
        let Ok(session) = store.register(0, mode, Expr::And(Items::new(alloc))) else {
            return Err("not registered".into());
        };
        let Ok(taken) = store.take(0, session) else {
            return Err("not taken".into());
        };
        assert_eq!(rt;
            (taken.past(), taken.live(), taken.again()),
            (past, live, again)
        );
    }
    Ok(())
}

#[test]
fn a_claim_given_back_is_handed_out_again(rt: HostRuntime) -> Result<(), Fail> {
    let alloc = rt.alloc();
    let mut store = Store::new(alloc, LIMITS);
    accept(alloc, &mut store, &ONE_EVENT)?;
    accept(alloc, &mut store, &ONE_EVENT)?;
    let Some(claim) = store.claim(0)? else {
        return Err("nothing to claim".into());
    };
    let given_back = claim.batch;
    if store.unclaim(0, claim).is_err() {
        return Err("not given back".into());
    }
    let Some(again) = store.claim(0)? else {
        return Err("nothing to claim again".into());
    };
    let Some(next) = store.claim(0)? else {
        return Err("nothing to claim next".into());
    };
    assert_eq!(rt; (given_back, again.batch, next.batch), (0, 0, 1));
    Ok(())
}

#[test]
fn a_query_that_left_is_told_so_and_another_goes_on(rt: HostRuntime) -> Result<(), Fail> {
    let alloc = rt.alloc();
    let mut store = Store::new(alloc, LIMITS);
    let stays = register(alloc, &mut store, Mode::Coming)?;
    accept(alloc, &mut store, &ONE_EVENT)?;
    let Ok(leaves) = store.register(0, Mode::Coming, Expr::And(Items::new(alloc))) else {
        return Err("not registered".into());
    };
    let query = leaves.query;
    assert_eq!(rt; store.leave(0, query), Ok(()));
    assert_eq!(rt; store.leave(0, query), Err(LeaveEnd::Left { query: 2 }));
    let Err((_, end)) = store.take(0, leaves) else {
        return Err("taken".into());
    };
    assert_eq!(rt; end, TakeEnd::Left { query: 2 });
    let taken = take_again(&mut store, stays)?;
    assert_eq!(rt; (taken.query(), taken.live()), (1, (0, 1)));
    Ok(())
}

#[test]
fn a_take_goes_on_where_the_last_one_stopped(rt: HostRuntime) -> Result<(), Fail> {
    let alloc = rt.alloc();
    let rows = [
        (Mode::Both, (0, 0), (3, 3), (0, 3)),
        (Mode::Since { from: 1 }, (1, 1), (3, 3), (1, 3)),
    ];
    for (mode, stopped, live, rest) in rows {
        let mut store = Store::new(alloc, LIMITS);
        accept(alloc, &mut store, &THREE_EVENTS)?;
        let session = register(alloc, &mut store, mode)?;
        let taken = take_again(&mut store, session)?;
        assert_eq!(rt;
            (taken.past(), taken.live(), taken.again()),
            (stopped, live, Some(0))
        );
        index_one(alloc, &mut store)?;
        let taken = take_again(&mut store, taken.settle())?;
        assert_eq!(rt;
            (taken.past(), taken.live(), taken.again()),
            (rest, live, None)
        );
    }
    Ok(())
}

fn seal_two(alloc: Global, store: &mut Store) -> Result<(), Fail> {
    let Some(group) = store.claim_group()? else {
        return Err("no group".into());
    };
    let sealed = Arc::new(alloc, Sealed::merge(alloc, group.fragments.as_slice())?)?;
    match store.publish_group(0, group, sealed) {
        Ok(()) => Ok(()),
        Err(_) => Err("not sealed".into()),
    }
}

#[test]
fn a_group_sealed_between_two_takes_is_one_part(rt: HostRuntime) -> Result<(), Fail> {
    let alloc = rt.alloc();
    let mut store = Store::new(alloc, LIMITS);
    accept(alloc, &mut store, &ONE_EVENT)?;
    accept(alloc, &mut store, &ONE_EVENT)?;
    index_one(alloc, &mut store)?;
    index_one(alloc, &mut store)?;
    let first = register(alloc, &mut store, Mode::Past)?;
    let second = register(alloc, &mut store, Mode::Past)?;
    let taken = take_again(&mut store, first)?;
    assert_eq!(rt; taken.parts().len(), 2);
    seal_two(alloc, &mut store)?;
    let taken = take_again(&mut store, second)?;
    let [Part::Many(sealed)] = taken.parts() else {
        return Err("not one merged part".into());
    };
    assert_eq!(rt; (sealed.first_batch(), sealed.batches()), (0, 2));
    Ok(())
}

fn waiting(store: &Store, query: u32) -> Result<Option<u32>, Fail> {
    if !store.is_registered(query) || store.left(query) {
        return Err("not here".into());
    }
    Ok(store.waiting(query))
}

#[test]
fn an_inbox_of_two_tells_0_and_2_and_no_more_until_a_take(rt: HostRuntime) -> Result<(), Fail> {
    let alloc = rt.alloc();
    let mut store = Store::new(alloc, LIMITS);
    let session = register(alloc, &mut store, Mode::Both)?;
    assert_eq!(rt; waiting(&store, session.query())?, Some(0));
    accept(alloc, &mut store, &ONE_EVENT)?;
    accept(alloc, &mut store, &ONE_EVENT)?;
    assert_eq!(rt; waiting(&store, session.query())?, Some(2));
    accept(alloc, &mut store, &ONE_EVENT)?;
    assert_eq!(rt; waiting(&store, session.query())?, None);
    let session = take_again(&mut store, session)?.settle();
    assert_eq!(rt; waiting(&store, session.query())?, Some(0));
    Ok(())
}

#[test]
fn a_query_from_an_event_that_is_not_there_is_refused(rt: HostRuntime) -> Result<(), Fail> {
    let alloc = rt.alloc();
    let mut store = Store::new(alloc, LIMITS);
    accept(alloc, &mut store, &THREE_EVENTS)?;
    let mode = Mode::Since { from: 4 };
    let Err((_, end)) = store.register(0, mode, Expr::And(Items::new(alloc))) else {
        return Err("registered".into());
    };
    assert_eq!(rt; end, RegisterEnd::Ahead { from: 4, have: 3 });
    Ok(())
}
