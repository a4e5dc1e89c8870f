//! Claims indexed and a group merged.
ghost use Rattle.std.specs.Prelude.{◌≡◌, ◌<◌};

use super::*;
use event_batch::{Packed, Steps};
use history_core::{Limits, Mode, Store};
use partition::Part;
use query_meaning::Expr;
use sqlite_items::Items;
use std::alloc::Global;
use std::marker::Brand;
use std::sync::ledger::{Blank, Ledger};
use std::test::Fail;
use vast_value::Bytes;

// A batch of one event.
const ONE_EVENT: [u8; 26] = [
    2, 1, 0, 0, 0, 1, 0, 0, 0, b'd', 1, 0, 9, 1, 0, 0, 0, b'p', 1, 0, 0, 0, 1, 53, 0, 0,
];

const LIMITS: Limits = Limits {
    rows: 2,
    queries: 1,
    group: 2,
    inbox: 1,
};

fn add<L: Ledger>(alloc: Global, store: &mut Store, steps: &mut Steps<L>) -> Result<(), Fail> {
    let Ok(packed) = Packed::read(alloc, Bytes::copy(alloc, &ONE_EVENT)?) else {
        return Err("not read".into());
    };
    if store.accept(0, packed).is_err() {
        return Err("not accepted".into());
    }
    let Some(claim) = store.claim(0)? else {
        return Err("nothing to claim".into());
    };
    let fragment = index_claim(alloc, &claim, steps)?;
    match store.publish(0, claim, fragment) {
        Ok(()) => Ok(()),
        Err(_) => Err("not published".into()),
    }
}

fn merge(alloc: Global, store: &mut Store) -> Result<(), Fail> {
    let Some(group) = store.claim_group()? else {
        return Err("no group".into());
    };
    let sealed = seal_group(alloc, &group)?;
    match store.publish_group(0, group, sealed) {
        Ok(()) => Ok(()),
        Err(_) => Err("not sealed".into()),
    }
}

fn two_as_one<L: Ledger>(alloc: Global, blank: Blank) -> Result<(u64, u64, u64), Fail>
    requires name { blank.name ≡ L.name }
    requires parts { blank.parts ≡ L.parts }
    requires some { 0 < L.parts }
{
    let mut steps = Steps::<L>::new(blank);
    let mut store = Store::new(alloc, LIMITS);
    add(alloc, &mut store, &mut steps)?;
    add(alloc, &mut store, &mut steps)?;
    merge(alloc, &mut store)?;
    let Ok(session) = store.register(0, Mode::Past, Expr::And(Items::new(alloc))) else {
        return Err("not registered".into());
    };
    let Ok(taken) = store.take(0, session) else {
        return Err("not taken".into());
    };
    let [Part::Many(sealed)] = taken.parts() else {
        return Err("not one merged part".into());
    };
    Ok((sealed.first_batch(), sealed.batches(), sealed.rows()))
}

#[test]
fn two_indexed_batches_are_merged_to_one_part(rt: HostRuntime) -> Result<(), Fail> {
    let part = two_as_one::<Brand>(rt.alloc(), Blank::new(1))?;
    assert_eq!(rt; part, (0, 2, 2));
    Ok(())
}
