//! A log imported into a store, indexed, merged, and asked, as far as a stage says.
ghost use Rattle.std.specs.Prelude.{◌≡◌, ◌<◌, IfOk};
ghost use Rattle.event_history.specs.Histories.{past};
ghost use Rattle.exporter.specs.Stores.{IsCacheOf};

use archive_cache::Cache;
use event_batch::{Batch, Steps, encode};
use exporter::{Page, a_cache_serves_a_store, finish};
use history_core::{Limits, Mode, Store};
use importer::Import;
use indexer::{index_claim, seal_group};
use query_parse::parse;
use std::alloc::{AllocError, Global};
use std::marker::Brand;
use std::sync::ledger::{Blank, Ledger};
use vast_io::Source;

/// How far the rows of a log go.
#[derive(Clone, Copy, PartialEq, Eq, PartialOrd, Ord)]
pub enum Stage {
    /// They are read, and cut into batches.
    Read,
    /// The batches are packed, and accepted.
    Accept,
    /// They are indexed.
    Index,
    /// Groups of 16 are merged.
    Seal,
}

/// What each page of a query over all of a store told.
#[derive(Clone, Copy)]
pub struct Asked {
    pub found: usize,
    pub checked: u64,
    pub touched: u64,
    pub loads: u64,
}

/// A query, how often it is asked, and of how many decoded batches there is room.
#[derive(Clone, Copy)]
pub struct Asking<'a> {
    pub text: &'a str,
    pub times: u32,
    pub cache: u32,
}

/// A log read so far, the number of its rows, and the last page of a query; `None` where a call answered otherwise than it
/// should.
pub fn measure<S: Source>(
    alloc: Global,
    source: S,
    stage: Stage,
    asking: Asking<'_>,
) -> anyhow::Result<Option<(u64, Option<Asked>)>> {
    measure_counted::<S, Brand>(alloc, Blank::new(1), source, stage, asking)
}

fn measure_counted<S: Source, L: Ledger>(
    alloc: Global,
    blank: Blank,
    source: S,
    stage: Stage,
    asking: Asking<'_>,
) -> anyhow::Result<Option<(u64, Option<Asked>)>>
    requires name { blank.name ≡ L.name }
    requires parts { blank.parts ≡ L.parts }
    requires some { 0 < L.parts }
{
    let mut steps = Steps::<L>::new(blank);
    let limits = Limits {
        rows: 1 << 32,
        queries: asking.times,
        group: 16,
        inbox: 64,
    };
    let mut store = Store::new(alloc, limits);
    let Some(rows) = fill(alloc, source, &mut store, stage, &mut steps)? else {
        return Ok(None);
    };
    if asking.cache == 0 {
        return Ok(None);
    }
    let mut cache = Cache::new(alloc, asking.cache)?;
    let mut last = None;
    for _time in 0..asking.times {
        last = ask(alloc, &mut store, asking.text, &mut cache, &mut steps)?;
    }
    Ok(Some((rows, last)))
}

// The batches of a source go so far. It gives the number of their rows.
fn fill<S: Source, L: Ledger>(
    alloc: Global,
    source: S,
    store: &mut Store,
    stage: Stage,
    steps: &mut Steps<L>,
) -> anyhow::Result<Option<u64>> {
    let mut import = Import::start(alloc, 1, 1024, source);
    fill_from(alloc, &mut import, store, stage, steps)
}

// The same of an import. It stands by itself so that the import is dropped in one place: each costs minutes to prove.
fn fill_from<S: Source, L: Ledger>(
    alloc: Global,
    import: &mut Import<S>,
    store: &mut Store,
    stage: Stage,
    steps: &mut Steps<L>,
) -> anyhow::Result<Option<u64>> {
    let mut rows = 0u64;
    for _batch in 0..u64::MAX {
        match import.next_batch() {
            Ok(None) => return Ok(Some(rows)),
            Ok(Some(batch)) => {
                rows = rows.saturating_add(batch.rows().len() as u64);
                if !add(alloc, &batch, store, stage, steps)? {
                    return Ok(None);
                }
            }
            Err(_) => return Ok(None),
        }
    }
    Ok(None)
}

fn add<L: Ledger>(
    alloc: Global,
    batch: &Batch,
    store: &mut Store,
    stage: Stage,
    steps: &mut Steps<L>,
) -> anyhow::Result<bool> {
    if stage < Stage::Accept {
        return Ok(true);
    }
    if store.accept(0, encode(alloc, batch)?).is_err() {
        return Ok(false);
    }
    if stage < Stage::Index {
        return Ok(true);
    }
    let Some(claim) = store.claim(0)? else {
        return Ok(false);
    };
    let fragment = index_claim(alloc, &claim, steps)?;
    if store.publish(0, claim, fragment).is_err() {
        return Ok(false);
    }
    if stage < Stage::Seal {
        return Ok(true);
    }
    let Some(group) = store.claim_group()? else {
        return Ok(true);
    };
    let sealed = seal_group(alloc, &group)?;
    Ok(store.publish_group(0, group, sealed).is_ok())
}

// The page of a query over all that is there.
fn ask<L: Ledger>(
    alloc: Global,
    store: &mut Store,
    text: &str,
    cache: &mut Cache,
    steps: &mut Steps<L>,
) -> anyhow::Result<Option<Asked>>
    requires { IsCacheOf (past store.old.history) cache.old }
    ensures { IfOk result (λ _. IsCacheOf (past store.new.history) cache.new) }
{
    a_cache_serves_a_store();
    let Ok(expr) = parse(alloc, text) else {
        return Ok(None);
    };
    let end = store.register(0, Mode::Past, expr);
    // That the history is legal is known once it is looked at.
    let _ = store.entries();
    let Ok(session) = end else {
        return Ok(None);
    };
    let end = store.take(0, session);
    let _ = store.entries();
    let Ok(taken) = end else {
        return Ok(None);
    };
    let Ok((_, page)) = finish(alloc, taken, cache, steps) else {
        return Err(AllocError.into());
    };
    Ok(Some(told(&page)))
}

fn told(page: &Page) -> Asked {
    Asked {
        found: page.found.as_slice().len(),
        checked: page.checked,
        touched: page.touched,
        loads: page.loads,
    }
}
