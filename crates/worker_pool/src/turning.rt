//! A worker's turn.
ghost use Rattle.std.specs.Prelude.{◌≡◌, All, OnOk};
ghost use Rattle.event_history.specs.Histories.{past};
ghost use Rattle.exporter.specs.Stores.{IsCacheOf};
ghost use Rattle.turn_book.specs.Seats.{book_id, pass_book, pass_standing};
ghost use Rattle.worker_pool.specs.Finishing.{Finishes, IsSound};
ghost use Rattle.worker_pool.specs.Registering.{AreAskable, IsUnasked, ends, exprs};
ghost use Rattle.worker_pool.specs.Running.{EndsAll, Runs};
ghost use Rattle.worker_pool.specs.Takes.{IsPaged};
ghost use Rattle.worker_pool.specs.Turning.{Turns};

use crate::feeding::{Feed, read_one};
use crate::indexing::index_one;
use crate::paging::page_all;
use crate::registering::{Query, register_all};
use crate::sealing::seal_one;
use archive_cache::Cache;
use event_batch::Steps;
use exporter::a_cache_serves_a_store;
use importer::How;
use shared_store::{Pass, Vast};
use std::alloc::{AllocError, Global};
use std::sync::Wait;
use std::sync::ledger::Ledger;
use vast_io::{Gate, Place, Source};

/// Makes turns, up to one in which all sources had ended and no batch was to be claimed.
pub fn make_turns<S: Source, G: Gate, L: Ledger, R: Wait>(
    rt: &R,
    alloc: Global,
    vast: &Vast,
    pass: &mut Pass,
    gate: &G,
    worker: u32,
    cache: &mut Cache,
    steps: &mut Steps<L>,
    feeds: &mut [Feed<S>],
    queries: &mut [Query],
) -> Result<(), AllocError>
    requires book { pass_book pass.old ≡ book_id vast.now.book }
    requires sound { IsSound (pass_standing pass.old) }
    requires askable { AreAskable (pass_standing pass.old) queries.old }
    requires unasked { All IsUnasked queries.old }
    requires cache { IsCacheOf (past (pass_standing pass.old).seen) cache.old }
    ensures book { pass_book pass.new ≡ book_id vast.now.book }
    ensures runs { Runs (record { left = S.left; faults = S.faults }) result (record { feeds = feeds.old; queries = queries.old; stands = pass_standing pass.old }) (record { feeds = feeds.new; queries = queries.new; stands = pass_standing pass.new }) }
    ensures sound { IsSound (pass_standing pass.new) }
    ensures paged { All (IsPaged (pass_standing pass.new)) (ends queries.new) }
    ensures askable { OnOk result (AreAskable (pass_standing pass.new) queries.new) }
{
    let mut turn = 0u64;
    for _turn in rt.forever() {
        let claimed = make_turn(
            rt, alloc, vast, pass, gate, worker, turn, cache, steps, feeds, queries,
        )?;
        if !claimed && all_ended(feeds) {
            return Ok(());
        }
        turn = turn.wrapping_add(1);
    }
    unreachable!()
}

/// Makes a turn: reads a batch of the first source that has not ended and accepts it, registers the queries that are still
/// to be, indexes a batch, merges a group and asks each query on, in this order. It says whether there was a batch to index.
fn make_turn<S: Source, G: Gate, L: Ledger, R: Wait>(
    rt: &R,
    alloc: Global,
    vast: &Vast,
    pass: &mut Pass,
    gate: &G,
    worker: u32,
    turn: u64,
    cache: &mut Cache,
    steps: &mut Steps<L>,
    feeds: &mut [Feed<S>],
    queries: &mut [Query],
) -> Result<bool, AllocError>
    requires book { pass_book pass.old ≡ book_id vast.now.book }
    requires sound { IsSound (pass_standing pass.old) }
    requires askable { AreAskable (pass_standing pass.old) queries.old }
    requires unasked { All IsUnasked queries.old }
    requires cache { IsCacheOf (past (pass_standing pass.old).seen) cache.old }
    ensures book { pass_book pass.new ≡ book_id vast.now.book }
    ensures turns { Turns (record { left = S.left; faults = S.faults }) result feeds.old feeds.new queries.old queries.new cache.new (pass_standing pass.old) (pass_standing pass.new) }
{
    a_cache_serves_a_store();
    gate.before(worker, turn, Place::Read);
    read_one(rt, alloc, vast, pass, feeds)?;
    register_all(rt, vast, pass, queries)?;
    finish_turn(
        rt, alloc, vast, pass, gate, worker, turn, cache, steps, queries,
    )
}

/// Indexes a batch, merges a group and asks each query on, in this order, and says whether there was a batch to index.
fn finish_turn<G: Gate, L: Ledger, R: Wait>(
    rt: &R,
    alloc: Global,
    vast: &Vast,
    pass: &mut Pass,
    gate: &G,
    worker: u32,
    turn: u64,
    cache: &mut Cache,
    steps: &mut Steps<L>,
    queries: &mut [Query],
) -> Result<bool, AllocError>
    requires book { pass_book pass.old ≡ book_id vast.now.book }
    requires sound { IsSound (pass_standing pass.old) }
    requires askable { AreAskable (pass_standing pass.old) queries.old }
    requires cache { IsCacheOf (past (pass_standing pass.old).seen) cache.old }
    ensures book { pass_book pass.new ≡ book_id vast.now.book }
    ensures exprs { exprs queries.new ≡ exprs queries.old }
    ensures finishes { Finishes result queries.old queries.new cache.new (pass_standing pass.old) (pass_standing pass.new) }
{
    a_cache_serves_a_store();
    let claimed = index_one(rt, alloc, vast, pass, gate, worker, turn, steps)?;
    seal_one(rt, alloc, vast, pass, gate, worker, turn)?;
    page_all(
        rt, alloc, vast, pass, gate, worker, turn, cache, steps, queries,
    )?;
    Ok(claimed)
}

/// Whether no source is left to be read.
fn all_ended<S: Source>(feeds: &[Feed<S>]) -> bool
    ensures { EndsAll result feeds.now }
{
    match feeds.split_first() {
        None => true,
        Some((first, rest)) => match first.how {
            How::Unread => false,
            _ => all_ended(rest),
        },
    }
}
