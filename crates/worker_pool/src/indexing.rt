//! A worker's share of the indexing.
ghost use Rattle.std.specs.Prelude.{◌≡◌, ◌+◌, ◌≤◌};
ghost use Rattle.turn_book.specs.Seats.{book_id, pass_book, pass_standing};
ghost use Rattle.worker_pool.specs.Indexing.{Indexes};

use event_batch::Steps;
use history_core::PublishEnd;
use indexer::index_claim;
use shared_store::{Pass, Vast};
use std::alloc::{AllocError, Global};
use std::sync::Wait;
use std::sync::ledger::Ledger;
use vast_io::{Gate, Place};

/// Claims a batch, indexes it and publishes the index, and says whether there was one to claim.
pub fn index_one<G: Gate, L: Ledger, R: Wait>(
    rt: &R,
    alloc: Global,
    vast: &Vast,
    pass: &mut Pass,
    gate: &G,
    worker: u32,
    turn: u64,
    steps: &mut Steps<L>,
) -> Result<bool, AllocError>
    requires { pass_book pass.old ≡ book_id vast.now.book }
    ensures book { pass_book pass.new ≡ book_id vast.now.book }
    ensures indexes { Indexes result (pass_standing pass.old) (pass_standing pass.new) }
    ensures steps { steps.new ≤ steps.old + 1 }
{
    let Some(claim) = vast.claim(rt, pass)? else {
        return Ok(false);
    };
    gate.before(worker, turn, Place::Index);
    let fragment = index_claim(alloc, &claim, steps)?;
    match vast.publish(rt, pass, claim, fragment) {
        Ok(()) => Ok(true),
        Err(PublishEnd::Already { .. }) => Ok(true),
        Err(PublishEnd::Memory(..)) => Err(AllocError),
    }
}
