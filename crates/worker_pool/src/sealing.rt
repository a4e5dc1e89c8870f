//! A worker's share of the merging.
ghost use Rattle.std.specs.Prelude.{◌≡◌};
ghost use Rattle.turn_book.specs.Seats.{book_id, pass_book, pass_standing};
ghost use Rattle.worker_pool.specs.Sealing.{Seals};

use history_core::SealEnd;
use indexer::seal_group;
use shared_store::{Pass, Vast};
use std::alloc::{AllocError, Global};
use std::sync::Wait;
use vast_io::{Gate, Place};

/// Merges the indexes of a group and publishes what comes of it, and says whether there was a group to merge.
pub fn seal_one<G: Gate, R: Wait>(
    rt: &R,
    alloc: Global,
    vast: &Vast,
    pass: &mut Pass,
    gate: &G,
    worker: u32,
    turn: u64,
) -> Result<bool, AllocError>
    requires { pass_book pass.old ≡ book_id vast.now.book }
    ensures book { pass_book pass.new ≡ book_id vast.now.book }
    ensures seals { Seals result (pass_standing pass.old) (pass_standing pass.new) }
{
    let Some(group) = vast.claim_group(rt, pass)? else {
        return Ok(false);
    };
    gate.before(worker, turn, Place::Merge);
    let sealed = seal_group(alloc, &group)?;
    match vast.publish_group(rt, pass, group, sealed) {
        Ok(()) => Ok(true),
        Err(SealEnd::AlreadySealed { .. }) => Ok(true),
        Err(SealEnd::Memory(..)) => Err(AllocError),
    }
}
