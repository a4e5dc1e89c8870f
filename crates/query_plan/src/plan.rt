//! An expression is asked of a part, test by test.
ghost use Rattle.std.specs.Prelude.{◌≡◌, ◌&&◌, ◌||◌, length, map, not, replicate, IfOk, IsTrue};
ghost use Rattle.bits_law.specs.Bitwise.{IsClearFrom, bitwise};
ghost use Rattle.event_history.specs.Pieces.{piece_events};
ghost use Rattle.partition.specs.Parts.{piece_of};
ghost use Rattle.query_plan.specs.Candidates.{maybe_bits, sure_bits};

use bits_law::Bits;
use column_index::{Bitmap, Pair};
use partition::Part;
use query_meaning::Expr;
use std::alloc::{AllocError, Global};

/// The events of a part that surely match an expression, and those that may. An event that may and doesn't surely match is
/// decoded and checked; the others aren't.
///
/// Tests are asked of the part's columns. `And` and `Or` go member by member; under `Not` what surely matches is what
/// couldn't, and what may match is what didn't surely.
pub fn candidates(alloc: Global, expr: &Expr, part: &Part) -> Result<Pair, AllocError>
    ensures sure { IfOk result (λ pair. pair.sure ≡ sure_bits expr.now (piece_events (piece_of part.now))) }
    ensures maybe { IfOk result (λ pair. pair.maybe ≡ maybe_bits expr.now (piece_events (piece_of part.now))) }
{
    match expr {
        Expr::Test(test) => {
            let pair = part.ask(alloc, test)?;
            Ok(pair)
        }
        Expr::Not(member) => {
            let pair = candidates(alloc, member.get(), part)?;
            let others = others(&pair)?;
            Ok(others)
        }
        Expr::And(members) => {
            let mut all = every(alloc, true, part.rows())?;
            for member in members.as_slice() {
                // No further member can let match what none may any more.
                if is_clear(&all.maybe) {
                    return Ok(all);
                }
                let more = candidates(alloc, member, part)?;
                all = both(&all, &more)?;
            }
            Ok(all)
        }
        Expr::Or(members) => {
            let mut all = every(alloc, false, part.rows())?;
            for member in members.as_slice() {
                let more = candidates(alloc, member, part)?;
                all = either(&all, &more)?;
            }
            Ok(all)
        }
    }
}

/// Whether no row is set.
fn is_clear(bits: &Bitmap) -> bool
    ensures { IsTrue result → IsClearFrom bits.now 0 }
{
    bits.next_one(0).is_none()
}

/// So many rows, of which each is known to match or not to.
fn every(alloc: Global, bit: bool, rows: u64) -> Result<Pair, AllocError>
    ensures sure { IfOk result (λ pair. pair.sure ≡ replicate rows bit) }
    ensures maybe { IfOk result (λ pair. pair.maybe ≡ replicate rows bit) }
{
    let mut sure = Bitmap::empty(alloc);
    match sure.push_run(bit, rows) {
        Ok(()) => {}
        Err(_) => return Err(AllocError),
    }
    let maybe = sure.duplicate()?;
    Ok(Pair { sure, maybe })
}

/// The rows that surely don't match, and those that may not.
fn others(pair: &Pair) -> Result<Pair, AllocError>
    ensures sure { IfOk result (λ others. others.sure ≡ map not pair.now.maybe) }
    ensures maybe { IfOk result (λ others. others.maybe ≡ map not pair.now.sure) }
{
    let sure = pair.maybe.not()?;
    let maybe = pair.sure.not()?;
    Ok(Pair { sure, maybe })
}

/// The rows of both.
fn both(all: &Pair, more: &Pair) -> Result<Pair, AllocError>
    requires sure { length all.now.sure ≡ length more.now.sure }
    requires maybe { length all.now.maybe ≡ length more.now.maybe }
    ensures sure { IfOk result (λ pair. pair.sure ≡ bitwise ◌&&◌ all.now.sure more.now.sure) }
    ensures maybe { IfOk result (λ pair. pair.maybe ≡ bitwise ◌&&◌ all.now.maybe more.now.maybe) }
{
    let sure = all.sure.and(&more.sure)?;
    let maybe = all.maybe.and(&more.maybe)?;
    Ok(Pair { sure, maybe })
}

/// The rows of either.
fn either(all: &Pair, more: &Pair) -> Result<Pair, AllocError>
    requires sure { length all.now.sure ≡ length more.now.sure }
    requires maybe { length all.now.maybe ≡ length more.now.maybe }
    ensures sure { IfOk result (λ pair. pair.sure ≡ bitwise ◌||◌ all.now.sure more.now.sure) }
    ensures maybe { IfOk result (λ pair. pair.maybe ≡ bitwise ◌||◌ all.now.maybe more.now.maybe) }
{
    let sure = all.sure.or(&more.sure)?;
    let maybe = all.maybe.or(&more.maybe)?;
    Ok(Pair { sure, maybe })
}
