//! The rows of one batch.
ghost use Rattle.std.specs.Prelude.{◌≡◌, ℕ, ◌+◌, ◌<◌, ◌≤◌, ◌^◌, ◌++◌, true, length, filter, slice_get, Some, IsTrue, IfOk, OnOk};
ghost use Rattle.vast_value.specs.Fit.{fits_columns};
ghost use Rattle.vast_value.specs.Headings.{heading_of};
ghost use Rattle.event_batch.specs.Contents.{content_of};
ghost use Rattle.event_history.specs.Events.{Event, event_of, events_of, matches};
ghost use Rattle.exporter.specs.Pages.{is_unsure};
ghost use Rattle.exporter.specs.Rows.{in_range, rows_between};
ghost use Rattle.exporter.specs.Told.{IsNextCandidate, Tells};

use crate::founds::{Found, Founds};
use bits_law::Bits;
use column_index::{Bitmap, Pair};
use event_batch::Batch;
use history_core::Held;
use query_meaning::{Expr, holds};
use std::alloc::{AllocError, Global};
use vast_value::{Layout, Row};

/// Which rows of a batch have an id in a range: those from the first place on and below the second.
pub(crate) fn rows_within(range: (u64, u64), held: &Held) -> (u64, u64)
    ensures rows { in_range range.0 range.1 held.now ≡ rows_between held.now.first result.0 result.1 (events_of held.now.packed.content) }
    ensures order { result.0 ≤ result.1 }
    ensures end { result.1 ≤ length held.now.packed.content.rows }
{
    let first = held.first();
    let rows = u64::from(held.packed().rows());
    let high = range.1.saturating_sub(first).min(rows);
    let low = range.0.saturating_sub(first).min(high);
    (low, high)
}

/// Whether an event matches. One that is known to isn't looked at.
#[tactic(auto, unfolding(event_history::specs::Events::matches))]
fn is_match(expr: &Expr, layout: &Layout, row: &Row, sure: bool) -> bool
    requires fits { IsTrue (fits_columns layout.now.columns row.now) }
    requires sure { sure ≡ true → matches expr.now (event_of (heading_of layout.now) row.now) ≡ true }
    ensures { result ≡ matches expr.now (event_of (heading_of layout.now) row.now) }
{
    if sure {
        return true;
    }
    holds(expr, layout, row)
}

/// Adds the event of a row where it matches.
fn push_row(
    alloc: Global,
    founds: &mut Founds,
    expr: &Expr,
    batch: &Batch,
    first: u64,
    place: u64,
    sure: bool,
) -> Result<(), AllocError>
    requires there { place < length batch.now.rows }
    requires room { first + length batch.now.rows < 2 ^ 64 }
    requires sure { sure ≡ true → (e : Event) → slice_get (events_of (content_of batch.now)) place ≡ Some e → matches expr.now e ≡ true }
    ensures { OnOk result (founds.new ≡ founds.old ++ filter (λ x. matches expr.now x.1) (rows_between first place (place + 1) (events_of (content_of batch.now)))) }
{
    let layout = batch.layout();
    let row = &batch.rows()[place as usize];
    if !is_match(expr, layout, row, sure) {
        return Ok(());
    }
    let layout = layout.duplicate(alloc)?;
    let row = row.duplicate(alloc)?;
    let id = first + place;
    founds.push(Found { id, layout, row })?;
    Ok(())
}

/// Adds the rows of a batch that match, from one place on and below another. Each is looked at.
pub(crate) fn push_all(
    alloc: Global,
    founds: &mut Founds,
    expr: &Expr,
    batch: &Batch,
    first: u64,
    low: u64,
    high: u64,
) -> Result<(), AllocError>
    requires order { low ≤ high }
    requires end { high ≤ length batch.now.rows }
    requires room { first + length batch.now.rows < 2 ^ 64 }
    ensures { OnOk result (founds.new ≡ founds.old ++ filter (λ x. matches expr.now x.1) (rows_between first low high (events_of (content_of batch.now)))) }
{
    for place in low..high {
        push_row(alloc, founds, expr, batch, first, place, false)?;
    }
    Ok(())
}

/// The first candidate from one place of a batch on and below another, or the latter. The batch's first row is the
/// `offset`-th of the part.
pub(crate) fn next_candidate(maybe: &Bitmap, offset: u64, from: u64, end: u64) -> u64
    requires order { from ≤ end }
    requires room { offset + end < 2 ^ 64 }
    ensures { IsNextCandidate maybe.now offset from end result }
{
    match maybe.next_one(offset + from) {
        Some(at) => (at - offset).min(end),
        None => end,
    }
}

/// Adds a candidate where it matches, and tells how many rows were looked at for it: none where it is sure.
fn push_candidate(
    alloc: Global,
    founds: &mut Founds,
    expr: &Expr,
    pair: &Pair,
    offset: u64,
    batch: &Batch,
    first: u64,
    place: u64,
) -> Result<u64, AllocError>
    requires there { place < length batch.now.rows }
    requires room { first + length batch.now.rows < 2 ^ 64 }
    requires narrow { offset + length batch.now.rows < 2 ^ 64 }
    requires tells { Tells expr.now pair.now offset (events_of (content_of batch.now)) }
    requires candidate { slice_get pair.now.maybe (offset + place) ≡ Some true }
    ensures found { OnOk result (founds.new ≡ founds.old ++ filter (λ x. matches expr.now x.1) (rows_between first place (place + 1) (events_of (content_of batch.now)))) }
    ensures checked { IfOk result (λ n. n ≡ length (filter (λ x. is_unsure expr.now x.1) (rows_between first place (place + 1) (events_of (content_of batch.now))))) }
{
    let sure = pair.sure.get(offset + place);
    push_row(alloc, founds, expr, batch, first, place, sure)?;
    Ok(u64::from(!sure))
}

/// Adds the rows of a batch that match, from a candidate on and below a place, and tells how many were looked at.
pub(crate) fn push_candidates(
    alloc: Global,
    founds: &mut Founds,
    expr: &Expr,
    pair: &Pair,
    offset: u64,
    batch: &Batch,
    first: u64,
    low: u64,
    high: u64,
) -> Result<u64, AllocError>
    requires order { low < high }
    requires end { high ≤ length batch.now.rows }
    requires room { first + length batch.now.rows < 2 ^ 64 }
    requires narrow { offset + length batch.now.rows < 2 ^ 64 }
    requires tells { Tells expr.now pair.now offset (events_of (content_of batch.now)) }
    requires candidate { slice_get pair.now.maybe (offset + low) ≡ Some true }
    ensures found { OnOk result (founds.new ≡ founds.old ++ filter (λ x. matches expr.now x.1) (rows_between first low high (events_of (content_of batch.now)))) }
    ensures checked { IfOk result (λ n. n ≡ length (filter (λ x. is_unsure expr.now x.1) (rows_between first low high (events_of (content_of batch.now))))) }
{
    let mut checked = 0;
    let mut place = low;
    while place < high {
        let more = push_candidate(alloc, founds, expr, pair, offset, batch, first, place)?;
        checked += more;
        place = next_candidate(&pair.maybe, offset, place + 1, high);
    }
    Ok(checked)
}
