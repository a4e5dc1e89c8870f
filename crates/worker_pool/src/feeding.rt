//! A worker's share of the reading.
ghost use Rattle.std.specs.Prelude.{◌≡◌};
ghost use Rattle.event_batch.specs.Contents.{content_of};
ghost use Rattle.importer.specs.declared.ends.How.TheVariants as how;
ghost use Rattle.turn_book.specs.Seats.{book_id, pass_book, pass_standing};
ghost use Rattle.worker_pool.specs.Feeding.{Feeds, Offers, Reads};

use event_batch::{Batch, encode};
use history_core::AcceptEnd;
use importer::{How, Import, ImportEnd};
use shared_store::{Pass, Vast};
use std::alloc::{AllocError, Global};
use std::sync::Wait;
use vast_io::Source;

/// A source that a worker reads.
#[derive(Drop)]
pub struct Feed<S: Source> {
    /// Its number, which its import has too.
    pub number: u32,
    pub import: Import<S>,
    /// How many of its rows were accepted.
    pub rows: u64,
    pub how: How,
}

/// Reads a batch of the first source whose end was not met, and accepts it. Where each end was met nothing is done.
pub fn read_one<S: Source, R: Wait>(
    rt: &R,
    alloc: Global,
    vast: &Vast,
    pass: &mut Pass,
    feeds: &mut [Feed<S>],
) -> Result<(), AllocError>
    requires book { pass_book pass.old ≡ book_id vast.now.book }
    ensures book { pass_book pass.new ≡ book_id vast.now.book }
    ensures reads { Reads (record { left = S.left; faults = S.faults }) result feeds.old feeds.new (pass_standing pass.old) (pass_standing pass.new) }
{
    match feeds.split_first_mut() {
        None => Ok(()),
        Some((first, rest)) => match first.how {
            How::Unread => feed_one(rt, alloc, vast, pass, first),
            _ => read_one(rt, alloc, vast, pass, rest),
        },
    }
}

/// Reads a batch of a source whose end was not met, and accepts it. What came of it is told by how the source goes.
fn feed_one<S: Source, R: Wait>(
    rt: &R,
    alloc: Global,
    vast: &Vast,
    pass: &mut Pass,
    feed: &mut Feed<S>,
) -> Result<(), AllocError>
    requires book { pass_book pass.old ≡ book_id vast.now.book }
    requires unread { feed.old.how ≡ how.Unread }
    ensures book { pass_book pass.new ≡ book_id vast.now.book }
    ensures feeds { Feeds (record { left = S.left; faults = S.faults }) result feed.old feed.new (pass_standing pass.old) (pass_standing pass.new) }
{
    match feed.import.next_batch() {
        Ok(Some(batch)) => offer(rt, alloc, vast, pass, &batch, feed),
        Ok(None) => {
            feed.how = How::Done;
            Ok(())
        }
        Err(end) => {
            feed.how = How::ended(Some(end));
            match end {
                ImportEnd::Memory => Err(AllocError),
                _ => Ok(()),
            }
        }
    }
}

/// Accepts a batch that a source gave.
fn offer<S: Source, R: Wait>(
    rt: &R,
    alloc: Global,
    vast: &Vast,
    pass: &mut Pass,
    batch: &Batch,
    feed: &mut Feed<S>,
) -> Result<(), AllocError>
    requires book { pass_book pass.old ≡ book_id vast.now.book }
    ensures book { pass_book pass.new ≡ book_id vast.now.book }
    ensures offers { Offers result (content_of batch.now) feed.old feed.new (pass_standing pass.old) (pass_standing pass.new) }
{
    let Ok(packed) = encode(alloc, batch) else {
        feed.how = How::Memory;
        return Err(AllocError);
    };
    let Some(rows) = feed.rows.checked_add(u64::from(packed.rows())) else {
        feed.how = How::Memory;
        return Err(AllocError);
    };
    match vast.accept(rt, pass, packed) {
        Ok(_) => {
            feed.rows = rows;
            feed.how = How::Unread;
            Ok(())
        }
        Err((_, end)) => match end {
            AcceptEnd::Full { have, limit } => {
                feed.how = How::Full { have, limit };
                Ok(())
            }
            AcceptEnd::Memory => {
                feed.how = How::Memory;
                Err(AllocError)
            }
        },
    }
}
