//! The memory of a block.
ghost use Rattle.std.specs.Prelude.{◌≡◌, ◌≤◌, ◌<◌, ◌+◌, ◌-◌, length, take, drop, max, OnOk, OnErr, IfOk};
ghost use Rattle.source_block.specs.Holding.{most_bytes, hold};
ghost use Rattle.source_block.specs.Taking.{Takes, Tells, Counts};

use crate::stop::{Stop, Took};
use std::alloc::{AllocError, Global};
use vast_io::{Failed, Source};

/// How many bytes are taken of a source at once, at most.
pub const BLOCK: usize = 65_536;

/// No more bytes than these are taken of a source.
pub const MOST_BYTES: u64 = 1 << 36;

/// So many bytes of value 0.
pub fn zeros(alloc: Global, count: usize) -> Result<Vec<u8>, AllocError>
    ensures { IfOk result (λ bytes. length bytes.items ≡ count) }
{
    vec![in alloc; 0; count]
}

/// Moves the bytes between `start` and `end` to the front, and makes the buffer longer by a block where they fill it.
pub fn make_room(
    alloc: Global,
    buffer: &mut Vec<u8>,
    start: &mut usize,
    end: &mut usize,
) -> Result<(), AllocError>
    requires start { start.old ≤ end.old }
    requires end { end.old ≤ length buffer.old.items }
    ensures front { start.new ≡ 0 }
    ensures bytes { take end.new buffer.new.items ≡ drop start.old (take end.old buffer.old.items) }
    ensures within { end.new ≤ length buffer.new.items }
    ensures room { OnOk result (end.new < length buffer.new.items) }
    ensures kept { length buffer.new.items ≤ max (length buffer.old.items) (end.old - start.old + 65536) }
    ensures memory { OnErr result (length buffer.new.items ≡ length buffer.old.items) }
{
    close_up(buffer.as_mut_slice(), *start, *end);
    *end -= *start;
    *start = 0;
    if *end == buffer.len() {
        *buffer = longer(alloc, buffer.as_slice())?;
    }
    Ok(())
}

/// Moves the bytes between `start` and `end` to the front.
fn close_up(buffer: &mut [u8], start: usize, end: usize)
    requires start { start ≤ end }
    requires end { end ≤ length buffer.old }
    ensures { take (end - start) buffer.new ≡ drop start (take end buffer.old) }
{
    if start > 0 {
        buffer.copy_within(start..end, 0);
    }
}

/// The bytes, with a block of others behind them.
fn longer(alloc: Global, bytes: &[u8]) -> Result<Vec<u8>, AllocError>
    ensures bytes { IfOk result (λ more. take (length bytes.now) more.items ≡ bytes.now) }
    ensures length { IfOk result (λ more. length more.items ≡ length bytes.now + 65536) }
{
    let count = bytes.len();
    let mut more = zeros(alloc, count + BLOCK)?;
    let (front, _) = more.as_mut_slice().split_at_mut(count);
    front.copy_from_slice(bytes);
    Ok(more)
}

/// Takes some bytes of a source behind `end`.
pub fn read_some<S: Source>(
    source: &mut S,
    buffer: &mut [u8],
    start: usize,
    end: &mut usize,
    taken: &mut u64,
) -> Took
    requires start { start ≤ end.old }
    requires end { end.old < length buffer.old }
    requires room { taken.old < most_bytes }
    ensures takes { Takes (hold buffer.old start end.old taken.old) (hold buffer.new start end.new taken.new) (S.left source.old) (S.left source.new) }
    ensures tells { Tells (Ok result) (hold buffer.old start end.old taken.old) (hold buffer.new start end.new taken.new) (S.left source.new) }
    ensures counts { Counts (Ok result) (S.faults source.old) (S.faults source.new) }
    ensures start { start ≤ end.new }
    ensures end { end.new ≤ length buffer.new }
    ensures room { taken.new ≤ most_bytes }
{
    let (_, behind) = buffer.split_at_mut(*end);
    let most = behind.len().min((MOST_BYTES - *taken) as usize);
    let (into, _) = behind.split_at_mut(most);
    match source.read(into) {
        Ok(0) => Took::Stopped(Stop::AtEnd),
        Ok(count) => {
            *end += count;
            *taken += count as u64;
            Took::Enough
        }
        Err(Failed) => Took::Stopped(Stop::Failed),
    }
}
