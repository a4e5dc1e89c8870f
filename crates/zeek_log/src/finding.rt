//! Bytes of a source until a line stands at their front.
ghost use Rattle.std.specs.Prelude.{◌≡◌, ◌≢◌, ◌<◌, ◌≤◌, length, get_or, max, IfOk, IsTrue};
ghost use Rattle.source_block.specs.Holding.{most_bytes};
ghost use Rattle.source_block.specs.Taking.{Takes};
ghost use Rattle.zeek_log.specs.Finding.{Finds, FindCounts, HoldsRow, most_kept};

use crate::cut::newline_from;
use crate::line::MOST_LINE;
use memchr::memchr;
use source_block::{Block, Stop, Took};
use std::alloc::AllocError;
use vast_io::Source;

/// What stands at the front of the bytes that are held.
#[derive(Clone, Copy, Debug, PartialEq, Eq)]
pub enum Found {
    /// A line of so many bytes, and its newline.
    Line(usize),
    /// More than 1,048,576 bytes without a newline.
    Long,
    /// No newline, and no more bytes come.
    Stopped(Stop),
}

/// Takes bytes until a line stands at the front, or says why none does.
pub fn find_line<S: Source>(block: &mut Block, source: &mut S) -> Result<Found, AllocError>
    requires { block.old.taken ≤ most_bytes }
    ensures takes { Takes block.old block.new (S.left source.old) (S.left source.new) }
    ensures finds { IfOk result (λ found. Finds found block.new (S.left source.new)) }
    ensures counts { FindCounts result (S.faults source.old) (S.faults source.new) }
    ensures bound { block.new.taken ≤ most_bytes }
    ensures kept { block.new.kept ≤ max block.old.kept most_kept }
{
    let mut searched = 0;
    loop {
        if let Some(at) = newline_from(block.as_slice(), searched) {
            return Ok(Found::Line(at));
        }
        searched = block.as_slice().len();
        if searched > MOST_LINE {
            return Ok(Found::Long);
        }
        if let Took::Stopped(stop) = block.take(source)? {
            return Ok(Found::Stopped(stop));
        }
    }
}

/// Whether a whole data line is among the bytes.
pub fn holds_row(held: &[u8]) -> bool
    ensures { IsTrue result → HoldsRow held.now }
{
    let mut at = 0;
    while at < held.len() {
        let (_, rest) = held.split_at(at);
        let Some(count) = memchr(b'\n', rest) else {
            return false;
        };
        if is_data_line(rest, count) {
            return true;
        }
        at += count + 1;
    }
    false
}

/// Whether the first so many bytes are a line that is neither empty nor a head line.
fn is_data_line(bytes: &[u8], count: usize) -> bool
    requires { count < length bytes.now }
    ensures { IsTrue result → (0 < count) × (get_or bytes.now 0 0 ≢ 35) }
{
    count > 0 && bytes[0] != b'#'
}
