//! One line of a log.
ghost use Rattle.zeek_log.specs.Answers.{told_of, Does, LineFits};
ghost use Rattle.zeek_log.specs.Table.{line_outcome};

use crate::data::data_line;
use crate::fault::{LineEnd, ZeekFault, bad_line};
use crate::head::head_line;
use crate::known::Known;
use crate::step::Step;
use std::alloc::Global;

/// No line has more bytes.
pub const MOST_LINE: usize = 1_048_576;

/// Takes a line: what it does by the table.
pub fn take_line(alloc: Global, known: &mut Known, line: &[u8]) -> Result<Option<Step>, LineEnd>
    ensures does { Does (line_outcome (told_of known.old) line.now) (told_of known.new) result }
    ensures fits { LineFits (told_of known.old).heading (told_of known.new).heading result }
{
    let Some(first) = line.first() else {
        return Ok(None);
    };
    if line.len() > MOST_LINE {
        return Err(bad_line(ZeekFault::LineTooLong));
    }
    if *first == b'#' {
        return head_line(alloc, known, line);
    }
    data_line(alloc, known, line)
}
