//! The form of an input, told by its first bytes.
ghost use Rattle.std.specs.Prelude.{◌≡◌, ◌≤◌, ◌<◌, length, max, true, IfOk};
ghost use Rattle.source_block.specs.Holding.{most_bytes};
ghost use Rattle.source_block.specs.Taking.{Counts, Takes};
ghost use Rattle.importer.specs.Forms.{Decides, end_of_few, end_of_start, form_of, is_start, may_become};

use crate::ends::{FormFault, ImportEnd, InputFault};
use source_block::{Block, Stop, Took};
use std::alloc::AllocError;
use vast_io::Source;
use zeek_log::ZeekFault;

/// The form of an input.
#[derive(Clone, Copy, Debug, PartialEq, Eq)]
pub enum Form {
    Log,
    Capture,
    /// One that isn't read.
    Refused(FormFault),
}

/// The form of an input that begins so. Fewer bytes than a form is known by are a log's.
pub fn form_of(bytes: &[u8]) -> Form
    ensures { result ≡ form_of bytes.now }
{
    if bytes.starts_with(&[0x1f, 0x8b]) {
        return Form::Refused(FormFault::Compressed);
    }
    if bytes.starts_with(&[0x0a, 0x0d, 0x0d, 0x0a]) {
        return Form::Refused(FormFault::Pcapng);
    }
    if bytes.starts_with(&[0xa1, 0xb2, 0xc3, 0xd4])
        || bytes.starts_with(&[0xd4, 0xc3, 0xb2, 0xa1])
        || bytes.starts_with(&[0xa1, 0xb2, 0x3c, 0x4d])
        || bytes.starts_with(&[0x4d, 0x3c, 0xb2, 0xa1])
    {
        return Form::Capture;
    }
    Form::Log
}

/// Whether bytes that follow may still make another form of it.
fn is_start(bytes: &[u8]) -> bool
    ensures { result ≡ is_start bytes.now }
{
    may_become(bytes, &[0x1f, 0x8b])
        || may_become(bytes, &[0x0a, 0x0d, 0x0d, 0x0a])
        || may_become(bytes, &[0xa1, 0xb2, 0xc3, 0xd4])
        || may_become(bytes, &[0xd4, 0xc3, 0xb2, 0xa1])
        || may_become(bytes, &[0xa1, 0xb2, 0x3c, 0x4d])
        || may_become(bytes, &[0x4d, 0x3c, 0xb2, 0xa1])
}

fn may_become(bytes: &[u8], magic: &[u8]) -> bool
    ensures { result ≡ may_become bytes.now magic.now }
{
    bytes.len() < magic.len() && magic.starts_with(bytes)
}

/// Takes bytes of a source until they tell its form, or until no more come.
pub fn take_start<S: Source>(source: &mut S, block: &mut Block) -> Result<Took, AllocError>
    requires room { block.old.taken ≤ most_bytes }
    ensures takes { Takes block.old block.new (S.left source.old) (S.left source.new) }
    ensures decides { Decides result block.new (S.left source.new) }
    ensures counts { Counts result (S.faults source.old) (S.faults source.new) }
    ensures room { block.new.taken ≤ most_bytes }
    ensures kept { block.new.kept ≤ max block.old.kept 65540 }
{
    while is_start(block.as_slice()) {
        match block.take(source)? {
            Took::Enough => {}
            stopped => return Ok(stopped),
        }
    }
    Ok(Took::Enough)
}

/// The end of an input of so few bytes that they could still have become more than one form, where no more come for this
/// reason. It is a log that gives no step.
pub fn end_of_start(stop: Stop, bytes: &[u8]) -> Option<ImportEnd>
    ensures { result ≡ end_of_start stop bytes.now }
{
    match stop {
        Stop::AtEnd => end_of_few(bytes),
        Stop::Failed => Some(ImportEnd::ReadFault),
        Stop::AtBound => Some(ImportEnd::TooLong),
    }
}

/// A first line of these bytes, or a second one behind an empty line, is a row without a head.
fn end_of_few(bytes: &[u8]) -> Option<ImportEnd>
    ensures { result ≡ end_of_few bytes.now }
{
    if bytes.is_empty() || bytes == b"\n".as_slice() {
        return None;
    }
    let line = if bytes.starts_with(b"\n") { 2 } else { 1 };
    Some(ImportEnd::Fault(InputFault::Line {
        line,
        column: 0,
        what: ZeekFault::NoHead,
    }))
}
