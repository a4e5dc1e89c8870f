//! How an input ends.
ghost use Rattle.std.specs.Prelude.{◌≡◌};
ghost use Rattle.importer.specs.declared.ends.ImportEnd.TheVariants.{Memory};
ghost use Rattle.importer.specs.Coming.{end_answer};
ghost use Rattle.importer.specs.Ending.{end_of_capture, end_of_log, how_ended};

use pcap_file::{CaptureFault, PcapEnd};
use std::alloc::AllocError;
use vast_value::Bytes;
use zeek_log::{ZeekEnd, ZeekFault};

/// What is wrong with an input.
#[derive(Clone, Copy, Debug, PartialEq, Eq)]
pub enum InputFault {
    /// A log is wrong at a line, counted from 1, and a column, counted from 1, or 0 for the line as a whole.
    Line {
        line: u64,
        column: u32,
        what: ZeekFault,
    },
    /// A capture is wrong at a byte of the file, counted from 0.
    Place {
        offset: u64,
        what: CaptureFault,
    },
    /// It has a form that isn't read.
    Form(FormFault),
}

/// A form that isn't read, known by an input's first bytes.
#[derive(Clone, Copy, Debug, PartialEq, Eq)]
pub enum FormFault {
    /// A file of gzip: `1f 8b`.
    Compressed,
    /// A capture of the form pcapng: `0a 0d 0d 0a`.
    Pcapng,
}

/// Why no more of an input comes, though not all of it was given. Once given, it is given again.
#[derive(Clone, Copy, Debug, PartialEq, Eq)]
pub enum ImportEnd {
    /// The input is wrong.
    Fault(InputFault),
    /// A read of the source failed.
    ReadFault,
    /// The source went on past the bound.
    TooLong,
    /// No memory was left.
    Memory,
}

impl From<AllocError> for ImportEnd {
    ghost from_gives = { λ _ end. end ≡ Memory };

    fn from(_error: AllocError) -> ImportEnd {
        ImportEnd::Memory
    }
}

/// How a source went.
#[derive(Clone, Copy, Debug, PartialEq, Eq)]
pub enum How {
    /// Its end was not met.
    Unread,
    /// All of it was given.
    Done,
    /// It is wrong.
    Fault(InputFault),
    /// A read failed.
    ReadFault,
    /// It went on past the bound.
    TooLong,
    /// The next batch would have passed the limit of rows, of which there were so many.
    Full { have: u64, limit: u64 },
    /// No memory was left.
    Memory,
}

impl How {
    /// How a source went whose import answered this end, or `None` where all of it was given.
    pub fn ended(end: Option<ImportEnd>) -> How
        ensures { result ≡ how_ended end }
    {
        match end {
            None => How::Done,
            Some(ImportEnd::Fault(fault)) => How::Fault(fault),
            Some(ImportEnd::ReadFault) => How::ReadFault,
            Some(ImportEnd::TooLong) => How::TooLong,
            Some(ImportEnd::Memory) => How::Memory,
        }
    }
}

/// A source when all is done with it.
#[derive(Drop)]
pub struct SourceEnd<S: Drop> {
    /// Its number.
    pub source: u32,
    /// The name that it was opened by.
    pub name: Bytes,
    /// How many of its rows were accepted.
    pub rows: u64,
    pub how: How,
    /// The source as it was left.
    pub rest: Option<S>,
}

/// How a log's end is told of an input: `None` where all of it was given.
pub(crate) fn end_of_log(end: ZeekEnd) -> Option<ImportEnd>
    ensures { result ≡ end_of_log end }
{
    match end {
        ZeekEnd::Done => None,
        ZeekEnd::Fault { line, column, what } => {
            Some(ImportEnd::Fault(InputFault::Line { line, column, what }))
        }
        ZeekEnd::ReadFault => Some(ImportEnd::ReadFault),
        ZeekEnd::TooLong => Some(ImportEnd::TooLong),
        ZeekEnd::Memory => Some(ImportEnd::Memory),
    }
}

/// How a capture's end is told of an input: `None` where all of it was given.
pub(crate) fn end_of_capture(end: PcapEnd) -> Option<ImportEnd>
    ensures { result ≡ end_of_capture end }
{
    match end {
        PcapEnd::Done => None,
        PcapEnd::Fault { offset, what } => {
            Some(ImportEnd::Fault(InputFault::Place { offset, what }))
        }
        PcapEnd::ReadFault => Some(ImportEnd::ReadFault),
        PcapEnd::TooLong => Some(ImportEnd::TooLong),
        PcapEnd::Memory => Some(ImportEnd::Memory),
    }
}

/// What is answered where nothing but an end is to come.
pub(crate) fn end_answer<X>(end: Option<ImportEnd>) -> Result<Option<X>, ImportEnd>
    ensures { result ≡ end_answer end }
{
    match end {
        None => Ok(None),
        Some(end) => Err(end),
    }
}
