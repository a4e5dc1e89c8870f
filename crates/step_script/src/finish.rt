//! How a script ends.
ghost use Rattle.std.specs.Prelude.{◌≡◌, ℕ, ◌++◌, ◌∷◌, [], List, Option, map, OnOk, IfOk};
ghost use Rattle.step_script.specs.Feeds.{AreFed, Outward};
ghost use Rattle.step_script.specs.Finishing.{Finishes, FinishesUnopened, FinishesWhole, some_ended, status_of_ways};
ghost use Rattle.step_script.specs.Playing.{Source as Seen};
ghost use Rattle.step_script.specs.Told.{AreEnds, bad_text, end_of, is_fault, is_full, is_read_fault, is_too_long, open_text};

use crate::ended::Ends;
use crate::feed::Feed;
use crate::player::Stop;
use importer::{How, SourceEnd};
use input_report::Status;
use script_desk::push_line;
use std::alloc::{AllocError, Global};
use value_text::write_escaped;
use vast_io::{Sink, Source, write_all};
use vast_value::Bytes;

/// How the sources ended.
pub fn ends_of<S: Source>(alloc: Global, feeds: Vec<Feed<S>>) -> Result<Ends<S>, AllocError>
    ensures { (told : List ℕ → Option (List ℕ)) (batch : ℕ) (xs : List Seen) → AreFed (record { left = S.left; faults = S.faults }) told batch xs feeds.items → IfOk result (λ ends. AreEnds told batch xs (map (end_of (record { left = S.left; faults = S.faults })) ends)) }
{
    let mut ends = Vec::with_capacity(alloc, feeds.len())?;
    for feed in feeds {
        ends.push(feed.into_end())?;
    }
    Ok(Ends::of(ends))
}

/// Tells why a script ends, writes what is held of its text, and gives the status.
pub fn finish<'a, S: Source, K: Sink>(
    text: Bytes,
    ends: &[SourceEnd<S>],
    stop: Result<(), Stop<'a>>,
    bad: Option<u64>,
    sink: &mut K,
) -> Status
    ensures { Finishes stop.entry result bad ends.now text (record { written = K.written sink.old; writes = K.faults sink.old }) (record { written = K.written sink.new; writes = K.faults sink.new }) }
{
    match stop {
        Ok(()) => finish_whole(text, ends, bad, sink),
        Err(Stop::Unopened { name }) => finish_unopened(text, name, sink),
        Err(Stop::Unwritten) => Status::WriteFault,
        Err(Stop::Memory) => Status::Memory,
    }
}

// All lines up to the first that isn't one were played.
fn finish_whole<S: Source, K: Sink>(
    text: Bytes,
    ends: &[SourceEnd<S>],
    bad: Option<u64>,
    sink: &mut K,
) -> Status
    ensures { FinishesWhole result bad ends.now text (record { written = K.written sink.old; writes = K.faults sink.old }) (record { written = K.written sink.new; writes = K.faults sink.new }) }
{
    let mut text = text;
    if push_bad(bad, &mut text).is_err() {
        return Status::Memory;
    }
    if write_all(sink, text.as_slice()).is_err() {
        return Status::WriteFault;
    }
    status_of(ends, bad)
}

// A name was not opened.
fn finish_unopened<K: Sink>(text: Bytes, name: &str, sink: &mut K) -> Status
    ensures { FinishesUnopened result name.now text (record { written = K.written sink.old; writes = K.faults sink.old }) (record { written = K.written sink.new; writes = K.faults sink.new }) }
{
    let mut text = text;
    if push_open(name, &mut text).is_err() {
        return Status::Memory;
    }
    // A line of this status that isn't written changes nothing.
    let _ = write_all(sink, text.as_slice());
    Status::OpenFault
}

fn push_bad(bad: Option<u64>, out: &mut Bytes) -> Result<(), AllocError>
    ensures { OnOk result (out.new ≡ out.old ++ bad_text bad) }
{
    match bad {
        None => Ok(()),
        Some(number) => push_line(b"script line ", number, out),
    }
}

fn push_open(name: &str, out: &mut Bytes) -> Result<(), AllocError>
    ensures { OnOk result (out.new ≡ out.old ++ open_text name.now) }
{
    out.append(b"open ")?;
    write_escaped(name.as_bytes(), out)?;
    out.push(b'\n')
}

// The status by how the sources went.
fn status_of<S: Source>(ends: &[SourceEnd<S>], bad: Option<u64>) -> Status
    ensures { result ≡ status_of_ways bad ends.now }
{
    if any_read_fault(ends) {
        Status::ReadFault
    } else if bad.is_some() {
        Status::ScriptFault
    } else if any_fault(ends) {
        Status::InputFault
    } else if any_too_long(ends) {
        Status::TooLong
    } else if any_full(ends) {
        Status::Full
    } else {
        Status::Done
    }
}

fn any_read_fault<S: Source>(ends: &[SourceEnd<S>]) -> bool
    ensures { result ≡ some_ended is_read_fault ends.now }
{
    ends.iter().any(|end| is_read_fault(end.how))
}

fn any_fault<S: Source>(ends: &[SourceEnd<S>]) -> bool
    ensures { result ≡ some_ended is_fault ends.now }
{
    ends.iter().any(|end| is_fault(end.how))
}

fn any_too_long<S: Source>(ends: &[SourceEnd<S>]) -> bool
    ensures { result ≡ some_ended is_too_long ends.now }
{
    ends.iter().any(|end| is_too_long(end.how))
}

fn any_full<S: Source>(ends: &[SourceEnd<S>]) -> bool
    ensures { result ≡ some_ended is_full ends.now }
{
    ends.iter().any(|end| is_full(end.how))
}

fn is_read_fault(how: How) -> bool
    ensures { result ≡ is_read_fault how }
{
    matches!(how, How::ReadFault)
}

fn is_fault(how: How) -> bool
    ensures { result ≡ is_fault how }
{
    matches!(how, How::Fault(_))
}

fn is_too_long(how: How) -> bool
    ensures { result ≡ is_too_long how }
{
    matches!(how, How::TooLong)
}

fn is_full(how: How) -> bool
    ensures { result ≡ is_full how }
{
    matches!(how, How::Full { .. })
}
