//! A command on one file.
ghost use Rattle.std.specs.Prelude.{◌≡◌, ◌≤◌, ℕ, List, None, Some, IfErr, IfOk, OnOk};
ghost use Rattle.zeek_log.specs.Table.{LogStep};
ghost use Rattle.importer.specs.Ending.{Answers};
ghost use Rattle.input_report.specs.Texts.{check_text, scan_text};
ghost use Rattle.step_script.specs.Runs.{Agree};
ghost use Rattle.vast.specs.Causes.{Says, Does, Refuses, ReportsFile, outcome, outside, rest_in};
ghost use Rattle.vast.specs.Texts.{open_line};
ghost use Rattle.vast.specs.Words.{Scan, Check};

use crate::texts::{open_line, refused_line};
use importer::SourceEnd;
use input_report::{Status, check_source, scan_source};
use query_meaning::Expr;
use query_parse::{ParseEnd, QueryFault, parse};
use std::alloc::{AllocError, Global};
use vast_io::{OpenEnd, Opener, Sink, write_all};
use vast_value::Bytes;

/// How a command on one file ended.
#[derive(Drop)]
pub struct Reported<O: Opener> {
    pub status: Status,
    /// The end of the source. It is `None` exactly where none was opened, and may be `None` under `Memory`.
    pub end: Option<SourceEnd<O::Src>>,
}

/// Refuses words that are no command.
pub fn refuse_words<O: Opener, K: Sink>(opener: &O, sink: &mut K) -> Reported<O>
    ensures does { Does None (outside (O.bytes_of opener.now) (O.faults opener.now) (K.written sink.old) (K.faults sink.old)) (outside (O.bytes_of opener.now) (O.faults opener.now) (K.written sink.new) (K.faults sink.new)) (outcome O.Src.left O.Src.faults result.status (rest_in result.end)) }
{
    say(
        sink,
        b"usage: vast scan FILE QUERY, steps SCRIPT, check FILE, load SEED ROWS, run FILE..\n",
    );
    unopened(Status::Usage)
}

/// Writes the rows of a file that match a query.
pub fn scan_file<O: Opener, K: Sink>(
    alloc: Global,
    file: &str,
    query: &str,
    opener: &mut O,
    sink: &mut K,
) -> Reported<O>
    ensures does { Does (Some (Scan file.now query.now)) (outside (O.bytes_of opener.old) (O.faults opener.old) (K.written sink.old) (K.faults sink.old)) (outside (O.bytes_of opener.new) (O.faults opener.new) (K.written sink.new) (K.faults sink.new)) (outcome O.Src.left O.Src.faults result.status (rest_in result.end)) }
{
    match parse(alloc, query) {
        Ok(expr) => scan_opened(alloc, file, &expr, opener, sink),
        Err(ParseEnd::Fault(fault)) => unopened(refuse_query(alloc, fault, sink)),
        Err(ParseEnd::Memory) => unopened(Status::Memory),
    }
}

/// Writes the layouts of a file.
pub fn check_file<O: Opener, K: Sink>(
    alloc: Global,
    file: &str,
    opener: &mut O,
    sink: &mut K,
) -> Reported<O>
    ensures does { Does (Some (Check file.now)) (outside (O.bytes_of opener.old) (O.faults opener.old) (K.written sink.old) (K.faults sink.old)) (outside (O.bytes_of opener.new) (O.faults opener.new) (K.written sink.new) (K.faults sink.new)) (outcome O.Src.left O.Src.faults result.status (rest_in result.end)) }
{
    check_opened(alloc, file, opener, sink)
}

// Writes the line of a query that is refused.
fn refuse_query<K: Sink>(alloc: Global, fault: QueryFault, sink: &mut K) -> Status
    ensures { Refuses result fault (K.faults sink.old) (K.faults sink.new) (K.written sink.old) (K.written sink.new) }
{
    match refused_line(alloc, fault) {
        Ok(line) => {
            say(sink, line.as_slice());
            Status::QueryRefused
        }
        Err(_) => Status::Memory,
    }
}

// Opens a file, and writes its rows that match.
fn scan_opened<O: Opener, K: Sink>(
    alloc: Global,
    file: &str,
    expr: &Expr,
    opener: &mut O,
    sink: &mut K,
) -> Reported<O>
    ensures { ReportsFile file.now (λ steps. scan_text steps expr.now) (outside (O.bytes_of opener.old) (O.faults opener.old) (K.written sink.old) (K.faults sink.old)) (outside (O.bytes_of opener.new) (O.faults opener.new) (K.written sink.new) (K.faults sink.new)) (outcome O.Src.left O.Src.faults result.status (rest_in result.end)) }
{
    match open_file(alloc, file, opener, sink) {
        Ok((name, source)) => {
            let (status, end) = scan_source(alloc, name, expr, source, sink);
            let end = Some(end);
            Reported { status, end }
        }
        Err(status) => unopened(status),
    }
}

// Opens a file, and writes its layouts.
fn check_opened<O: Opener, K: Sink>(
    alloc: Global,
    file: &str,
    opener: &mut O,
    sink: &mut K,
) -> Reported<O>
    ensures { ReportsFile file.now check_text (outside (O.bytes_of opener.old) (O.faults opener.old) (K.written sink.old) (K.faults sink.old)) (outside (O.bytes_of opener.new) (O.faults opener.new) (K.written sink.new) (K.faults sink.new)) (outcome O.Src.left O.Src.faults result.status (rest_in result.end)) }
{
    match open_file(alloc, file, opener, sink) {
        Ok((name, source)) => {
            let (status, end) = check_source(alloc, name, source, sink);
            let end = Some(end);
            Reported { status, end }
        }
        Err(status) => unopened(status),
    }
}

/// The file's name and its source, or how a command ends that could not open it, whose line is then written.
pub fn open_file<O: Opener, K: Sink>(
    alloc: Global,
    file: &str,
    opener: &mut O,
    sink: &mut K,
) -> Result<(Bytes, O::Src), Status>
    ensures left { IfOk result (λ opened. O.Src.left opened.1 ≡ O.bytes_of opener.old file.now) }
    ensures fresh { IfOk result (λ opened. O.Src.faults opened.1 ≡ 0) }
    ensures opens { OnOk result (O.faults opener.new ≡ O.faults opener.old) }
    ensures same { Agree (O.bytes_of opener.new) (O.bytes_of opener.old) }
    ensures written { OnOk result (K.written sink.new ≡ K.written sink.old) }
    ensures writes { OnOk result (K.faults sink.new ≡ K.faults sink.old) }
    ensures unopened { IfErr result (λ status. (text : Answers LogStep → List ℕ) → ReportsFile file.now text (outside (O.bytes_of opener.old) (O.faults opener.old) (K.written sink.old) (K.faults sink.old)) (outside (O.bytes_of opener.new) (O.faults opener.new) (K.written sink.new) (K.faults sink.new)) (outcome O.Src.left O.Src.faults status None)) }
{
    let Ok((name, line)) = name_and_line(alloc, file) else {
        return Err(Status::Memory);
    };
    match opener.open_one(alloc, file) {
        Ok(source) => Ok((name, source)),
        Err(OpenEnd::Failed) => {
            say(sink, line.as_slice());
            Err(Status::OpenFault)
        }
        Err(OpenEnd::Memory) => Err(Status::Memory),
    }
}

// The name of a file, and the line that says that it could not be opened.
fn name_and_line(alloc: Global, file: &str) -> Result<(Bytes, Bytes), AllocError>
    ensures { IfOk result (λ texts. texts.1 ≡ open_line file.now) }
{
    let mut name = Bytes::new(alloc);
    name.append(file.as_bytes())?;
    Ok((name, open_line(alloc, file)?))
}

// The end of a command that opened nothing.
fn unopened<O: Opener>(status: Status) -> Reported<O>
    ensures status { result.status ≡ status }
    ensures end { result.end ≡ None }
{
    Reported { status, end: None }
}

// Writes a line whose failing changes no status.
fn say<K: Sink>(sink: &mut K, text: &[u8])
    ensures says { Says (K.faults sink.old) (K.faults sink.new) (K.written sink.old) (K.written sink.new) text.now }
    ensures later { K.faults sink.old ≤ K.faults sink.new }
{
    let _ = write_all(sink, text);
}
