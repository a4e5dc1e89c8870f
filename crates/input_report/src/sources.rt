//! A source and what is told of it.
ghost use Rattle.std.specs.Prelude.{◌≡◌, None, IsSomeAnd, List, ℕ};
ghost use Rattle.vast_io.specs.Causes.{Rose};
ghost use Rattle.input_report.specs.Causes.{GoesWith, IsOfReport, SinkStands, TellsSource, rest_of};
ghost use Rattle.input_report.specs.Texts.{check_text, scan_text};

use crate::checking::CheckReport;
use crate::report::{Report, write_report};
use crate::scanning::ScanReport;
use crate::status::Status;
use importer::{Input, SourceEnd};
use query_meaning::Expr;
use std::alloc::Global;
use vast_io::{Sink, Source};
use vast_value::Bytes;

/// Writes the line of each row of a source that matches a query, in order, and then how the source ended, but where all went
/// well.
///
/// Each row is carried: its ports have the transport that its protocol names. The status is Done, WriteFault, ReadFault,
/// InputFault, TooLong or Memory. Only a first part of the text is written where the sink failed or memory was wanting. The
/// end has the number 1, this name and no rows, and hands the source back; it tells `Unread` where the source's end was not
/// met.
pub fn scan_source<S: Source, K: Sink>(
    alloc: Global,
    name: Bytes,
    expr: &Expr,
    s: S,
    sink: &mut K,
) -> (Status, SourceEnd<S>)
    ensures source { IsSomeAnd result.1.rest (λ rest. TellsSource (λ steps. scan_text steps expr.now) (rest_of S.left S.faults s) (rest_of S.left S.faults rest) (K.written sink.old) (K.written sink.new) result.0 result.1.how) }
    ensures known { IsOfReport result.0 }
    ensures how { GoesWith result.0 result.1.how }
    ensures stands { SinkStands result.0 (K.faults sink.old) (K.faults sink.new) }
    ensures write { result.0 ≡ Status.WriteFault → Rose (K.faults sink.old) (K.faults sink.new) }
    ensures end { (result.1.source ≡ 1) × (result.1.name ≡ name) × (result.1.rows ≡ 0) }
{
    tell_source(alloc, name, ScanReport::new(expr), s, sink)
}

/// Writes the line of each layout of a source with the number of its rows, in order, and then how the source ended.
///
/// The status and the end are as those of [`scan_source`].
pub fn check_source<S: Source, K: Sink>(
    alloc: Global,
    name: Bytes,
    s: S,
    sink: &mut K,
) -> (Status, SourceEnd<S>)
    ensures source { IsSomeAnd result.1.rest (λ rest. TellsSource check_text (rest_of S.left S.faults s) (rest_of S.left S.faults rest) (K.written sink.old) (K.written sink.new) result.0 result.1.how) }
    ensures known { IsOfReport result.0 }
    ensures how { GoesWith result.0 result.1.how }
    ensures stands { SinkStands result.0 (K.faults sink.old) (K.faults sink.new) }
    ensures write { result.0 ≡ Status.WriteFault → Rose (K.faults sink.old) (K.faults sink.new) }
    ensures end { (result.1.source ≡ 1) × (result.1.name ≡ name) × (result.1.rows ≡ 0) }
{
    let report = CheckReport {
        layout: None,
        rows: 0,
    };
    tell_source(alloc, name, report, s, sink)
}

fn tell_source<W: Report + Drop, S: Source, K: Sink>(
    alloc: Global,
    name: Bytes,
    report: W,
    s: S,
    sink: &mut K,
) -> (Status, SourceEnd<S>)
    requires heading { W.heading report ≡ None }
    requires rows { W.rows report ≡ 0 }
    ensures source { IsSomeAnd result.1.rest (λ rest. TellsSource (W.behind report) (rest_of S.left S.faults s) (rest_of S.left S.faults rest) (K.written sink.old) (K.written sink.new) result.0 result.1.how) }
    ensures known { IsOfReport result.0 }
    ensures how { GoesWith result.0 result.1.how }
    ensures stands { SinkStands result.0 (K.faults sink.old) (K.faults sink.new) }
    ensures write { result.0 ≡ Status.WriteFault → Rose (K.faults sink.old) (K.faults sink.new) }
    ensures end { (result.1.source ≡ 1) × (result.1.name ≡ name) × (result.1.rows ≡ 0) }
{
    let mut report = report;
    let mut input = Input::start(alloc, s);
    let went = write_report(alloc, &mut report, &mut input, sink);
    let end = SourceEnd {
        source: 1,
        name,
        rows: 0,
        how: went.how,
        rest: Some(input.into_source()),
    };
    (went.status, end)
}
