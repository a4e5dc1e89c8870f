//! What is told of an input.
ghost use Rattle.std.specs.Prelude.{◌≡◌, ◌≢◌, ℕ, ◌+◌, ◌<◌, ◌≤◌, ◌^◌, ◌++◌, ◌∷◌, [], List, Option, None, Some, is_some, IfOk, OnOk, IsErrOf};
ghost use Rattle.std.specs.Option.{option_map};
ghost use Rattle.vast_io.specs.Causes.{Rose};
ghost use Rattle.vast_io.specs.Told.{WritesPart};
ghost use Rattle.vast_value.specs.Headings.{Heading, heading_of};
ghost use Rattle.zeek_log.specs.Table.{LogStep};
ghost use Rattle.importer.specs.declared.ends.ImportEnd.TheVariants as import;
ghost use Rattle.importer.specs.Coming.{fresh, heading_at, step_at};
ghost use Rattle.importer.specs.Ending.{Answers, ahead, only_end};
ghost use Rattle.input_report.specs.declared.report.WriteEnd.TheVariants.{Memory, Failed as SinkFailed};
ghost use Rattle.input_report.specs.Causes.{GoesOf, GoesWith, IsOfReport, LeavesNothing, ReadsWell, SinkStands, TellsSource, TellsText, rest_of};
ghost use Rattle.input_report.specs.Going.{GoesTo, SendsAt, IsCauseAt};
ghost use Rattle.input_report.specs.Reports.{Carries, HasCells, Moves, heading_after, status_of};

use crate::buffer::Buffer;
use crate::status::Status;
use importer::{How, ImportEnd, Input, Place};
use std::alloc::{AllocError, Global};
use vast_io::{Failed, Sink, Source};
use vast_value::{Bytes, Layout};
use zeek_log::Moved;

/// What is told of an input, step by step.
///
/// Contracts see what is still to be told of the steps that are to come, the heading of the last layout, and how many
/// rows of it there were, where they are counted.
pub trait Report {
    ghost behind: { Self → Answers LogStep → List ℕ };

    ghost heading: { Self → Option Heading };

    ghost rows: { Self → ℕ };

    /// Takes the step at this place, and puts what it tells behind what `out` holds.
    fn take(
        &mut self,
        alloc: Global,
        place: &Place<'_>,
        moved: Moved,
        out: &mut Bytes,
    ) -> Result<(), AllocError>
        requires has { HasCells (heading self.old) (step_at place.now.at place.now.row moved) }
        requires told { heading_at place.now.at ≡ heading_after (heading self.old) (step_at place.now.at place.now.row moved) }
        requires few { rows self.old < 2 ^ 40 }
        ensures text { OnOk result (Carries (behind self.old) (behind self.new) (step_at place.now.at place.now.row moved) out.old out.new) }
        ensures heading { OnOk result (heading self.new ≡ heading_after (heading self.old) (step_at place.now.at place.now.row moved)) }
        ensures rows { OnOk result (rows self.new ≤ rows self.old + 1) };

    /// Puts what is told at the end of an input behind what `out` holds, where all of it was given if `None`.
    fn end(&self, end: Option<ImportEnd>, out: &mut Bytes) -> Result<(), AllocError>
        ensures { OnOk result (out.new ≡ out.old ++ behind self.now (only_end end)) };
}

/// Why a text was not written whole.
#[derive(Clone, Copy, Debug, PartialEq, Eq)]
pub enum WriteEnd {
    /// The sink's count of faults rose.
    Failed,
    /// No memory was left.
    Memory,
}

impl From<AllocError> for WriteEnd {
    ghost from_gives = { λ _ end. end ≡ Memory };

    fn from(_error: AllocError) -> WriteEnd {
        WriteEnd::Memory
    }
}

impl From<Failed> for WriteEnd {
    ghost from_gives = { λ _ end. end ≡ SinkFailed };

    fn from(_failed: Failed) -> WriteEnd {
        WriteEnd::Failed
    }
}

impl WriteEnd {
    /// The status of a report that ends so.
    pub fn status(self) -> Status
        ensures value { result ≡ status_of self }
        ensures known { IsOfReport result }
    {
        match self {
            WriteEnd::Failed => Status::WriteFault,
            WriteEnd::Memory => Status::Memory,
        }
    }
}

/// How a report ended, and how its source went.
#[derive(Clone, Copy, Debug)]
pub struct Went {
    pub status: Status,
    pub how: How,
}

/// Goes through an input that nothing was read of, and writes what is told of it.
pub fn write_report<W: Report, S: Source, K: Sink>(
    alloc: Global,
    report: &mut W,
    input: &mut Input<S>,
    sink: &mut K,
) -> Went
    requires fresh { input.old.at ≡ fresh }
    requires heading { W.heading report.old ≡ None }
    requires rows { W.rows report.old ≡ 0 }
    ensures source { TellsSource (W.behind report.old) (rest_of S.left S.faults input.old.source) (rest_of S.left S.faults input.new.source) (K.written sink.old) (K.written sink.new) result.status result.how }
    ensures known { IsOfReport result.status }
    ensures how { GoesWith result.status result.how }
    ensures stands { SinkStands result.status (K.faults sink.old) (K.faults sink.new) }
    ensures write { result.status ≡ Status.WriteFault → Rose (K.faults sink.old) (K.faults sink.new) }
{
    let Ok(buffer) = Buffer::new(alloc) else {
        return cut_off(Status::Memory);
    };
    let mut buffer = buffer;
    loop {
        match go_on(input, &mut buffer, sink) {
            Next::Step(moved) => {
                if let Err(end) = write_step(alloc, report, input, moved, &mut buffer, sink) {
                    return cut_off(end.status());
                }
            }
            Next::Ended(end) => {
                let status = write_end(report, end, &mut buffer, sink);
                let how = How::ended(end);
                return Went { status, how };
            }
            Next::Refused => return cut_off(Status::WriteFault),
        }
    }
}

// The end of a report whose input's end was not met.
fn cut_off(status: Status) -> Went
    ensures status { result.status ≡ status }
    ensures how { result.how ≡ How.Unread }
{
    Went {
        status,
        how: How::Unread,
    }
}

/// How a report goes on.
#[derive(Clone, Copy, Debug, PartialEq, Eq)]
enum Next {
    /// By a step.
    Step(Moved),
    /// The input ended: all of it was given where this is `None`.
    Ended(Option<ImportEnd>),
    /// The sink failed before either.
    Refused,
}

// Goes on to the next step. What is gathered is written before more of the source is read, so that nothing that was told
// waits for a source.
fn go_on<S: Source, K: Sink>(input: &mut Input<S>, buffer: &mut Buffer, sink: &mut K) -> Next
    ensures goes { GoesTo result input.old.at input.new.at input.new.row (S.left input.old.source) (S.left input.new.source) (S.faults input.old.source) (S.faults input.new.source) }
    ensures tells { is_some (S.left input.new.source) ≡ is_some (S.left input.old.source) }
    ensures sends { SendsAt result buffer.old.text buffer.new.text (K.written sink.old) (K.written sink.new) }
    ensures cause { IsCauseAt result (K.faults sink.old) (K.faults sink.new) }
{
    if input.advance_in_place() {
        return Next::Step(Moved::Line);
    }
    if !input.holds_row() && buffer.write(sink).is_err() {
        return Next::Refused;
    }
    match input.advance_by_reading() {
        Ok(Some(moved)) => Next::Step(moved),
        Ok(None) => Next::Ended(None),
        Err(end) => Next::Ended(Some(end)),
    }
}

/// A copy of the layout of the last head, if it stands.
pub fn last_layout(alloc: Global, place: &Place<'_>) -> Result<Option<Layout>, AllocError>
    ensures { IfOk result (λ layout. option_map heading_of layout ≡ heading_at place.now.at) }
{
    match place.layout() {
        Some(layout) => Ok(Some(layout.duplicate(alloc)?)),
        None => Ok(None),
    }
}

// Takes the step at which the input stands, and writes what is gathered where it is much.
fn write_step<W: Report, S: Source, K: Sink>(
    alloc: Global,
    report: &mut W,
    input: &Input<S>,
    moved: Moved,
    buffer: &mut Buffer,
    sink: &mut K,
) -> Result<(), WriteEnd>
    requires has { HasCells (W.heading report.old) (step_at input.now.at input.now.row moved) }
    requires told { heading_at input.now.at ≡ heading_after (W.heading report.old) (step_at input.now.at input.now.row moved) }
    requires few { W.rows report.old < 2 ^ 40 }
    ensures moves { OnOk result (Moves (W.behind report.old) (W.behind report.new) (step_at input.now.at input.now.row moved) buffer.old.text buffer.new.text (K.written sink.old) (K.written sink.new)) }
    ensures part { (rest : Answers LogStep) → WritesPart (K.written sink.old) (K.written sink.new) (buffer.old.text ++ W.behind report.old (ahead (step_at input.now.at input.now.row moved ∷ []) rest)) }
    ensures heading { OnOk result (W.heading report.new ≡ heading_after (W.heading report.old) (step_at input.now.at input.now.row moved)) }
    ensures rows { OnOk result (W.rows report.new ≤ W.rows report.old + 1) }
    ensures failed { IsErrOf result WriteEnd.Failed → Rose (K.faults sink.old) (K.faults sink.new) }
    ensures memory { IsErrOf result WriteEnd.Memory → K.faults sink.new ≡ K.faults sink.old }
    ensures kept { OnOk result (K.faults sink.new ≡ K.faults sink.old) }
{
    let place = input.place();
    report.take(alloc, &place, moved, &mut buffer.text)?;
    buffer.write_full(sink)?;
    Ok(())
}

// Tells the end, writes all that is gathered, and answers the status of a report that ends so. Where memory was wanting
// nothing more is written.
fn write_end<W: Report, K: Sink>(
    report: &W,
    end: Option<ImportEnd>,
    buffer: &mut Buffer,
    sink: &mut K,
) -> Status
    ensures ended { end ≢ Some import.Memory → TellsText result end (buffer.old.text ++ W.behind report.now (only_end end)) (K.written sink.old) (K.written sink.new) }
    ensures memory { end ≡ Some import.Memory → (result ≡ Status.Memory) × (K.written sink.new ≡ K.written sink.old) }
    ensures known { IsOfReport result }
    ensures read { result ≡ Status.ReadFault → end ≡ Some import.ReadFault }
    ensures write { result ≡ Status.WriteFault → Rose (K.faults sink.old) (K.faults sink.new) }
    ensures stands { SinkStands result (K.faults sink.old) (K.faults sink.new) }
{
    match end {
        Some(ImportEnd::Memory) => Status::Memory,
        _ => write_last(report, end, buffer, sink),
    }
}

fn write_last<W: Report, K: Sink>(
    report: &W,
    end: Option<ImportEnd>,
    buffer: &mut Buffer,
    sink: &mut K,
) -> Status
    ensures ended { TellsText result end (buffer.old.text ++ W.behind report.now (only_end end)) (K.written sink.old) (K.written sink.new) }
    ensures known { IsOfReport result }
    ensures read { result ≡ Status.ReadFault → end ≡ Some import.ReadFault }
    ensures write { result ≡ Status.WriteFault → Rose (K.faults sink.old) (K.faults sink.new) }
    ensures stands { SinkStands result (K.faults sink.old) (K.faults sink.new) }
{
    if report.end(end, &mut buffer.text).is_err() {
        return Status::Memory;
    }
    if buffer.write(sink).is_err() {
        return Status::WriteFault;
    }
    match end {
        None => Status::Done,
        Some(ImportEnd::Fault(_)) => Status::InputFault,
        Some(ImportEnd::ReadFault) => Status::ReadFault,
        Some(ImportEnd::TooLong) => Status::TooLong,
        Some(ImportEnd::Memory) => Status::Memory,
    }
}
