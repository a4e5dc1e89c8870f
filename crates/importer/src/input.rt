//! The steps of a source.
ghost use Rattle.std.specs.Prelude.{◌≡◌, ◌<◌, ◌≤◌, ℕ, [], ◌∷◌, Ok, Err, None, Some, Option, MatchOption, false, is_some, IfOk, IfSome, OnOk, IsSome, IsTrue, length};
ghost use Rattle.source_block.specs.Holding.{most_bytes};
ghost use Rattle.vast_value.specs.Headings.{heading_of};
ghost use Rattle.zeek_log.specs.Reader.{StepFits, StepHas};
ghost use Rattle.zeek_log.specs.Steps.{step_of};
ghost use Rattle.zeek_log.specs.Table.{Line};
ghost use Rattle.importer.specs.declared.ends.ImportEnd.TheVariants.{Memory};
ghost use Rattle.importer.specs.Coming.{Ended, EndsAt, HasFaults, HoldsNext, IsLost, IsQuiet, Stays, StepsOn, end_answer, fresh, heading_at, moves_given, step_at, steps_given, steps_left};
ghost use Rattle.importer.specs.Forms.{is_start};
ghost use Rattle.importer.specs.Inputs.{IsBegun, IsOfCapture, Opens, ReadStays, moved_given, read_given, row_of, standing_of, stands_after, step_or_end, went_to};

use crate::ends::{ImportEnd, InputFault, end_answer, end_of_capture, end_of_log};
use crate::flows::FlowReader;
use crate::form::{Form, end_of_start, form_of, take_start};
use crate::log::LogReader;
use crate::packets::PacketReader;
use crate::place::Place;
use source_block::{Block, Took};
use std::alloc::Global;
use std::marker::Model;
use vast_io::Source;
use vast_value::{Layout, Row};
use zeek_log::{Moved, Step};

/// How far an input is.
#[derive(Drop)]
pub enum Phase {
    /// Nothing was read.
    Fresh,
    /// Its log is read.
    Log(LogReader),
    /// The packets of its capture are read.
    Packets(PacketReader),
    /// The flows of its capture are given.
    Flows(FlowReader),
    /// Nothing but this end is to come: `None` where all was given.
    Ended(Option<ImportEnd>),
}

/// Reads the steps of a source, each row carried.
///
/// [`next`](Input::next) answers steps with what they hold. [`advance`](Input::advance) goes on to the next step, and
/// [`place`](Input::place) is then seen as the row at which the input stands, until the next call. Contracts see where it
/// stands, by which it is known what is still to come, the cells of that row, none where it stands at no row, and the source.
#[derive(Drop)]
pub struct Input<S: Source> {
    alloc: Global,
    phase: Phase,
    source: S,
}

impl<S: Source> Model for Input<S> {
    ghost use Rattle.importer.specs.Coming.{Standpoint};
    ghost use Rattle.importer.specs.Inputs.{row_of, standing_of};

    ghost Value = { Standpoint S };

    ghost view = { λ input. record { at = standing_of input.phase; row = row_of input.phase; source = input.source } };
}

impl<S: Source> Input<S> {
    /// The input of a source. It takes no memory.
    pub fn start(alloc: Global, source: S) -> Input<S>
        ensures { result ≡ record { at = fresh; row = []; source = source } }
    {
        Input {
            alloc,
            phase: Phase::Fresh,
            source,
        }
    }

    /// The source as it was left.
    pub fn into_source(self) -> S
        ensures { result ≡ self.source }
    {
        self.source
    }

    /// The next step, `None` where all of the input was given, or why no more comes. After any end every later call
    /// gives the same.
    ///
    /// A row comes only behind a head, and it fits the layout of the last one. A fault comes where the reader of logs
    /// has it, `ReadFault` only where the source's count of faults rose, and `TooLong` where 2^36 bytes were taken.
    pub fn next(&mut self) -> Result<Option<Step>, ImportEnd>
        ensures next { StepsOn self.old.at self.new.at (S.left self.old.source) (S.left self.new.source) (steps_given result) }
        ensures ends { EndsAt result self.new.at }
        ensures stays { Stays self.old.at self.old self.new result }
        ensures fits { IfOk result (λ found. IfSome found (λ step. StepFits (heading_at self.old.at) (heading_at self.new.at) (step_of step))) }
        ensures faults { HasFaults self.old.at self.new.at (S.faults self.old.source) (S.faults self.new.source) }
        ensures tells { is_some (S.left self.new.source) ≡ is_some (S.left self.old.source) }
        ensures less { IfOk result (λ found. IsSome found → steps_left self.new.at < steps_left self.old.at) }
        ensures row { self.new.row ≡ [] }
    {
        match self.read() {
            Ok(step) => Ok(Some(step)),
            Err(end) => {
                self.phase = Phase::Ended(end);
                end_answer(end)
            }
        }
    }

    /// Goes on to the next step, as [`next`](Input::next), and stands there. A row at which it stands has a cell for each column
    /// of the last layout.
    pub fn advance(&mut self) -> Result<Option<Moved>, ImportEnd>
        ensures next { StepsOn self.old.at self.new.at (S.left self.old.source) (S.left self.new.source) (moves_given self.new.at self.new.row result) }
        ensures ends { EndsAt result self.new.at }
        ensures stays { Stays self.old.at self.old self.new result }
        ensures has { IfOk result (λ found. IfSome found (λ moved. StepHas (heading_at self.old.at) (heading_at self.new.at) (step_at self.new.at self.new.row moved))) }
        ensures faults { HasFaults self.old.at self.new.at (S.faults self.old.source) (S.faults self.new.source) }
        ensures tells { is_some (S.left self.new.source) ≡ is_some (S.left self.old.source) }
        ensures less { IfOk result (λ found. IsSome found → steps_left self.new.at < steps_left self.old.at) }
    {
        if self.advance_in_place() {
            return Ok(Some(Moved::Line));
        }
        self.advance_by_reading()
    }

    /// Goes on to the next row, where it is seen whole among the bytes held. Nothing is read. `false` says nothing of the
    /// step, and leaves where the input stands.
    pub fn advance_in_place(&mut self) -> bool
        ensures next { IsTrue result → StepsOn self.old.at self.new.at (S.left self.old.source) (S.left self.new.source) (Line self.new.row ∷ []) }
        ensures has { IsTrue result → StepHas (heading_at self.old.at) (heading_at self.new.at) (Line self.new.row) }
        ensures less { IsTrue result → steps_left self.new.at < steps_left self.old.at }
        ensures faults { IsTrue result → (count : ℕ) → HasFaults self.old.at self.new.at count count }
        ensures there { IsTrue result → ¬ IsLost self.new.at }
        ensures source { self.new.source ≡ self.old.source }
        ensures ended { (end : Option ImportEnd) → self.old.at ≡ Ended end → self.new ≡ self.old }
        ensures stays { result ≡ false → self.new ≡ record { at = self.old.at; row = []; source = self.old.source } }
    {
        match &mut self.phase {
            Phase::Log(log) => return log.advance_in_place(),
            Phase::Packets(packets) => packets.stand_at(Row::new(self.alloc)),
            Phase::Flows(flows) => flows.stand_at(Row::new(self.alloc)),
            _ => {}
        }
        false
    }

    /// Goes on as [`advance`](Input::advance), and reads each step by the way that knows every spelling.
    pub fn advance_by_reading(&mut self) -> Result<Option<Moved>, ImportEnd>
        ensures next { StepsOn self.old.at self.new.at (S.left self.old.source) (S.left self.new.source) (moves_given self.new.at self.new.row result) }
        ensures ends { EndsAt result self.new.at }
        ensures stays { Stays self.old.at self.old self.new result }
        ensures has { IfOk result (λ found. IfSome found (λ moved. StepHas (heading_at self.old.at) (heading_at self.new.at) (step_at self.new.at self.new.row moved))) }
        ensures faults { HasFaults self.old.at self.new.at (S.faults self.old.source) (S.faults self.new.source) }
        ensures tells { is_some (S.left self.new.source) ≡ is_some (S.left self.old.source) }
        ensures quiet { IsQuiet self.old.at (S.left self.old.source) (S.left self.new.source) (S.faults self.old.source) (S.faults self.new.source) }
        ensures less { IfOk result (λ found. IsSome found → steps_left self.new.at < steps_left self.old.at) }
    {
        match self.read_on() {
            Ok(moved) => Ok(Some(moved)),
            Err(end) => {
                self.phase = Phase::Ended(end);
                end_answer(end)
            }
        }
    }

    /// Whether the next row is there without reading more of the source, or no more of it is read.
    pub fn holds_row(&self) -> bool
        ensures { IsTrue result → HoldsNext self.now.at }
    {
        match &self.phase {
            Phase::Log(log) => log.holds_row(),
            Phase::Packets(packets) => packets.holds_row(),
            Phase::Flows(_) => true,
            _ => false,
        }
    }

    /// The step at which the input stands.
    pub fn place(&self) -> Place<'_>
        ensures { result ≡ record { at = self.now.at; row = self.now.row } }
    {
        Place::of(self.alloc, &self.phase)
    }

    /// The layout of the last head, as long as its rows may come.
    pub fn layout(&self) -> Option<&Layout>
        ensures { MatchOption result (heading_at self.now.at ≡ None) (λ layout. heading_at self.now.at ≡ Some (heading_of layout.now)) }
    {
        match &self.phase {
            Phase::Log(log) => log.layout(),
            Phase::Packets(packets) => packets.layout(),
            Phase::Flows(flows) => Some(flows.layout()),
            _ => None,
        }
    }

    /// Memory was wanting above: nothing but this is to come.
    pub(crate) fn give_up(&mut self)
        ensures { self.new ≡ record { at = Ended (Some Memory); row = []; source = self.old.source } }
    {
        self.phase = Phase::Ended(Some(ImportEnd::Memory));
    }

    /// Reads on, and leaves an end to be kept.
    fn read(&mut self) -> Result<Step, Option<ImportEnd>>
        ensures next { StepsOn self.old.at (stands_after self.new.at result) (S.left self.old.source) (S.left self.new.source) (read_given result) }
        ensures stays { ReadStays self.old self.new result }
        ensures fits { IfOk result (λ step. StepFits (heading_at self.old.at) (heading_at self.new.at) (step_of step)) }
        ensures there { OnOk result (¬ IsLost self.new.at) }
        ensures faults { HasFaults self.old.at (stands_after self.new.at result) (S.faults self.old.source) (S.faults self.new.source) }
        ensures tells { is_some (S.left self.new.source) ≡ is_some (S.left self.old.source) }
        ensures less { OnOk result (steps_left self.new.at < steps_left self.old.at) }
        ensures row { OnOk result (self.new.row ≡ []) }
    {
        if let Phase::Fresh = &self.phase {
            return self.read_first();
        }
        self.read_begun()
    }

    /// Takes the first bytes, and reads on behind them.
    fn read_first(&mut self) -> Result<Step, Option<ImportEnd>>
        requires { self.old.at ≡ fresh }
        ensures next { StepsOn self.old.at (stands_after self.new.at result) (S.left self.old.source) (S.left self.new.source) (read_given result) }
        ensures fits { IfOk result (λ step. StepFits (heading_at self.old.at) (heading_at self.new.at) (step_of step)) }
        ensures there { OnOk result (¬ IsLost self.new.at) }
        ensures faults { HasFaults self.old.at (stands_after self.new.at result) (S.faults self.old.source) (S.faults self.new.source) }
        ensures tells { is_some (S.left self.new.source) ≡ is_some (S.left self.old.source) }
        ensures less { OnOk result (steps_left self.new.at < steps_left self.old.at) }
        ensures row { OnOk result (self.new.row ≡ []) }
    {
        self.begin()?;
        self.read_begun()
    }

    /// Reads on behind the first bytes.
    fn read_begun(&mut self) -> Result<Step, Option<ImportEnd>>
        requires { IsBegun self.old.at }
        ensures next { StepsOn self.old.at (stands_after self.new.at result) (S.left self.old.source) (S.left self.new.source) (read_given result) }
        ensures stays { ReadStays self.old self.new result }
        ensures fits { IfOk result (λ step. StepFits (heading_at self.old.at) (heading_at self.new.at) (step_of step)) }
        ensures there { OnOk result (¬ IsLost self.new.at) }
        ensures faults { HasFaults self.old.at (stands_after self.new.at result) (S.faults self.old.source) (S.faults self.new.source) }
        ensures tells { is_some (S.left self.new.source) ≡ is_some (S.left self.old.source) }
        ensures less { OnOk result (steps_left self.new.at < steps_left self.old.at) }
        ensures row { OnOk result (self.new.row ≡ []) }
    {
        match &mut self.phase {
            Phase::Fresh => unreachable!(),
            Phase::Log(log) => match log.next(self.alloc, &mut self.source) {
                Ok(step) => Ok(step),
                Err(end) => Err(end_of_log(end)),
            },
            Phase::Packets(_) => self.read_capture(),
            Phase::Flows(_) => self.read_capture(),
            Phase::Ended(end) => Err(*end),
        }
    }

    /// Reads on in a capture.
    fn read_capture(&mut self) -> Result<Step, Option<ImportEnd>>
        requires { IsOfCapture self.old.at }
        ensures next { StepsOn self.old.at (stands_after self.new.at result) (S.left self.old.source) (S.left self.new.source) (read_given result) }
        ensures fits { IfOk result (λ step. StepFits (heading_at self.old.at) (heading_at self.new.at) (step_of step)) }
        ensures there { OnOk result (¬ IsLost self.new.at) }
        ensures faults { HasFaults self.old.at (stands_after self.new.at result) (S.faults self.old.source) (S.faults self.new.source) }
        ensures tells { is_some (S.left self.new.source) ≡ is_some (S.left self.old.source) }
        ensures quiet { IsQuiet self.old.at (S.left self.old.source) (S.left self.new.source) (S.faults self.old.source) (S.faults self.new.source) }
        ensures less { OnOk result (steps_left self.new.at < steps_left self.old.at) }
        ensures row { OnOk result (self.new.row ≡ []) }
        ensures capture { OnOk result (IsOfCapture self.new.at) }
    {
        match &mut self.phase {
            Phase::Packets(packets) => match packets.next(self.alloc, &mut self.source) {
                Ok(came) => {
                    let (step, flows) = came;
                    self.go_to(flows);
                    Ok(step)
                }
                Err(end) => Err(end_of_capture(end)),
            },
            Phase::Flows(flows) => step_or_end(flows.next(self.alloc)),
            _ => unreachable!(),
        }
    }

    /// Goes on to the flows of a capture, if they come.
    fn go_to(&mut self, flows: Option<FlowReader>)
        ensures { self.new ≡ went_to self.old flows }
    {
        if let Some(flows) = flows {
            self.phase = Phase::Flows(flows);
        }
    }

    /// Takes the first bytes, and makes the reader of the form that they tell. No step is given.
    fn begin(&mut self) -> Result<(), Option<ImportEnd>>
        requires { self.old.at ≡ fresh }
        ensures next { StepsOn self.old.at (stands_after self.new.at result) (S.left self.old.source) (S.left self.new.source) [] }
        ensures begun { OnOk result (IsBegun self.new.at × (heading_at self.new.at ≡ None) × ¬ IsLost self.new.at) }
        ensures faults { HasFaults self.old.at (stands_after self.new.at result) (S.faults self.old.source) (S.faults self.new.source) }
        ensures tells { is_some (S.left self.new.source) ≡ is_some (S.left self.old.source) }
        ensures less { OnOk result (steps_left self.new.at ≤ steps_left self.old.at) }
        ensures row { OnOk result (self.new.row ≡ []) }
    {
        let Ok(block) = Block::new(self.alloc) else {
            return Err(Some(ImportEnd::Memory));
        };
        let mut block = block;
        match take_start(&mut self.source, &mut block) {
            Ok(Took::Enough) => {
                self.phase = phase_of(self.alloc, block)?;
                Ok(())
            }
            Ok(Took::Stopped(stop)) => Err(end_of_start(stop, block.as_slice())),
            Err(_) => Err(Some(ImportEnd::Memory)),
        }
    }

    /// Goes on, and leaves an end to be kept.
    fn read_on(&mut self) -> Result<Moved, Option<ImportEnd>>
        ensures next { StepsOn self.old.at (stands_after self.new.at result) (S.left self.old.source) (S.left self.new.source) (moved_given self.new.at self.new.row result) }
        ensures stays { ReadStays self.old self.new result }
        ensures has { IfOk result (λ moved. StepHas (heading_at self.old.at) (heading_at self.new.at) (step_at self.new.at self.new.row moved)) }
        ensures there { OnOk result (¬ IsLost self.new.at) }
        ensures faults { HasFaults self.old.at (stands_after self.new.at result) (S.faults self.old.source) (S.faults self.new.source) }
        ensures tells { is_some (S.left self.new.source) ≡ is_some (S.left self.old.source) }
        ensures quiet { IsQuiet self.old.at (S.left self.old.source) (S.left self.new.source) (S.faults self.old.source) (S.faults self.new.source) }
        ensures less { OnOk result (steps_left self.new.at < steps_left self.old.at) }
    {
        if let Phase::Fresh = &self.phase {
            return self.go_on_first();
        }
        self.go_on()
    }

    /// Takes the first bytes, and goes on behind them.
    fn go_on_first(&mut self) -> Result<Moved, Option<ImportEnd>>
        requires { self.old.at ≡ fresh }
        ensures next { StepsOn self.old.at (stands_after self.new.at result) (S.left self.old.source) (S.left self.new.source) (moved_given self.new.at self.new.row result) }
        ensures has { IfOk result (λ moved. StepHas (heading_at self.old.at) (heading_at self.new.at) (step_at self.new.at self.new.row moved)) }
        ensures there { OnOk result (¬ IsLost self.new.at) }
        ensures faults { HasFaults self.old.at (stands_after self.new.at result) (S.faults self.old.source) (S.faults self.new.source) }
        ensures tells { is_some (S.left self.new.source) ≡ is_some (S.left self.old.source) }
        ensures less { OnOk result (steps_left self.new.at < steps_left self.old.at) }
    {
        self.begin()?;
        self.go_on()
    }

    /// Goes on behind the first bytes.
    fn go_on(&mut self) -> Result<Moved, Option<ImportEnd>>
        requires { IsBegun self.old.at }
        ensures next { StepsOn self.old.at (stands_after self.new.at result) (S.left self.old.source) (S.left self.new.source) (moved_given self.new.at self.new.row result) }
        ensures stays { ReadStays self.old self.new result }
        ensures has { IfOk result (λ moved. StepHas (heading_at self.old.at) (heading_at self.new.at) (step_at self.new.at self.new.row moved)) }
        ensures there { OnOk result (¬ IsLost self.new.at) }
        ensures faults { HasFaults self.old.at (stands_after self.new.at result) (S.faults self.old.source) (S.faults self.new.source) }
        ensures tells { is_some (S.left self.new.source) ≡ is_some (S.left self.old.source) }
        ensures quiet { IsQuiet self.old.at (S.left self.old.source) (S.left self.new.source) (S.faults self.old.source) (S.faults self.new.source) }
        ensures less { OnOk result (steps_left self.new.at < steps_left self.old.at) }
    {
        match &mut self.phase {
            Phase::Fresh => unreachable!(),
            Phase::Log(log) => match log.advance_by_reading(self.alloc, &mut self.source) {
                Ok(moved) => Ok(moved),
                Err(end) => Err(end_of_log(end)),
            },
            Phase::Packets(_) => self.go_on_capture(),
            Phase::Flows(_) => self.go_on_capture(),
            Phase::Ended(end) => Err(*end),
        }
    }

    /// Goes on in a capture.
    fn go_on_capture(&mut self) -> Result<Moved, Option<ImportEnd>>
        requires { IsOfCapture self.old.at }
        ensures next { StepsOn self.old.at (stands_after self.new.at result) (S.left self.old.source) (S.left self.new.source) (moved_given self.new.at self.new.row result) }
        ensures has { IfOk result (λ moved. StepHas (heading_at self.old.at) (heading_at self.new.at) (step_at self.new.at self.new.row moved)) }
        ensures there { OnOk result (¬ IsLost self.new.at) }
        ensures faults { HasFaults self.old.at (stands_after self.new.at result) (S.faults self.old.source) (S.faults self.new.source) }
        ensures tells { is_some (S.left self.new.source) ≡ is_some (S.left self.old.source) }
        ensures quiet { IsQuiet self.old.at (S.left self.old.source) (S.left self.new.source) (S.faults self.old.source) (S.faults self.new.source) }
        ensures less { OnOk result (steps_left self.new.at < steps_left self.old.at) }
    {
        match self.read_capture()? {
            Step::Head(_) => Ok(Moved::Head),
            Step::Line(row) => {
                self.stand_at(row);
                Ok(Moved::Line)
            }
        }
    }

    /// Stands at a row of a capture.
    fn stand_at(&mut self, row: Row)
        requires { IsOfCapture self.old.at }
        ensures { self.new ≡ record { at = self.old.at; row = row; source = self.old.source } }
    {
        match &mut self.phase {
            Phase::Packets(packets) => packets.stand_at(row),
            Phase::Flows(flows) => flows.stand_at(row),
            _ => unreachable!(),
        }
    }
}

/// A step, or what is to be kept where none comes.
fn step_or_end(answer: Result<Option<Step>, ImportEnd>) -> Result<Step, Option<ImportEnd>>
    ensures { result ≡ step_or_end answer }
{
    match answer {
        Ok(Some(step)) => Ok(step),
        Ok(None) => Err(None),
        Err(end) => Err(Some(end)),
    }
}

/// The reader of the form that these bytes tell, which are all that were taken.
fn phase_of(alloc: Global, block: Block) -> Result<Phase, Option<ImportEnd>>
    requires told { is_start block.bytes ≡ false }
    requires all { block.taken ≡ length block.bytes }
    requires bound { block.taken ≤ most_bytes }
    requires kept { block.kept ≤ 65540 }
    ensures opens { Opens block.bytes result }
    ensures less { IfOk result (λ phase. (steps_left (standing_of phase) ≤ steps_left fresh) × (heading_at (standing_of phase) ≡ None)) }
{
    match form_of(block.as_slice()) {
        Form::Log => match LogReader::with_block(alloc, block) {
            Ok(log) => Ok(Phase::Log(log)),
            Err(_) => Err(Some(ImportEnd::Memory)),
        },
        Form::Capture => match PacketReader::with_block(alloc, block) {
            Ok(packets) => Ok(Phase::Packets(packets)),
            Err(_) => Err(Some(ImportEnd::Memory)),
        },
        Form::Refused(fault) => Err(Some(ImportEnd::Fault(InputFault::Form(fault)))),
    }
}
