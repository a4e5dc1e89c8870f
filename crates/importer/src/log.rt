//! The steps of a log, each row carried.
ghost use Rattle.std.specs.Prelude.{◌≡◌, ◌<◌, ◌≤◌, ◌++◌, ◌∷◌, List, [], ℕ, None, Ok, Option, Some, false, is_some, IfOk, IsTrue, MatchOption, OnOk, length};
ghost use Rattle.std.specs.List.{flat_map};
ghost use Rattle.source_block.specs.Holding.{most_bytes};
ghost use Rattle.value_text.specs.Writing.{cell_text};
ghost use Rattle.vast_value.specs.Headings.{heading_of};
ghost use Rattle.zeek_log.specs.Finding.{HoldsRow, most_kept};
ghost use Rattle.zeek_log.specs.Going.{lines_left};
ghost use Rattle.zeek_log.specs.Heads.{opening};
ghost use Rattle.zeek_log.specs.Reader.{Reads, StepFits, StepHas, heading_told, step_at};
ghost use Rattle.zeek_log.specs.Steps.{step_of};
ghost use Rattle.zeek_log.specs.Table.{Line};
ghost use Rattle.importer.specs.Coming.{HasFaults, IsLost, IsQuiet, Log, Standing, StepsOn};
ghost use Rattle.importer.specs.Logs.{LogGoes, LogMoves, log_after};

use crate::carrying::{carry, protocol_place};
use crate::current::{cell_of, columns_of, transport_of, write_carried};
use source_block::Block;
use std::alloc::{AllocError, Global};
use std::marker::Model;
use vast_io::Source;
use vast_value::{Bytes, Layout, PlainNumber, RowView, SeenCell, Transport};
use zeek_log::{Moved, Step, ZeekEnd, ZeekReader};

/// Reads a log from any source. Contracts see how far its reader is, and the cells of the row at which it stands, carried.
#[derive(Drop)]
pub struct LogReader {
    reader: ZeekReader,
    /// The place of the column that names the transports of ports, in a layout in which they are carried.
    protocol: Option<usize>,
}

impl Model for LogReader {
    ghost use Rattle.zeek_log.specs.Reader.{Standing, heading_told};
    ghost use Rattle.importer.specs.Logs.{CarriesBy, carried_point};

    ghost Value = { Standing };

    ghost view = { λ log. carried_point log.reader };

    ghost invariant = { λ log. CarriesBy (heading_told log.reader.at.state) log.protocol };
}

impl LogReader {
    /// A reader that has read no line. The block holds all bytes that were taken of its source so far.
    pub fn with_block(alloc: Global, block: Block) -> Result<Self, AllocError>
        requires all { block.taken ≡ length block.bytes }
        requires bound { block.taken ≤ most_bytes }
        requires kept { block.kept ≤ most_kept }
        ensures { IfOk result (λ log. log ≡ record { at = record { state = Reads opening 1; held = block.bytes; taken = block.taken; kept = block.kept }; row = [] }) }
    {
        let reader = ZeekReader::with_block(alloc, block)?;
        Ok(LogReader {
            reader,
            protocol: None,
        })
    }

    /// The next step of the log, or why there is none.
    pub fn next<S: Source>(&mut self, alloc: Global, source: &mut S) -> Result<Step, ZeekEnd>
        ensures goes { LogGoes self.old.at self.new.at (S.left source.old) (S.left source.new) result }
        ensures faults { HasFaults (Log self.old.at) (log_after self.new.at result) (S.faults source.old) (S.faults source.new) }
        ensures fits { IfOk result (λ step. StepFits (heading_told self.old.at.state) (heading_told self.new.at.state) (step_of step)) }
        ensures tells { is_some (S.left source.new) ≡ is_some (S.left source.old) }
        ensures less { OnOk result (lines_left self.new.at.state < lines_left self.old.at.state) }
        ensures row { self.new.row ≡ [] }
    {
        match self.reader.next(alloc, source)? {
            Step::Head(layout) => {
                self.protocol = protocol_place(layout.columns());
                Ok(Step::Head(layout))
            }
            Step::Line(row) => Ok(Step::Line(carry(alloc, self.protocol, row)?)),
        }
    }

    /// Goes on to the next line, where the reader sees it in place. `false` says nothing of the line, and leaves how far
    /// the reader is.
    pub fn advance_in_place(&mut self) -> bool
        ensures next { IsTrue result → (left : Option (List ℕ)) → LogMoves self.old self.new left left (Ok Moved.Line) }
        ensures has { IsTrue result → StepHas (heading_told self.old.at.state) (heading_told self.new.at.state) (Line self.new.row) }
        ensures less { IsTrue result → lines_left self.new.at.state < lines_left self.old.at.state }
        ensures faults { IsTrue result → (count : ℕ) → HasFaults (Log self.old.at) (Log self.new.at) count count }
        ensures there { IsTrue result → ¬ IsLost (Log self.new.at) }
        ensures stays { result ≡ false → self.new ≡ record { at = self.old.at; row = [] } }
    {
        self.reader.advance_in_place()
    }

    /// Goes on to the next step, and stands there.
    pub fn advance_by_reading<S: Source>(
        &mut self,
        alloc: Global,
        source: &mut S,
    ) -> Result<Moved, ZeekEnd>
        ensures goes { LogMoves self.old self.new (S.left source.old) (S.left source.new) result }
        ensures faults { HasFaults (Log self.old.at) (log_after self.new.at result) (S.faults source.old) (S.faults source.new) }
        ensures has { IfOk result (λ moved. StepHas (heading_told self.old.at.state) (heading_told self.new.at.state) (step_at self.new moved)) }
        ensures tells { is_some (S.left source.new) ≡ is_some (S.left source.old) }
        ensures quiet { IsQuiet (Log self.old.at) (S.left source.old) (S.left source.new) (S.faults source.old) (S.faults source.new) }
        ensures less { OnOk result (lines_left self.new.at.state < lines_left self.old.at.state) }
    {
        match self.reader.advance_by_reading(alloc, source)? {
            Moved::Head => {
                self.protocol = protocol_place(columns_of(&self.reader));
                Ok(Moved::Head)
            }
            Moved::Line => Ok(Moved::Line),
        }
    }

    /// Whether a whole data line is among the bytes held.
    pub fn holds_row(&self) -> bool
        ensures { IsTrue result → HoldsRow self.now.at.held }
    {
        self.reader.holds_row()
    }

    /// The layout of the last head, if it stands.
    pub fn layout(&self) -> Option<&Layout>
        ensures { MatchOption result (heading_told self.now.at.state ≡ None) (λ layout. heading_told self.now.at.state ≡ Some (heading_of layout.now)) }
    {
        self.reader.layout()
    }

    /// Puts the cells of the row at which the reader stands behind what `out` holds, each as it is written and behind a tab.
    #[tactic(auto, using(crate::proofs::CurrentLemmas::carried_by, crate::proofs::CurrentLemmas::carried_unknown))]
    pub fn write_row(&self, alloc: Global, out: &mut Bytes) -> Result<(), AllocError>
        ensures { OnOk result (out.new ≡ out.old ++ flat_map (λ x. 9 ∷ cell_text x) self.now.row) }
    {
        match transport_of(alloc, &self.reader, self.protocol)? {
            Transport::Unknown => self.reader.write_row(alloc, out),
            over => write_carried(alloc, &self.reader, over, out),
        }
    }
}

impl RowView for LogReader {
    ghost cells = { λ log. log.row };

    #[tactic(auto, using(crate::proofs::CurrentLemmas::carried_by))]
    fn cell(&self, alloc: Global, column: usize) -> Result<Option<SeenCell<'_>>, AllocError> {
        match self.protocol {
            None => self.reader.cell(alloc, column),
            Some(_) => cell_of(alloc, &self.reader, self.protocol, column),
        }
    }

    fn plain_number(&self, column: usize) -> Option<PlainNumber> {
        let number = self.reader.plain_number(column)?;
        match number {
            PlainNumber::Count(_) => Some(number),
            PlainNumber::Port(_) => match self.protocol {
                None => Some(number),
                Some(_) => None,
            },
        }
    }
}
