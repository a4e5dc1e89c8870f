//! A reader that stands at a line.
ghost use Rattle.std.specs.Prelude.{◌≡◌, ℕ, ◌<◌, ◌≤◌, ◌++◌, ◌∷◌, List, [], Option, None, Some, Ok, false, length, is_some, slice_get, IfOk, IfSome, OnOk, IsTrue, MatchOption};
ghost use Rattle.std.specs.List.{between, flat_map};
ghost use Rattle.source_block.specs.Holding.{most_bytes};
ghost use Rattle.value_text.specs.Writing.{cell_text};
ghost use Rattle.vast_value.specs.Headings.{heading_of};
ghost use Rattle.vast_value.specs.Views.{number_cell};
ghost use Rattle.zeek_log.specs.Finding.{HoldsRow, most_kept};
ghost use Rattle.zeek_log.specs.Going.{lines_left};
ghost use Rattle.zeek_log.specs.Heads.{opening};
ghost use Rattle.zeek_log.specs.Numbers.{number_in};
ghost use Rattle.zeek_log.specs.Reader.{CountsOf, Follows, Reads, StepFits, StepHas, given, heading_told, moved_to, step_at};
ghost use Rattle.zeek_log.specs.Standing.{StandsWell, standing};
ghost use Rattle.zeek_log.specs.Steps.{step_of};

use crate::line_reader::LineReader;
use crate::plain_row::write_behind_tab;
use crate::step::{Moved, Step, ZeekEnd};
use source_block::Block;
use std::alloc::{AllocError, Global};
use std::marker::Model;
use vast_io::Source;
use vast_value::{Bytes, Cell, Layout, PlainNumber, Row, RowView, SeenCell};

/// The most columns of a layout, and so the most places behind the cells of a row.
const MOST_PLACES: usize = 256;

/// Where a reader stands.
#[derive(Drop)]
pub enum Current {
    /// At no row.
    Nowhere,
    /// At a row that was made of its line.
    Made(Row),
    /// At the line at the front of the bytes held, which is a row of so many cells. The places behind them are kept.
    Plain(usize),
}

/// Reads a log from any source, line by line.
///
/// It takes at most 2^36 bytes, and keeps memory for at most one line and a block of them. [`next`](ZeekReader::next)
/// answers steps with what they hold. [`advance`](ZeekReader::advance) goes on to the next step, and the reader is then seen
/// as the row of the line at which it stands, until the next call. Contracts see how far it is (what the lines so far told
/// with the number of the next line, the bytes that it holds, how many it took, and for how many it keeps memory), and the
/// cells of that row, none where it stands at no line.
#[derive(Drop)]
pub struct ZeekReader {
    lines: LineReader,
    current: Current,
    places: [u32; MOST_PLACES],
}

impl Model for ZeekReader {
    ghost use Rattle.zeek_log.specs.Reader.{Standing};

    ghost Value = { Standing };

    ghost use Rattle.zeek_log.specs.Standing.{StandsWell, standing};

    ghost view = { λ r. standing r.lines r.current r.places };

    ghost invariant = { λ r. StandsWell r.lines r.current r.places };
}

impl ZeekReader {
    /// A reader that has read nothing.
    pub fn new(alloc: Global) -> Result<Self, AllocError>
        ensures { IfOk result (λ reader. reader ≡ record { at = record { state = Reads opening 1; held = []; taken = 0; kept = 65536 }; row = [] }) }
    {
        ZeekReader::with_block(alloc, Block::new(alloc)?)
    }

    /// A reader that has read no line, where the first bytes of its source were taken already: the block holds all of them.
    pub fn with_block(alloc: Global, block: Block) -> Result<Self, AllocError>
        requires all { block.taken ≡ length block.bytes }
        requires bound { block.taken ≤ most_bytes }
        requires kept { block.kept ≤ most_kept }
        ensures { IfOk result (λ reader. reader ≡ record { at = record { state = Reads opening 1; held = block.bytes; taken = block.taken; kept = block.kept }; row = [] }) }
    {
        let lines = LineReader::with_block(alloc, block)?;
        Ok(ZeekReader {
            lines,
            current: Current::Nowhere,
            places: [0; MOST_PLACES],
        })
    }

    /// The next step of the log, or why there is none.
    ///
    /// A fault comes at the first line with one, in the order of the table's checks. `ReadFault` comes exactly where the
    /// source's count of faults rose, and `TooLong` where 2^36 bytes were taken. After any end every later call gives
    /// the same.
    pub fn next<S: Source>(&mut self, alloc: Global, source: &mut S) -> Result<Step, ZeekEnd>
        ensures next { Follows self.old.at.state self.old.at self.new.at (S.left source.old) (S.left source.new) (given result) }
        ensures counts { CountsOf self.old.at.state (given result) (S.faults source.old) (S.faults source.new) }
        ensures fits { IfOk result (λ step. StepFits (heading_told self.old.at.state) (heading_told self.new.at.state) (step_of step)) }
        ensures tells { is_some (S.left source.new) ≡ is_some (S.left source.old) }
        ensures less { OnOk result (lines_left self.new.at.state < lines_left self.old.at.state) }
        ensures kept { self.new.at.kept ≤ most_kept }
        ensures row { self.new.row ≡ [] }
    {
        pass_current(&mut self.lines, &mut self.current, &self.places);
        self.lines.next(alloc, source)
    }

    /// Goes on to the next step of the log, as [`next`](ZeekReader::next), and stands there. A row that it stands at has a
    /// cell for each column of the last layout.
    pub fn advance<S: Source>(&mut self, alloc: Global, source: &mut S) -> Result<Moved, ZeekEnd>
        ensures next { Follows self.old.at.state self.old.at self.new.at (S.left source.old) (S.left source.new) (moved_to self.new result) }
        ensures counts { CountsOf self.old.at.state (moved_to self.new result) (S.faults source.old) (S.faults source.new) }
        ensures has { IfOk result (λ moved. StepHas (heading_told self.old.at.state) (heading_told self.new.at.state) (step_at self.new moved)) }
        ensures tells { is_some (S.left source.new) ≡ is_some (S.left source.old) }
        ensures less { OnOk result (lines_left self.new.at.state < lines_left self.old.at.state) }
        ensures kept { self.new.at.kept ≤ most_kept }
    {
        if self.advance_in_place() {
            return Ok(Moved::Line);
        }
        self.advance_by_reading(alloc, source)
    }

    /// Goes on to the next line, where it stands whole among the bytes held and is seen there to be a row. Nothing is read.
    /// `false` says nothing of the line, and leaves how far the reader is.
    pub fn advance_in_place(&mut self) -> bool
        ensures next { IsTrue result → (left : Option (List ℕ)) → Follows self.old.at.state self.old.at self.new.at left left (Ok (step_at self.new Moved.Line)) }
        ensures has { IsTrue result → StepHas (heading_told self.old.at.state) (heading_told self.new.at.state) (step_at self.new Moved.Line) }
        ensures less { IsTrue result → lines_left self.new.at.state < lines_left self.old.at.state }
        ensures kept { IsTrue result → self.new.at.kept ≤ most_kept }
        ensures stays { result ≡ false → self.new ≡ record { at = self.old.at; row = [] } }
    {
        pass_current(&mut self.lines, &mut self.current, &self.places);
        match self.lines.plain_line(&mut self.places) {
            Some(count) => {
                self.current = Current::Plain(count);
                true
            }
            None => false,
        }
    }

    /// Goes on as [`advance`](ZeekReader::advance), and reads each line by the way that knows every spelling.
    pub fn advance_by_reading<S: Source>(
        &mut self,
        alloc: Global,
        source: &mut S,
    ) -> Result<Moved, ZeekEnd>
        ensures next { Follows self.old.at.state self.old.at self.new.at (S.left source.old) (S.left source.new) (moved_to self.new result) }
        ensures counts { CountsOf self.old.at.state (moved_to self.new result) (S.faults source.old) (S.faults source.new) }
        ensures has { IfOk result (λ moved. StepHas (heading_told self.old.at.state) (heading_told self.new.at.state) (step_at self.new moved)) }
        ensures tells { is_some (S.left source.new) ≡ is_some (S.left source.old) }
        ensures less { OnOk result (lines_left self.new.at.state < lines_left self.old.at.state) }
        ensures kept { self.new.at.kept ≤ most_kept }
    {
        pass_current(&mut self.lines, &mut self.current, &self.places);
        match self.lines.next(alloc, source)? {
            Step::Head(_) => Ok(Moved::Head),
            Step::Line(row) => {
                self.current = Current::Made(row);
                Ok(Moved::Line)
            }
        }
    }

    /// Whether a whole data line is among the bytes held. The next step is then found without reading more of the source.
    pub fn holds_row(&self) -> bool
        ensures { IsTrue result → HoldsRow self.now.at.held }
    {
        match &self.current {
            Current::Plain(_) => false,
            _ => self.lines.holds_row(),
        }
    }

    /// The layout of the last head, if it stands.
    pub fn layout(&self) -> Option<&Layout>
        ensures { MatchOption result (heading_told self.now.at.state ≡ None) (λ layout. heading_told self.now.at.state ≡ Some (heading_of layout.now)) }
    {
        self.lines.layout()
    }

    /// The number of a count or of a port in a column, counted from 0, of the row at which the reader stands, where
    /// it is seen to be a plain one. `None` says nothing of the cell.
    pub fn number(&self, column: usize) -> Option<u64>
        ensures { IfSome result (λ number. number_in (slice_get self.now.row column) ≡ Some number) }
    {
        let number = self.plain_number(column)?;
        Some(number_of(number))
    }

    /// The row at which the reader stands, one without cells where it stands at none.
    pub fn row(&self, alloc: Global) -> Result<Row, AllocError>
        ensures { IfOk result (λ row. row ≡ self.now.row) }
    {
        match &self.current {
            Current::Nowhere => Ok(Row::new(alloc)),
            Current::Made(row) => row.duplicate(alloc),
            Current::Plain(count) => self.lines.plain_row(alloc, &self.places, *count),
        }
    }

    /// How many cells the row at which the reader stands has, 0 where it stands at none.
    pub fn count(&self) -> usize
        ensures { result ≡ length self.now.row }
    {
        match &self.current {
            Current::Nowhere => 0,
            Current::Made(row) => row.as_slice().len(),
            Current::Plain(count) => *count,
        }
    }

    /// Puts the cells of the row at which the reader stands behind what `out` holds, each as it is written and behind a tab.
    pub fn write_row(&self, alloc: Global, out: &mut Bytes) -> Result<(), AllocError>
        ensures { OnOk result (out.new ≡ out.old ++ flat_map (λ x. 9 ∷ cell_text x) self.now.row) }
    {
        self.write_cells(alloc, 0, self.count(), out)
    }

    /// The same of the cells from one column on and before another, counted from 0.
    pub fn write_cells(
        &self,
        alloc: Global,
        from: usize,
        to: usize,
        out: &mut Bytes,
    ) -> Result<(), AllocError>
        requires order { from ≤ to }
        requires within { to ≤ length self.now.row }
        ensures { OnOk result (out.new ≡ out.old ++ flat_map (λ x. 9 ∷ cell_text x) (between from to self.now.row)) }
    {
        match &self.current {
            Current::Nowhere => Ok(()),
            Current::Made(row) => write_made(&row.as_slice()[from..to], out),
            Current::Plain(count) => {
                self.lines
                    .write_plain(alloc, &self.places, *count, from, to, out)
            }
        }
    }
}

/// Goes behind a plain line at which a reader stands.
fn pass_current(lines: &mut LineReader, current: &mut Current, places: &[u32])
    requires { StandsWell lines.old current.old places.now }
    ensures lines { lines.new ≡ (standing lines.old current.old places.now).at }
    ensures current { current.new ≡ Current.Nowhere }
{
    if let Current::Plain(count) = current {
        lines.pass_line(places[*count - 1] as usize);
    }
    *current = Current::Nowhere;
}

fn write_made(cells: &[Cell], out: &mut Bytes) -> Result<(), AllocError>
    ensures { OnOk result (out.new ≡ out.old ++ flat_map (λ x. 9 ∷ cell_text x) cells.now) }
{
    for cell in cells {
        write_behind_tab(cell, out)?;
    }
    Ok(())
}

impl RowView for ZeekReader {
    ghost cells = { λ reader. reader.row };

    fn cell(&self, alloc: Global, column: usize) -> Result<Option<SeenCell<'_>>, AllocError> {
        match &self.current {
            Current::Nowhere => Ok(None),
            Current::Made(row) => row.cell(alloc, column),
            Current::Plain(count) => {
                if column >= *count {
                    return Ok(None);
                }
                let cell = self.lines.plain_cell(alloc, &self.places, *count, column)?;
                Ok(Some(SeenCell::Made(cell)))
            }
        }
    }

    fn plain_number(&self, column: usize) -> Option<PlainNumber> {
        match &self.current {
            Current::Nowhere => None,
            Current::Made(row) => row.plain_number(column),
            Current::Plain(count) => {
                if column >= *count {
                    return None;
                }
                self.lines.plain_number(&self.places, *count, column)
            }
        }
    }
}

/// The number of a count or of a port.
fn number_of(number: PlainNumber) -> u64
    ensures { number_in (Some (number_cell number)) ≡ Some result }
{
    match number {
        PlainNumber::Count(n) => n,
        PlainNumber::Port(number) => number as u64,
    }
}
