//! The lines of a log.
ghost use Rattle.std.specs.Prelude.{◌≡◌, ◌<◌, ◌≤◌, ◌++◌, ◌∷◌, ℕ, List, Option, [], true, None, Some, Ok, length, slice_get, take, is_some, IfOk, IfSome, IsTrue, OnOk, MatchOption};
ghost use Rattle.std.specs.List.{between, flat_map};
ghost use Rattle.value_text.specs.Writing.{cell_text};
ghost use Rattle.zeek_log.specs.Plain.{line_end};
ghost use Rattle.zeek_log.specs.Standing.{IsPlainAt, behind_line, line_cells, next_state};
ghost use Rattle.vast_value.specs.Headings.{heading_of};
ghost use Rattle.vast_value.specs.Views.{number_cell};
ghost use Rattle.memchr.specs.Find.{IsFirstByte, is_byte};
ghost use Rattle.source_block.specs.Holding.{most_bytes};
ghost use Rattle.source_block.specs.Taking.{Stops, Counts};
ghost use Rattle.zeek_log.specs.Finding.{HoldsRow, most_kept};
ghost use Rattle.zeek_log.specs.Going.{LineAnswer, LineCounts, answer_of, is_reading, lines_left};
ghost use Rattle.zeek_log.specs.Heads.{opening};
ghost use Rattle.zeek_log.specs.Reader.{Answer, Follows, CountsBy, CountsOf, IsMet, Reads, StepFits, given, heading_told};
ghost use Rattle.zeek_log.specs.Steps.{step_of};

use crate::fault::{LineEnd, ZeekFault};
use crate::finding::{Found, find_line, holds_row};
use crate::known::Known;
use crate::line::take_line;
use crate::opening::opened;
use crate::plain::plain_line;
use crate::plain_row::{plain_cell, plain_number, plain_row, write_plain};
use crate::step::{Step, ZeekEnd};
use source_block::{Block, Stop, Took};
use std::alloc::{AllocError, Global};
use std::marker::Model;
use vast_io::Source;
use vast_value::{Bytes, Cell, Layout, PlainNumber, Row};

/// How far a reader is.
#[derive(Clone, Copy, Debug, PartialEq, Eq)]
pub enum Phase {
    /// Lines come.
    Reads,
    /// The last line, which no newline ended, gave a step.
    Last,
    /// Nothing more comes.
    Ended(ZeekEnd),
}

/// Reads a log line by line.
///
/// It takes at most 2^36 bytes, and keeps memory for at most one line and a block of them. Contracts see what the lines so
/// far told with the number of the next line, the bytes that it holds, how many it took, and for how many it keeps memory.
#[derive(Drop)]
pub struct LineReader {
    phase: Phase,
    known: Known,
    line: u64,
    block: Block,
}

impl Model for LineReader {
    ghost use Rattle.std.specs.Prelude.{◌≤◌, ◌+◌, length};
    ghost use Rattle.zeek_log.specs.Answers.{told_of};
    ghost use Rattle.zeek_log.specs.Going.{state_of};
    ghost use Rattle.zeek_log.specs.Reader.{Reading};
    ghost use Rattle.source_block.specs.Holding.{most_bytes};
    ghost use Rattle.zeek_log.specs.Finding.{most_kept};

    ghost Value = { Reading };

    ghost view = { λ r. record { state = state_of r.phase (told_of r.known) r.line; held = r.block.bytes; taken = r.block.taken; kept = r.block.kept } };

    ghost invariant = { λ r. (r.line + length r.block.bytes ≤ r.block.taken + 1) × (r.block.taken ≤ most_bytes) × (r.block.kept ≤ most_kept) };
}

impl LineReader {
    /// A reader that has read no line. The block holds all bytes that were taken of its source so far.
    pub fn with_block(alloc: Global, block: Block) -> Result<Self, AllocError>
        requires all { block.taken ≡ length block.bytes }
        requires bound { block.taken ≤ most_bytes }
        requires kept { block.kept ≤ most_kept }
        ensures { IfOk result (λ reader. reader ≡ record { state = Reads opening 1; held = block.bytes; taken = block.taken; kept = block.kept }) }
    {
        let known = opened(alloc, b'\t')?;
        Ok(LineReader {
            phase: Phase::Reads,
            known,
            line: 1,
            block,
        })
    }

    /// The next step of the log, or why there is none.
    ///
    /// A fault comes at the first line with one, in the order of the table's checks. `ReadFault` comes exactly where the
    /// source's count of faults rose, and `TooLong` where 2^36 bytes were taken. After any end every later call gives
    /// the same.
    pub fn next<S: Source>(&mut self, alloc: Global, source: &mut S) -> Result<Step, ZeekEnd>
        ensures next { Follows self.old.state self.old self.new (S.left source.old) (S.left source.new) (given result) }
        ensures counts { CountsOf self.old.state (given result) (S.faults source.old) (S.faults source.new) }
        ensures fits { IfOk result (λ step. StepFits (heading_told self.old.state) (heading_told self.new.state) (step_of step)) }
        ensures tells { is_some (S.left source.new) ≡ is_some (S.left source.old) }
        ensures less { OnOk result (lines_left self.new.state < lines_left self.old.state) }
        ensures kept { self.new.kept ≤ most_kept }
    {
        match self.phase {
            Phase::Ended(end) => Err(end),
            Phase::Last => {
                self.phase = Phase::Ended(ZeekEnd::Done);
                Err(ZeekEnd::Done)
            }
            Phase::Reads => self.go_on(alloc, source),
        }
    }

    /// The layout of the last head, if it stands.
    pub fn layout(&self) -> Option<&Layout>
        ensures { MatchOption result (heading_told self.now.state ≡ None) (λ layout. heading_told self.now.state ≡ Some (heading_of layout.now)) }
    {
        match self.phase {
            Phase::Ended(_) => None,
            _ => layout_of(&self.known),
        }
    }

    /// How many cells the line at the front of the bytes held has, where it is seen to be a row in place. The places behind
    /// its cells are then at the front of `places`. `None` says nothing of the line.
    pub fn plain_line(&self, places: &mut [u32]) -> Option<usize>
        ensures plain { IfSome result (λ count. IsPlainAt self.now.state self.now.held places.new count) }
        ensures less { IfSome result (λ count. lines_left (next_state self.now.state) < lines_left self.now.state) }
        ensures kept { self.now.kept ≤ most_kept }
    {
        match self.phase {
            Phase::Reads => plain_line(&self.known, self.block.as_slice(), places),
            _ => None,
        }
    }

    /// Whether a whole data line is among the bytes held.
    pub fn holds_row(&self) -> bool
        ensures { IsTrue result → HoldsRow self.now.held }
    {
        holds_row(self.block.as_slice())
    }

    /// Goes behind the line of so many bytes that is at the front of the bytes held.
    #[tactic(auto, using(source_block::proofs::BufferLemmas::drop_more))]
    pub fn pass_line(&mut self, count: usize)
        requires reads { is_reading self.old.state ≡ true }
        requires within { count < length self.old.held }
        ensures { self.new ≡ behind_line self.old count }
    {
        self.block.skip(count + 1);
        self.line += 1;
    }

    /// The cell of a column of the plain line that is at the front of the bytes held.
    pub fn plain_cell(
        &self,
        alloc: Global,
        places: &[u32],
        count: usize,
        column: usize,
    ) -> Result<Cell, AllocError>
        requires plain { IsPlainAt self.now.state self.now.held places.now count }
        requires within { column < count }
        ensures { IfOk result (λ cell. Some cell ≡ slice_get (line_cells self.now.state (take (line_end places.now count) self.now.held)) column) }
    {
        plain_cell(
            alloc,
            &self.known,
            self.block.as_slice(),
            places,
            count,
            column,
        )
    }

    /// The row of the plain line that is at the front of the bytes held.
    pub fn plain_row(&self, alloc: Global, places: &[u32], count: usize) -> Result<Row, AllocError>
        requires { IsPlainAt self.now.state self.now.held places.now count }
        ensures { IfOk result (λ row. row ≡ line_cells self.now.state (take (line_end places.now count) self.now.held)) }
    {
        plain_row(alloc, &self.known, self.block.as_slice(), places, count)
    }

    /// The number that the cell of a column of the plain line is that is at the front of the bytes held, where it is
    /// seen to be one. `None` says nothing.
    pub fn plain_number(&self, places: &[u32], count: usize, column: usize) -> Option<PlainNumber>
        requires plain { IsPlainAt self.now.state self.now.held places.now count }
        requires within { column < count }
        ensures { IfSome result (λ number. slice_get (line_cells self.now.state (take (line_end places.now count) self.now.held)) column ≡ Some (number_cell number)) }
    {
        plain_number(&self.known, self.block.as_slice(), places, count, column)
    }

    /// Puts cells of the plain line that is at the front of the bytes held behind what `out` holds, each as it is written
    /// and behind a tab: those from one column on and before another.
    pub fn write_plain(
        &self,
        alloc: Global,
        places: &[u32],
        count: usize,
        from: usize,
        to: usize,
        out: &mut Bytes,
    ) -> Result<(), AllocError>
        requires plain { IsPlainAt self.now.state self.now.held places.now count }
        requires order { from ≤ to }
        requires within { to ≤ count }
        ensures { OnOk result (out.new ≡ out.old ++ flat_map (λ x. 9 ∷ cell_text x) (between from to (line_cells self.now.state (take (line_end places.now count) self.now.held)))) }
    {
        write_plain(
            alloc,
            &self.known,
            self.block.as_slice(),
            places,
            count,
            from,
            to,
            out,
        )
    }

    /// Takes lines until one gives a step or nothing more comes.
    fn go_on<S: Source>(&mut self, alloc: Global, source: &mut S) -> Result<Step, ZeekEnd>
        requires { is_reading self.old.state ≡ true }
        ensures next { Answer self.old self.new (S.left source.old) (S.left source.new) (given result) }
        ensures counts { CountsBy (given result) (S.faults source.old) (S.faults source.new) }
        ensures fits { IfOk result (λ step. StepFits (heading_told self.old.state) (heading_told self.new.state) (step_of step)) }
        ensures less { OnOk result (lines_left self.new.state < lines_left self.old.state) }
        ensures kept { self.new.kept ≤ most_kept }
    {
        loop {
            match self.take_next(alloc, source) {
                Ok(Some(step)) => return Ok(step),
                Ok(None) => {}
                Err(end) => {
                    self.phase = Phase::Ended(end);
                    return Err(end);
                }
            }
        }
    }

    /// Takes the next line.
    fn take_next<S: Source>(
        &mut self,
        alloc: Global,
        source: &mut S,
    ) -> Result<Option<Step>, ZeekEnd>
        requires { is_reading self.old.state ≡ true }
        ensures next { LineAnswer self.old self.new (S.left source.old) (S.left source.new) result }
        ensures counts { LineCounts result (S.faults source.old) (S.faults source.new) }
        ensures less { OnOk result (lines_left self.new.state < lines_left self.old.state) }
        ensures kept { self.new.kept ≤ most_kept }
    {
        match find_line(&mut self.block, source)? {
            Found::Line(count) => self.take_ended(alloc, count),
            Found::Long => Err(ZeekEnd::Fault {
                line: self.line,
                column: 0,
                what: ZeekFault::LineTooLong,
            }),
            Found::Stopped(stop) => self.take_rest(alloc, stop),
        }
    }

    /// What is held is no line, and no more bytes come.
    fn take_rest(&mut self, alloc: Global, stop: Stop) -> Result<Option<Step>, ZeekEnd>
        requires reads { is_reading self.old.state ≡ true }
        requires found { IsFirstByte (is_byte 10) self.old.held None }
        requires short { length self.old.held ≤ 1048576 }
        ensures next { (now : Option (List ℕ)) → Stops stop now self.old.taken → LineAnswer self.old self.new now now result }
        ensures counts { (before now : ℕ) → Counts (Ok (Took.Stopped stop)) before now → LineCounts result before now }
        ensures some { result ≡ Ok None → ⊥ }
        ensures less { OnOk result (lines_left self.new.state < lines_left self.old.state) }
        ensures kept { self.old.kept ≤ most_kept → self.new.kept ≤ most_kept }
    {
        match stop {
            Stop::AtEnd => self.take_last(alloc),
            Stop::Failed => Err(ZeekEnd::ReadFault),
            Stop::AtBound => Err(ZeekEnd::TooLong),
        }
    }

    /// Takes a line of so many bytes, and its newline.
    fn take_ended(&mut self, alloc: Global, count: usize) -> Result<Option<Step>, ZeekEnd>
        requires reads { is_reading self.old.state ≡ true }
        requires found { IsFirstByte (is_byte 10) self.old.held (Some count) }
        ensures next { (now : Option (List ℕ)) → LineAnswer self.old self.new now now result }
        ensures counts { (n : ℕ) → LineCounts result n n }
        ensures less { OnOk result (lines_left self.new.state < lines_left self.old.state) }
        ensures kept { self.new.kept ≤ most_kept }
    {
        let (line, _) = self.block.as_slice().split_at(count);
        let outcome = take_line(alloc, &mut self.known, line);
        self.block.skip(count + 1);
        let number = self.line;
        self.line += 1;
        answer_of(number, outcome)
    }

    /// Takes what is held as the last line.
    fn take_last(&mut self, alloc: Global) -> Result<Option<Step>, ZeekEnd>
        requires reads { is_reading self.old.state ≡ true }
        requires found { IsFirstByte (is_byte 10) self.old.held None }
        ensures next { (now : Option (List ℕ)) → IsMet now self.old.taken → LineAnswer self.old self.new now now result }
        ensures counts { (n : ℕ) → LineCounts result n n }
        ensures some { result ≡ Ok None → ⊥ }
        ensures less { OnOk result (lines_left self.new.state < lines_left self.old.state) }
        ensures kept { self.new.kept ≤ most_kept }
    {
        let outcome = take_line(alloc, &mut self.known, self.block.as_slice());
        match answer_of(self.line, outcome)? {
            Some(step) => {
                self.phase = Phase::Last;
                Ok(Some(step))
            }
            None => Err(ZeekEnd::Done),
        }
    }
}

/// The layout that is known.
fn layout_of(known: &Known) -> Option<&Layout>
    ensures { MatchOption result (known.now.layout ≡ None) (λ layout. known.now.layout ≡ Some layout.now) }
{
    match &known.layout {
        Some(looked) => Some(looked.layout()),
        None => None,
    }
}

/// A line's outcome as an answer, where the line has this number.
fn answer_of(number: u64, outcome: Result<Option<Step>, LineEnd>) -> Result<Option<Step>, ZeekEnd>
    ensures { result ≡ answer_of number outcome }
{
    match outcome {
        Ok(step) => Ok(step),
        Err(LineEnd::Bad(at)) => Err(ZeekEnd::Fault {
            line: number,
            column: at.column,
            what: at.what,
        }),
        Err(LineEnd::Memory) => Err(ZeekEnd::Memory),
    }
}
