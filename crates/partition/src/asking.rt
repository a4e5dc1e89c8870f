//! Asking an index a test.
ghost use Rattle.std.specs.Prelude.{◌≡◌, ◌&&◌, ◌||◌, ◌+◌, ◌-◌, ◌<◌, ◌≤◌, ◌++◌, false, true, OnOk, None, MatchOption, slice_get, Bool, List, Option, length, map, replicate, IfOk};
ghost use Rattle.bits_law.specs.Bitwise.{bitwise};
ghost use Rattle.vast_value.specs.declared.cell.Cell.{Cell};
ghost use Rattle.event_history.specs.Events.{Event};
ghost use Rattle.query_meaning.specs.SureCells.{maybe_cell, sure_cell};
ghost use Rattle.partition.specs.Asking.{asked_time, maybe_bits, path_meets, sure_bits, time_of, window};
ghost use Rattle.partition.specs.Columns.{picks, some_column};
ghost use Rattle.partition.specs.Indexes.{IndexStands, place_in, places_of, time_at};

use crate::index::{Index, PlacedColumn, Span};
use bits_law::{Bits, BitsEnd};
use column_index::{Bitmap, Pair};
use query_meaning::{Pick, Test, is_named, is_of, maybe_cell, sure_cell, text_meets};
use std::alloc::{AllocError, Global};
use vast_value::Cell;

impl Index {
    /// The rows where the test surely holds, and those where it may. `_of` is what the index stands for, by which the caller
    /// says which events these are.
    pub(crate) fn ask<T>(&self, alloc: Global, test: &Test, _of: &T) -> Result<Pair, AllocError>
        ghost events: { List Event }
        requires { IndexStands self.now events }
        ensures sure { IfOk result (λ pair. pair.sure ≡ sure_bits test.now events) }
        ensures maybe { IfOk result (λ pair. pair.maybe ≡ maybe_bits test.now events) }
    {
        match &test.pick {
            Pick::TypeName => {
                let pair = self.ask_path(alloc, test)?;
                Ok(pair)
            }
            Pick::EventTime => {
                let pair = self.ask_time(alloc, test)?;
                Ok(pair)
            }
            Pick::OfKind(_) => {
                let pair = self.ask_columns(alloc, test)?;
                Ok(pair)
            }
            Pick::Named(_) => {
                let pair = self.ask_columns(alloc, test)?;
                Ok(pair)
            }
        }
    }

    /// The rows where some column that the test picks has a cell that surely meets the relation, and those where one may.
    fn ask_columns(&self, alloc: Global, test: &Test) -> Result<Pair, AllocError>
        ghost events: { List Event }
        requires { IndexStands self.now events }
        ensures sure { IfOk result (λ pair. pair.sure ≡ map (some_column test.now.pick (sure_cell test.now.rel test.now.literal) (places_of self.now.columns.items)) events) }
        ensures maybe { IfOk result (λ pair. pair.maybe ≡ map (some_column test.now.pick (maybe_cell test.now.rel test.now.literal) (places_of self.now.columns.items)) events) }
    {
        let mut all = none(alloc, self.rows)?;
        for column in &self.columns {
            if !picks(&test.pick, column) {
                continue;
            }
            let asked = column.column.ask(alloc, test)?;
            all = either(&all, &asked)?;
        }
        Ok(all)
    }

    /// The rows whose path, as a text, meets the relation. It is known whole.
    fn ask_path(&self, alloc: Global, test: &Test) -> Result<Pair, AllocError>
        ghost events: { List Event }
        requires { IndexStands self.now events }
        ensures sure { IfOk result (λ pair. pair.sure ≡ map (path_meets test.now) events) }
        ensures maybe { IfOk result (λ pair. pair.maybe ≡ map (path_meets test.now) events) }
    {
        let mut sure = Bitmap::empty(alloc);
        for span in &self.spans {
            let held = text_meets(test.rel, &test.literal, span.path.as_slice());
            match sure.push_run(held, span.rows) {
                Ok(()) => {}
                Err(_) => return Err(AllocError),
            }
        }
        let maybe = sure.duplicate()?;
        Ok(Pair { sure, maybe })
    }

    /// The rows whose time surely meets the relation, and those where it may.
    fn ask_time(&self, alloc: Global, test: &Test) -> Result<Pair, AllocError>
        ghost events: { List Event }
        requires { IndexStands self.now events }
        ensures sure { IfOk result (λ pair. pair.sure ≡ map (time_of (sure_cell test.now.rel test.now.literal)) events) }
        ensures maybe { IfOk result (λ pair. pair.maybe ≡ map (time_of (maybe_cell test.now.rel test.now.literal)) events) }
    {
        let mut all = none(alloc, self.rows)?;
        let mut from = 0;
        for span in &self.spans {
            let asked = self.span_time(alloc, test, span)?;
            let here = masked(alloc, &asked, from, span.rows)?;
            all = either(&all, &here)?;
            from += span.rows;
        }
        Ok(all)
    }

    /// The rows whose cell in the column of a span's time meets the relation, surely and perhaps; where the span has no such
    /// column, as an unset cell does.
    fn span_time(&self, alloc: Global, test: &Test, span: &Span) -> Result<Pair, AllocError>
        ghost events: { List Event }
        requires { IndexStands self.now events }
        ensures sure { IfOk result (λ pair. pair.sure ≡ map (asked_time (sure_cell test.now.rel test.now.literal) (time_at (places_of self.now.columns.items) span.now.time)) events) }
        ensures maybe { IfOk result (λ pair. pair.maybe ≡ map (asked_time (maybe_cell test.now.rel test.now.literal) (time_at (places_of self.now.columns.items) span.now.time)) events) }
    {
        match self.time_column(span) {
            Some(at) => {
                let asked = self.column_time(alloc, test, at)?;
                Ok(asked)
            }
            None => {
                let asked = self.unset_time(alloc, test)?;
                Ok(asked)
            }
        }
    }

    /// The place of the column of a span's time, if it is there.
    pub(crate) fn time_column(&self, span: &Span) -> Option<usize>
        ensures { MatchOption result (time_at (places_of self.now.columns.items) span.now.time ≡ None) (λ at. (at < length self.now.columns.items) × (time_at (places_of self.now.columns.items) span.now.time ≡ slice_get (places_of self.now.columns.items) at)) }
    {
        match span.time {
            Some(at) if at < self.columns.len() => Some(at),
            _ => None,
        }
    }

    fn column_time(&self, alloc: Global, test: &Test, at: usize) -> Result<Pair, AllocError>
        ghost events: { List Event }
        requires stands { IndexStands self.now events }
        requires there { at < length self.now.columns.items }
        ensures sure { IfOk result (λ pair. pair.sure ≡ map (asked_time (sure_cell test.now.rel test.now.literal) (slice_get (places_of self.now.columns.items) at)) events) }
        ensures maybe { IfOk result (λ pair. pair.maybe ≡ map (asked_time (maybe_cell test.now.rel test.now.literal) (slice_get (places_of self.now.columns.items) at)) events) }
    {
        let asked = self.columns[at].column.ask(alloc, test)?;
        Ok(asked)
    }

    fn unset_time(&self, alloc: Global, test: &Test) -> Result<Pair, AllocError>
        ghost events: { List Event }
        requires { IndexStands self.now events }
        ensures sure { IfOk result (λ pair. pair.sure ≡ map (asked_time (sure_cell test.now.rel test.now.literal) None) events) }
        ensures maybe { IfOk result (λ pair. pair.maybe ≡ map (asked_time (maybe_cell test.now.rel test.now.literal) None) events) }
    {
        let sure = run(
            alloc,
            sure_cell(test.rel, &test.literal, &Cell::Unset),
            self.rows,
        )?;
        let maybe = run(
            alloc,
            maybe_cell(test.rel, &test.literal, &Cell::Unset),
            self.rows,
        )?;
        Ok(Pair { sure, maybe })
    }
}

/// Whether a test of a kind or a name picks a column.
fn picks(pick: &Pick, column: &PlacedColumn) -> bool
    ensures { result ≡ picks pick.now (place_in column.now) }
{
    match pick {
        Pick::OfKind(elem) => is_of(*elem, column.column.kind()),
        Pick::Named(name) => is_named(
            column.path.as_slice(),
            column.name.as_slice(),
            name.as_slice(),
        ),
        Pick::TypeName | Pick::EventTime => false,
    }
}

/// No rows of so many.
fn none(alloc: Global, rows: u64) -> Result<Pair, AllocError>
    ensures sure { IfOk result (λ pair. pair.sure ≡ replicate rows false) }
    ensures maybe { IfOk result (λ pair. pair.maybe ≡ replicate rows false) }
{
    let sure = run(alloc, false, rows)?;
    let maybe = run(alloc, false, rows)?;
    Ok(Pair { sure, maybe })
}

/// So many equal bits. More than 2^40 are refused as want of memory.
fn run(alloc: Global, bit: bool, rows: u64) -> Result<Bitmap, AllocError>
    ensures { IfOk result (λ bits. bits ≡ replicate rows bit) }
{
    let mut bits = Bitmap::empty(alloc);
    match bits.push_run(bit, rows) {
        Ok(()) => Ok(bits),
        Err(_) => Err(AllocError),
    }
}

/// The rows of either.
fn either(all: &Pair, more: &Pair) -> Result<Pair, AllocError>
    requires sure { length all.now.sure ≡ length more.now.sure }
    requires maybe { length all.now.maybe ≡ length more.now.maybe }
    ensures sure { IfOk result (λ pair. pair.sure ≡ bitwise ◌||◌ all.now.sure more.now.sure) }
    ensures maybe { IfOk result (λ pair. pair.maybe ≡ bitwise ◌||◌ all.now.maybe more.now.maybe) }
{
    let sure = all.sure.or(&more.sure)?;
    let maybe = all.maybe.or(&more.maybe)?;
    Ok(Pair { sure, maybe })
}

/// Of an answer, the rows of a span.
fn masked(alloc: Global, asked: &Pair, from: u64, rows: u64) -> Result<Pair, AllocError>
    requires even { length asked.now.sure ≡ length asked.now.maybe }
    requires within { from + rows ≤ length asked.now.sure }
    ensures sure { IfOk result (λ pair. pair.sure ≡ bitwise ◌&&◌ asked.now.sure (window from rows (length asked.now.sure))) }
    ensures maybe { IfOk result (λ pair. pair.maybe ≡ bitwise ◌&&◌ asked.now.maybe (window from rows (length asked.now.maybe))) }
{
    let mask = span_mask(alloc, from, rows, asked.sure.len())?;
    let sure = asked.sure.and(&mask)?;
    let maybe = asked.maybe.and(&mask)?;
    Ok(Pair { sure, maybe })
}

/// Ones at the rows of a span, of so many.
fn span_mask(alloc: Global, from: u64, rows: u64, all: u64) -> Result<Bitmap, AllocError>
    requires { from + rows ≤ all }
    ensures value { IfOk result (λ bits. bits ≡ window from rows all) }
    ensures long { IfOk result (λ bits. length bits ≡ all) }
{
    let mut mask = Bitmap::empty(alloc);
    let pushed = push_window(&mut mask, from, rows, all);
    match pushed {
        Ok(()) => Ok(mask),
        Err(_) => Err(AllocError),
    }
}

fn push_window(mask: &mut Bitmap, from: u64, rows: u64, all: u64) -> Result<(), BitsEnd>
    requires { from + rows ≤ all }
    ensures { OnOk result (mask.new ≡ ((mask.old ++ replicate from false) ++ replicate rows true) ++ replicate (all - from - rows) false) }
{
    mask.push_run(false, from)?;
    mask.push_run(true, rows)?;
    mask.push_run(false, all - from - rows)?;
    Ok(())
}
