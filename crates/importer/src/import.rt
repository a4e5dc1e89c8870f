//! Steps cut into batches.
ghost use Rattle.std.specs.Prelude.{◌≡◌, ◌≢◌, ◌+◌, ◌<◌, ◌≤◌, [], ◌∷◌, ◌++◌, Ok, Some, None, Option, true, false, length, is_some, IfOk, OnOk, IfSome, IsSome, IsTrue};
ghost use Rattle.std.specs.Option.{option_map};
ghost use Rattle.event_batch.specs.Contents.{content_of};
ghost use Rattle.event_batch.specs.Sizes.{is_batch_size, rows_fit};
ghost use Rattle.vast_value.specs.Headings.{fits_fields, heading_of};
ghost use Rattle.importer.specs.Coming.{BatchesOn, EndsAt, HasFaults, Importing, Stays, batches_given, fresh, steps_left};
ghost use Rattle.importer.specs.Cutting.{bounds_of, cell_bytes_of, is_full, most_cell_bytes};
ghost use Rattle.importer.specs.Turns.{AreHeld, EndTurn, HasLayout, HeadTurn, LineTurn, RowFits, TurnGoes, TurnGoing, TurnHolds, TurnLess, TurnStays};

use crate::ends::ImportEnd;
use crate::gathered::Gathered;
use crate::input::Input;
use event_batch::Batch;
use std::alloc::{AllocError, Global};
use std::marker::Model;
use std::mem;
use vast_io::Source;
use vast_value::{Layout, Row};
use zeek_log::Step;

/// Cuts the steps of a source into batches.
///
/// A batch closes when it has so many rows as the import was made with, when the bytes of its cells reach 4,194,304,
/// before each head, and at the end. None is empty. Contracts see the import's numbers, the heading of the last head and
/// where its input stands, by which it is known what is still to come, and the source.
#[derive(Drop)]
pub struct Import<S: Source> {
    alloc: Global,
    number: u32,
    rows: u32,
    input: Input<S>,
    /// The layout of the last head.
    layout: Option<Layout>,
}

impl<S: Source> Model for Import<S> {
    ghost use Rattle.std.specs.Prelude.{◌≤◌};
    ghost use Rattle.std.specs.Option.{option_map};
    ghost use Rattle.vast_value.specs.Headings.{heading_of};
    ghost use Rattle.importer.specs.Coming.{Importing, IsLastLayout, Sourced};

    ghost Value = { Sourced Importing S };

    ghost view = { λ i. record { at = record { number = i.number; rows = i.rows; heading = option_map heading_of i.layout; standing = i.input.at }; source = i.input.source } };

    ghost invariant = { λ i. (1 ≤ i.rows) × (i.rows ≤ 4096) × IsLastLayout (option_map heading_of i.layout) i.input.at };
}

/// What came of a step.
enum Turn {
    /// The batch isn't closed yet.
    Goes,
    /// The rows gathered are a batch of this layout.
    Closes(Layout),
    /// Nothing but this end is to come, and no rows are gathered.
    Ends(Option<ImportEnd>),
}

impl<S: Source> Import<S> {
    /// The import of a source with this number, whose batches have at most `rows` rows: 1 to 4,096. It takes no memory.
    pub fn start(alloc: Global, source: u32, rows: u32, from: S) -> Import<S>
        requires some { 1 ≤ rows }
        requires few { rows ≤ 4096 }
        ensures { result ≡ record { at = record { number = source; rows = rows; heading = None; standing = fresh }; source = from } }
    {
        Import {
            alloc,
            number: source,
            rows,
            input: Input::start(alloc, from),
            layout: None,
        }
    }

    /// Its source's number.
    pub fn number(&self) -> u32
        ensures { result ≡ self.now.at.number }
    {
        self.number
    }

    /// The source as it was left.
    pub fn into_source(self) -> S
        ensures { result ≡ self.source }
    {
        self.input.into_source()
    }

    /// The next batch, `None` where all of the input was given, or why no more comes. The rows before a fault, a failed
    /// read or the bound are given first, and those of an unfinished batch are dropped where memory was wanting. After
    /// any end every later call gives the same.
    pub fn next_batch(&mut self) -> Result<Option<Batch>, ImportEnd>
        ensures next { BatchesOn self.old.at self.new.at (S.left self.old.source) (S.left self.new.source) (batches_given result) }
        ensures ends { EndsAt result self.new.at.standing }
        ensures stays { Stays self.old.at.standing self.old self.new result }
        ensures number { IfOk result (λ found. IfSome found (λ batch. batch.source ≡ self.old.at.number)) }
        ensures some { IfOk result (λ found. IfSome found (λ batch. 1 ≤ length batch.rows)) }
        ensures few { IfOk result (λ found. IfSome found (λ batch. length batch.rows ≤ self.old.at.rows)) }
        ensures same { (self.new.at.number ≡ self.old.at.number) × (self.new.at.rows ≡ self.old.at.rows) }
        ensures faults { HasFaults self.old.at.standing self.new.at.standing (S.faults self.old.source) (S.faults self.new.source) }
        ensures tells { is_some (S.left self.new.source) ≡ is_some (S.left self.old.source) }
        ensures less { IfOk result (λ found. IsSome found → steps_left self.new.at.standing < steps_left self.old.at.standing) }
    {
        let mut gathered = Gathered::new(self.alloc);
        loop {
            match self.turn(&mut gathered) {
                Turn::Goes => {}
                Turn::Closes(layout) => {
                    let Some(batch) = Batch::new(self.number, layout, gathered.into_rows()) else {
                        unreachable!()
                    };
                    return Ok(Some(batch));
                }
                Turn::Ends(None) => return Ok(None),
                Turn::Ends(Some(end)) => return Err(end),
            }
        }
    }

    /// Takes one step.
    fn turn(&mut self, gathered: &mut Gathered) -> Turn
        requires held { AreHeld self.old.at gathered.old }
        ensures goes { TurnGoes result self.old.at self.new.at gathered.old gathered.new (S.left self.old.source) (S.left self.new.source) }
        ensures holds { TurnHolds result self.new.at gathered.new }
        ensures going { TurnGoing result self.new.at.standing }
        ensures stays { TurnStays result self.old.at.standing self.old self.new gathered.old }
        ensures less { TurnLess result self.old.at.standing self.new.at.standing gathered.old gathered.new }
        ensures same { (self.new.at.number ≡ self.old.at.number) × (self.new.at.rows ≡ self.old.at.rows) }
        ensures faults { HasFaults self.old.at.standing self.new.at.standing (S.faults self.old.source) (S.faults self.new.source) }
        ensures tells { is_some (S.left self.new.source) ≡ is_some (S.left self.old.source) }
    {
        match self.input.next() {
            Ok(Some(Step::Head(layout))) => begin(&mut self.layout, layout, gathered),
            Ok(Some(Step::Line(row))) => {
                match gather(self.alloc, self.rows, &self.layout, row, gathered) {
                    Ok(turn) => turn,
                    Err(_) => {
                        self.input.give_up();
                        Turn::Ends(Some(ImportEnd::Memory))
                    }
                }
            }
            Ok(None) => end(&mut self.layout, None, gathered),
            Err(why) => end(&mut self.layout, Some(why), gathered),
        }
    }
}

/// A layout begins.
fn begin(current: &mut Option<Layout>, layout: Layout, gathered: &Gathered) -> Turn
    requires { HasLayout (option_map heading_of current.old) gathered.now }
    ensures layout { option_map heading_of current.new ≡ Some (heading_of layout) }
    ensures turn { HeadTurn result (option_map heading_of current.old) gathered.now }
{
    if gathered.is_empty() {
        *current = Some(layout);
        return Turn::Goes;
    }
    match mem::replace(current, Some(layout)) {
        Some(before) => Turn::Closes(before),
        None => unreachable!(),
    }
}

/// A row of the layout comes.
fn gather(
    alloc: Global,
    rows: u32,
    layout: &Option<Layout>,
    row: Row,
    gathered: &mut Gathered,
) -> Result<Turn, AllocError>
    requires fits { RowFits (option_map heading_of layout.now) row }
    requires few { length (cell_bytes_of gathered.old) < most_cell_bytes }
    ensures row { OnOk result (gathered.new ≡ gathered.old ++ row ∷ []) }
    ensures turn { IfOk result (λ turn. LineTurn turn (option_map heading_of layout.now) rows gathered.new) }
{
    let Some(layout) = layout else { unreachable!() };
    gathered.push(layout, row)?;
    if !gathered.is_full(rows) {
        return Ok(Turn::Goes);
    }
    Ok(Turn::Closes(layout.duplicate(alloc)?))
}

/// Nothing but this end is to come.
fn end(current: &mut Option<Layout>, why: Option<ImportEnd>, gathered: &Gathered) -> Turn
    requires { HasLayout (option_map heading_of current.old) gathered.now }
    ensures turn { EndTurn result why (option_map heading_of current.old) gathered.now }
    ensures stays { gathered.now ≡ [] → option_map heading_of current.new ≡ option_map heading_of current.old }
{
    if gathered.is_empty() {
        return Turn::Ends(why);
    }
    if let Some(ImportEnd::Memory) = why {
        return Turn::Ends(why);
    }
    match mem::replace(current, None) {
        Some(layout) => Turn::Closes(layout),
        None => unreachable!(),
    }
}
