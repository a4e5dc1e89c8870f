//! The cells of a line that is seen to be a row.
ghost use Rattle.std.specs.Prelude.{◌≡◌, ◌≢◌, ◌+◌, ◌-◌, ◌<◌, ◌≤◌, ◌++◌, ◌∷◌, None, Some, codes, drop, get_or, length, map, slice_get, take, IfOk, IfSome, IsTrue, OnOk};
ghost use Rattle.std.specs.List.{between, flat_map};
ghost use Rattle.vast_value.specs.declared.cell.Cell.{Cell};
ghost use Rattle.vast_value.specs.declared.kind.Kind.{Kind};
ghost use Rattle.plain_cells.specs.Own.{IsOwnText};
ghost use Rattle.vast_value.specs.Views.{number_cell};
ghost use Rattle.value_text.specs.Reading.{cell_read};
ghost use Rattle.value_text.specs.Writing.{AreUsual, cell_text};
ghost use Rattle.zeek_log.specs.Answers.{told_of};
ghost use Rattle.zeek_log.specs.Lines.{pieces_of};
ghost use Rattle.zeek_log.specs.Plain.{IsOwnPiece, IsPlain, IsWrittenAs, cells_or_none, line_end, row_in, start_of};

use crate::known::Known;
use plain_cells::{is_own_address, is_own_number, is_own_text, is_own_time, is_plain_bool};
use std::alloc::{AllocError, Global};
use value_text::{CellEnd, Marks, read_cell, write_cell};
use vast_value::{Bytes, Cell, Elem, Kind, PlainNumber, Row};

/// So many bytes behind a cell may be looked at with it.
const SPARE: usize = 32;

/// Puts cells of the plain line that is at the front of the bytes held behind what `out` holds, each as it is written and
/// behind a tab: those from one column on and before another.
pub fn write_plain(
    alloc: Global,
    known: &Known,
    held: &[u8],
    places: &[u32],
    count: usize,
    from: usize,
    to: usize,
    out: &mut Bytes,
) -> Result<(), AllocError>
    requires plain { IsPlain (told_of known.now) held.now places.now count }
    requires order { from ≤ to }
    requires within { to ≤ count }
    ensures { OnOk result (out.new ≡ out.old ++ flat_map (λ x. 9 ∷ cell_text x) (between from to (cells_or_none (row_in (told_of known.now) (take (line_end places.now count) held.now))))) }
{
    if from == to {
        return Ok(());
    }
    if are_usual(&known.marks) {
        if known.separator == b'\t' && are_own(known, held, places, count, from, to) {
            return write_stretch(held, start_of(places, from), end_of(places, to - 1), out);
        }
        return write_own(alloc, known, held, places, count, from, to, out);
    }
    for column in from..to {
        let cell = plain_cell(alloc, known, held, places, count, column)?;
        write_behind_tab(&cell, out)?;
    }
    Ok(())
}

/// Whether each of these cells of the plain line that is at the front of the bytes held is seen to stand there as it is
/// written.
fn are_own(known: &Known, held: &[u8], places: &[u32], count: usize, from: usize, to: usize) -> bool
    requires plain { IsPlain (told_of known.now) held.now places.now count }
    requires usual { AreUsual known.now.marks }
    requires order { from ≤ to }
    requires within { to ≤ count }
    ensures { IsTrue result → map cell_text (between from to (cells_or_none (row_in (told_of known.now) (take (line_end places.now count) held.now)))) ≡ between from to (pieces_of known.now.separator (take (line_end places.now count) held.now)) }
{
    for column in from..to {
        if !is_own_at(known, held, places, count, column) {
            return false;
        }
    }
    true
}

/// Whether the cell of a column is seen to stand there as it is written.
#[inline(always)]
#[tactic(auto, using(crate::proofs::PlainLemmas::own_piece))]
fn is_own_at(known: &Known, held: &[u8], places: &[u32], count: usize, column: usize) -> bool
    requires plain { IsPlain (told_of known.now) held.now places.now count }
    requires within { column < count }
    requires usual { AreUsual known.now.marks }
    ensures { IsTrue result → IsOwnPiece (slice_get (cells_or_none (row_in (told_of known.now) (take (line_end places.now count) held.now))) column) (slice_get (pieces_of known.now.separator (take (line_end places.now count) held.now)) column) }
{
    let cell = raw_cell(known, held, places, count, column);
    cell.text.len() >= cell.count + SPARE && is_own(cell.kind, cell.text, cell.count)
}

/// Puts a tab and the bytes from one place on and before another behind what `out` holds.
fn write_stretch(held: &[u8], from: usize, to: usize, out: &mut Bytes) -> Result<(), AllocError>
    requires order { from ≤ to }
    requires within { to ≤ length held.now }
    ensures { OnOk result (out.new ≡ out.old ++ 9 ∷ take (to - from) (drop from held.now)) }
{
    let (_, behind) = held.split_at(from);
    let (stretch, _) = behind.split_at(to - from);
    out.push(b'\t')?;
    out.append(stretch)
}

/// The same where the log has the usual marks: a cell's bytes as they stand, where that is how it is written.
fn write_own(
    alloc: Global,
    known: &Known,
    held: &[u8],
    places: &[u32],
    count: usize,
    from: usize,
    to: usize,
    out: &mut Bytes,
) -> Result<(), AllocError>
    requires plain { IsPlain (told_of known.now) held.now places.now count }
    requires usual { AreUsual known.now.marks }
    requires order { from ≤ to }
    requires within { to ≤ count }
    ensures { OnOk result (out.new ≡ out.old ++ flat_map (λ x. 9 ∷ cell_text x) (between from to (cells_or_none (row_in (told_of known.now) (take (line_end places.now count) held.now))))) }
{
    for column in from..to {
        write_one(alloc, known, held, places, count, column, out)?;
    }
    Ok(())
}

fn write_one(
    alloc: Global,
    known: &Known,
    held: &[u8],
    places: &[u32],
    count: usize,
    column: usize,
    out: &mut Bytes,
) -> Result<(), AllocError>
    requires plain { IsPlain (told_of known.now) held.now places.now count }
    requires within { column < count }
    requires usual { AreUsual known.now.marks }
    ensures { OnOk result ((x : Cell) → slice_get (cells_or_none (row_in (told_of known.now) (take (line_end places.now count) held.now))) column ≡ Some x → out.new ≡ out.old ++ 9 ∷ cell_text x) }
{
    if let Some(raw) = own_cell(known, held, places, count, column) {
        out.push(b'\t')?;
        return out.append(raw);
    }
    let cell = plain_cell(alloc, known, held, places, count, column)?;
    write_behind_tab(&cell, out)
}

/// Puts a cell behind what `out` holds, as it is written and behind a tab.
pub fn write_behind_tab(cell: &Cell, out: &mut Bytes) -> Result<(), AllocError>
    ensures { OnOk result (out.new ≡ out.old ++ 9 ∷ cell_text cell.now) }
{
    out.push(b'\t')?;
    write_cell(cell, out)
}

/// A cell as it stands in a line.
#[derive(Clone, Copy)]
struct RawCell<'a> {
    kind: Kind,
    /// The bytes held from the cell's first on.
    text: &'a [u8],
    /// How many of them are the cell's.
    count: usize,
}

/// The cell of a column of the plain line that is at the front of the bytes held, as it stands there.
#[inline(always)]
fn raw_cell<'a>(
    known: &Known,
    held: &'a [u8],
    places: &[u32],
    count: usize,
    column: usize,
) -> RawCell<'a>
    requires plain { IsPlain (told_of known.now) held.now places.now count }
    requires within { column < count }
    ensures within { result.count ≤ length result.text.now }
    ensures reads { cell_read known.now.marks result.kind (take result.count result.text.now) ≡ slice_get (cells_or_none (row_in (told_of known.now) (take (line_end places.now count) held.now))) column }
    ensures piece { slice_get (pieces_of known.now.separator (take (line_end places.now count) held.now)) column ≡ Some (take result.count result.text.now) }
    ensures there { slice_get (cells_or_none (row_in (told_of known.now) (take (line_end places.now count) held.now))) column ≢ None }
{
    let Some(layout) = &known.layout else {
        unreachable!()
    };
    let kind = layout.layout().columns()[column].kind;
    let from = start_of(places, column);
    let to = places[column] as usize;
    let (_, text) = held.split_at(from);
    RawCell {
        kind,
        text,
        count: to - from,
    }
}

/// The cell of a column of the plain line that is at the front of the bytes held.
pub fn plain_cell(
    alloc: Global,
    known: &Known,
    held: &[u8],
    places: &[u32],
    count: usize,
    column: usize,
) -> Result<Cell, AllocError>
    requires plain { IsPlain (told_of known.now) held.now places.now count }
    requires within { column < count }
    ensures { IfOk result (λ cell. Some cell ≡ slice_get (cells_or_none (row_in (told_of known.now) (take (line_end places.now count) held.now))) column) }
{
    let cell = raw_cell(known, held, places, count, column);
    let (raw, _) = cell.text.split_at(cell.count);
    match read_cell(alloc, cell.kind, &known.marks, raw) {
        Ok(cell) => Ok(cell),
        Err(CellEnd::Memory) => Err(AllocError),
        Err(CellEnd::BadText) => unreachable!(),
    }
}

/// The row of the plain line that is at the front of the bytes held.
pub fn plain_row(
    alloc: Global,
    known: &Known,
    held: &[u8],
    places: &[u32],
    count: usize,
) -> Result<Row, AllocError>
    requires { IsPlain (told_of known.now) held.now places.now count }
    ensures { IfOk result (λ row. row ≡ cells_or_none (row_in (told_of known.now) (take (line_end places.now count) held.now))) }
{
    let mut row = Row::with_capacity(alloc, count)?;
    for column in 0..count {
        let cell = plain_cell(alloc, known, held, places, count, column)?;
        row.push(cell)?;
    }
    Ok(row)
}

/// The number that the cell of a column of the plain line is that is at the front of the bytes held, where it is seen
/// to be one. `None` says nothing.
pub fn plain_number(
    known: &Known,
    held: &[u8],
    places: &[u32],
    count: usize,
    column: usize,
) -> Option<PlainNumber>
    requires plain { IsPlain (told_of known.now) held.now places.now count }
    requires within { column < count }
    ensures { IfSome result (λ number. slice_get (cells_or_none (row_in (told_of known.now) (take (line_end places.now count) held.now))) column ≡ Some (number_cell number)) }
{
    let cell = raw_cell(known, held, places, count, column);
    if !is_dash(known.marks.unset.as_slice()) {
        return None;
    }
    let (raw, _) = cell.text.split_at(cell.count);
    plain_cells::plain_number(cell.kind, raw)
}

/// The bytes of the cell of a column of the plain line that is at the front of the bytes held, where they are seen to be those
/// as which the cell is written. `None` says nothing.
#[tactic(auto, using(crate::proofs::PlainLemmas::written_as))]
fn own_cell<'a>(
    known: &Known,
    held: &'a [u8],
    places: &[u32],
    count: usize,
    column: usize,
) -> Option<&'a [u8]>
    requires plain { IsPlain (told_of known.now) held.now places.now count }
    requires within { column < count }
    requires usual { AreUsual known.now.marks }
    ensures { IfSome result (λ raw. IsWrittenAs (slice_get (cells_or_none (row_in (told_of known.now) (take (line_end places.now count) held.now))) column) raw.now) }
{
    let cell = raw_cell(known, held, places, count, column);
    if cell.text.len() < cell.count + SPARE || !is_own(cell.kind, cell.text, cell.count) {
        return None;
    }
    let (raw, _) = cell.text.split_at(cell.count);
    Some(raw)
}

/// Whether the marks are those of a log that tells no others.
fn are_usual(marks: &Marks) -> bool
    ensures { IsTrue result → AreUsual marks.now }
{
    marks.set_separator == b','
        && marks.empty.as_slice() == b"(empty)".as_slice()
        && marks.unset.as_slice() == b"-".as_slice()
}

/// Whether the first bytes are seen to be those as which their cell of the kind is written.
#[inline(always)]
#[tactic(auto, using(crate::proofs::PlainLemmas::own_dash, crate::proofs::PlainLemmas::own_empty_set, crate::proofs::PlainLemmas::own_empty_list))]
fn is_own(kind: Kind, text: &[u8], count: usize) -> bool
    requires { count + 32 ≤ length text.now }
    ensures { IsTrue result → IsOwnText kind (take count text.now) }
{
    let (raw, _) = text.split_at(count);
    if is_dash(raw) {
        return true;
    }
    match kind {
        Kind::One(elem) => is_own_one(elem, text, count),
        Kind::SetOf(_) => is_empty_mark(raw),
        Kind::VecOf(_) => is_empty_mark(raw),
    }
}

#[inline(always)]
fn is_dash(raw: &[u8]) -> bool
    ensures { IsTrue result → raw.now ≡ codes "-" }
{
    raw == b"-".as_slice()
}

#[inline(always)]
fn is_empty_mark(raw: &[u8]) -> bool
    ensures { IsTrue result → raw.now ≡ codes "(empty)" }
{
    raw == b"(empty)".as_slice()
}

#[inline(always)]
fn is_own_one(elem: Elem, text: &[u8], count: usize) -> bool
    requires { count + 32 ≤ length text.now }
    ensures { IsTrue result → IsOwnText (Kind.One elem) (take count text.now) }
{
    match elem {
        Elem::Text => is_own_text(text, count),
        Elem::Name => is_own_text(text, count),
        Elem::Count => is_own_number(text, count),
        Elem::Int => is_own_number(text, count),
        Elem::Port => is_own_number(text, count),
        Elem::Addr => is_own_address(text, count),
        Elem::Time => is_own_time(text, count),
        Elem::Span => is_own_time(text, count),
        Elem::Bool => is_plain_bool(text, count),
        Elem::Subnet => false,
    }
}

/// Where the cell of a column begins.
#[inline(always)]
pub fn start_of(places: &[u32], column: usize) -> usize
    requires { column ≤ length places.now }
    ensures { result ≡ start_of places.now column }
{
    if column == 0 {
        return 0;
    }
    places[column - 1] as usize + 1
}

/// Where the cell of a column ends.
#[inline(always)]
pub fn end_of(places: &[u32], column: usize) -> usize
    requires { column < length places.now }
    ensures { result ≡ get_or places.now column 0 }
{
    places[column] as usize
}
