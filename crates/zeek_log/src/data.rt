//! Data lines.
ghost use Rattle.std.specs.Prelude.{◌≡◌, ◌≤◌, ◌+◌, ◌^◌, length, map, IfOk, IsTrue, ◌==◌, if◌then◌else◌};
ghost use Rattle.vast_value.specs.Fit.{fits_columns};
ghost use Rattle.vast_value.specs.Headings.{field_of};
ghost use Rattle.vast_value.specs.Layouts.{is_empty};
ghost use Rattle.zeek_log.specs.Answers.{told_of, Answers, Does, LineFits, bad_cell};
ghost use Rattle.zeek_log.specs.Lines.{pieces_of};
ghost use Rattle.zeek_log.specs.Table.{data_line, row_read};

use crate::cut::{has_backslash, has_pieces, split_piece};
use crate::fault::{At, LineEnd, ZeekFault, bad_line};
use crate::known::Known;
use crate::step::Step;
use std::alloc::Global;
use value_text::{CellEnd, Marks, push_cell};
use vast_value::{Column, Row};

/// The row of a data line.
pub fn data_line(alloc: Global, known: &Known, line: &[u8]) -> Result<Option<Step>, LineEnd>
    requires { length line.now ≤ 1048576 }
    ensures does { Does (data_line (told_of known.now) line.now) (told_of known.now) result }
    ensures fits { LineFits (told_of known.now).heading (told_of known.now).heading result }
{
    if known.path.as_slice().is_empty() {
        return Err(bad_line(ZeekFault::NoHead));
    }
    match &known.layout {
        Some(layout) => {
            let columns = layout.layout().columns();
            let row = read_row(alloc, &known.marks, known.separator, columns, line)?;
            Ok(Some(Step::Line(row)))
        }
        None => Err(bad_line(headless(known))),
    }
}

/// What is wrong with a data line without a layout.
fn headless(known: &Known) -> ZeekFault
    ensures { result ≡ (if is_empty known.now.names.items then ZeekFault.NoHead else ZeekFault.FieldsTypes) }
{
    if known.names.as_slice().is_empty() {
        ZeekFault::NoHead
    } else {
        ZeekFault::FieldsTypes
    }
}

/// The row of a line: a cell for each column.
fn read_row(
    alloc: Global,
    marks: &Marks,
    separator: u8,
    columns: &[Column],
    line: &[u8],
) -> Result<Row, LineEnd>
    requires { length line.now ≤ 1048576 }
    ensures value { Answers (λ row. row) result (row_read marks.now (map field_of columns.now) (pieces_of separator line.now)) }
    ensures fits { IfOk result (λ row. IsTrue (fits_columns columns.now row)) }
{
    let mut row = Row::with_capacity(alloc, columns.len())?;
    let plain = !has_backslash(line);
    let mut rest = Some(line);
    for (at, column) in columns.iter().enumerate() {
        let Some(text) = rest else {
            return Err(bad_line(ZeekFault::CellCount));
        };
        let (raw, after) = split_piece(separator, text);
        match push_cell(alloc, column.kind, marks, plain, raw, &mut row) {
            Ok(()) => {}
            Err(CellEnd::Memory) => return Err(LineEnd::Memory),
            Err(CellEnd::BadText) => return Err(bad_cell(
                separator,
                columns.len(),
                line,
                at as u32 + 1,
            )),
        }
        rest = after;
    }
    if rest.is_some() {
        return Err(bad_line(ZeekFault::CellCount));
    }
    Ok(row)
}

/// What is wrong with a line that has a bad cell: the number of its cells, or else this cell.
fn bad_cell(separator: u8, columns: usize, line: &[u8], number: u32) -> LineEnd
    ensures { result ≡ bad_cell (length (pieces_of separator line.now) == columns) number }
{
    if !has_pieces(separator, line, columns) {
        return bad_line(ZeekFault::CellCount);
    }
    LineEnd::Bad(At {
        column: number,
        what: ZeekFault::BadCell,
    })
}
