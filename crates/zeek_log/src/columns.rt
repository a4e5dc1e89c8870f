//! The columns that names and a `#types` line tell.
ghost use Rattle.std.specs.Prelude.{◌≡◌, ◌≤◌, ◌^◌, length, map, IfOk, IfErr, None};
ghost use Rattle.vast_value.specs.Headings.{field_of};
ghost use Rattle.vast_value.specs.Layouts.{layout_fault};
ghost use Rattle.zeek_log.specs.Answers.{Answers, PushesColumn};
ghost use Rattle.zeek_log.specs.Heads.{kind_read};
ghost use Rattle.zeek_log.specs.Lines.{pieces_of};
ghost use Rattle.zeek_log.specs.Table.{fields_read};

use crate::cut::{has_pieces, split_piece};
use crate::fault::{LineEnd, ZeekFault, bad_line};
use crate::names::Names;
use crate::types::kind_read;
use std::alloc::Global;
use vast_value::{Bytes, Column, Columns, Layout};

/// The columns of names and types: a type for each name.
pub fn read_columns(
    alloc: Global,
    separator: u8,
    names: &Names,
    types: &[u8],
) -> Result<Columns, LineEnd>
    requires { length types.now ≤ 2 ^ 24 }
    ensures { Answers (λ columns. map field_of columns) result (fields_read names.now.items (pieces_of separator types.now)) }
{
    let names = names.as_slice();
    if !has_pieces(separator, types, names.len()) {
        return Err(bad_line(ZeekFault::FieldsTypes));
    }
    let mut columns = Columns::with_capacity(alloc, names.len())?;
    let mut rest = Some(types);
    for (at, name) in names.iter().enumerate() {
        let Some(piece) = rest else {
            return Err(bad_line(ZeekFault::FieldsTypes));
        };
        let (type_name, after) = split_piece(separator, piece);
        push_column(alloc, &mut columns, at as u32 + 1, name, type_name)?;
        rest = after;
    }
    Ok(columns)
}

/// Puts a column behind others, if its type's name is one.
fn push_column(
    alloc: Global,
    columns: &mut Columns,
    number: u32,
    name: &Bytes,
    type_name: &[u8],
) -> Result<(), LineEnd>
    requires { length name.now ≤ 2 ^ 24 }
    ensures { PushesColumn (kind_read number type_name.now) columns.old columns.new name.now result }
{
    let kind = kind_read(number, type_name)?;
    let name = name.duplicate(alloc)?;
    Ok(columns.push(Column { name, kind })?)
}

/// The layout of a path and columns with which nothing is wrong.
pub fn layout_of(alloc: Global, path: &[u8], columns: Columns) -> Result<Layout, LineEnd>
    requires short { length path.now ≤ 2 ^ 24 }
    requires sound { layout_fault path.now columns ≡ None }
    ensures columns { IfOk result (λ layout. layout.columns ≡ columns) }
    ensures path { IfOk result (λ layout. layout.path ≡ path.now) }
    ensures memory { IfErr result (λ e. e ≡ LineEnd.Memory) }
{
    let path = Bytes::copy(alloc, path)?;
    match Layout::new(path, columns) {
        Ok(layout) => Ok(layout),
        Err(_) => unreachable!(),
    }
}
