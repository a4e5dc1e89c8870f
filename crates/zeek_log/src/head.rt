//! Head lines.
ghost use Rattle.std.specs.Prelude.{◌≡◌, ◌≤◌, ◌^◌, length, IfOk, IsTrue, map, not};
ghost use Rattle.vast_value.specs.Headings.{field_of, heading_of};
ghost use Rattle.vast_value.specs.Layouts.{is_empty};
ghost use Rattle.zeek_log.specs.Answers.{told_of, Answers, Does, LineFits};
ghost use Rattle.zeek_log.specs.Heads.{separator_of, names_read};
ghost use Rattle.zeek_log.specs.Lines.{pieces_of};
ghost use Rattle.zeek_log.specs.Table.{head_line, head_told, named_head, names_told, empty_told, unset_told, path_told, separator_told, set_separator_told, fields_read, types_told};

use crate::columns::{layout_of, read_columns};
use crate::cut::split_head;
use crate::fault::{LineEnd, ZeekFault, bad_line};
use crate::fields::read_names;
use crate::known::Known;
use crate::looked::LookedLayout;
use crate::opening::opened;
use crate::step::Step;
use crate::types::separator_of;
use std::alloc::Global;
use vast_value::{Bytes, Layout};

/// Takes a head line.
pub fn head_line(alloc: Global, known: &mut Known, line: &[u8]) -> Result<Option<Step>, LineEnd>
    requires { length line.now ≤ 2 ^ 24 }
    ensures does { Does (head_line (told_of known.old) line.now) (told_of known.new) result }
    ensures fits { LineFits (told_of known.old).heading (told_of known.new).heading result }
{
    if line.starts_with(b"#separator ") {
        let (_, value) = line.split_at(11);
        return separator_line(alloc, known, value);
    }
    let (name, value) = split_head(known.separator, line);
    named_head(alloc, known, name, value)
}

fn separator_line(alloc: Global, known: &mut Known, value: &[u8]) -> Result<Option<Step>, LineEnd>
    ensures does { Does (separator_told (separator_of value.now)) (told_of known.new) result }
    ensures fits { LineFits (told_of known.old).heading (told_of known.new).heading result }
{
    let Some(byte) = separator_of(value) else {
        return Err(bad_line(ZeekFault::BadSeparator));
    };
    *known = opened(alloc, byte)?;
    Ok(None)
}

fn named_head(
    alloc: Global,
    known: &mut Known,
    name: &[u8],
    value: &[u8],
) -> Result<Option<Step>, LineEnd>
    requires { length value.now ≤ 2 ^ 24 }
    ensures does { Does (named_head (told_of known.old) name.now value.now) (told_of known.new) result }
    ensures fits { LineFits (told_of known.old).heading (told_of known.new).heading result }
{
    if name == b"#set_separator".as_slice() {
        return set_separator_line(known, value);
    }
    if name == b"#empty_field".as_slice() {
        return empty_line(alloc, known, value);
    }
    if name == b"#unset_field".as_slice() {
        return unset_line(alloc, known, value);
    }
    if name == b"#path".as_slice() {
        return path_line(alloc, known, value);
    }
    if name == b"#fields".as_slice() {
        return fields_line(alloc, known, value);
    }
    if name == b"#types".as_slice() {
        return types_line(alloc, known, value);
    }
    Ok(None)
}

fn set_separator_line(known: &mut Known, value: &[u8]) -> Result<Option<Step>, LineEnd>
    ensures does { Does (set_separator_told (told_of known.old) (separator_of value.now)) (told_of known.new) result }
    ensures fits { LineFits (told_of known.old).heading (told_of known.new).heading result }
{
    let Some(byte) = separator_of(value) else {
        return Err(bad_line(ZeekFault::BadSeparator));
    };
    known.marks.set_separator = byte;
    Ok(None)
}

fn empty_line(alloc: Global, known: &mut Known, value: &[u8]) -> Result<Option<Step>, LineEnd>
    requires { length value.now ≤ 2 ^ 24 }
    ensures does { Does (empty_told (told_of known.old) value.now) (told_of known.new) result }
    ensures fits { LineFits (told_of known.old).heading (told_of known.new).heading result }
{
    known.marks.empty = Bytes::copy(alloc, value)?;
    Ok(None)
}

fn unset_line(alloc: Global, known: &mut Known, value: &[u8]) -> Result<Option<Step>, LineEnd>
    requires { length value.now ≤ 2 ^ 24 }
    ensures does { Does (unset_told (told_of known.old) value.now) (told_of known.new) result }
    ensures fits { LineFits (told_of known.old).heading (told_of known.new).heading result }
{
    known.marks.unset = Bytes::copy(alloc, value)?;
    Ok(None)
}

fn path_line(alloc: Global, known: &mut Known, value: &[u8]) -> Result<Option<Step>, LineEnd>
    requires { length value.now ≤ 2 ^ 24 }
    ensures does { Does (path_told (told_of known.old) value.now) (told_of known.new) result }
    ensures fits { LineFits (told_of known.old).heading (told_of known.new).heading result }
{
    known.path = Bytes::copy(alloc, value)?;
    Ok(None)
}

fn fields_line(alloc: Global, known: &mut Known, value: &[u8]) -> Result<Option<Step>, LineEnd>
    requires { length value.now ≤ 2 ^ 24 }
    ensures does { Does (names_told (told_of known.old) (names_read (pieces_of known.old.separator value.now))) (told_of known.new) result }
    ensures fits { LineFits (told_of known.old).heading (told_of known.new).heading result }
{
    known.names = read_names(alloc, known.separator, value)?;
    known.layout = None;
    Ok(None)
}

fn types_line(alloc: Global, known: &mut Known, value: &[u8]) -> Result<Option<Step>, LineEnd>
    requires { length value.now ≤ 2 ^ 24 }
    ensures does { Does (types_told (told_of known.old) (pieces_of known.old.separator value.now)) (told_of known.new) result }
    ensures fits { LineFits (told_of known.old).heading (told_of known.new).heading result }
{
    if known.path.as_slice().is_empty() {
        return Err(bad_line(ZeekFault::NoHead));
    }
    let layout = read_layout(alloc, known, value)?;
    give_head(alloc, known, layout)
}

/// The layout of the path and the names with these types.
fn read_layout(alloc: Global, known: &Known, types: &[u8]) -> Result<Layout, LineEnd>
    requires path { IsTrue (not (is_empty known.now.path)) }
    requires short { length types.now ≤ 2 ^ 24 }
    ensures fields { Answers (λ layout. map field_of layout.columns) result (fields_read known.now.names.items (pieces_of known.now.separator types.now)) }
    ensures path { IfOk result (λ layout. layout.path ≡ known.now.path) }
{
    let columns = read_columns(alloc, known.separator, &known.names, types)?;
    layout_of(alloc, known.path.as_slice(), columns)
}

/// Keeps a layout, and gives it.
fn give_head(alloc: Global, known: &mut Known, layout: Layout) -> Result<Option<Step>, LineEnd>
    ensures does { Does (head_told (told_of known.old) (heading_of layout)) (told_of known.new) result }
    ensures fits { LineFits (told_of known.old).heading (told_of known.new).heading result }
{
    let kept = layout.duplicate(alloc)?;
    known.layout = Some(LookedLayout::new(alloc, kept)?);
    Ok(Some(Step::Head(layout)))
}
