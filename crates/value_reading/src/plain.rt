//! Reading cells without escapes straight into a row.
ghost use Rattle.std.specs.Prelude.{◌≡◌, ◌^◌, ◌<◌, ◌≤◌, ◌==◌, [], if◌then◌else◌, length, IfOk, OnOk, true, false};
ghost use Rattle.std.specs.List.{list_all, list_any};
ghost use Rattle.std.specs.Option.{option_map};
ghost use Rattle.std.specs.Str.{bytes_eq};
ghost use Rattle.vast_value.specs.Fit.{is_small};
ghost use Rattle.value_reading.specs.Reading.{value_read, set_read, container_read, cell_read};
ghost use Rattle.value_reading.specs.Answers.{PutsElement};

use crate::addresses::address_of;
use crate::end::CellEnd;
use crate::marks::Marks;
use crate::numbers::{number_up_to, span_of};
use crate::ports::port_of;
use crate::reading::{bool_of, container_read, copied, equals, one_read, read_cell};
use std::alloc::{AllocError, Global};
use vast_value::{Bytes, Cell, Elem, Kind, Row, Value};

// A string or an enum without escapes that is not unset.
#[inline]
fn plain_text(alloc: Global, marks: &Marks, raw: &[u8]) -> Result<Bytes, AllocError>
    ensures { IfOk result (λ text. text ≡ (if bytes_eq raw.now marks.now.empty then [] else raw.now)) }
{
    if equals(raw, &marks.empty) {
        return Ok(Bytes::new(alloc));
    }
    copied(alloc, raw)
}

#[inline(never)]
#[tactic(auto, unfolding(crate::specs::Reading::value_read), using(crate::proofs::EscapeLemmas::plain_stays))]
fn push_text(alloc: Global, marks: &Marks, raw: &[u8], row: &mut Row) -> Result<(), CellEnd>
    requires { list_any (λ b. b == 92) raw.now ≡ false }
    ensures value { PutsElement result row.old row.new (option_map Cell.One (set_read marks.now Elem.Text raw.now)) }
    ensures small { length raw.now ≤ 2 ^ 24 → list_all is_small row.old ≡ true → OnOk result (list_all is_small row.new ≡ true) }
{
    let text = plain_text(alloc, marks, raw)?;
    Ok(row.push(Cell::One(Value::Text(text)))?)
}

#[inline(never)]
#[tactic(auto, unfolding(crate::specs::Reading::value_read), using(crate::proofs::EscapeLemmas::plain_stays))]
fn push_name(alloc: Global, marks: &Marks, raw: &[u8], row: &mut Row) -> Result<(), CellEnd>
    requires { list_any (λ b. b == 92) raw.now ≡ false }
    ensures value { PutsElement result row.old row.new (option_map Cell.One (set_read marks.now Elem.Name raw.now)) }
    ensures small { length raw.now ≤ 2 ^ 24 → list_all is_small row.old ≡ true → OnOk result (list_all is_small row.new ≡ true) }
{
    let text = plain_text(alloc, marks, raw)?;
    Ok(row.push(Cell::One(Value::Name(text)))?)
}

// Puts a single value of a rarer kind that is not unset behind the cells of a row.
#[inline(never)]
fn push_rare(
    alloc: Global,
    elem: Elem,
    marks: &Marks,
    raw: &[u8],
    row: &mut Row,
) -> Result<(), CellEnd>
    ensures value { PutsElement result row.old row.new (option_map Cell.One (set_read marks.now elem raw.now)) }
    ensures small { length raw.now ≤ 2 ^ 24 → list_all is_small row.old ≡ true → OnOk result (list_all is_small row.new ≡ true) }
{
    Ok(row.push(one_read(alloc, elem, marks, raw)?)?)
}

// Puts a single value without escapes that is not unset behind the cells of a row.
#[inline(always)]
#[tactic(auto, unfolding(crate::specs::Reading::value_read), using(crate::proofs::EscapeLemmas::plain_stays))]
fn push_one(
    alloc: Global,
    elem: Elem,
    marks: &Marks,
    raw: &[u8],
    row: &mut Row,
) -> Result<(), CellEnd>
    requires { list_any (λ b. b == 92) raw.now ≡ false }
    ensures value { PutsElement result row.old row.new (option_map Cell.One (set_read marks.now elem raw.now)) }
    ensures small { length raw.now ≤ 2 ^ 24 → list_all is_small row.old ≡ true → OnOk result (list_all is_small row.new ≡ true) }
{
    match elem {
        Elem::Text => push_text(alloc, marks, raw, row),
        Elem::Name => push_name(alloc, marks, raw, row),
        Elem::Count => {
            let number = number_up_to(u64::MAX, raw).ok_or(CellEnd::BadText)?;
            Ok(row.push(Cell::One(Value::Count(number)))?)
        },
        Elem::Addr => {
            let address = address_of(raw).ok_or(CellEnd::BadText)?;
            Ok(row.push(Cell::One(Value::Addr(address)))?)
        },
        Elem::Port => {
            let (number, over) = port_of(raw).ok_or(CellEnd::BadText)?;
            Ok(row.push(Cell::One(Value::Port { number, over }))?)
        }
        Elem::Time => {
            let time = span_of(raw).ok_or(CellEnd::BadText)?;
            Ok(row.push(Cell::One(Value::Time(time)))?)
        },
        Elem::Span => {
            let span = span_of(raw).ok_or(CellEnd::BadText)?;
            Ok(row.push(Cell::One(Value::Span(span)))?)
        },
        Elem::Bool => {
            let value = bool_of(raw).ok_or(CellEnd::BadText)?;
            Ok(row.push(Cell::One(Value::Bool(value)))?)
        },
        Elem::Int => push_rare(alloc, elem, marks, raw, row),
        Elem::Subnet => push_rare(alloc, elem, marks, raw, row),
    }
}

// Puts a container that is not unset behind the cells of a row.
#[inline(never)]
fn push_container(
    alloc: Global,
    elem: Elem,
    marks: &Marks,
    raw: &[u8],
    row: &mut Row,
) -> Result<(), CellEnd>
    ensures value { PutsElement result row.old row.new (container_read marks.now elem raw.now) }
    ensures small { length raw.now < 2 ^ 24 → list_all is_small row.old ≡ true → OnOk result (list_all is_small row.new ≡ true) }
{
    Ok(row.push(container_read(alloc, elem, marks, raw)?)?)
}

// Puts a cell that has escapes or none behind the cells of a row.
#[inline(never)]
pub(crate) fn push_read_cell(
    alloc: Global,
    kind: Kind,
    marks: &Marks,
    raw: &[u8],
    row: &mut Row,
) -> Result<(), CellEnd>
    ensures value { PutsElement result row.old row.new (cell_read marks.now kind raw.now) }
    ensures small { length raw.now < 2 ^ 24 → list_all is_small row.old ≡ true → OnOk result (list_all is_small row.new ≡ true) }
{
    Ok(row.push(read_cell(alloc, kind, marks, raw)?)?)
}

/// Puts the cell of a kind that a log's raw bytes spell behind the cells of a row, as [`read_cell`] reads it. Where
/// `plain` is true, no backslash is among the bytes, and they are not searched for one.
#[inline(always)]
#[tactic(auto, unfolding(crate::specs::Reading::cell_read))]
pub fn push_cell(
    alloc: Global,
    kind: Kind,
    marks: &Marks,
    plain: bool,
    raw: &[u8],
    row: &mut Row,
) -> Result<(), CellEnd>
    requires { plain ≡ true → list_any (λ b. b == 92) raw.now ≡ false }
    ensures value { PutsElement result row.old row.new (cell_read marks.now kind raw.now) }
    ensures small { length raw.now < 2 ^ 24 → list_all is_small row.old ≡ true → OnOk result (list_all is_small row.new ≡ true) }
{
    if !plain {
        return push_read_cell(alloc, kind, marks, raw, row);
    }
    if equals(raw, &marks.unset) {
        return Ok(row.push(Cell::Unset)?);
    }
    match kind {
        Kind::One(elem) => push_one(alloc, elem, marks, raw, row),
        Kind::SetOf(elem) => push_container(alloc, elem, marks, raw, row),
        Kind::VecOf(elem) => push_container(alloc, elem, marks, raw, row),
    }
}
