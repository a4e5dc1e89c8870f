//! Reading values and cells.
ghost use Rattle.std.specs.Prelude.{◌≡◌, ℕ, ◌+◌, ◌^◌, ◌<◌, ◌≤◌, ◌==◌, [], ◌∷◌, if◌then◌else◌, length, IsTrue, IfOk, IsErrOf, OnOk, Some, None, Option, true};
ghost use Rattle.std.specs.List.{list_all, slice_split};
ghost use Rattle.std.specs.Option.{option_map};
ghost use Rattle.std.specs.Str.{bytes_eq};
ghost use Rattle.vast_value.specs.Fit.{is_bounded, is_bounded_element, is_small};
ghost use Rattle.vast_value.specs.Kinds.{has_kind};
ghost use Rattle.value_reading.specs.Escapes.{unescaped};
ghost use Rattle.value_reading.specs.Reading.{bool_of, is_text, value_read, set_read, element_read, elements_read, container_read, kind_read, cell_read};
ghost use Rattle.value_reading.specs.Answers.{Gives, PutsElement};

use crate::addresses::{address_of, subnet_of};
use crate::end::CellEnd;
use crate::escapes::{has_backslash, unescape};
use crate::marks::Marks;
use crate::numbers::{behind_one, first_at, int_of, number_up_to, span_of};
use crate::ports::port_of;
use std::alloc::{AllocError, Global};
use vast_value::{Bytes, Cell, Cells, Elem, Kind, Value};

pub(crate) fn bool_of(text: &[u8]) -> Option<bool>
    ensures { result ≡ bool_of text.now }
{
    if text == b"T".as_slice() {
        return Some(true);
    }
    if text == b"F".as_slice() {
        return Some(false);
    }
    None
}

pub(crate) fn copied(alloc: Global, text: &[u8]) -> Result<Bytes, AllocError>
    ensures { IfOk result (λ copy. copy ≡ text.now) }
{
    let mut copy = Bytes::new(alloc);
    copy.append(text)?;
    Ok(copy)
}

// Kinds whose values are large have functions of their own, so that the others need not make room for them.
#[inline(never)]
#[tactic(auto, unfolding(crate::specs::Reading::value_read))]
fn copied_text(alloc: Global, text: &[u8]) -> Result<Cell, CellEnd>
    ensures value { Gives result (option_map Cell.One (value_read Elem.Text text.now)) }
    ensures bounded { length text.now ≤ 2 ^ 24 → IfOk result (λ cell. IsTrue (is_small cell)) }
{
    Ok(Cell::One(Value::Text(copied(alloc, text)?)))
}

#[inline(never)]
#[tactic(auto, unfolding(crate::specs::Reading::value_read))]
fn copied_name(alloc: Global, text: &[u8]) -> Result<Cell, CellEnd>
    ensures value { Gives result (option_map Cell.One (value_read Elem.Name text.now)) }
    ensures bounded { length text.now ≤ 2 ^ 24 → IfOk result (λ cell. IsTrue (is_small cell)) }
{
    Ok(Cell::One(Value::Name(copied(alloc, text)?)))
}

#[inline(never)]
#[tactic(auto, unfolding(crate::specs::Reading::value_read))]
fn subnet_one(text: &[u8]) -> Result<Cell, CellEnd>
    ensures value { Gives result (option_map Cell.One (value_read Elem.Subnet text.now)) }
    ensures bounded { length text.now ≤ 2 ^ 24 → IfOk result (λ cell. IsTrue (is_small cell)) }
{
    Ok(Cell::One(Value::Subnet(subnet_of(text).ok_or(CellEnd::BadText)?)))
}

// The cell of the value that a text spells, its escapes being undone. The cell is made at once, since a value that is put
// into a cell later is moved twice.
#[tactic(auto, unfolding(crate::specs::Reading::value_read))]
#[inline(always)]
fn one_of(alloc: Global, elem: Elem, text: &[u8]) -> Result<Cell, CellEnd>
    ensures value { Gives result (option_map Cell.One (value_read elem text.now)) }
    ensures bounded { length text.now ≤ 2 ^ 24 → IfOk result (λ cell. IsTrue (is_small cell)) }
{
    match elem {
        Elem::Bool => Ok(Cell::One(Value::Bool(bool_of(text).ok_or(CellEnd::BadText)?))),
        Elem::Count => Ok(Cell::One(Value::Count(number_up_to(u64::MAX, text).ok_or(
            CellEnd::BadText,
        )?))),
        Elem::Int => Ok(Cell::One(Value::Int(int_of(text).ok_or(CellEnd::BadText)?))),
        Elem::Time => Ok(Cell::One(Value::Time(span_of(text).ok_or(CellEnd::BadText)?))),
        Elem::Span => Ok(Cell::One(Value::Span(span_of(text).ok_or(CellEnd::BadText)?))),
        Elem::Text => copied_text(alloc, text),
        Elem::Name => copied_name(alloc, text),
        Elem::Addr => Ok(Cell::One(Value::Addr(address_of(text).ok_or(CellEnd::BadText)?))),
        Elem::Subnet => subnet_one(text),
        Elem::Port => {
            let (number, over) = port_of(text).ok_or(CellEnd::BadText)?;
            Ok(Cell::One(Value::Port { number, over }))
        }
    }
}

/// The value of a kind that a text spells, in which no escape is left to be undone.
///
/// A bool is `T` or `F`; a count is digits in its range; a port is digits of at most 65,535, with `/tcp`, `/udp`, `/icmp`,
/// `/?` or nothing behind them; an int has a minus or none; a time and an interval are
/// seconds with or without a minus, with a point and none to nine digits or without; an address is four numbers with dots
/// between them or has the forms of RFC 4291, 2.2; a subnet is an address, a slash and its bits, and what stands behind
/// those bits becomes 0; a string and an enum are any bytes. Leading zeros are allowed.
pub fn read_value(alloc: Global, elem: Elem, text: &[u8]) -> Result<Value, CellEnd>
    ensures value { IfOk result (λ value. value_read elem text.now ≡ Some value) }
    ensures bad { IsErrOf result CellEnd.BadText → value_read elem text.now ≡ None }
{
    match one_of(alloc, elem, text)? {
        Cell::One(value) => Ok(value),
        Cell::Unset | Cell::Many(_) => unreachable!(),
    }
}

#[inline]
pub(crate) fn equals(raw: &[u8], mark: &Bytes) -> bool
    ensures { result ≡ bytes_eq raw.now mark.now }
{
    let mark = mark.as_slice();
    raw.len() == mark.len() && raw == mark
}

// A string or an enum that is not unset.
#[tactic(auto, using(crate::proofs::EscapeLemmas::plain_stays))]
fn text_read(alloc: Global, marks: &Marks, raw: &[u8]) -> Result<Bytes, AllocError>
    ensures { IfOk result (λ text. text ≡ (if bytes_eq raw.now marks.now.empty then [] else unescaped raw.now)) }
{
    if equals(raw, &marks.empty) {
        return Ok(Bytes::new(alloc));
    }
    if has_backslash(raw) {
        return unescape(alloc, raw);
    }
    copied(alloc, raw)
}

// A value whose escapes are to be undone.
#[inline(never)]
fn undone_read(alloc: Global, elem: Elem, raw: &[u8]) -> Result<Cell, CellEnd>
    ensures value { Gives result (option_map Cell.One (value_read elem (unescaped raw.now))) }
    ensures bounded { length raw.now ≤ 2 ^ 24 → IfOk result (λ cell. IsTrue (is_small cell)) }
{
    let text = unescape(alloc, raw)?;
    one_of(alloc, elem, text.as_slice())
}

// A value that has escapes or none.
#[tactic(auto, using(crate::proofs::EscapeLemmas::plain_stays))]
#[inline(always)]
fn escaped_read(alloc: Global, elem: Elem, raw: &[u8]) -> Result<Cell, CellEnd>
    ensures value { Gives result (option_map Cell.One (value_read elem (unescaped raw.now))) }
    ensures bounded { length raw.now ≤ 2 ^ 24 → IfOk result (λ cell. IsTrue (is_small cell)) }
{
    if has_backslash(raw) {
        return undone_read(alloc, elem, raw);
    }
    one_of(alloc, elem, raw)
}

#[inline(never)]
#[tactic(auto, unfolding(crate::specs::Reading::value_read))]
fn text_one(alloc: Global, marks: &Marks, raw: &[u8]) -> Result<Cell, CellEnd>
    ensures value { Gives result (option_map Cell.One (set_read marks.now Elem.Text raw.now)) }
    ensures bounded { length raw.now ≤ 2 ^ 24 → IfOk result (λ cell. IsTrue (is_small cell)) }
{
    Ok(Cell::One(Value::Text(text_read(alloc, marks, raw)?)))
}

#[inline(never)]
#[tactic(auto, unfolding(crate::specs::Reading::value_read))]
fn name_one(alloc: Global, marks: &Marks, raw: &[u8]) -> Result<Cell, CellEnd>
    ensures value { Gives result (option_map Cell.One (set_read marks.now Elem.Name raw.now)) }
    ensures bounded { length raw.now ≤ 2 ^ 24 → IfOk result (λ cell. IsTrue (is_small cell)) }
{
    Ok(Cell::One(Value::Name(text_read(alloc, marks, raw)?)))
}

// The cell of a value that is not unset.
#[tactic(auto, unfolding(crate::specs::Reading::value_read))]
#[inline(always)]
pub(crate) fn one_read(
    alloc: Global,
    elem: Elem,
    marks: &Marks,
    raw: &[u8],
) -> Result<Cell, CellEnd>
    ensures value { Gives result (option_map Cell.One (set_read marks.now elem raw.now)) }
    ensures bounded { length raw.now ≤ 2 ^ 24 → IfOk result (λ cell. IsTrue (is_small cell)) }
{
    match elem {
        Elem::Text => text_one(alloc, marks, raw),
        Elem::Name => name_one(alloc, marks, raw),
        _ => escaped_read(alloc, elem, raw),
    }
}

#[inline(never)]
fn element_read(
    alloc: Global,
    elem: Elem,
    marks: &Marks,
    raw: &[u8],
) -> Result<Option<Value>, CellEnd>
    ensures value { Gives result (element_read marks.now elem raw.now) }
    ensures bounded { length raw.now ≤ 2 ^ 24 → IfOk result (λ item. IsTrue (is_bounded_element item)) }
{
    if equals(raw, &marks.unset) {
        return Ok(None);
    }
    match one_read(alloc, elem, marks, raw)? {
        Cell::One(value) => Ok(Some(value)),
        Cell::Unset | Cell::Many(_) => unreachable!(),
    }
}

// One more element.
fn put_element(
    alloc: Global,
    elem: Elem,
    marks: &Marks,
    raw: &[u8],
    items: &mut Cells,
) -> Result<(), CellEnd>
    ensures value { PutsElement result items.old items.new (element_read marks.now elem raw.now) }
    ensures bounded { length raw.now ≤ 2 ^ 24 → list_all is_bounded_element items.old ≡ true → OnOk result (list_all is_bounded_element items.new ≡ true) }
    ensures count { OnOk result (length items.new ≡ length items.old + 1) }
{
    Ok(items.push(element_read(alloc, elem, marks, raw)?)?)
}

fn elements_read(alloc: Global, elem: Elem, marks: &Marks, raw: &[u8]) -> Result<Cells, CellEnd>
    ensures value { Gives result (elements_read marks.now elem (slice_split (λ b. b == marks.now.set_separator) raw.now)) }
    ensures bounded { length raw.now ≤ 2 ^ 24 → IfOk result (λ items. list_all is_bounded_element items ≡ true) }
    ensures count { IfOk result (λ items. length items ≤ length raw.now + 1) }
{
    let mut items = Cells::new(alloc);
    let mut rest = raw;
    let mut at = first_at(marks.set_separator, rest);
    while at < rest.len() {
        let (piece, behind) = rest.split_at(at);
        put_element(alloc, elem, marks, piece, &mut items)?;
        rest = behind_one(behind);
        at = first_at(marks.set_separator, rest);
    }
    put_element(alloc, elem, marks, rest, &mut items)?;
    Ok(items)
}

#[inline(never)]
pub(crate) fn container_read(
    alloc: Global,
    elem: Elem,
    marks: &Marks,
    raw: &[u8],
) -> Result<Cell, CellEnd>
    ensures value { Gives result (container_read marks.now elem raw.now) }
    ensures small { length raw.now < 2 ^ 24 → IfOk result (λ cell. IsTrue (is_small cell)) }
{
    if equals(raw, &marks.empty) {
        return Ok(Cell::Many(Cells::new(alloc)));
    }
    Ok(Cell::Many(elements_read(alloc, elem, marks, raw)?))
}

#[inline(always)]
fn kind_read(alloc: Global, kind: Kind, marks: &Marks, raw: &[u8]) -> Result<Cell, CellEnd>
    ensures value { Gives result (kind_read marks.now kind raw.now) }
    ensures small { length raw.now < 2 ^ 24 → IfOk result (λ cell. IsTrue (is_small cell)) }
{
    match kind {
        Kind::One(elem) => one_read(alloc, elem, marks, raw),
        Kind::SetOf(elem) => container_read(alloc, elem, marks, raw),
        Kind::VecOf(elem) => container_read(alloc, elem, marks, raw),
    }
}

#[inline(always)]
#[tactic(auto, unfolding(crate::specs::Reading::cell_read))]
fn cell_read(alloc: Global, kind: Kind, marks: &Marks, raw: &[u8]) -> Result<Cell, CellEnd>
    ensures value { Gives result (cell_read marks.now kind raw.now) }
    ensures small { length raw.now < 2 ^ 24 → IfOk result (λ cell. IsTrue (is_small cell)) }
{
    if equals(raw, &marks.unset) {
        return Ok(Cell::Unset);
    }
    kind_read(alloc, kind, marks, raw)
}

/// The cell of a kind that a log's raw bytes spell.
///
/// The raw bytes equal to the unset text are the unset cell; those equal to the empty text are a container without elements,
/// or the empty string or enum. Any other container is cut at each set separator into elements, of which one equal to the
/// unset text is unset, and one equal to the empty text is the empty string or enum. All else has its escapes undone
/// and is read by [`read_value`].
///
/// Fewer than 2^24 raw bytes give texts and containers that a row may hold; 2^24 set separators would give one element too
/// many.
pub fn read_cell(alloc: Global, kind: Kind, marks: &Marks, raw: &[u8]) -> Result<Cell, CellEnd>
    ensures cell { IfOk result (λ cell. cell_read marks.now kind raw.now ≡ Some cell) }
    ensures bad { IsErrOf result CellEnd.BadText → cell_read marks.now kind raw.now ≡ None }
    ensures kind { IfOk result (λ cell. IsTrue (has_kind cell kind)) }
    ensures small { length raw.now < 2 ^ 24 → IfOk result (λ cell. IsTrue (is_small cell)) }
{
    cell_read(alloc, kind, marks, raw)
}
