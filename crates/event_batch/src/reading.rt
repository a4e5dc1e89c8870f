//! Reading the bytes of a batch. Each function gives a value and the bytes behind it.
ghost use Rattle.std.specs.Prelude.{◌≡◌, ◌+◌, ◌≤◌, ◌^◌, [], ◌∷◌, ◌++◌, length, drop, map, IfOk, IfErr, OnOk, ◌-◌, ◌%◌, ◌==◌};
ghost use Rattle.vast_value.specs.Headings.{field_of, heading_of};
ghost use Rattle.vast_value.specs.Kinds.{is_lone_unset};
ghost use Rattle.event_batch.specs.Answers.{Gives, said_by};
ghost use Rattle.event_batch.specs.declared.format.Format.TheVariants.{Second};
ghost use Rattle.event_batch.specs.declared.packed_end.PackedEnd.TheVariants.{NotABatch};
ghost use Rattle.event_batch.specs.Contents.{Spelled, content_of};
ghost use Rattle.event_batch.specs.Packings.{IsSpelled, said_in};
ghost use Rattle.event_batch.specs.Spelling.{Spells};
ghost use Rattle.vast_value.specs.Nets.{net_of};
ghost use Rattle.event_batch.specs.Reading.{byte_at, number_at, signed_at, text_at, bool_at, net_at, port_at, reads_as, value_at, element_at, many_at, container_at, set_cell_at, cell_at, row_at, elem_of_code, kind_of_code, field_at, heading_at, rows_at, content_at};

use crate::batch::{Batch, MOST_ROWS};
use crate::format::Format;
use crate::packed_end::PackedEnd;
use crate::rows::Rows;
use byteorder::{ByteOrder, LittleEndian};
use std::alloc::{AllocError, Global};
use vast_value::{
    Bytes, Cell, Cells, Column, Columns, Elem, Kind, Layout, MOST_PARTS, Net, Row, Transport,
    Value, ranged_bytes,
};

#[tactic(auto, unfolding(crate::specs::Reading::byte_at))]
fn u8_at(bytes: &[u8]) -> Result<(u8, &[u8]), PackedEnd>
    ensures { Gives (λ x. (x.0, x.1.now)) result (byte_at bytes.now) }
{
    match bytes {
        [] => Err(PackedEnd::NotABatch),
        [byte, rest @ ..] => Ok((*byte, rest)),
    }
}

#[tactic(auto, unfolding(crate::specs::Reading::number_at))]
fn u16_at(bytes: &[u8]) -> Result<(u16, &[u8]), PackedEnd>
    ensures { Gives (λ x. (x.0, x.1.now)) result (number_at 2 bytes.now) }
{
    if bytes.len() < 2 {
        return Err(PackedEnd::NotABatch);
    }
    Ok((LittleEndian::read_u16(bytes), &bytes[2..]))
}

#[tactic(auto, unfolding(crate::specs::Reading::number_at))]
fn u32_at(bytes: &[u8]) -> Result<(u32, &[u8]), PackedEnd>
    ensures { Gives (λ x. (x.0, x.1.now)) result (number_at 4 bytes.now) }
{
    if bytes.len() < 4 {
        return Err(PackedEnd::NotABatch);
    }
    Ok((LittleEndian::read_u32(bytes), &bytes[4..]))
}

#[tactic(auto, unfolding(crate::specs::Reading::number_at))]
fn u64_at(bytes: &[u8]) -> Result<(u64, &[u8]), PackedEnd>
    ensures { Gives (λ x. (x.0, x.1.now)) result (number_at 8 bytes.now) }
{
    if bytes.len() < 8 {
        return Err(PackedEnd::NotABatch);
    }
    Ok((LittleEndian::read_u64(bytes), &bytes[8..]))
}

#[tactic(auto, unfolding(crate::specs::Reading::number_at))]
fn u128_at(bytes: &[u8]) -> Result<(u128, &[u8]), PackedEnd>
    ensures { Gives (λ x. (x.0, x.1.now)) result (number_at 16 bytes.now) }
{
    if bytes.len() < 16 {
        return Err(PackedEnd::NotABatch);
    }
    Ok((LittleEndian::read_u128(bytes), &bytes[16..]))
}

#[tactic(auto, unfolding(crate::specs::Reading::signed_at))]
fn i64_at(bytes: &[u8]) -> Result<(i64, &[u8]), PackedEnd>
    ensures { Gives (λ x. (x.0, x.1.now)) result (signed_at bytes.now) }
{
    let (number, rest) = u64_at(bytes)?;
    Ok((number.cast_signed(), rest))
}

#[tactic(auto, unfolding(crate::specs::Reading::bool_at))]
fn bool_at(bytes: &[u8]) -> Result<(bool, &[u8]), PackedEnd>
    ensures { Gives (λ x. (x.0, x.1.now)) result (bool_at bytes.now) }
{
    match bytes {
        [] => Err(PackedEnd::NotABatch),
        [0, rest @ ..] => Ok((false, rest)),
        [1, rest @ ..] => Ok((true, rest)),
        [_, ..] => Err(PackedEnd::NotABatch),
    }
}

#[tactic(auto, unfolding(crate::specs::Reading::text_at))]
fn text_at(alloc: Global, bytes: &[u8]) -> Result<(Bytes, &[u8]), PackedEnd>
    ensures { Gives (λ x. (x.0, x.1.now)) result (text_at bytes.now) }
{
    let (count, rest) = u32_at(bytes)?;
    if count as usize > MOST_PARTS || rest.len() < count as usize {
        return Err(PackedEnd::NotABatch);
    }
    let (text, rest) = rest.split_at(count as usize);
    Ok((Bytes::copy(alloc, text)?, rest))
}

#[tactic(auto, unfolding(vast_value::specs::Nets::net_of))]
fn net_of(base: u128, bits: u8) -> Option<Net>
    ensures { result ≡ net_of base bits }
{
    if bits > 128 || !has_zeros(base, bits) {
        return None;
    }
    Some(Net { base, bits })
}

// Whether the address has only zeros past the first bits.
fn has_zeros(base: u128, bits: u8) -> bool
    requires { bits ≤ 128 }
    ensures { result ≡ (base % 2 ^ (128 - bits) == 0) }
{
    if bits == 0 {
        return base == 0;
    }
    base % (1 << (128 - bits)) == 0
}

#[tactic(auto, unfolding(crate::specs::Reading::net_at))]
fn net_at(bytes: &[u8]) -> Result<(Net, &[u8]), PackedEnd>
    ensures { Gives (λ x. (x.0, x.1.now)) result (net_at bytes.now) }
{
    let (base, rest) = u128_at(bytes)?;
    let (bits, rest) = u8_at(rest)?;
    match net_of(base, bits) {
        None => Err(PackedEnd::NotABatch),
        Some(net) => Ok((net, rest)),
    }
}

#[tactic(auto, unfolding(crate::specs::Reading::port_at))]
fn port_at(format: Format, bytes: &[u8]) -> Result<(Value, &[u8]), PackedEnd>
    ensures { Gives (λ x. (x.0, x.1.now)) result (port_at format bytes.now) }
{
    let (number, rest) = u16_at(bytes)?;
    match format {
        Format::First => {
            let over = Transport::Unknown;
            Ok((Value::Port { number, over }, rest))
        }
        Format::Second => {
            let (code, rest) = u8_at(rest)?;
            let Some(over) = Transport::coded(code) else {
                return Err(PackedEnd::NotABatch);
            };
            Ok((Value::Port { number, over }, rest))
        }
    }
}

#[tactic(auto, unfolding(crate::specs::Reading::value_at))]
fn value_at(
    alloc: Global,
    format: Format,
    elem: Elem,
    bytes: &[u8],
) -> Result<(Value, &[u8]), PackedEnd>
    ensures { Gives (λ x. (x.0, x.1.now)) result (value_at format elem bytes.now) }
{
    match elem {
        Elem::Bool => {
            let (b, rest) = bool_at(bytes)?;
            Ok((Value::Bool(b), rest))
        }
        Elem::Count => {
            let (n, rest) = u64_at(bytes)?;
            Ok((Value::Count(n), rest))
        }
        Elem::Int => {
            let (n, rest) = i64_at(bytes)?;
            Ok((Value::Int(n), rest))
        }
        Elem::Time => {
            let (t, rest) = i64_at(bytes)?;
            Ok((Value::Time(t), rest))
        }
        Elem::Span => {
            let (t, rest) = i64_at(bytes)?;
            Ok((Value::Span(t), rest))
        }
        Elem::Text => {
            let (text, rest) = text_at(alloc, bytes)?;
            Ok((Value::Text(text), rest))
        }
        Elem::Name => {
            let (text, rest) = text_at(alloc, bytes)?;
            Ok((Value::Name(text), rest))
        }
        Elem::Addr => {
            let (addr, rest) = u128_at(bytes)?;
            Ok((Value::Addr(addr), rest))
        }
        Elem::Subnet => {
            let (net, rest) = net_at(bytes)?;
            Ok((Value::Subnet(net), rest))
        }
        Elem::Port => port_at(format, bytes),
    }
}

#[tactic(auto, unfolding(crate::specs::Reading::element_at))]
fn element_at(
    alloc: Global,
    format: Format,
    elem: Elem,
    bytes: &[u8],
) -> Result<(Option<Value>, &[u8]), PackedEnd>
    ensures { Gives (λ x. (x.0, x.1.now)) result (element_at format elem bytes.now) }
{
    match bytes {
        [] => Err(PackedEnd::NotABatch),
        [0, rest @ ..] => Ok((None, rest)),
        [1, rest @ ..] => {
            let (value, rest) = value_at(alloc, format, elem, rest)?;
            Ok((Some(value), rest))
        }
        [_, ..] => Err(PackedEnd::NotABatch),
    }
}

fn elements_at(
    alloc: Global,
    format: Format,
    elem: Elem,
    count: u32,
    bytes: &[u8],
) -> Result<(Cells, &[u8]), PackedEnd>
    ensures { Gives (λ x. (x.0, x.1.now)) result (many_at (element_at format elem) count bytes.now) }
{
    let mut items = Cells::new(alloc);
    let mut rest = bytes;
    for _ in 0..count {
        let (item, after) = element_at(alloc, format, elem, rest)?;
        items.push(item)?;
        rest = after;
    }
    Ok((items, rest))
}

#[tactic(auto, unfolding(crate::specs::Reading::container_at))]
fn container_at(
    alloc: Global,
    format: Format,
    elem: Elem,
    bytes: &[u8],
) -> Result<(Cell, &[u8]), PackedEnd>
    ensures { Gives (λ x. (x.0, x.1.now)) result (container_at format elem bytes.now) }
{
    let (count, rest) = u32_at(bytes)?;
    if count as usize > MOST_PARTS {
        return Err(PackedEnd::NotABatch);
    }
    let (items, rest) = elements_at(alloc, format, elem, count, rest)?;
    if is_lone_unset(&items) {
        return Err(PackedEnd::NotABatch);
    }
    Ok((Cell::Many(items), rest))
}

fn is_lone_unset(items: &Cells) -> bool
    ensures { result ≡ is_lone_unset items.now }
{
    matches!(items.as_slice(), [None])
}

#[tactic(auto, unfolding(crate::specs::Reading::set_cell_at))]
fn set_cell_at(
    alloc: Global,
    format: Format,
    kind: Kind,
    bytes: &[u8],
) -> Result<(Cell, &[u8]), PackedEnd>
    ensures { Gives (λ x. (x.0, x.1.now)) result (set_cell_at format kind bytes.now) }
{
    match kind {
        Kind::One(elem) => {
            let (value, rest) = value_at(alloc, format, elem, bytes)?;
            Ok((Cell::One(value), rest))
        }
        Kind::SetOf(elem) => container_at(alloc, format, elem, bytes),
        Kind::VecOf(elem) => container_at(alloc, format, elem, bytes),
    }
}

// The functions below read straight into a row, and give how many bytes they read: a cell that is handed on by value is
// copied through memory at each step.

#[inline]
#[tactic(auto, unfolding(crate::specs::Reading::number_at))]
fn u64_front(bytes: &[u8]) -> Result<u64, PackedEnd>
    ensures read { Gives (λ n. (n, drop 8 bytes.now)) result (number_at 8 bytes.now) }
    ensures within { OnOk result (8 ≤ length bytes.now) }
{
    if bytes.len() < 8 {
        return Err(PackedEnd::NotABatch);
    }
    Ok(LittleEndian::read_u64(bytes))
}

#[inline]
#[tactic(auto, unfolding(crate::specs::Reading::signed_at))]
fn i64_front(bytes: &[u8]) -> Result<i64, PackedEnd>
    ensures read { Gives (λ n. (n, drop 8 bytes.now)) result (signed_at bytes.now) }
    ensures within { OnOk result (8 ≤ length bytes.now) }
{
    let number = u64_front(bytes)?;
    Ok(number.cast_signed())
}

// A number of 16 bytes is read as two of 8, which the compiler loads whole.
#[inline]
#[tactic(auto, using(crate::proofs::HalfLemmas::from_halves), unfolding(crate::specs::Reading::number_at))]
fn u128_front(bytes: &[u8]) -> Result<u128, PackedEnd>
    ensures read { Gives (λ n. (n, drop 16 bytes.now)) result (number_at 16 bytes.now) }
    ensures within { OnOk result (16 ≤ length bytes.now) }
{
    if bytes.len() < 16 {
        return Err(PackedEnd::NotABatch);
    }
    let low = LittleEndian::read_u64(bytes);
    let high = LittleEndian::read_u64(&bytes[8..]);
    Ok(low as u128 + ((high as u128) << 64))
}

#[inline]
#[tactic(auto, unfolding(crate::specs::Reading::text_at, crate::specs::Reading::number_at))]
fn text_front(alloc: Global, bytes: &[u8]) -> Result<Bytes, PackedEnd>
    ensures read { Gives (λ t. (t, drop (4 + length t) bytes.now)) result (text_at bytes.now) }
    ensures within { IfOk result (λ t. 4 + length t ≤ length bytes.now) }
{
    if bytes.len() < 4 {
        return Err(PackedEnd::NotABatch);
    }
    let count = LittleEndian::read_u32(bytes) as usize;
    let rest = &bytes[4..];
    if count > MOST_PARTS || rest.len() < count {
        return Err(PackedEnd::NotABatch);
    }
    Ok(Bytes::copy(alloc, &rest[..count])?)
}

#[inline]
#[tactic(auto, unfolding(crate::specs::Reading::port_at, crate::specs::Reading::number_at, crate::specs::Reading::byte_at))]
fn second_port_front(bytes: &[u8]) -> Result<Value, PackedEnd>
    ensures read { Gives (λ v. (v, drop 3 bytes.now)) result (port_at Second bytes.now) }
    ensures within { OnOk result (3 ≤ length bytes.now) }
{
    if bytes.len() < 3 {
        return Err(PackedEnd::NotABatch);
    }
    let number = LittleEndian::read_u16(bytes);
    let Some(over) = Transport::coded(bytes[2]) else {
        return Err(PackedEnd::NotABatch);
    };
    Ok(Value::Port { number, over })
}

// A cell of a rarer kind, by value.
#[inline(never)]
fn put_other_at(
    alloc: Global,
    format: Format,
    kind: Kind,
    bytes: &[u8],
    row: &mut Row,
) -> Result<usize, PackedEnd>
    ensures read { Gives (λ n. (row.new, drop n bytes.now)) result (reads_as (λ x. row.old ++ x ∷ []) (set_cell_at format kind bytes.now)) }
    ensures within { IfOk result (λ n. n ≤ length bytes.now) }
{
    ranged_bytes(bytes);
    let (cell, rest) = set_cell_at(alloc, format, kind, bytes)?;
    row.push(cell)?;
    Ok(bytes.len() - rest.len())
}

#[inline(always)]
#[tactic(auto, unfolding(crate::specs::Reading::set_cell_at, crate::specs::Reading::value_at))]
fn put_set_cell_at(
    alloc: Global,
    format: Format,
    kind: Kind,
    bytes: &[u8],
    row: &mut Row,
) -> Result<usize, PackedEnd>
    ensures read { Gives (λ n. (row.new, drop n bytes.now)) result (reads_as (λ x. row.old ++ x ∷ []) (set_cell_at format kind bytes.now)) }
    ensures within { IfOk result (λ n. n ≤ length bytes.now) }
{
    match (kind, format) {
        (Kind::One(Elem::Count), _) => {
            let n = u64_front(bytes)?;
            row.push(Cell::One(Value::Count(n)))?;
            Ok(8)
        }
        (Kind::One(Elem::Time), _) => {
            let t = i64_front(bytes)?;
            row.push(Cell::One(Value::Time(t)))?;
            Ok(8)
        }
        (Kind::One(Elem::Span), _) => {
            let t = i64_front(bytes)?;
            row.push(Cell::One(Value::Span(t)))?;
            Ok(8)
        }
        (Kind::One(Elem::Text), _) => {
            let text = text_front(alloc, bytes)?;
            let count = 4 + text.as_slice().len();
            row.push(Cell::One(Value::Text(text)))?;
            Ok(count)
        }
        (Kind::One(Elem::Name), _) => {
            let text = text_front(alloc, bytes)?;
            let count = 4 + text.as_slice().len();
            row.push(Cell::One(Value::Name(text)))?;
            Ok(count)
        }
        (Kind::One(Elem::Addr), _) => {
            let addr = u128_front(bytes)?;
            row.push(Cell::One(Value::Addr(addr)))?;
            Ok(16)
        }
        (Kind::One(Elem::Port), Format::Second) => {
            let port = second_port_front(bytes)?;
            row.push(Cell::One(port))?;
            Ok(3)
        }
        _ => put_other_at(alloc, format, kind, bytes, row),
    }
}

#[inline]
#[tactic(auto, unfolding(crate::specs::Reading::cell_at))]
fn put_cell_at(
    alloc: Global,
    format: Format,
    kind: Kind,
    bytes: &[u8],
    row: &mut Row,
) -> Result<usize, PackedEnd>
    ensures read { Gives (λ n. (row.new, drop n bytes.now)) result (reads_as (λ x. row.old ++ x ∷ []) (cell_at format kind bytes.now)) }
    ensures within { IfOk result (λ n. n ≤ length bytes.now) }
{
    match bytes {
        [] => Err(PackedEnd::NotABatch),
        [0, ..] => {
            row.push(Cell::Unset)?;
            Ok(1)
        }
        [1, rest @ ..] => {
            let count = put_set_cell_at(alloc, format, kind, rest, row)?;
            Ok(1 + count)
        }
        [_, ..] => Err(PackedEnd::NotABatch),
    }
}

fn row_at<'a>(
    alloc: Global,
    format: Format,
    columns: &[Column],
    bytes: &'a [u8],
) -> Result<(Row, &'a [u8]), PackedEnd>
    ensures { Gives (λ x. (x.0, x.1.now)) result (row_at format (map field_of columns.now) bytes.now) }
{
    let mut row = Row::with_capacity(alloc, columns.len())?;
    let mut rest = bytes;
    for column in columns {
        let count = put_cell_at(alloc, format, column.kind, rest, &mut row)?;
        rest = behind(rest, count);
    }
    Ok((row, rest))
}

#[inline(always)]
fn behind(bytes: &[u8], count: usize) -> &[u8]
    requires { count ≤ length bytes.now }
    ensures { result.now ≡ drop count bytes.now }
{
    &bytes[count..]
}

#[tactic(auto, unfolding(crate::specs::Reading::elem_of_code))]
fn elem_of_code(code: u8) -> Option<Elem>
    ensures { result ≡ elem_of_code code }
{
    match code {
        0 => Some(Elem::Bool),
        1 => Some(Elem::Count),
        2 => Some(Elem::Int),
        3 => Some(Elem::Time),
        4 => Some(Elem::Span),
        5 => Some(Elem::Text),
        6 => Some(Elem::Name),
        7 => Some(Elem::Addr),
        8 => Some(Elem::Subnet),
        9 => Some(Elem::Port),
        _ => None,
    }
}

#[tactic(auto, unfolding(crate::specs::Reading::kind_of_code))]
fn kind_of_code(code: u8) -> Option<Kind>
    ensures { result ≡ kind_of_code code }
{
    if code < 16 {
        Some(Kind::One(elem_of_code(code)?))
    } else if code < 32 {
        Some(Kind::SetOf(elem_of_code(code - 16)?))
    } else {
        Some(Kind::VecOf(elem_of_code(code - 32)?))
    }
}

#[tactic(auto, unfolding(crate::specs::Reading::field_at))]
fn column_at(alloc: Global, bytes: &[u8]) -> Result<(Column, &[u8]), PackedEnd>
    ensures { Gives (λ x. (field_of x.0, x.1.now)) result (field_at bytes.now) }
{
    let (code, rest) = u8_at(bytes)?;
    match kind_of_code(code) {
        None => Err(PackedEnd::NotABatch),
        Some(kind) => {
            let (name, rest) = name_at(alloc, rest)?;
            Ok((Column { name, kind }, rest))
        }
    }
}

fn name_at(alloc: Global, bytes: &[u8]) -> Result<(Bytes, &[u8]), PackedEnd>
    ensures read { Gives (λ x. (x.0, x.1.now)) result (text_at bytes.now) }
    ensures short { IfOk result (λ x. length x.0 ≤ 2 ^ 24) }
{
    text_at(alloc, bytes)
}

fn columns_at(alloc: Global, count: u16, bytes: &[u8]) -> Result<(Columns, &[u8]), PackedEnd>
    ensures { Gives (λ x. (map field_of x.0, x.1.now)) result (many_at field_at count bytes.now) }
{
    let mut columns = Columns::new(alloc);
    let mut rest = bytes;
    for _ in 0..count {
        let (column, after) = column_at(alloc, rest)?;
        columns.push(column)?;
        rest = after;
    }
    Ok((columns, rest))
}

#[tactic(auto, unfolding(crate::specs::Reading::heading_at))]
fn layout_at(alloc: Global, bytes: &[u8]) -> Result<(Layout, &[u8]), PackedEnd>
    ensures { Gives (λ x. (heading_of x.0, x.1.now)) result (heading_at bytes.now) }
{
    let (path, rest) = name_at(alloc, bytes)?;
    let (count, rest) = u16_at(rest)?;
    let (columns, rest) = columns_at(alloc, count, rest)?;
    match Layout::new(path, columns) {
        Err(_) => Err(PackedEnd::NotABatch),
        Ok(layout) => Ok((layout, rest)),
    }
}

fn many_rows_at<'a>(
    alloc: Global,
    format: Format,
    columns: &[Column],
    count: u32,
    bytes: &'a [u8],
) -> Result<(Rows, &'a [u8]), PackedEnd>
    ensures { Gives (λ x. (x.0, x.1.now)) result (many_at (row_at format (map field_of columns.now)) count bytes.now) }
{
    let mut rows = Rows::with_capacity(alloc, count as usize)?;
    let mut rest = bytes;
    for _ in 0..count {
        let (row, after) = row_at(alloc, format, columns, rest)?;
        rows.push(row)?;
        rest = after;
    }
    Ok((rows, rest))
}

#[tactic(auto, unfolding(crate::specs::Reading::rows_at))]
fn rows_at(
    alloc: Global,
    format: Format,
    columns: &[Column],
    bytes: &[u8],
) -> Result<Rows, PackedEnd>
    ensures { Gives (λ x. x) result (rows_at format (map field_of columns.now) bytes.now) }
{
    let (count, rest) = u32_at(bytes)?;
    if count < 1 || count as usize > MOST_ROWS {
        return Err(PackedEnd::NotABatch);
    }
    let (rows, rest) = many_rows_at(alloc, format, columns, count, rest)?;
    if !rest.is_empty() {
        return Err(PackedEnd::NotABatch);
    }
    Ok(rows)
}

/// What the bytes of a batch say, where they are read.
#[derive(Drop)]
pub(crate) struct Parts {
    format: Format,
    source: u32,
    layout: Layout,
    rows: Rows,
}

/// What the bytes say. It is `NotABatch` exactly where they are not read.
#[tactic(auto, unfolding(crate::specs::Reading::content_at))]
pub(crate) fn parts_at(alloc: Global, bytes: &[u8]) -> Result<Parts, PackedEnd>
    ensures { Gives said_by result (content_at bytes.now) }
{
    let (code, rest) = u8_at(bytes)?;
    let Some(format) = Format::coded(code) else {
        return Err(PackedEnd::NotABatch);
    };
    let (source, rest) = u32_at(rest)?;
    let (layout, rest) = layout_at(alloc, rest)?;
    let rows = rows_at(alloc, format, layout.columns(), rest)?;
    Ok(Parts {
        format,
        source,
        layout,
        rows,
    })
}

/// Whether the bytes spell a batch. It is `NotABatch` exactly where they spell none.
pub(crate) fn check_spelled(alloc: Global, bytes: &[u8]) -> Result<(), PackedEnd>
    ensures spelled { OnOk result (IsSpelled bytes.now) }
    ensures refused { IfErr result (λ end. end ≡ NotABatch → (s : Spelled) → ¬ Spells bytes.now s) }
{
    ranged_bytes(bytes);
    parts_at(alloc, bytes)?;
    Ok(())
}

/// The batch that the bytes spell. What was read is known to be a batch, so its rows are not tested against the layout.
/// Copies of its layout share their columns, since each event that is found has one.
pub(crate) fn batch_in(alloc: Global, bytes: &[u8]) -> Result<Batch, AllocError>
    requires { IsSpelled bytes.now }
    ensures { IfOk result (λ batch. content_of batch ≡ (said_in bytes.now).content) }
{
    match parts_at(alloc, bytes) {
        Err(PackedEnd::Memory) => Err(AllocError),
        Err(PackedEnd::NotABatch) => unreachable!(),
        Ok(parts) => {
            let layout = parts.layout.share(alloc)?;
            Ok(Batch::of_fitting(parts.source, layout, parts.rows))
        }
    }
}
