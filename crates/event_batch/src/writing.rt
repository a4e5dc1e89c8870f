//! Writing the bytes of a batch.
ghost use Rattle.std.specs.Prelude.{◌≡◌, ◌≤◌, ◌^◌, ◌∷◌, [], ◌++◌, length, map, IsTrue, IfOk, OnOk};
ghost use Rattle.std.specs.List.{flat_map, list_all};
ghost use Rattle.vast_value.specs.declared.value.Value.TheVariants.{Bool as BoolOf, Port};
ghost use Rattle.vast_value.specs.Fit.{is_small, is_bounded, is_bounded_element};
ghost use Rattle.vast_value.specs.Headings.{field_of, heading_of};
ghost use Rattle.event_batch.specs.Contents.{content_of};
ghost use Rattle.vast_value.specs.ValueBytes.{number, text as text_bytes, value_bytes};
ghost use Rattle.event_batch.specs.declared.format.Format.TheVariants.{Second};
ghost use Rattle.event_batch.specs.Spelling.{elem_code, kind_code, element_bytes, cell_bytes, row_bytes, field_bytes, heading_bytes, spelling};

use crate::batch::Batch;
use crate::format::Format;
use crate::size::first_size;
use byteorder::{ByteOrder, LittleEndian};
use std::alloc::{AllocError, Global};
use vast_value::{Cell, Column, Elem, Kind, Layout, Net, Row, Transport, Value};

// The most bytes of a value that is no text, with its mark: those of a subnet.
const MOST_PLAIN: usize = 18;

/// The bytes of a batch in format 2.
pub(crate) fn spell(alloc: Global, batch: &Batch) -> Result<Vec<u8>, AllocError>
    ensures { IfOk result (λ block. block.items ≡ spelling (record { format = Second; content = content_of batch.now })) }
{
    let mut block = Vec::with_capacity(alloc, first_size(batch))?;
    block.push(Format::Second.code())?;
    put_u32(&mut block, batch.source())?;
    put_heading(&mut block, batch.layout())?;
    put_u32(&mut block, batch.rows().len() as u32)?;
    put_rows(&mut block, batch.rows())?;
    block.shrink_to_fit();
    Ok(block)
}

fn put_heading(out: &mut Vec<u8>, layout: &Layout) -> Result<(), AllocError>
    ensures { OnOk result (out.new.items ≡ out.old.items ++ heading_bytes (heading_of layout.now)) }
{
    put_text(out, layout.path())?;
    put_u16(out, layout.columns().len() as u16)?;
    put_columns(out, layout.columns())
}

fn put_columns(out: &mut Vec<u8>, columns: &[Column]) -> Result<(), AllocError>
    ensures { OnOk result (out.new.items ≡ out.old.items ++ flat_map field_bytes (map field_of columns.now)) }
{
    for column in columns {
        put_column(out, column)?;
    }
    Ok(())
}

fn put_column(out: &mut Vec<u8>, column: &Column) -> Result<(), AllocError>
    ensures { OnOk result (out.new.items ≡ out.old.items ++ field_bytes (field_of column.now)) }
{
    out.push(kind_code(column.kind))?;
    put_text(out, column.name.as_slice())
}

fn kind_code(kind: Kind) -> u8
    ensures { result ≡ kind_code kind }
{
    match kind {
        Kind::One(elem) => elem_code(elem),
        Kind::SetOf(elem) => elem_code(elem) + 16,
        Kind::VecOf(elem) => elem_code(elem) + 32,
    }
}

fn elem_code(elem: Elem) -> u8
    ensures code { result ≡ elem_code elem }
    ensures small { result ≤ 9 }
{
    match elem {
        Elem::Bool => 0,
        Elem::Count => 1,
        Elem::Int => 2,
        Elem::Time => 3,
        Elem::Span => 4,
        Elem::Text => 5,
        Elem::Name => 6,
        Elem::Addr => 7,
        Elem::Subnet => 8,
        Elem::Port => 9,
    }
}

fn put_rows(out: &mut Vec<u8>, rows: &[Row]) -> Result<(), AllocError>
    requires { IsTrue (list_all (list_all is_small) rows.now) }
    ensures { OnOk result (out.new.items ≡ out.old.items ++ flat_map (row_bytes Second) rows.now) }
{
    for row in rows {
        put_cells(out, row.as_slice())?;
    }
    Ok(())
}

fn put_cells(out: &mut Vec<u8>, cells: &[Cell]) -> Result<(), AllocError>
    requires { IsTrue (list_all is_small cells.now) }
    ensures { OnOk result (out.new.items ≡ out.old.items ++ row_bytes Second cells.now) }
{
    for cell in cells {
        put_cell(out, cell)?;
    }
    Ok(())
}

fn put_cell(out: &mut Vec<u8>, cell: &Cell) -> Result<(), AllocError>
    requires { IsTrue (is_small cell.now) }
    ensures { OnOk result (out.new.items ≡ out.old.items ++ cell_bytes Second cell.now) }
{
    match cell {
        Cell::Unset => {
            out.push(0)?;
        }
        Cell::One(value) => {
            put_set(out, value)?;
        }
        Cell::Many(items) => {
            put_set_u32(out, items.as_slice().len() as u32)?;
            put_elements(out, items.as_slice())?;
        }
    }
    Ok(())
}

fn put_elements(out: &mut Vec<u8>, items: &[Option<Value>]) -> Result<(), AllocError>
    requires { IsTrue (list_all is_bounded_element items.now) }
    ensures { OnOk result (out.new.items ≡ out.old.items ++ flat_map (element_bytes Second) items.now) }
{
    for item in items {
        put_element(out, item)?;
    }
    Ok(())
}

fn put_element(out: &mut Vec<u8>, item: &Option<Value>) -> Result<(), AllocError>
    requires { IsTrue (is_bounded_element item.now) }
    ensures { OnOk result (out.new.items ≡ out.old.items ++ element_bytes Second item.now) }
{
    match item {
        None => {
            out.push(0)?;
        }
        Some(value) => {
            put_set(out, value)?;
        }
    }
    Ok(())
}

// The mark of what is set, and the value. Where there is room for each value but a text, nothing more is asked of the
// memory.
#[inline]
fn put_set(out: &mut Vec<u8>, value: &Value) -> Result<(), AllocError>
    requires { IsTrue (is_bounded value.now) }
    ensures { OnOk result (out.new.items ≡ out.old.items ++ 1 ∷ value_bytes value.now) }
{
    if out.capacity() - out.len() >= MOST_PLAIN {
        return put_set_value(out, value);
    }
    put_set_value_growing(out, value)
}

#[inline(never)]
fn put_set_value_growing(out: &mut Vec<u8>, value: &Value) -> Result<(), AllocError>
    requires { IsTrue (is_bounded value.now) }
    ensures { OnOk result (out.new.items ≡ out.old.items ++ 1 ∷ value_bytes value.now) }
{
    put_set_value(out, value)
}

#[inline(always)]
fn put_set_value(out: &mut Vec<u8>, value: &Value) -> Result<(), AllocError>
    requires { IsTrue (is_bounded value.now) }
    ensures { OnOk result (out.new.items ≡ out.old.items ++ 1 ∷ value_bytes value.now) }
{
    match value {
        Value::Bool(b) => put_set_bool(out, *b),
        Value::Count(n) => put_set_u64(out, *n),
        Value::Int(n) | Value::Time(n) | Value::Span(n) => put_set_u64(out, n.cast_unsigned()),
        Value::Text(text) | Value::Name(text) => put_set_text(out, text.as_slice()),
        Value::Addr(addr) => put_set_u128(out, *addr),
        Value::Subnet(net) => put_set_net(out, net),
        Value::Port { number, over } => put_set_port(out, *number, *over),
    }
}

fn put_set_bool(out: &mut Vec<u8>, b: bool) -> Result<(), AllocError>
    ensures { OnOk result (out.new.items ≡ out.old.items ++ 1 ∷ value_bytes (BoolOf b)) }
{
    out.extend_from_slice(&[1, if b { 1 } else { 0 }])
}

fn put_set_net(out: &mut Vec<u8>, net: &Net) -> Result<(), AllocError>
    ensures { OnOk result (out.new.items ≡ out.old.items ++ 1 ∷ (number 16 net.now.base ++ net.now.bits ∷ [])) }
{
    put_set_u128(out, net.base)?;
    out.push(net.bits)?;
    Ok(())
}

#[inline]
#[tactic(auto, unfolding(vast_value::specs::ValueBytes::number))]
fn put_set_port(out: &mut Vec<u8>, port: u16, over: Transport) -> Result<(), AllocError>
    ensures { OnOk result (out.new.items ≡ out.old.items ++ 1 ∷ value_bytes (Port port over)) }
{
    let mut bytes = [1, 0, 0, over.code()];
    LittleEndian::write_u16(&mut bytes[1..], port);
    out.extend_from_slice(&bytes)
}

#[inline(always)]
fn put_set_text(out: &mut Vec<u8>, text: &[u8]) -> Result<(), AllocError>
    requires { length text.now ≤ 2 ^ 24 }
    ensures { OnOk result (out.new.items ≡ out.old.items ++ 1 ∷ text_bytes text.now) }
{
    put_set_u32(out, text.len() as u32)?;
    if text.len() <= out.capacity() - out.len() {
        return out.extend_from_slice(text);
    }
    put_growing(out, text)
}

#[inline(never)]
fn put_growing(out: &mut Vec<u8>, bytes: &[u8]) -> Result<(), AllocError>
    ensures { OnOk result (out.new.items ≡ out.old.items ++ bytes.now) }
{
    out.extend_from_slice(bytes)
}

#[inline]
#[tactic(auto, unfolding(vast_value::specs::ValueBytes::number))]
fn put_set_u32(out: &mut Vec<u8>, n: u32) -> Result<(), AllocError>
    ensures { OnOk result (out.new.items ≡ out.old.items ++ 1 ∷ number 4 n) }
{
    let mut bytes = [1; 5];
    LittleEndian::write_u32(&mut bytes[1..], n);
    out.extend_from_slice(&bytes)
}

#[inline]
#[tactic(auto, unfolding(vast_value::specs::ValueBytes::number))]
fn put_set_u64(out: &mut Vec<u8>, n: u64) -> Result<(), AllocError>
    ensures { OnOk result (out.new.items ≡ out.old.items ++ 1 ∷ number 8 n) }
{
    let mut bytes = [1; 9];
    LittleEndian::write_u64(&mut bytes[1..], n);
    out.extend_from_slice(&bytes)
}

// A number of 16 bytes is put as two of 8, which the compiler stores whole.
#[inline]
#[tactic(auto, using(crate::proofs::HalfLemmas::of_halves))]
fn put_set_u128(out: &mut Vec<u8>, n: u128) -> Result<(), AllocError>
    ensures { OnOk result (out.new.items ≡ out.old.items ++ 1 ∷ number 16 n) }
{
    put_set_halves(out, (n % (1 << 64)) as u64, (n >> 64) as u64)
}

#[inline]
#[tactic(auto, unfolding(vast_value::specs::ValueBytes::number))]
fn put_set_halves(out: &mut Vec<u8>, low: u64, high: u64) -> Result<(), AllocError>
    ensures { OnOk result (out.new.items ≡ out.old.items ++ 1 ∷ (number 8 low ++ number 8 high)) }
{
    let mut bytes = [1; 17];
    LittleEndian::write_u64(&mut bytes[9..], high);
    LittleEndian::write_u64(&mut bytes[1..], low);
    out.extend_from_slice(&bytes)
}

fn put_text(out: &mut Vec<u8>, text: &[u8]) -> Result<(), AllocError>
    requires { length text.now ≤ 2 ^ 24 }
    ensures { OnOk result (out.new.items ≡ out.old.items ++ text_bytes text.now) }
{
    put_u32(out, text.len() as u32)?;
    out.extend_from_slice(text)
}

#[tactic(auto, unfolding(vast_value::specs::ValueBytes::number))]
fn put_u16(out: &mut Vec<u8>, n: u16) -> Result<(), AllocError>
    ensures { OnOk result (out.new.items ≡ out.old.items ++ number 2 n) }
{
    let mut bytes = [0; 2];
    LittleEndian::write_u16(&mut bytes, n);
    out.extend_from_slice(&bytes)
}

#[tactic(auto, unfolding(vast_value::specs::ValueBytes::number))]
fn put_u32(out: &mut Vec<u8>, n: u32) -> Result<(), AllocError>
    ensures { OnOk result (out.new.items ≡ out.old.items ++ number 4 n) }
{
    let mut bytes = [0; 4];
    LittleEndian::write_u32(&mut bytes, n);
    out.extend_from_slice(&bytes)
}
