//! The row at which the reader of a log stands, carried.
ghost use Rattle.std.specs.Prelude.{◌≡◌, ◌<◌, ◌≤◌, ◌++◌, ◌^◌, ◌∷◌, IfOk, IfSome, OnOk, Some, length, map, slice_get, true};
ghost use Rattle.std.specs.List.{between, flat_map};
ghost use Rattle.std.specs.Option.{option_map};
ghost use Rattle.value_text.specs.Writing.{cell_text};
ghost use Rattle.value_writing.specs.Writing.{transport_mark};
ghost use Rattle.vast_value.specs.declared.cell.Cell.{Cell};
ghost use Rattle.vast_value.specs.declared.cell.Cell.TheVariants.{One};
ghost use Rattle.vast_value.specs.declared.transport.Transport.TheVariants.{Unknown};
ghost use Rattle.vast_value.specs.declared.value.Value.TheVariants.{Port};
ghost use Rattle.vast_value.specs.Headings.{field_of};
ghost use Rattle.vast_value.specs.Views.{cell_seen};
ghost use Rattle.zeek_log.specs.Reader.{heading_told};
ghost use Rattle.importer.specs.Carrying.{carried_cell, carried_cells, is_port_at, transport_at};
ghost use Rattle.importer.specs.Coming.{fields_told};

use crate::carrying::{carry_cell, cell_transport, is_port_kind};
use std::alloc::{AllocError, Global};
use value_text::write_cell;
use vast_value::{Bytes, Cell, Column, PlainNumber, RowView, SeenCell, Transport, Value};
use zeek_log::ZeekReader;

/// The columns of the layout of the last head, none where none stands.
pub fn columns_of(reader: &ZeekReader) -> &[Column]
    ensures { map field_of result.now ≡ fields_told (heading_told reader.now.at.state) }
{
    match reader.layout() {
        Some(layout) => layout.columns(),
        None => &[],
    }
}

/// The transport that the cell at the protocol's place names.
pub fn transport_of(
    alloc: Global,
    reader: &ZeekReader,
    protocol: Option<usize>,
) -> Result<Transport, AllocError>
    ensures { IfOk result (λ over. over ≡ transport_at protocol reader.now.row) }
{
    let Some(at) = protocol else {
        return Ok(Transport::Unknown);
    };
    match reader.cell(alloc, at)? {
        Some(seen) => Ok(cell_transport(seen.get())),
        None => Ok(Transport::Unknown),
    }
}

/// The cell of a column, carried by the protocol at its place.
pub fn cell_of(
    alloc: Global,
    reader: &ZeekReader,
    protocol: Option<usize>,
    column: usize,
) -> Result<Option<SeenCell<'_>>, AllocError>
    ensures { IfOk result (λ found. option_map cell_seen found ≡ slice_get (carried_cells (transport_at protocol reader.now.row) (fields_told (heading_told reader.now.at.state)) reader.now.row) column) }
{
    if !is_port_at(columns_of(reader), column) {
        return reader.cell(alloc, column);
    }
    let over = transport_of(alloc, reader, protocol)?;
    port_of(alloc, reader, over, column)
}

/// The cell of a port column with this transport.
fn port_of(
    alloc: Global,
    reader: &ZeekReader,
    over: Transport,
    column: usize,
) -> Result<Option<SeenCell<'_>>, AllocError>
    requires { is_port_at (fields_told (heading_told reader.now.at.state)) column ≡ true }
    ensures { IfOk result (λ found. option_map cell_seen found ≡ slice_get (carried_cells over (fields_told (heading_told reader.now.at.state)) reader.now.row) column) }
{
    if let Some(number) = plain_port(reader, column) {
        let port = Value::Port { number, over };
        return Ok(Some(SeenCell::Made(Cell::One(port))));
    }
    match reader.cell(alloc, column)? {
        Some(seen) => Ok(Some(SeenCell::Made(carry_cell(alloc, over, seen.get())?))),
        None => Ok(None),
    }
}

/// Puts the cells of the row behind what `out` holds, each as it is written and behind a tab, those of port columns with this
/// transport.
pub fn write_carried(
    alloc: Global,
    reader: &ZeekReader,
    over: Transport,
    out: &mut Bytes,
) -> Result<(), AllocError>
    ensures { OnOk result (out.new ≡ out.old ++ flat_map (λ x. 9 ∷ cell_text x) (carried_cells over (fields_told (heading_told reader.now.at.state)) reader.now.row)) }
{
    let columns = columns_of(reader);
    let count = reader.count();
    let mut from = 0;
    for column in 0..count {
        if is_port_at(columns, column) {
            write_to_port(alloc, reader, over, from, column, out)?;
            from = column + 1;
        }
    }
    reader.write_cells(alloc, from, count, out)
}

/// Puts the cells from one column on and before a port column behind what `out` holds, and the port column's cell with this
/// transport, each behind a tab.
fn write_to_port(
    alloc: Global,
    reader: &ZeekReader,
    over: Transport,
    from: usize,
    column: usize,
    out: &mut Bytes,
) -> Result<(), AllocError>
    requires order { from ≤ column }
    requires within { column < length reader.now.row }
    requires few { length reader.now.row < 2 ^ 64 }
    ensures { OnOk result ((x : Cell) → slice_get reader.now.row column ≡ Some x → out.new ≡ (out.old ++ flat_map (λ y. 9 ∷ cell_text y) (between from column reader.now.row)) ++ 9 ∷ cell_text (carried_cell over x)) }
{
    if let Some(_) = plain_port(reader, column) {
        reader.write_cells(alloc, from, column + 1, out)?;
        out.append(mark_of(over))?;
        return Ok(());
    }
    let Some(seen) = reader.cell(alloc, column)? else {
        unreachable!()
    };
    reader.write_cells(alloc, from, column, out)?;
    out.push(b'\t')?;
    write_cell(&carry_cell(alloc, over, seen.get())?, out)
}

/// The number of the port of an unknown transport in a column, where it is seen to be one. `None` says nothing.
fn plain_port(reader: &ZeekReader, column: usize) -> Option<u16>
    ensures { IfSome result (λ number. slice_get reader.now.row column ≡ Some (One (Port number Unknown))) }
{
    match reader.plain_number(column)? {
        PlainNumber::Port(number) => Some(number),
        PlainNumber::Count(_) => None,
    }
}

/// What stands behind the number of a port.
fn mark_of(over: Transport) -> &'static [u8]
    ensures { result.now ≡ transport_mark over }
{
    match over {
        Transport::Unknown => b"",
        Transport::Tcp => b"/tcp",
        Transport::Udp => b"/udp",
        Transport::Icmp => b"/icmp",
    }
}

fn is_port_at(columns: &[Column], at: usize) -> bool
    ensures { result ≡ is_port_at (map field_of columns.now) at }
{
    match columns.get(at) {
        Some(column) => is_port_kind(column.kind),
        None => false,
    }
}
