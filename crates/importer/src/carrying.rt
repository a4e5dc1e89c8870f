//! Ports get the transport that their row's protocol names.
ghost use Rattle.std.specs.Prelude.{◌≡◌, if◌then◌else◌, List, None, Option, Some, map, true, IfOk};
ghost use Rattle.std.specs.List.{list_any};
ghost use Rattle.vast_value.specs.Headings.{Field, Heading, field_of, heading_of, fits_fields};
ghost use Rattle.importer.specs.Carrying.{carried, carried_cell, cell_transport, has_ports, is_port_kind, is_protocol_name, is_text_kind, protocol_from, protocol_place, transport_at, transport_named};

use std::alloc::{AllocError, Global};
use vast_value::{Cell, Column, Elem, Kind, Layout, Row, Transport, Value, fits};

/// The row in which each set cell of a port column whose transport is unknown gets the one that the row's protocol names,
/// the cell of the first column named `proto`, where that column is of kind string or enum. The texts `tcp`, `udp` and
/// `icmp` name one. The row fits the layout.
#[tactic(auto, using(crate::proofs::CarryLemmas::still_fits))]
pub fn carried(alloc: Global, layout: &Layout, row: Row) -> Result<Row, AllocError>
    requires { fits_fields (heading_of layout.now).fields row ≡ true }
    ensures carried { IfOk result (λ new. new ≡ carried (heading_of layout.now).fields row) }
    ensures fits { IfOk result (λ new. fits_fields (heading_of layout.now).fields new ≡ true) }
{
    carry(alloc, protocol_place(layout.columns()), row)
}

/// The place of the column whose cells name the transports of a row's ports, where there are port columns too.
#[tactic(auto, using(crate::proofs::CarryLemmas::ports_of_columns))]
pub(crate) fn protocol_place(columns: &[Column]) -> Option<usize>
    ensures { result ≡ protocol_place (map field_of columns.now) }
{
    if !has_ports(columns) {
        return None;
    }
    named_place(columns)
}

fn has_ports(columns: &[Column]) -> bool
    ensures { result ≡ list_any (λ column. is_port_kind column.kind) columns.now }
{
    columns.iter().any(|column| is_port_kind(column.kind))
}

pub(crate) fn is_port_kind(kind: Kind) -> bool
    ensures { result ≡ is_port_kind kind }
{
    match kind {
        Kind::One(elem) => elem.is(Elem::Port),
        _ => false,
    }
}

fn named_place(columns: &[Column]) -> Option<usize>
    ensures { result ≡ protocol_from 0 (map field_of columns.now) }
{
    for (at, column) in columns.iter().enumerate() {
        if is_protocol_name(column.name.as_slice()) {
            return place_of_text(at, column.kind);
        }
    }
    None
}

fn is_protocol_name(name: &[u8]) -> bool
    ensures { result ≡ is_protocol_name name.now }
{
    name == b"proto".as_slice()
}

fn place_of_text(at: usize, kind: Kind) -> Option<usize>
    ensures { result ≡ (if is_text_kind kind then Some at else None) }
{
    match kind {
        Kind::One(Elem::Text) => Some(at),
        Kind::One(Elem::Name) => Some(at),
        _ => None,
    }
}

/// The row carried by the columns whose protocol stands at this place.
#[tactic(auto, using(crate::proofs::CarryLemmas::carry_is, crate::proofs::CarryLemmas::carry_none))]
pub(crate) fn carry(alloc: Global, protocol: Option<usize>, row: Row) -> Result<Row, AllocError>
    ensures carried { IfOk result (λ new. (fields : List Field) → protocol ≡ protocol_place fields → fits_fields fields row ≡ true → new ≡ carried fields row) }
{
    match transport_at(protocol, row.as_slice()) {
        Transport::Unknown => Ok(row),
        over => carry_over(alloc, over, row.as_slice()),
    }
}

/// A copy of the row, carried by the columns whose protocol stands at this place.
#[tactic(auto, using(crate::proofs::CarryLemmas::carry_is, crate::proofs::CarryLemmas::carry_none))]
pub(crate) fn carried_copy(
    alloc: Global,
    protocol: Option<usize>,
    cells: &[Cell],
) -> Result<Row, AllocError>
    ensures carried { IfOk result (λ new. (fields : List Field) → protocol ≡ protocol_place fields → fits_fields fields cells.now ≡ true → new ≡ carried fields cells.now) }
{
    match transport_at(protocol, cells) {
        Transport::Unknown => duplicate(alloc, cells),
        over => carry_over(alloc, over, cells),
    }
}

fn duplicate(alloc: Global, cells: &[Cell]) -> Result<Row, AllocError>
    ensures { IfOk result (λ row. row ≡ cells.now) }
{
    let mut row = Row::with_capacity(alloc, cells.len())?;
    for cell in cells {
        row.push(cell.duplicate(alloc)?)?;
    }
    Ok(row)
}

fn transport_at(protocol: Option<usize>, row: &[Cell]) -> Transport
    ensures { result ≡ transport_at protocol row.now }
{
    let Some(at) = protocol else {
        return Transport::Unknown;
    };
    match row.get(at) {
        Some(cell) => cell_transport(cell),
        None => Transport::Unknown,
    }
}

pub(crate) fn cell_transport(cell: &Cell) -> Transport
    ensures { result ≡ cell_transport cell.now }
{
    match cell {
        Cell::One(Value::Text(text)) => transport_named(text.as_slice()),
        Cell::One(Value::Name(text)) => transport_named(text.as_slice()),
        _ => Transport::Unknown,
    }
}

fn transport_named(text: &[u8]) -> Transport
    ensures { result ≡ transport_named text.now }
{
    if text == b"tcp".as_slice() {
        return Transport::Tcp;
    }
    if text == b"udp".as_slice() {
        return Transport::Udp;
    }
    if text == b"icmp".as_slice() {
        return Transport::Icmp;
    }
    Transport::Unknown
}

/// The cells, each port of an unknown transport with this one.
fn carry_over(alloc: Global, over: Transport, cells: &[Cell]) -> Result<Row, AllocError>
    ensures { IfOk result (λ row. row ≡ map (carried_cell over) cells.now) }
{
    let mut row = Row::with_capacity(alloc, cells.len())?;
    for cell in cells {
        row.push(carry_cell(alloc, over, cell)?)?;
    }
    Ok(row)
}

pub(crate) fn carry_cell(alloc: Global, over: Transport, cell: &Cell) -> Result<Cell, AllocError>
    ensures { IfOk result (λ new. new ≡ carried_cell over cell.now) }
{
    match cell {
        Cell::One(
            Value::Port {
                number,
                over: Transport::Unknown,
            },
        ) => Ok(Cell::One(Value::Port {
            number: *number,
            over,
        })),
        _ => cell.duplicate(alloc),
    }
}
