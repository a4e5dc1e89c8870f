//! Rows of packets and flows.
ghost use Rattle.std.specs.Prelude.{◌≡◌, ◌≤◌, ◌<◌, ◌^◌, true, map, IfOk, IsTrue};
ghost use Rattle.std.specs.List.{list_all};
ghost use Rattle.vast_value.specs.Fit.{is_ranged_cell};
ghost use Rattle.vast_value.specs.Headings.{fits_fields};
ghost use Rattle.pcap_flow.specs.Rows.{packet_heading, flow_heading, packet_row, flow_row, address_cell, port_cell, protocol_cell, protocol_name, digits};
ghost use Rattle.pcap_flow.specs.Steps.{is_timed};

use crate::flow::Flow;
use crate::packet::Packet;
use std::alloc::{AllocError, Global};
use vast_value::{Bytes, Cell, Row, Seq, Transport, Value, ranged_cell};

/// A list of rows.
pub type Rows = Seq<Row>;

/// The row of a packet, in the columns of [`crate::packet_layout`]. A part that the packet doesn't show is
/// unset. The protocol is named `tcp`, `udp`, `icmp` or `icmp6`, and any other is told by its number.
pub fn packet_row(alloc: Global, packet: &Packet) -> Result<Row, AllocError>
    ensures value { IfOk result (λ row. row ≡ packet_row packet.now) }
    ensures fits { IfOk result (λ row. IsTrue (fits_fields packet_heading.fields row)) }
{
    let row = packet_cells(alloc, packet)?;
    ranged_row(&row);
    Ok(row)
}

fn packet_cells(alloc: Global, packet: &Packet) -> Result<Row, AllocError>
    ensures { IfOk result (λ row. row ≡ packet_row packet.now) }
{
    let parts = packet.parts;
    let protocol = protocol_cell(alloc, parts.protocol)?;
    let mut row = Row::with_capacity(alloc, 8)?;
    row.push(Cell::One(Value::Time(packet.time)))?;
    row.push(Cell::One(Value::Count(u64::from(packet.captured))))?;
    row.push(Cell::One(Value::Count(u64::from(packet.original))))?;
    row.push(address_cell(parts.source))?;
    row.push(port_cell(parts.source_port))?;
    row.push(address_cell(parts.target))?;
    row.push(port_cell(parts.target_port))?;
    row.push(protocol)?;
    Ok(row)
}

/// The rows of flows, in the columns of [`crate::flow_layout`].
#[tactic(auto, using(crate::proofs::RowLemmas::flows_fit))]
pub fn flow_rows(alloc: Global, flows: &[Flow]) -> Result<Rows, AllocError>
    requires { list_all is_timed flows.now ≡ true }
    ensures value { IfOk result (λ rows. rows ≡ map flow_row flows.now) }
    ensures fits { IfOk result (λ rows. IsTrue (list_all (fits_fields flow_heading.fields) rows)) }
{
    let rows = rows_of(alloc, flows)?;
    ranged_rows(rows.as_slice());
    Ok(rows)
}

fn ranged_rows(rows: &[Row])
    ensures { list_all (list_all is_ranged_cell) rows.now ≡ true }
{
    for row in rows {
        ranged_row(row);
    }
}

fn ranged_row(row: &Row)
    ensures { list_all is_ranged_cell row.now ≡ true }
{
    for cell in row.as_slice() {
        ranged_cell(cell);
    }
}

fn rows_of(alloc: Global, flows: &[Flow]) -> Result<Rows, AllocError>
    requires { list_all is_timed flows.now ≡ true }
    ensures { IfOk result (λ rows. rows ≡ map flow_row flows.now) }
{
    let mut rows = Rows::with_capacity(alloc, flows.len())?;
    for flow in flows {
        rows.push(flow_row(alloc, flow)?)?;
    }
    Ok(rows)
}

fn flow_row(alloc: Global, flow: &Flow) -> Result<Row, AllocError>
    requires { is_timed flow.now ≡ true }
    ensures { IfOk result (λ row. row ≡ flow_row flow.now) }
{
    let protocol = protocol_name(alloc, flow.protocol)?;
    let mut row = Row::with_capacity(alloc, 11)?;
    row.push(Cell::One(Value::Time(flow.first as i64)))?;
    row.push(Cell::One(Value::Addr(flow.source.address)))?;
    row.push(Cell::One(port_of(flow.source.port)))?;
    row.push(Cell::One(Value::Addr(flow.target.address)))?;
    row.push(Cell::One(port_of(flow.target.port)))?;
    row.push(Cell::One(Value::Name(protocol)))?;
    row.push(Cell::One(Value::Span((flow.last - flow.first) as i64)))?;
    row.push(Cell::One(Value::Count(flow.orig_packets)))?;
    row.push(Cell::One(Value::Count(flow.orig_bytes)))?;
    row.push(Cell::One(Value::Count(flow.resp_packets)))?;
    row.push(Cell::One(Value::Count(flow.resp_bytes)))?;
    Ok(row)
}

/// A port whose row tells its transport by the protocol alone.
fn port_of(number: u16) -> Value
    ensures { result ≡ Value.Port number Transport.Unknown }
{
    Value::Port {
        number,
        over: Transport::Unknown,
    }
}

fn address_cell(address: Option<u128>) -> Cell
    ensures { result ≡ address_cell address }
{
    match address {
        Some(address) => Cell::One(Value::Addr(address)),
        None => Cell::Unset,
    }
}

fn port_cell(port: Option<u16>) -> Cell
    ensures { result ≡ port_cell port }
{
    match port {
        Some(port) => Cell::One(port_of(port)),
        None => Cell::Unset,
    }
}

fn protocol_cell(alloc: Global, protocol: Option<u8>) -> Result<Cell, AllocError>
    ensures { IfOk result (λ cell. cell ≡ protocol_cell protocol) }
{
    match protocol {
        Some(protocol) => {
            let name = protocol_name(alloc, protocol)?;
            Ok(Cell::One(Value::Name(name)))
        }
        None => Ok(Cell::Unset),
    }
}

fn protocol_name(alloc: Global, protocol: u8) -> Result<Bytes, AllocError>
    ensures { IfOk result (λ name. name ≡ protocol_name protocol) }
{
    match protocol {
        6 => Bytes::copy(alloc, b"tcp"),
        17 => Bytes::copy(alloc, b"udp"),
        1 => Bytes::copy(alloc, b"icmp"),
        58 => Bytes::copy(alloc, b"icmp6"),
        other => digits(alloc, other),
    }
}

fn digits(alloc: Global, n: u8) -> Result<Bytes, AllocError>
    ensures { IfOk result (λ text. text ≡ digits n) }
{
    if n < 10 {
        return Bytes::copy(alloc, &[b'0' + n]);
    }
    if n < 100 {
        return Bytes::copy(alloc, &[b'0' + n / 10, b'0' + n % 10]);
    }
    Bytes::copy(alloc, &[b'0' + n / 100, b'0' + n / 10 % 10, b'0' + n % 10])
}
