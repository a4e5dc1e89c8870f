//! A made batch of connections, packed and unpacked.
ghost use Rattle.std.specs.Prelude.{◌≡◌, ◌<◌, ◌≤◌, length};

use event_batch::{Batch, Rows, Steps, encode, unpack};
use std::alloc::{AllocError, Global};
use std::marker::Brand;
use std::sync::ledger::{Blank, Ledger};
use vast_value::{Bytes, Cell, Cells, Column, Columns, Elem, Kind, Layout, Row, Transport, Value};

const COUNT: (Kind, usize) = (Kind::One(Elem::Count), 0);

// The kinds of a connection's columns, and how many bytes their texts have.
const COLUMNS: [(Kind, usize); 21] = [
    (Kind::One(Elem::Time), 0),
    (Kind::One(Elem::Text), 18),
    (Kind::One(Elem::Addr), 0),
    (Kind::One(Elem::Port), 0),
    (Kind::One(Elem::Addr), 0),
    (Kind::One(Elem::Port), 0),
    (Kind::One(Elem::Name), 3),
    (Kind::One(Elem::Text), 4),
    (Kind::One(Elem::Span), 0),
    COUNT,
    COUNT,
    (Kind::One(Elem::Text), 2),
    (Kind::One(Elem::Bool), 0),
    (Kind::One(Elem::Bool), 0),
    COUNT,
    (Kind::One(Elem::Text), 8),
    COUNT,
    COUNT,
    COUNT,
    COUNT,
    (Kind::SetOf(Elem::Text), 0),
];

const LETTERS: [u8; 18] = *b"CHhAvVGS1DHFjwGM9a";

/// Packs a batch of so many rows so many times, and unpacks it so many times. It gives the number of its bytes, and
/// `None` where there is no such batch.
pub fn measure(
    alloc: Global,
    rows: u32,
    encodes: u32,
    unpacks: u32,
) -> Result<Option<usize>, AllocError> {
    measure_counted::<Brand>(alloc, Blank::new(1), rows, encodes, unpacks)
}

fn measure_counted<L: Ledger>(
    alloc: Global,
    blank: Blank,
    rows: u32,
    encodes: u32,
    unpacks: u32,
) -> Result<Option<usize>, AllocError>
    requires name { blank.name ≡ L.name }
    requires parts { blank.parts ≡ L.parts }
    requires some { 0 < L.parts }
{
    let mut steps = Steps::<L>::new(blank);
    let Ok(layout) = Layout::new(Bytes::copy(alloc, b"conn")?, columns(alloc)?) else {
        return Ok(None);
    };
    let Some(batch) = Batch::new(1, layout, connections(alloc, rows)?) else {
        return Ok(None);
    };
    let packed = encode(alloc, &batch)?;
    for _ in 0..encodes {
        encode(alloc, &batch)?;
    }
    for _ in 0..unpacks {
        unpack(alloc, &packed, &mut steps)?;
    }
    Ok(Some(packed.bytes().len()))
}

fn columns(alloc: Global) -> Result<Columns, AllocError> {
    let mut columns = Columns::new(alloc);
    for (at, (kind, _)) in COLUMNS.iter().enumerate() {
        let name = Bytes::copy(alloc, &[b'a' + at as u8])?;
        columns.push(Column { name, kind: *kind })?;
    }
    Ok(columns)
}

fn connections(alloc: Global, count: u32) -> Result<Rows, AllocError> {
    let mut rows = Rows::new(alloc);
    for number in 0..count {
        rows.push(connection(alloc, number)?)?;
    }
    Ok(rows)
}

fn connection(alloc: Global, number: u32) -> Result<Row, AllocError> {
    let mut row = Row::with_capacity(alloc, COLUMNS.len())?;
    for (kind, length) in &COLUMNS {
        let cell = match kind {
            Kind::One(elem) => cell(alloc, *elem, &LETTERS[..(*length).min(18)], number)?,
            _ => Cell::Many(Cells::new(alloc)),
        };
        row.push(cell)?;
    }
    Ok(row)
}

// The truth values are unset, and so are the durations of four rows in five.
fn cell(alloc: Global, elem: Elem, letters: &[u8], number: u32) -> Result<Cell, AllocError>
    requires { length letters.now ≤ 18 }
{
    Ok(Cell::One(match elem {
        Elem::Count => Value::Count(number as u64),
        Elem::Time => Value::Time(1_300_475_167_000_000_000 + number as i64),
        Elem::Span if number % 5 == 0 => Value::Span(87_560_285 + number as i64),
        Elem::Text => Value::Text(Bytes::copy(alloc, letters)?),
        Elem::Name => Value::Name(Bytes::copy(alloc, letters)?),
        Elem::Addr => Value::Addr(0xffff_0a00_0000 + number as u128),
        Elem::Port => Value::Port {
            number: (number % 65_536) as u16,
            over: Transport::Tcp,
        },
        _ => return Ok(Cell::Unset),
    }))
}
