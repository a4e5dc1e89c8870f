//! Worked bytes of batches.
ghost use Rattle.std.specs.Prelude.{◌≡◌, ◌<◌};

use super::*;
use std::alloc::{AllocError, Global};
use std::marker::Brand;
use std::sync::ledger::{Blank, Ledger};
use std::test::Fail;
use vast_value::{
    Bytes, Cell, Cells, Column, Columns, Elem, Kind, Layout, Net, Row, Transport, Value,
};

// Port 53 in a batch of format 1, and the same batch in format 2, where the transport is unknown.
const FIRST_FORMAT: [u8; 25] = [
    1, 1, 0, 0, 0, 1, 0, 0, 0, b'd', 1, 0, 9, 1, 0, 0, 0, b'p', 1, 0, 0, 0, 1, 53, 0,
];

const SECOND_FORMAT: [u8; 26] = [
    2, 1, 0, 0, 0, 1, 0, 0, 0, b'd', 1, 0, 9, 1, 0, 0, 0, b'p', 1, 0, 0, 0, 1, 53, 0, 0,
];

const THIRD_FORMAT: [u8; 25] = [
    3, 1, 0, 0, 0, 1, 0, 0, 0, b'd', 1, 0, 9, 1, 0, 0, 0, b'p', 1, 0, 0, 0, 1, 53, 0,
];

const LONG: [u8; 300] = [b'x'; 300];

const EACH_KIND_HEAD: [u8; 94] = [
    2, 7, 0, 0, 0, 1, 0, 0, 0, b'p', 13, 0, // format, source, path, columns
    0, 1, 0, 0, 0, b'a', 1, 1, 0, 0, 0, b'b', 2, 1, 0, 0, 0, b'c', 3, 1, 0, 0, 0, b'd', //
    4, 1, 0, 0, 0, b'e', 5, 1, 0, 0, 0, b'f', 6, 1, 0, 0, 0, b'g', 7, 1, 0, 0, 0, b'h', //
    8, 1, 0, 0, 0, b'i', 8, 1, 0, 0, 0, b'j', 9, 1, 0, 0, 0, b'k', 21, 1, 0, 0, 0, b'l', //
    33, 1, 0, 0, 0, b'm', 2, 0, 0, 0, // a vector of counts, and two rows
];

const EACH_KIND_ROWS: [u8; 138] = [
    1, 1, // true
    1, 2, 1, 0, 0, 0, 0, 0, 0, // 258
    1, 254, 255, 255, 255, 255, 255, 255, 255, // -2
    1, 1, 0, 0, 0, 0, 0, 0, 0, // a time
    1, 255, 255, 255, 255, 255, 255, 255, 255, // an interval of -1
    1, 0, 0, 0, 0, // an empty text
    1, 3, 0, 0, 0, b't', b'c', b'p', // a name
    1, 1, 0, 0, 10, 255, 255, 0, 0, 0, 0, 0, 0, 0, 0, 0, 0, // 10.0.0.1
    1, 0, 0, 0, 10, 255, 255, 0, 0, 0, 0, 0, 0, 0, 0, 0, 0, 104, // 10.0.0.0/8
    1, 0, 0, 0, 0, 0, 0, 0, 0, 0, 0, 0, 0, 184, 13, 1, 32, 32, // 2001:db8::/32
    1, 187, 1, 1, // 443/tcp
    1, 2, 0, 0, 0, 0, 1, 1, 0, 0, 0, b'x', // an unset element, and a text
    1, 0, 0, 0, 0, // no elements
    0, 0, 0, 0, 0, 0, 0, 0, 0, 0, 0, 0, 0, // a row of unset cells
];

fn column(alloc: Global, name: u8, kind: Kind) -> Result<Column, AllocError> {
    let name = Bytes::copy(alloc, &[name])?;
    Ok(Column { name, kind })
}

fn each_kind_layout(alloc: Global) -> Result<Layout, Fail> {
    let kinds = [
        Kind::One(Elem::Bool),
        Kind::One(Elem::Count),
        Kind::One(Elem::Int),
        Kind::One(Elem::Time),
        Kind::One(Elem::Span),
        Kind::One(Elem::Text),
        Kind::One(Elem::Name),
        Kind::One(Elem::Addr),
        Kind::One(Elem::Subnet),
        Kind::One(Elem::Subnet),
        Kind::One(Elem::Port),
        Kind::SetOf(Elem::Text),
        Kind::VecOf(Elem::Count),
    ];
    let mut columns = Columns::new(alloc);
    for (at, kind) in kinds.iter().enumerate() {
        columns.push(column(alloc, b'a' + at as u8, *kind)?)?;
    }
    match Layout::new(Bytes::copy(alloc, b"p")?, columns) {
        Ok(layout) => Ok(layout),
        Err(_) => Err("no layout".into()),
    }
}

fn numbers(row: &mut Row) -> Result<(), AllocError> {
    row.push(Cell::One(Value::Bool(true)))?;
    row.push(Cell::One(Value::Count(258)))?;
    row.push(Cell::One(Value::Int(-2)))?;
    row.push(Cell::One(Value::Time(1)))?;
    row.push(Cell::One(Value::Span(-1)))
}

fn texts(alloc: Global, row: &mut Row) -> Result<(), AllocError> {
    row.push(Cell::One(Value::Text(Bytes::new(alloc))))?;
    row.push(Cell::One(Value::Name(Bytes::copy(alloc, b"tcp")?)))
}

fn addresses(row: &mut Row) -> Result<(), AllocError> {
    row.push(Cell::One(Value::Addr(0xffff_0a00_0001)))?;
    row.push(Cell::One(Value::Subnet(Net {
        base: 0xffff_0a00_0000,
        bits: 104,
    })))?;
    row.push(Cell::One(Value::Subnet(Net {
        base: 0x2001_0db8_0000_0000_0000_0000_0000_0000,
        bits: 32,
    })))?;
    row.push(Cell::One(Value::Port {
        number: 443,
        over: Transport::Tcp,
    }))
}

fn containers(alloc: Global, row: &mut Row) -> Result<(), AllocError> {
    let mut items = Cells::new(alloc);
    items.push(None)?;
    items.push(Some(Value::Text(Bytes::copy(alloc, b"x")?)))?;
    row.push(Cell::Many(items))?;
    row.push(Cell::Many(Cells::new(alloc)))
}

fn each_kind_rows(alloc: Global) -> Result<Rows, AllocError> {
    let mut row = Row::new(alloc);
    numbers(&mut row)?;
    texts(alloc, &mut row)?;
    addresses(&mut row)?;
    containers(alloc, &mut row)?;
    let mut unset = Row::new(alloc);
    for _ in 0..13 {
        unset.push(Cell::Unset)?;
    }
    let mut rows = Rows::new(alloc);
    rows.push(row)?;
    rows.push(unset)?;
    Ok(rows)
}

fn long_batch(alloc: Global) -> Result<Batch, Fail> {
    let mut columns = Columns::new(alloc);
    columns.push(Column {
        name: Bytes::copy(alloc, &LONG)?,
        kind: Kind::One(Elem::Text),
    })?;
    let Ok(layout) = Layout::new(Bytes::copy(alloc, &LONG)?, columns) else {
        return Err("no layout".into());
    };
    let mut row = Row::new(alloc);
    row.push(Cell::One(Value::Text(Bytes::copy(alloc, &LONG)?)))?;
    let mut rows = Rows::new(alloc);
    rows.push(row)?;
    Ok(Batch::new(1, layout, rows).ok_or("no batch")?)
}

// The batch of the bytes, packed again.
fn repacked<L: Ledger>(alloc: Global, packed: &Packed, blank: Blank) -> Result<Packed, AllocError>
    requires name { blank.name ≡ L.name }
    requires parts { blank.parts ≡ L.parts }
    requires some { 0 < L.parts }
{
    let mut steps = Steps::<L>::new(blank);
    let batch = unpack(alloc, packed, &mut steps)?;
    encode(alloc, &batch)
}

#[test]
fn each_kind_has_its_bytes(rt: HostRuntime) -> Result<(), Fail> {
    let alloc = rt.alloc();
    let batch = Batch::new(7, each_kind_layout(alloc)?, each_kind_rows(alloc)?).ok_or("no batch")?;
    let packed = encode(alloc, &batch)?.share()?;
    let (head, rows) = packed
        .bytes()
        .split_at(EACH_KIND_HEAD.len().min(packed.bytes().len()));
    assert_eq!(rt; head, EACH_KIND_HEAD.as_slice());
    assert_eq!(rt; rows, EACH_KIND_ROWS.as_slice());
    assert_eq!(rt;
        repacked::<Brand>(alloc, &packed, Blank::new(1))?.bytes(),
        packed.bytes()
    );
    Ok(())
}

#[test]
fn texts_names_and_paths_of_300_bytes_are_unpacked(rt: HostRuntime) -> Result<(), Fail> {
    let alloc = rt.alloc();
    let packed = encode(alloc, &long_batch(alloc)?)?;
    let again = repacked::<Brand>(alloc, &packed, Blank::new(1))?;
    assert_eq!(rt; again.bytes().len(), 925);
    assert_eq!(rt; again.bytes(), packed.bytes());
    Ok(())
}

#[test]
fn format_1_is_read_and_written_as_format_2(rt: HostRuntime) -> Result<(), Fail> {
    let alloc = rt.alloc();
    let Ok(packed) = Packed::read(alloc, Bytes::copy(alloc, &FIRST_FORMAT)?) else {
        return Err("not read".into());
    };
    assert_eq!(rt; packed.bytes(), FIRST_FORMAT.as_slice());
    assert_eq!(rt; (packed.source(), packed.rows()), (1, 1));
    assert_eq!(rt;
        repacked::<Brand>(alloc, &packed, Blank::new(1))?.bytes(),
        SECOND_FORMAT.as_slice()
    );
    Ok(())
}

#[test]
fn bytes_of_another_format_come_back(rt: HostRuntime) -> Result<(), Fail> {
    let alloc = rt.alloc();
    let Err((bytes, end)) = Packed::read(alloc, Bytes::copy(alloc, &THIRD_FORMAT)?) else {
        return Err("read".into());
    };
    assert_eq!(rt; end, PackedEnd::NotABatch);
    assert_eq!(rt; bytes.as_slice(), THIRD_FORMAT.as_slice());
    Ok(())
}
