ghost use Rattle.std.specs.Prelude.{◌≤◌, ◌^◌, length};

use crate::{Bitmap, ColumnIndex};
use bits_law::{Bits, BitsEnd};
use query_meaning::{Literal, Pick, Rel, Test};
use std::alloc::{AllocError, Global};
use std::process::Abort;
use std::test::Fail;
use vast_value::{Bytes, Cell, Cells, Elem, Kind, Net, Transport, Value};

/// The text of a bitmap's bits.
fn shown(alloc: Global, bits: &Bitmap) -> Result<String, AllocError> {
    let mut text = String::new(alloc);
    for at in 0..bits.len() {
        text.push(if bits.get(at) { '1' } else { '0' })?;
    }
    Ok(text)
}

/// A column of some cells, the first of which stands behind a gap.
fn column(alloc: Global, kind: Kind, cells: &[Cell]) -> Result<ColumnIndex, BitsEnd> {
    let mut column = ColumnIndex::new(alloc, kind)?;
    for (at, cell) in cells.iter().enumerate() {
        let row = column.rows().max(at as u64 + 1);
        if cell.has_kind(column.kind()) {
            column.put(row, cell)?;
        }
    }
    let rows = column.rows();
    column.pad(rows)
}

fn of(rel: Rel, value: Value) -> Test {
    Test {
        pick: Pick::EventTime,
        rel,
        literal: Literal::Of(value),
    }
}

fn nil(rel: Rel) -> Test {
    Test {
        pick: Pick::EventTime,
        rel,
        literal: Literal::Nil,
    }
}

/// Each test's sure rows, and the rows where it may hold.
fn says<R: Abort + AllocGlobal>(
    rt: &R,
    column: &ColumnIndex,
    asks: &[(Test, &str, &str)],
) -> Result<(), AllocError> {
    for (test, sure, maybe) in asks {
        let pair = column.ask(rt.alloc(), test)?;
        assert_eq!(rt; shown(rt.alloc(), &pair.sure)?.as_str(), *sure);
        assert_eq!(rt; shown(rt.alloc(), &pair.maybe)?.as_str(), *maybe);
    }
    Ok(())
}

fn text(alloc: Global, bytes: &[u8]) -> Result<Value, AllocError>
    requires { length bytes.now ≤ 2 ^ 24 }
{
    Ok(Value::Text(Bytes::copy(alloc, bytes)?))
}

fn port(number: u16, over: Transport) -> Value {
    Value::Port { number, over }
}

/// 10.4, 10.5 and 10.6 seconds.
fn times(alloc: Global) -> Result<ColumnIndex, BitsEnd> {
    let cells = [
        Cell::One(Value::Time(10_400_000_000)),
        Cell::One(Value::Time(10_500_000_000)),
        Cell::One(Value::Time(10_600_000_000)),
    ];
    column(alloc, Kind::One(Elem::Time), &cells)
}

#[test]
fn times_are_known_by_their_seconds(rt: HostRuntime) -> Result<(), Fail> {
    let asks = [
        (of(Rel::Lt, Value::Time(10_500_000_000)), "0000", "0111"),
        (of(Rel::Le, Value::Time(10_500_000_000)), "0000", "0111"),
        (of(Rel::Lt, Value::Time(11_000_000_000)), "0111", "0111"),
        (of(Rel::Ne, Value::Time(10_500_000_000)), "0000", "0111"),
        (of(Rel::Ne, Value::Time(-1)), "0111", "0111"),
        (of(Rel::Eq, Value::Count(10)), "0000", "0000"),
        (nil(Rel::Eq), "0000", "0000"),
    ];
    says(&rt, &times(rt.alloc())?, &asks)?;
    Ok(())
}

/// `abcdefgh`, `abcdefghi` and `abcdefghj`.
fn texts(alloc: Global) -> Result<ColumnIndex, BitsEnd> {
    let cells = [
        Cell::One(text(alloc, b"abcdefgh")?),
        Cell::One(text(alloc, b"abcdefghi")?),
        Cell::One(text(alloc, b"abcdefghj")?),
    ];
    column(alloc, Kind::One(Elem::Text), &cells)
}

#[test]
fn texts_are_known_by_their_length_and_front(rt: HostRuntime) -> Result<(), Fail> {
    let asks = [
        (of(Rel::Eq, text(rt.alloc(), b"abcdefgh")?), "0100", "0100"),
        (of(Rel::Eq, text(rt.alloc(), b"abcdefghi")?), "0000", "0011"),
        (of(Rel::Ne, text(rt.alloc(), b"abcdefghi")?), "0100", "0111"),
        (
            of(Rel::Contains, text(rt.alloc(), b"123456789")?),
            "0000",
            "0011",
        ),
    ];
    says(&rt, &texts(rt.alloc())?, &asks)?;
    Ok(())
}

/// 53/udp, an unset port, and 53/tcp.
fn ports(alloc: Global) -> Result<ColumnIndex, BitsEnd> {
    let cells = [
        Cell::One(port(53, Transport::Udp)),
        Cell::Unset,
        Cell::One(port(53, Transport::Tcp)),
    ];
    column(alloc, Kind::One(Elem::Port), &cells)
}

#[test]
fn ports_are_known_with_their_transport(rt: HostRuntime) -> Result<(), Fail> {
    let asks = [
        (of(Rel::Eq, port(53, Transport::Unknown)), "0101", "0101"),
        (of(Rel::Eq, port(53, Transport::Tcp)), "0001", "0001"),
        (of(Rel::Ne, port(53, Transport::Tcp)), "0100", "0100"),
        (of(Rel::Lt, port(54, Transport::Udp)), "0100", "0100"),
        (nil(Rel::Eq), "0010", "0010"),
        (nil(Rel::Ne), "0101", "0101"),
    ];
    says(&rt, &ports(rt.alloc())?, &asks)?;
    Ok(())
}

/// 10.255.255.255, 11.0.0.0 and 10.0.0.1.
fn addresses(alloc: Global) -> Result<ColumnIndex, BitsEnd> {
    let cells = [
        Cell::One(Value::Addr(0xffff_0aff_ffff)),
        Cell::One(Value::Addr(0xffff_0b00_0000)),
        Cell::One(Value::Addr(0xffff_0a00_0001)),
    ];
    column(alloc, Kind::One(Elem::Addr), &cells)
}

#[test]
fn addresses_lie_within_a_subnet(rt: HostRuntime) -> Result<(), Fail> {
    let net = Net {
        base: 0xffff_0a00_0000,
        bits: 104,
    };
    let asks = [
        (of(Rel::Within, Value::Subnet(net)), "0101", "0101"),
        (of(Rel::Ne, Value::Addr(0xffff_0b00_0000)), "0101", "0101"),
    ];
    says(&rt, &addresses(rt.alloc())?, &asks)?;
    Ok(())
}

/// A set of 53/udp, one of nothing, and one of 80/tcp.
fn sets(alloc: Global) -> Result<ColumnIndex, BitsEnd> {
    let mut first = Cells::with_capacity(alloc, 1)?;
    first.push(Some(port(53, Transport::Udp)))?;
    let mut last = Cells::with_capacity(alloc, 1)?;
    last.push(Some(port(80, Transport::Tcp)))?;
    let cells = [
        Cell::Many(first),
        Cell::Many(Cells::with_capacity(alloc, 0)?),
        Cell::Many(last),
    ];
    column(alloc, Kind::SetOf(Elem::Port), &cells)
}

#[test]
fn containers_are_known_by_buckets(rt: HostRuntime) -> Result<(), Fail> {
    let asks = [
        (
            of(Rel::Contains, port(53, Transport::Unknown)),
            "0000",
            "0100",
        ),
        (of(Rel::Contains, port(53, Transport::Tcp)), "0000", "0100"),
        (of(Rel::Contains, Value::Count(53)), "0000", "0000"),
        (nil(Rel::Ne), "0111", "0111"),
    ];
    says(&rt, &sets(rt.alloc())?, &asks)?;
    Ok(())
}
