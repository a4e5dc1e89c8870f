//! Worked answers of whole expressions.
ghost use Rattle.std.specs.Prelude.{◌≤◌, ◌^◌, length};

use super::*;
use bits_law::Bits;
use column_index::Bitmap;
use event_batch::{Batch, Rows};
use partition::{Fragment, Part, Sealed};
use query_parse::parse;
use std::alloc::{AllocError, Global};
use std::process::Abort;
use std::sync::Arc;
use std::test::Fail;
use vast_value::{Bytes, Cell, Column, Columns, Elem, Kind, Layout, Row, Value};

/// A batch of one column.
fn batch(alloc: Global, path: &[u8], column: Column, cells: Row) -> Result<Batch, Fail>
    requires { length path.now ≤ 2 ^ 24 }
{
    let mut columns = Columns::new(alloc);
    columns.push(column)?;
    let Ok(layout) = Layout::new(Bytes::copy(alloc, path)?, columns) else {
        return Err("no layout".into());
    };
    let mut rows = Rows::new(alloc);
    for cell in cells.as_slice() {
        let mut row = Row::new(alloc);
        row.push(cell.duplicate(alloc)?)?;
        rows.push(row)?;
    }
    match Batch::new(1, layout, rows) {
        Some(batch) => Ok(batch),
        None => Err("no batch".into()),
    }
}

/// The numbers 3 and 4.
fn numbers(alloc: Global) -> Result<Batch, Fail> {
    let name = Bytes::copy(alloc, b"n")?;
    let kind = Kind::One(Elem::Count);
    let mut cells = Row::new(alloc);
    cells.push(Cell::One(Value::Count(3)))?;
    cells.push(Cell::One(Value::Count(4)))?;
    batch(alloc, b"d", Column { name, kind }, cells)
}

/// The times 10.4, 10.5 and 10.6.
fn times(alloc: Global) -> Result<Batch, Fail> {
    let name = Bytes::copy(alloc, b"ts")?;
    let kind = Kind::One(Elem::Time);
    let mut cells = Row::new(alloc);
    cells.push(Cell::One(Value::Time(10_400_000_000)))?;
    cells.push(Cell::One(Value::Time(10_500_000_000)))?;
    cells.push(Cell::One(Value::Time(10_600_000_000)))?;
    batch(alloc, b"t", Column { name, kind }, cells)
}

/// Both batches, merged.
fn merged(alloc: Global) -> Result<Part, Fail> {
    let numbers = Fragment::build(alloc, 0, 0, &numbers(alloc)?)?;
    let times = Fragment::build(alloc, 1, numbers.rows(), &times(alloc)?)?;
    let fragments = [Arc::new(alloc, numbers)?, Arc::new(alloc, times)?];
    let sealed = Sealed::merge(alloc, &fragments)?;
    Ok(Part::Many(Arc::new(alloc, sealed)?))
}

/// The text of a bitmap's bits.
fn shown(alloc: Global, bits: &Bitmap) -> Result<String, AllocError> {
    let mut text = String::new(alloc);
    for at in 0..bits.len() {
        text.push(if bits.get(at) { '1' } else { '0' })?;
    }
    Ok(text)
}

/// What is sure and what may be, of a query's text.
fn says<R: Abort + AllocGlobal>(
    rt: &R,
    part: &Part,
    asks: &[(&str, &str, &str)],
) -> Result<(), Fail> {
    for (text, sure, maybe) in asks {
        let Ok(expr) = parse(rt.alloc(), text) else {
            return Err("no query".into());
        };
        let pair = candidates(rt.alloc(), &expr, part)?;
        assert_eq!(rt; shown(rt.alloc(), &pair.sure)?.as_str(), *sure);
        assert_eq!(rt; shown(rt.alloc(), &pair.maybe)?.as_str(), *maybe);
    }
    Ok(())
}

#[test]
fn what_is_not_sure_may_be_and_not_be(rt: HostRuntime) -> Result<(), Fail> {
    let asks = [
        ("ts < @11", "00111", "00111"),
        ("! (ts < @10.5)", "11000", "11111"),
        ("ts < @11 && ! (ts < @10.5)", "00000", "00111"),
        ("n > 3 || ts < @10.5", "01000", "01111"),
    ];
    says(&rt, &merged(rt.alloc())?, &asks)?;
    Ok(())
}
