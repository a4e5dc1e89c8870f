//! Worked answers of parts.
ghost use Rattle.std.specs.Prelude.{◌≤◌, ◌^◌, length, map, IfOk};
ghost use Rattle.std.specs.Arc.{arc_value};
ghost use Rattle.event_history.specs.Pieces.{AreAdjacent};

use crate::{Fragment, Part, Sealed};
use bits_law::Bits;
use column_index::Bitmap;
use event_batch::{Batch, Rows};
use query_meaning::{Literal, Pick, Rel, Test};
use std::alloc::{AllocError, Global};
use std::process::Abort;
use std::sync::Arc;
use std::test::Fail;
use vast_value::{Bytes, Cell, Column, Columns, Elem, Kind, Layout, Row, Value};

fn column(alloc: Global, name: &[u8], elem: Elem) -> Result<Column, AllocError>
    requires { length name.now ≤ 2 ^ 24 }
{
    let name = Bytes::copy(alloc, name)?;
    let kind = Kind::One(elem);
    Ok(Column { name, kind })
}

fn batch(
    alloc: Global,
    source: u32,
    path: &[u8],
    columns: Columns,
    rows: Rows,
) -> Result<Batch, Fail>
    requires { length path.now ≤ 2 ^ 24 }
{
    let Ok(layout) = Layout::new(Bytes::copy(alloc, path)?, columns) else {
        return Err("no layout".into());
    };
    match Batch::new(source, layout, rows) {
        Some(batch) => Ok(batch),
        None => Err("no batch".into()),
    }
}

fn named(alloc: Global, name: &[u8], kind: u8, n: u64) -> Result<Row, AllocError>
    requires { length name.now ≤ 2 ^ 24 }
{
    let mut row = Row::new(alloc);
    row.push(Cell::One(Value::Text(Bytes::copy(alloc, name)?)))?;
    row.push(Cell::One(Value::Name(Bytes::copy(alloc, &[kind])?)))?;
    row.push(Cell::One(Value::Count(n)))?;
    Ok(row)
}

/// Two rows of a name, a kind and a number.
fn names(alloc: Global) -> Result<Batch, Fail> {
    let mut columns = Columns::new(alloc);
    columns.push(column(alloc, b"name", Elem::Text)?)?;
    columns.push(column(alloc, b"kind", Elem::Name)?)?;
    columns.push(column(alloc, b"n", Elem::Count)?)?;
    let mut rows = Rows::new(alloc);
    rows.push(named(alloc, b"ann", b'A', 3)?)?;
    rows.push(named(alloc, b"bob", b'B', 4)?)?;
    batch(alloc, 1, b"d", columns, rows)
}

/// The times 10.4, 10.5 and 10.6.
fn times(alloc: Global) -> Result<Batch, Fail> {
    let mut columns = Columns::new(alloc);
    columns.push(column(alloc, b"ts", Elem::Time)?)?;
    let mut rows = Rows::new(alloc);
    for nanos in [10_400_000_000, 10_500_000_000, 10_600_000_000] {
        let mut row = Row::new(alloc);
        row.push(Cell::One(Value::Time(nanos)))?;
        rows.push(row)?;
    }
    batch(alloc, 2, b"t", columns, rows)
}

/// A row of one cell in a column `v` of the path `p`.
fn single(alloc: Global, elem: Elem, value: Value) -> Result<Batch, Fail> {
    let mut columns = Columns::new(alloc);
    columns.push(column(alloc, b"v", elem)?)?;
    let mut row = Row::new(alloc);
    row.push(Cell::One(value))?;
    let mut rows = Rows::new(alloc);
    rows.push(row)?;
    batch(alloc, 3, b"p", columns, rows)
}

/// The batches of the tests, by letters: names `d`, times `t`, and a count `c`, a text `x` and a time `m` of one path.
fn batch_of(alloc: Global, letter: u8) -> Result<Batch, Fail> {
    match letter {
        b'd' => names(alloc),
        b't' => times(alloc),
        b'c' => single(alloc, Elem::Count, Value::Count(3)),
        b'x' => single(alloc, Elem::Text, Value::Text(Bytes::copy(alloc, b"x")?)),
        _ => single(alloc, Elem::Time, Value::Time(10_500_000_000)),
    }
}

/// Fragments of these batches, one behind the other.
fn fragments(alloc: Global, letters: &[u8]) -> Result<Vec<Arc<Fragment>>, Fail>
    ensures { IfOk result (λ all. AreAdjacent (map arc_value all.items)) }
{
    let mut all = Vec::new(alloc);
    let mut first: u64 = 0;
    for at in 0..letters.len() {
        let fragment = Fragment::build(alloc, at as u64, first, &batch_of(alloc, letters[at])?)?;
        let Some(next) = first.checked_add(fragment.rows()) else {
            return Err("too many".into());
        };
        first = next;
        all.push(Arc::new(alloc, fragment)?)?;
    }
    Ok(all)
}

/// These batches, merged.
fn merged(alloc: Global, letters: &[u8]) -> Result<Part, Fail> {
    let fragments = fragments(alloc, letters)?;
    if fragments.is_empty() || fragments.len() > 256 {
        return Err("no group".into());
    }
    let sealed = Sealed::merge(alloc, &fragments)?;
    Ok(Part::Many(Arc::new(alloc, sealed)?))
}

/// The text of a bitmap's bits.
fn shown(alloc: Global, bits: &Bitmap) -> Result<String, AllocError> {
    let mut text = String::new(alloc);
    for at in 0..bits.len() {
        text.push(if bits.get(at) { '1' } else { '0' })?;
    }
    Ok(text)
}

/// Each test's sure rows, and the rows where it may hold.
fn says<R: Abort + AllocGlobal>(
    rt: &R,
    part: &Part,
    asks: &[(Test, &str, &str)],
) -> Result<(), AllocError> {
    for (test, sure, maybe) in asks {
        let pair = part.ask(rt.alloc(), test)?;
        assert_eq!(rt; shown(rt.alloc(), &pair.sure)?.as_str(), *sure);
        assert_eq!(rt; shown(rt.alloc(), &pair.maybe)?.as_str(), *maybe);
    }
    Ok(())
}

fn of(pick: Pick, rel: Rel, value: Value) -> Test {
    let literal = Literal::Of(value);
    Test { pick, rel, literal }
}

fn name(alloc: Global, name: &[u8]) -> Result<Pick, AllocError>
    requires { length name.now ≤ 2 ^ 24 }
{
    Ok(Pick::Named(Bytes::copy(alloc, name)?))
}

#[test]
fn merged_batches_answer_each_row_by_its_own_layout(rt: HostRuntime) -> Result<(), Fail> {
    let alloc = rt.alloc();
    let ann = Value::Text(Bytes::copy(alloc, b"ann")?);
    let path = Value::Text(Bytes::copy(alloc, b"t")?);
    let asks = [
        (
            of(name(alloc, b"ts")?, Rel::Lt, Value::Time(11_000_000_000)),
            "00111",
            "00111",
        ),
        (
            of(name(alloc, b"ts")?, Rel::Lt, Value::Time(10_500_000_000)),
            "00000",
            "00111",
        ),
        (
            of(name(alloc, b"d.n")?, Rel::Gt, Value::Count(3)),
            "01000",
            "01000",
        ),
        (of(Pick::OfKind(Elem::Text), Rel::Eq, ann), "10000", "10000"),
        (of(Pick::TypeName, Rel::Eq, path), "00111", "00111"),
        (
            of(Pick::EventTime, Rel::Gt, Value::Time(9_000_000_000)),
            "00111",
            "00111",
        ),
        (
            Test {
                pick: Pick::EventTime,
                rel: Rel::Eq,
                literal: Literal::Nil,
            },
            "11000",
            "11000",
        ),
    ];
    says(&rt, &merged(alloc, b"dt")?, &asks)?;
    Ok(())
}

#[test]
fn a_part_of_one_batch_tells_that_batch(rt: HostRuntime) -> Result<(), Fail> {
    let alloc = rt.alloc();
    let fragment = Fragment::build(alloc, 7, 20, &times(alloc)?)?;
    let part = Part::One(Arc::new(alloc, fragment)?).share()?;
    let told = (
        part.first_batch(),
        part.batches(),
        part.first(),
        part.rows(),
    );
    assert_eq!(&rt; told, (7, 1, 20, 3));
    let asks = [(
        of(name(alloc, b"ts")?, Rel::Ge, Value::Time(10_500_000_000)),
        "000",
        "111",
    )];
    says(&rt, &part, &asks)?;
    Ok(())
}

#[test]
fn a_column_that_a_fragment_lacks_is_a_gap_there(rt: HostRuntime) -> Result<(), Fail> {
    let merges = [
        (b"c".as_slice(), "1", "0"),
        (b"cmm", "100", "000"),
        (b"mcm", "010", "000"),
        (b"mmc", "001", "000"),
        (b"cxm", "100", "010"),
        (b"xdcx", "00010", "10001"),
    ];
    for (letters, counts, texts) in merges {
        let alloc = rt.alloc();
        let asks = [
            (
                of(name(alloc, b"v")?, Rel::Gt, Value::Count(2)),
                counts,
                counts,
            ),
            (
                of(
                    name(alloc, b"v")?,
                    Rel::Eq,
                    Value::Text(Bytes::copy(alloc, b"x")?),
                ),
                texts,
                texts,
            ),
        ];
        says(&rt, &merged(alloc, letters)?, &asks)?;
    }
    Ok(())
}

#[test]
fn as_many_fragments_as_a_group_can_have_are_merged(rt: HostRuntime) -> Result<(), Fail> {
    let part = merged(rt.alloc(), &[b'm'; 256])?;
    let test = of(Pick::EventTime, Rel::Lt, Value::Time(11_000_000_000));
    let pair = part.ask(rt.alloc(), &test)?;
    assert_eq!(&rt;
        (part.batches(), part.rows(), pair.sure.count()),
        (256, 256, 256)
    );
    Ok(())
}
