//! Made batches of connections, a part of each, groups of these merged, and queries asked of the merged parts.
ghost use Rattle.std.specs.Prelude.{map, IfOk};
ghost use Rattle.std.specs.Arc.{arc_value};
ghost use Rattle.event_history.specs.Pieces.{AreAdjacent};

use crate::indexes::{COLUMNS, Key, cell};
use bits_law::Bits;
use event_batch::{Batch, Rows};
use partition::{Fragment, Part, Sealed};
use query_meaning::Expr;
use query_parse::parse;
use query_plan::candidates;
use std::alloc::{AllocError, Global};
use std::sync::Arc;
use vast_value::{Bytes, Cell, Cells, Column, Columns, Elem, Kind, Layout, Row, Transport, Value};

/// How many rows a batch has.
const ROWS: u64 = 1024;

/// How many batches a group has.
const BATCHES: u64 = 16;

const COUNT: Kind = Kind::One(Elem::Count);

// A connection log's columns.
const NAMED: [(&str, Kind); COLUMNS] = [
    ("ts", Kind::One(Elem::Time)),
    ("uid", Kind::One(Elem::Text)),
    ("id.orig_h", Kind::One(Elem::Addr)),
    ("id.orig_p", Kind::One(Elem::Port)),
    ("id.resp_h", Kind::One(Elem::Addr)),
    ("id.resp_p", Kind::One(Elem::Port)),
    ("proto", Kind::One(Elem::Name)),
    ("service", Kind::One(Elem::Text)),
    ("duration", Kind::One(Elem::Span)),
    ("orig_bytes", COUNT),
    ("resp_bytes", COUNT),
    ("conn_state", Kind::One(Elem::Text)),
    ("local_orig", Kind::One(Elem::Bool)),
    ("local_resp", Kind::One(Elem::Bool)),
    ("missed_bytes", COUNT),
    ("history", Kind::One(Elem::Text)),
    ("orig_pkts", COUNT),
    ("orig_ip_bytes", COUNT),
    ("resp_pkts", COUNT),
    ("resp_ip_bytes", COUNT),
    ("tunnel_parents", Kind::SetOf(Elem::Text)),
];

/// What is done with the batches of groups.
#[derive(Clone, Copy)]
pub enum Work<'a> {
    /// They are made.
    Make,
    /// A part is built of each, and kept.
    Build,
    /// The parts of each group are merged, and the merged ones kept.
    Merge,
    /// Each merged part is asked a query, so many times.
    Ask { query: &'a str, times: u64 },
}

/// Does the work with so many groups. It gives how many rows were made, or in how many the query may hold; `None` where
/// what is asked is no query.
pub fn measure(alloc: Global, work: Work<'_>, groups: u64) -> Result<Option<u64>, AllocError> {
    match work {
        Work::Make => Ok(Some(made(alloc, groups)?)),
        Work::Build => Ok(Some(built(alloc, groups)?)),
        Work::Merge => Ok(Some(rows_of(&merged(alloc, groups)?))),
        Work::Ask { query, times } => {
            let Ok(expr) = parse(alloc, query) else {
                return Ok(None);
            };
            let parts = merged(alloc, groups)?;
            Ok(Some(asked_times(alloc, &parts, &expr, times)?))
        }
    }
}

fn made(alloc: Global, groups: u64) -> Result<u64, AllocError> {
    let mut rows = 0u64;
    for number in 0..groups.saturating_mul(BATCHES) {
        let batch = batch(alloc, number)?;
        rows = rows.wrapping_add(batch.rows().len() as u64);
    }
    Ok(rows)
}

fn built(alloc: Global, groups: u64) -> Result<u64, AllocError> {
    let mut kept = Vec::new(alloc);
    let mut rows = 0u64;
    for group in 0..groups {
        let fragments = fragments(alloc, group)?;
        rows = rows.wrapping_add(fragments.len() as u64);
        kept.push(fragments)?;
    }
    Ok(rows.wrapping_mul(ROWS))
}

fn merged(alloc: Global, groups: u64) -> Result<Vec<Part>, AllocError> {
    let mut parts = Vec::new(alloc);
    for group in 0..groups {
        parts.push(merged_group(alloc, group)?)?;
    }
    Ok(parts)
}

fn merged_group(alloc: Global, group: u64) -> Result<Part, AllocError> {
    let fragments = fragments(alloc, group)?;
    if fragments.is_empty() || fragments.len() > 256 {
        return Err(AllocError);
    }
    let sealed = Sealed::merge(alloc, &fragments)?;
    Ok(Part::Many(Arc::new(alloc, sealed)?))
}

// The parts of a group's batches, which are numbered from 0 on in each group.
fn fragments(alloc: Global, group: u64) -> Result<Vec<Arc<Fragment>>, AllocError>
    ensures { IfOk result (λ all. AreAdjacent (map arc_value all.items)) }
{
    let mut all = Vec::new(alloc);
    let mut first: u64 = 0;
    for at in 0..BATCHES {
        let number = group.wrapping_mul(BATCHES).wrapping_add(at);
        let fragment = Fragment::build(alloc, at, first, &batch(alloc, number)?)?;
        let Some(next) = first.checked_add(fragment.rows()) else {
            return Err(AllocError);
        };
        first = next;
        all.push(Arc::new(alloc, fragment)?)?;
    }
    Ok(all)
}

fn rows_of(parts: &[Part]) -> u64 {
    let mut rows = 0u64;
    for part in parts {
        rows = rows.wrapping_add(part.rows());
    }
    rows
}

// In how many rows of the parts a query may hold, as they tell when they are asked for the last of so many times.
fn asked_times(alloc: Global, parts: &[Part], expr: &Expr, times: u64) -> Result<u64, AllocError> {
    let mut found = 0;
    for _time in 0..times {
        found = asked(alloc, parts, expr)?;
    }
    Ok(found)
}

fn asked(alloc: Global, parts: &[Part], expr: &Expr) -> Result<u64, AllocError> {
    let mut found = 0u64;
    for part in parts {
        let pair = candidates(alloc, expr, part)?;
        found = found.wrapping_add(pair.maybe.count());
    }
    Ok(found)
}

fn batch(alloc: Global, number: u64) -> Result<Batch, AllocError> {
    let Ok(layout) = Layout::new(Bytes::copy(alloc, b"conn")?, columns(alloc)?) else {
        return Err(AllocError);
    };
    let first = number.wrapping_mul(ROWS);
    let mut rows = Rows::new(alloc);
    for row in 0..ROWS {
        rows.push(connection(alloc, first.wrapping_add(row))?)?;
    }
    match Batch::new(1, layout, rows) {
        Some(batch) => Ok(batch),
        None => Err(AllocError),
    }
}

fn columns(alloc: Global) -> Result<Columns, AllocError> {
    let mut columns = Columns::new(alloc);
    for (name, kind) in &NAMED {
        let name = Bytes::copy(alloc, name.as_bytes())?;
        columns.push(Column { name, kind: *kind })?;
    }
    Ok(columns)
}

fn connection(alloc: Global, row: u64) -> Result<Row, AllocError> {
    let mut cells = Row::with_capacity(alloc, COLUMNS)?;
    for (column, (_, kind)) in NAMED.iter().enumerate() {
        cells.push(made_cell(alloc, *kind, column, row)?)?;
    }
    Ok(cells)
}

fn made_cell(alloc: Global, kind: Kind, column: usize, row: u64) -> Result<Cell, AllocError> {
    match kind {
        Kind::One(elem) => single(alloc, elem, &cell(column, row), row),
        _ => Ok(Cell::Many(Cells::new(alloc))),
    }
}

// The truth values are unset.
fn single(alloc: Global, elem: Elem, key: &Key, row: u64) -> Result<Cell, AllocError> {
    Ok(Cell::One(match (elem, key) {
        (Elem::Time, _) => Value::Time(
            1_300_475_167_000_000_000 + (row % 1_000_000_000 * 20_000_000) as i64,
        ),
        (Elem::Span, Key::Number(number)) => Value::Span((number % 90_000_000_000) as i64),
        (Elem::Count, Key::Number(number)) => Value::Count(*number),
        (Elem::Text, Key::Text(text)) => Value::Text(Bytes::copy(alloc, text.as_slice())?),
        (Elem::Name, Key::Text(text)) => Value::Name(Bytes::copy(alloc, text.as_slice())?),
        (Elem::Addr, Key::Address(address)) => Value::Addr(*address),
        (Elem::Port, Key::Port(number)) => Value::Port {
            number: *number,
            over: Transport::Unknown,
        },
        _ => return Ok(Cell::Unset),
    }))
}
