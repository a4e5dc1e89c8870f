//! Which events an index may tell to match, or not to.
ghost use Rattle.std.specs.Prelude.{◌≡◌, ◌%◌, ◌<◌, ◌++◌, ◌∷◌, [], length, map, IsTrue};
ghost use Rattle.std.specs.List.{list_any, sum};
ghost use Rattle.vast_value.specs.Fit.{fits_columns};
ghost use Rattle.vast_value.specs.Headings.{heading_of, field_of};
ghost use Rattle.vast_value.specs.ValueBytes.{number};
ghost use Rattle.query_meaning.specs.Meaning.{named_cells, cells_of_kind, event_time};
ghost use Rattle.query_meaning.specs.Sure.{sure, maybe, sure_test, maybe_test};
ghost use Rattle.query_meaning.specs.SureCells.{bucket, known_length, maybe_cell, maybe_element, maybe_elements, maybe_text, maybe_time, maybe_value, same_front, same_whole, seconds, sure_cell, sure_text, sure_time, sure_value};

use crate::expr::{Expr, Literal, Pick, Rel, Test};
use crate::meaning::{event_time, is_of};
use crate::picks::is_named;
use crate::relations::{goes_with, nil_meets, text_meets, value_meets};
use vast_value::{Cell, Column, Elem, Layout, Net, Row, Value};

/// Whether the event of this layout and row, which fits it, surely matches the query, and whether it may.
///
/// That is what columns tell without the row: of a time its whole seconds, of a text its length up to 255 and its first
/// eight bytes, of a container one of 64 buckets for each element, and all of other values. What surely matches matches,
/// and what matches may.
pub fn sure_holds(expr: &Expr, layout: &Layout, row: &Row) -> (bool, bool)
    requires { IsTrue (fits_columns layout.now.columns row.now) }
    ensures sure { result.0 ≡ sure (heading_of layout.now) row.now expr.now }
    ensures maybe { result.1 ≡ maybe (heading_of layout.now) row.now expr.now }
{
    match expr {
        Expr::Test(test) => test_known(test, layout, row),
        Expr::Not(member) => {
            let (sure, maybe) = sure_holds(member.get(), layout, row);
            (!maybe, !sure)
        }
        Expr::And(members) => {
            let mut sure = true;
            let mut maybe = true;
            for member in members.as_slice() {
                let (member_sure, member_maybe) = sure_holds(member, layout, row);
                sure = sure && member_sure;
                maybe = maybe && member_maybe;
            }
            (sure, maybe)
        }
        Expr::Or(members) => {
            let mut sure = false;
            let mut maybe = false;
            for member in members.as_slice() {
                let (member_sure, member_maybe) = sure_holds(member, layout, row);
                sure = sure || member_sure;
                maybe = maybe || member_maybe;
            }
            (sure, maybe)
        }
    }
}

fn test_known(test: &Test, layout: &Layout, row: &Row) -> (bool, bool)
    requires { IsTrue (fits_columns layout.now.columns row.now) }
    ensures sure { result.0 ≡ sure_test test.now (heading_of layout.now) row.now }
    ensures maybe { result.1 ≡ maybe_test test.now (heading_of layout.now) row.now }
{
    match &test.pick {
        Pick::OfKind(elem) => kind_known(test, layout.columns(), row.as_slice(), *elem),
        Pick::Named(name) => named_known(test, layout, row.as_slice(), name.as_slice()),
        Pick::TypeName => {
            let held = text_meets(test.rel, &test.literal, layout.path());
            (held, held)
        }
        Pick::EventTime => time_known(test.rel, &test.literal, layout.columns(), row.as_slice()),
    }
}

fn kind_known(test: &Test, columns: &[Column], cells: &[Cell], elem: Elem) -> (bool, bool)
    requires { length columns.now ≡ length cells.now }
    ensures sure { result.0 ≡ list_any (sure_cell test.now.rel test.now.literal) (cells_of_kind elem (map field_of columns.now) cells.now) }
    ensures maybe { result.1 ≡ list_any (maybe_cell test.now.rel test.now.literal) (cells_of_kind elem (map field_of columns.now) cells.now) }
{
    let mut sure = false;
    let mut maybe = false;
    for (at, column) in columns.iter().enumerate() {
        let cell = &cells[at];
        if is_of(elem, column.kind) {
            sure = sure || sure_cell(test.rel, &test.literal, cell);
            maybe = maybe || maybe_cell(test.rel, &test.literal, cell);
        }
    }
    (sure, maybe)
}

fn named_known(test: &Test, layout: &Layout, cells: &[Cell], name: &[u8]) -> (bool, bool)
    requires { length layout.now.columns ≡ length cells.now }
    ensures sure { result.0 ≡ list_any (sure_cell test.now.rel test.now.literal) (named_cells layout.now.path (map field_of layout.now.columns) cells.now name.now) }
    ensures maybe { result.1 ≡ list_any (maybe_cell test.now.rel test.now.literal) (named_cells layout.now.path (map field_of layout.now.columns) cells.now name.now) }
{
    let mut sure = false;
    let mut maybe = false;
    let columns = layout.columns();
    for (at, column) in columns.iter().enumerate() {
        let cell = &cells[at];
        if is_named(layout.path(), column.name.as_slice(), name) {
            sure = sure || sure_cell(test.rel, &test.literal, cell);
            maybe = maybe || maybe_cell(test.rel, &test.literal, cell);
        }
    }
    (sure, maybe)
}

fn time_known(rel: Rel, literal: &Literal, columns: &[Column], cells: &[Cell]) -> (bool, bool)
    requires { length columns.now ≡ length cells.now }
    ensures sure { result.0 ≡ sure_cell rel literal.now (event_time (map field_of columns.now) cells.now) }
    ensures maybe { result.1 ≡ maybe_cell rel literal.now (event_time (map field_of columns.now) cells.now) }
{
    match event_time(columns, cells) {
        Some(cell) => (
            sure_cell(rel, literal, cell),
            maybe_cell(rel, literal, cell),
        ),
        None => (
            sure_cell(rel, literal, &Cell::Unset),
            maybe_cell(rel, literal, &Cell::Unset),
        ),
    }
}

/// Whether a cell surely meets a relation to a literal, by what a column keeps of it.
pub fn sure_cell(rel: Rel, literal: &Literal, cell: &Cell) -> bool
    ensures { result ≡ sure_cell rel literal.now cell.now }
{
    match (literal, cell) {
        (Literal::Nil, _) => nil_meets(rel, cell),
        (Literal::Of(literal), Cell::One(value)) => sure_value(rel, literal, value),
        _ => false,
    }
}

/// Whether a cell may meet a relation to a literal, by what a column keeps of it.
pub fn maybe_cell(rel: Rel, literal: &Literal, cell: &Cell) -> bool
    ensures { result ≡ maybe_cell rel literal.now cell.now }
{
    match (literal, cell) {
        (Literal::Nil, _) => nil_meets(rel, cell),
        (Literal::Of(literal), Cell::One(value)) => maybe_value(rel, literal, value),
        (Literal::Of(literal), Cell::Many(items)) => maybe_elements(rel, literal, items.as_slice()),
        _ => false,
    }
}

fn sure_value(rel: Rel, literal: &Value, value: &Value) -> bool
    ensures { result ≡ sure_value rel literal.now value.now }
{
    match (literal, value) {
        (Value::Time(literal), Value::Time(time)) => sure_time(rel, *literal, *time),
        (Value::Text(literal) | Value::Name(literal), Value::Text(text) | Value::Name(text)) => {
            sure_text(rel, literal.as_slice(), text.as_slice())
        }
        _ => value_meets(rel, literal, value),
    }
}

fn maybe_value(rel: Rel, literal: &Value, value: &Value) -> bool
    ensures { result ≡ maybe_value rel literal.now value.now }
{
    match (literal, value) {
        (Value::Time(literal), Value::Time(time)) => maybe_time(rel, *literal, *time),
        (Value::Text(literal) | Value::Name(literal), Value::Text(text) | Value::Name(text)) => {
            maybe_text(rel, literal.as_slice(), text.as_slice())
        }
        _ => value_meets(rel, literal, value),
    }
}

/// The whole seconds of a time in nanoseconds, rounded down.
pub fn seconds(time: i64) -> i64
    ensures { result ≡ seconds time }
{
    time.div_euclid(1_000_000_000)
}

fn sure_time(rel: Rel, literal: i64, time: i64) -> bool
    ensures { result ≡ sure_time rel literal time }
{
    let literal = seconds(literal);
    let time = seconds(time);
    match rel {
        Rel::Ne => time != literal,
        Rel::Lt | Rel::Le => time < literal,
        Rel::Gt | Rel::Ge => literal < time,
        Rel::Eq | Rel::Within | Rel::Contains => false,
    }
}

fn maybe_time(rel: Rel, literal: i64, time: i64) -> bool
    ensures { result ≡ maybe_time rel literal time }
{
    let literal = seconds(literal);
    let time = seconds(time);
    match rel {
        Rel::Eq => time == literal,
        Rel::Ne => true,
        Rel::Lt | Rel::Le => time <= literal,
        Rel::Gt | Rel::Ge => literal <= time,
        Rel::Within | Rel::Contains => false,
    }
}

fn sure_text(rel: Rel, literal: &[u8], text: &[u8]) -> bool
    ensures { result ≡ sure_text rel literal.now text.now }
{
    match rel {
        Rel::Eq => same_whole(literal, text),
        Rel::Ne => !same_front(literal, text),
        Rel::Contains => literal.is_empty(),
        _ => false,
    }
}

fn maybe_text(rel: Rel, literal: &[u8], text: &[u8]) -> bool
    ensures { result ≡ maybe_text rel literal.now text.now }
{
    match rel {
        Rel::Eq => same_front(literal, text),
        Rel::Ne => !same_whole(literal, text),
        Rel::Contains => known_length(literal) <= known_length(text),
        _ => false,
    }
}

fn known_length(text: &[u8]) -> usize
    ensures { result ≡ known_length text.now }
{
    text.len().min(255)
}

fn same_whole(literal: &[u8], text: &[u8]) -> bool
    ensures { result ≡ same_whole literal.now text.now }
{
    same_front(literal, text) && literal.len() <= 8
}

fn same_front(literal: &[u8], text: &[u8]) -> bool
    ensures { result ≡ same_front literal.now text.now }
{
    known_length(literal) == known_length(text)
        && &literal[..literal.len().min(8)] == &text[..text.len().min(8)]
}

fn maybe_elements(rel: Rel, literal: &Value, items: &[Option<Value>]) -> bool
    ensures { result ≡ maybe_elements rel literal.now items.now }
{
    match rel {
        Rel::Contains => some_element(literal, items),
        _ => false,
    }
}

fn some_element(literal: &Value, items: &[Option<Value>]) -> bool
    ensures { result ≡ list_any (maybe_element literal.now) items.now }
{
    items.iter().any(|item| maybe_element(literal, item))
}

fn maybe_element(literal: &Value, item: &Option<Value>) -> bool
    ensures { result ≡ maybe_element literal.now item.now }
{
    match item {
        None => false,
        Some(value) => goes_with(literal.elem(), value.elem()) && bucket(value) == bucket(literal),
    }
}

/// The bucket that a column of containers keeps of an element, below 64.
pub fn bucket(value: &Value) -> u8
    ensures value { result ≡ bucket value.now }
    ensures small { result < 64 }
{
    match value {
        Value::Bool(held) => *held as u8,
        Value::Count(n) => word_bucket(*n),
        Value::Int(n) | Value::Time(n) | Value::Span(n) => word_bucket(n.cast_unsigned()),
        Value::Text(text) | Value::Name(text) => bucket_of(text.as_slice()),
        Value::Addr(address) => address_bucket(*address),
        Value::Subnet(net) => net_bucket(net),
        Value::Port { number, .. } => port_bucket(*number),
    }
}

#[tactic(auto, unfolding(vast_value::specs::ValueBytes::number))]
fn word_bucket(n: u64) -> u8
    ensures value { result ≡ sum (number 8 n) % 64 }
    ensures small { result < 64 }
{
    bucket_of(&n.to_le_bytes())
}

#[tactic(auto, unfolding(vast_value::specs::ValueBytes::number))]
fn port_bucket(n: u16) -> u8
    ensures value { result ≡ sum (number 2 n) % 64 }
    ensures small { result < 64 }
{
    bucket_of(&n.to_le_bytes())
}

#[tactic(auto, unfolding(vast_value::specs::ValueBytes::number))]
fn address_bucket(n: u128) -> u8
    ensures value { result ≡ sum (number 16 n) % 64 }
    ensures small { result < 64 }
{
    bucket_of(&n.to_le_bytes())
}

fn net_bucket(net: &Net) -> u8
    ensures value { result ≡ sum (number 16 net.now.base ++ net.now.bits ∷ []) % 64 }
    ensures small { result < 64 }
{
    (address_bucket(net.base) + net.bits % 64) % 64
}

fn bucket_of(bytes: &[u8]) -> u8
    ensures value { result ≡ sum bytes.now % 64 }
    ensures small { result < 64 }
{
    let mut bucket = 0u8;
    for byte in bytes {
        bucket = (bucket + byte % 64) % 64;
    }
    bucket
}
