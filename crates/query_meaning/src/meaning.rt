//! When a query matches an event.
ghost use Rattle.std.specs.Prelude.{◌≡◌, length, map, IsTrue, MatchOption};
ghost use Rattle.std.specs.List.{list_any};
ghost use Rattle.vast_value.specs.declared.cell.Cell.{Cell};
ghost use Rattle.vast_value.specs.declared.cell.Cell.TheVariants as cell;
ghost use Rattle.vast_value.specs.Fit.{fits_columns};
ghost use Rattle.vast_value.specs.Headings.{heading_of, field_of};
ghost use Rattle.query_meaning.specs.Meaning.{holds, test_holds, named_cells, cells_of_kind, event_time, is_of};
ghost use Rattle.query_meaning.specs.Relations.{meets};

use crate::expr::{Expr, Literal, Pick, Rel, Test};
use crate::picks::is_named;
use crate::relations::{meets, text_meets};
use vast_value::{Cell, Column, Elem, Kind, Layout, Row};

/// Whether the event of this layout and row, which fits it, matches the query.
///
/// A test holds where some cell that its pick chooses meets the relation to the literal. `And` and `Or` hold where all
/// or some of their members do, and `Not` where its member does not.
pub fn holds(expr: &Expr, layout: &Layout, row: &Row) -> bool
    requires { IsTrue (fits_columns layout.now.columns row.now) }
    ensures value { result ≡ holds (heading_of layout.now) row.now expr.now }
{
    match expr {
        Expr::Test(test) => test_holds(test, layout, row),
        Expr::Not(member) => !holds(member.get(), layout, row),
        Expr::And(members) => {
            for member in members.as_slice() {
                if !holds(member, layout, row) {
                    return false;
                }
            }
            true
        }
        Expr::Or(members) => {
            for member in members.as_slice() {
                if holds(member, layout, row) {
                    return true;
                }
            }
            false
        }
    }
}

fn test_holds(test: &Test, layout: &Layout, row: &Row) -> bool
    requires { IsTrue (fits_columns layout.now.columns row.now) }
    ensures { result ≡ test_holds test.now (heading_of layout.now) row.now }
{
    match &test.pick {
        Pick::OfKind(elem) => kind_meets(test, layout.columns(), row.as_slice(), *elem),
        Pick::Named(name) => named_meets(test, layout, row.as_slice(), name.as_slice()),
        Pick::TypeName => text_meets(test.rel, &test.literal, layout.path()),
        Pick::EventTime => time_meets(test.rel, &test.literal, layout.columns(), row.as_slice()),
    }
}

fn kind_meets(test: &Test, columns: &[Column], cells: &[Cell], elem: Elem) -> bool
    requires { length columns.now ≡ length cells.now }
    ensures { result ≡ list_any (meets test.now.rel test.now.literal) (cells_of_kind elem (map field_of columns.now) cells.now) }
{
    for (at, column) in columns.iter().enumerate() {
        let cell = &cells[at];
        if is_of(elem, column.kind) && meets(test.rel, &test.literal, cell) {
            return true;
        }
    }
    false
}

/// Whether columns of this kind have single values of that one: what a pick of a kind chooses.
pub fn is_of(elem: Elem, kind: Kind) -> bool
    ensures { result ≡ is_of elem kind }
{
    match kind {
        Kind::One(own) => own.is(elem),
        _ => false,
    }
}

fn time_meets(rel: Rel, literal: &Literal, columns: &[Column], cells: &[Cell]) -> bool
    requires { length columns.now ≡ length cells.now }
    ensures { result ≡ meets rel literal.now (event_time (map field_of columns.now) cells.now) }
{
    match event_time(columns, cells) {
        Some(cell) => meets(rel, literal, cell),
        None => meets(rel, literal, &Cell::Unset),
    }
}

// The first cell of kind time. Where there is none the event's time is unset.
pub(crate) fn event_time<'a>(columns: &[Column], cells: &'a [Cell]) -> Option<&'a Cell>
    requires { length columns.now ≡ length cells.now }
    ensures { MatchOption result (event_time (map field_of columns.now) cells.now ≡ cell.Unset) (λ x. x.now ≡ event_time (map field_of columns.now) cells.now) }
{
    for (at, column) in columns.iter().enumerate() {
        let cell = &cells[at];
        if is_of(Elem::Time, column.kind) {
            return Some(cell);
        }
    }
    None
}

fn named_meets(test: &Test, layout: &Layout, cells: &[Cell], name: &[u8]) -> bool
    requires { length layout.now.columns ≡ length cells.now }
    ensures { result ≡ list_any (meets test.now.rel test.now.literal) (named_cells layout.now.path (map field_of layout.now.columns) cells.now name.now) }
{
    let columns = layout.columns();
    for (at, column) in columns.iter().enumerate() {
        let cell = &cells[at];
        if is_named(layout.path(), column.name.as_slice(), name)
            && meets(test.rel, &test.literal, cell)
        {
            return true;
        }
    }
    false
}
