//! Queries with their columns chosen for one layout.
ghost use Rattle.std.specs.Prelude.{◌≡◌, IfOk, slice_get};
ghost use Rattle.std.specs.List.{list_any};
ghost use Rattle.query_meaning.specs.Resolving.{is_met_by, resolved_holds, resolved_test};

use crate::expr::{Literal, Rel};
use crate::relations::{meets, number_meets};
use sqlite_items::{Boxed, Items};
use std::alloc::{AllocError, Global};
use vast_value::{RowView, Value};

/// A query with its columns chosen for one layout.
#[derive(Drop)]
pub enum Resolved {
    Test(ResolvedTest),
    Not(Boxed<Resolved>),
    And(Items<Resolved>),
    Or(Items<Resolved>),
}

/// A test with its columns chosen.
#[derive(Drop)]
pub enum ResolvedTest {
    /// It holds of all rows of the layout, or of none.
    Fixed(bool),
    /// Some cell of these columns, counted from 0, meets the relation to the literal.
    Columns {
        columns: Items<usize>,
        rel: Rel,
        literal: Literal,
    },
}

impl Resolved {
    /// Whether a row of the layout matches the query.
    pub fn holds<R: RowView>(&self, alloc: Global, row: &R) -> Result<bool, AllocError>
        ensures { IfOk result (λ held. held ≡ resolved_holds (R.cells row.now) self.now) }
    {
        match self {
            Resolved::Test(test) => test.holds(alloc, row),
            Resolved::Not(member) => {
                let held = member.get().holds(alloc, row)?;
                Ok(!held)
            }
            Resolved::And(members) => {
                for member in members.as_slice() {
                    if !member.holds(alloc, row)? {
                        return Ok(false);
                    }
                }
                Ok(true)
            }
            Resolved::Or(members) => {
                for member in members.as_slice() {
                    if member.holds(alloc, row)? {
                        return Ok(true);
                    }
                }
                Ok(false)
            }
        }
    }
}

impl ResolvedTest {
    fn holds<R: RowView>(&self, alloc: Global, row: &R) -> Result<bool, AllocError>
        ensures { IfOk result (λ held. held ≡ resolved_test (R.cells row.now) self.now) }
    {
        match self {
            ResolvedTest::Fixed(held) => Ok(*held),
            ResolvedTest::Columns {
                columns,
                rel,
                literal,
            } => some_meets(alloc, columns.as_slice(), *rel, literal, row),
        }
    }
}

fn some_meets<R: RowView>(
    alloc: Global,
    columns: &[usize],
    rel: Rel,
    literal: &Literal,
    row: &R,
) -> Result<bool, AllocError>
    ensures { IfOk result (λ held. held ≡ list_any (λ n. is_met_by rel literal.now (slice_get (R.cells row.now) n)) columns.now) }
{
    for column in columns {
        if is_met_at(alloc, *column, rel, literal, row)? {
            return Ok(true);
        }
    }
    Ok(false)
}

fn is_met_at<R: RowView>(
    alloc: Global,
    column: usize,
    rel: Rel,
    literal: &Literal,
    row: &R,
) -> Result<bool, AllocError>
    ensures { IfOk result (λ held. held ≡ is_met_by rel literal.now (slice_get (R.cells row.now) column)) }
{
    if is_number(literal) {
        if let Some(number) = row.plain_number(column) {
            return Ok(number_meets(rel, literal, number));
        }
    }
    match row.cell(alloc, column)? {
        Some(cell) => Ok(meets(rel, literal, cell.get())),
        None => Ok(false),
    }
}

/// Whether a literal is of a kind whose cells may be plain numbers.
fn is_number(literal: &Literal) -> bool {
    matches!(literal, Literal::Of(Value::Count(_) | Value::Port { .. }))
}
