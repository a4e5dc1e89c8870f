//! Laws of the meaning of queries, each the contract of a function with an empty body.
ghost use Rattle.vast_value.specs.Headings.{heading_of};
ghost use Rattle.query_meaning.specs.Sure.{CellIsBounded, SureIsMatch};
ghost use Rattle.query_meaning.specs.Laws.{TwiceNot, AllOrSome, Trichotomy, OrEqual, NoOrder, Converse, InItself, GoesOver, HoldsAll, HasWhereItOccurs, ClashHoldsOfNothing, PicksByColumn};

use crate::expr::{Expr, Literal, Pick, Rel, Test};
use vast_value::{Bytes, Cell, Layout, Net, Row, Value};

/// The law of `!`: twice is none. And the law of members: `&&` is all of them, `||` some.
pub fn members_and_not(expr: &Expr, members: &[Expr])
    ensures twice { TwiceNot expr.now }
    ensures lists { AllOrSome members.now }
{
    let _ = expr;
    let _ = members;
}

/// The laws of order: of `<`, `==` and `>` just one holds of a literal and a value that have an order, `<=` and `>=` are
/// these with `==`, and without an order between the two none holds.
pub fn order_is_total(literal: &Value, value: &Value)
    ensures trichotomy { Trichotomy literal.now value.now }
    ensures or_equal { OrEqual literal.now value.now }
    ensures no_order { NoOrder literal.now value.now }
{
    let _ = literal;
    let _ = value;
}

/// The laws of subnets: `in` and `ni` are converse, each subnet is in itself, what is in a subnet is in those around it,
/// and ::/0 holds every address.
pub fn subnets_hold(outer: &Net, inner: &Net, value: &Value, address: u128)
    ensures converse { Converse outer.now inner.now address }
    ensures itself { InItself outer.now }
    ensures over { GoesOver outer.now inner.now value.now }
    ensures all { HoldsAll outer.now address }
{
    let _ = outer;
    let _ = inner;
    let _ = value;
    let _ = address;
}

/// The law of texts: one has another where it is something, the other, and something.
pub fn texts_hold(needle: &Bytes, text: &Bytes)
    ensures { HasWhereItOccurs needle.now text.now }
{
    let _ = needle;
    let _ = text;
}

/// The law of clashes: a test that clashes holds of no cell that its pick may choose.
pub fn clash_holds_of_nothing(test: &Test, cell: &Cell)
    ensures { ClashHoldsOfNothing test.now cell.now }
{
    let _ = test;
    let _ = cell;
}

/// The law of picks: a kind picks the cells whose column is of that kind, a name those whose column it names, `&type` the
/// path, and `&time` the first cell of kind time.
pub fn picks_by_column(pick: &Pick, layout: &Layout, row: &Row)
    ensures { PicksByColumn pick.now (heading_of layout.now) row.now }
{
    let _ = pick;
    let _ = layout;
    let _ = row;
}

/// The law of sure and maybe: an event that surely matches a query matches it, and one that matches may. The same of a
/// cell and a relation.
pub fn sure_is_match(expr: &Expr, rel: Rel, literal: &Literal, cell: &Cell)
    ensures events { SureIsMatch expr.now }
    ensures cells { CellIsBounded rel literal.now cell.now }
{
    let _ = expr;
    let _ = rel;
    let _ = literal;
    let _ = cell;
}
