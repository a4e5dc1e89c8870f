//! Columns of counts, ints, intervals and times.
ghost use Rattle.std.specs.Prelude.{◌≡◌, ◌+◌, ◌<◌, ◌≤◌, ◌^◌, ◌++◌, length, IfOk, OnOk, Option, Some, List, [], true, IsTrue};
ghost use Rattle.bits_law.specs.Keys.{meets, with_key};
ghost use Rattle.vast_value.specs.declared.cell.Cell.{Cell};
ghost use Rattle.vast_value.specs.declared.cell.Cell.TheVariants.{One};
ghost use Rattle.vast_value.specs.declared.kind.Kind.TheVariants as kind;
ghost use Rattle.column_index.specs.Asked.{asked_test};
ghost use Rattle.column_index.specs.Columns.{AreOf, Answers, has_i64, number_of, number_key};
ghost use Rattle.column_index.specs.Kept.{NumbersStand, AreAnswers, is_number};

use crate::answered::{exact, nothing};
use crate::asked::{Asked, exactly, maybe_so, surely};
use crate::kept::{Bitmap, Numbers, Pair};
use bits_law::{Bits, BitsEnd};
use query_meaning::{Rel, goes_with, seconds};
use slice_index::{SliceIndex, key_of};
use std::alloc::{AllocError, Global};
use vast_value::{Elem, Value};

/// The number that stands for a value, in the order of its kind: of a time its seconds'.
fn number_of(value: &Value) -> u64
    ensures value { result ≡ number_of value.now }
    ensures ranged { IsTrue (has_i64 value.now) }
{
    match value {
        Value::Count(n) => *n,
        Value::Int(n) | Value::Span(n) => key_of(*n),
        Value::Time(time) => key_of(seconds(*time)),
        _ => 0,
    }
}

impl Numbers {
    pub(crate) fn new(alloc: Global) -> Result<Self, AllocError>
        ensures stands { IfOk result (λ n. NumbersStand n []) }
        ensures rows { IfOk result (λ n. length n.index.table.present ≡ 0) }
    {
        Ok(Numbers {
            index: SliceIndex::new(alloc, 64)?,
        })
    }

    /// Puts a value at `row`.
    pub(crate) fn put(&mut self, row: u64, value: &Value) -> Result<(), BitsEnd>
        requires { length self.old.index.table.present ≤ row }
        ensures stands { OnOk result ((cells : List (Option Cell)) → length cells ≤ row → NumbersStand self.old cells → NumbersStand self.new (with_key cells row (One value.now))) }
        ensures rows { length self.new.index.table.present ≤ row + 1 }
    {
        let key = number_of(value);
        self.index.put(row, key)?;
        Ok(())
    }

    /// Adds the rows of another, this one having `rows` rows.
    pub(crate) fn append(self, rows: u64, other: &Self) -> Result<Self, BitsEnd>
        requires { length self.index.table.present ≤ rows }
        ensures stands { IfOk result (λ n. (cells more : List (Option Cell)) → length cells ≡ rows → NumbersStand self cells → NumbersStand other.now more → NumbersStand n (cells ++ more)) }
        ensures rows { IfOk result (λ n. length n.index.table.present ≡ rows + length other.now.index.table.present) }
    {
        let Numbers { index } = self;
        let index = index.pad(rows)?;
        let index = index.append(&other.index)?;
        Ok(Numbers { index })
    }

    /// The rows where a relation to the literal surely holds and may hold, of cells of a kind.
    pub(crate) fn ask(
        &self,
        alloc: Global,
        elem: Elem,
        rel: Rel,
        literal: &Value,
    ) -> Result<Pair, AllocError>
        requires { IsTrue (is_number elem) }
        ensures { IfOk result (λ pair. (cells : List (Option Cell)) → AreOf (kind.One elem) cells → NumbersStand self.now cells → AreAnswers pair rel literal.now cells) }
    {
        if !goes_with(literal.elem(), elem) {
            return Ok(nothing(alloc));
        }
        let key = number_of(literal);
        if elem.is(Elem::Time) {
            let sure = self.rows(alloc, surely(rel, key))?;
            let maybe = self.rows(alloc, maybe_so(rel, key))?;
            return Ok(Pair { sure, maybe });
        }
        let rows = self.rows(alloc, exactly(rel, key))?;
        let pair = exact(rows)?;
        Ok(pair)
    }

    fn rows(&self, alloc: Global, asked: Asked) -> Result<Bitmap, AllocError>
        ensures { IfOk result (λ bits. (cells : List (Option Cell)) → NumbersStand self.now cells → Answers bits (λ x. meets (asked_test asked) (number_key x)) cells) }
    {
        match asked {
            Asked::Never => Ok(Bitmap::empty(alloc)),
            Asked::Set => {
                let rows = self.index.present()?;
                Ok(rows)
            }
            Asked::Ordered(order, key) => {
                let rows = self.index.ask(order, key)?;
                Ok(rows)
            }
        }
    }
}
