//! Columns of bools.
ghost use Rattle.std.specs.Prelude.{◌≡◌, ◌+◌, ◌<◌, ◌≤◌, ◌^◌, ◌++◌, length, IfOk, IsTrue, OnOk, Option, Some, List, []};
ghost use Rattle.bits_law.specs.Keys.{meets, with_key};
ghost use Rattle.vast_value.specs.declared.cell.Cell.{Cell};
ghost use Rattle.vast_value.specs.declared.cell.Cell.TheVariants.{One};
ghost use Rattle.vast_value.specs.declared.kind.Elem.TheVariants as elem;
ghost use Rattle.vast_value.specs.declared.kind.Kind.TheVariants as kind;
ghost use Rattle.column_index.specs.Asked.{asked_test, is_below};
ghost use Rattle.column_index.specs.Columns.{AreOf, Answers, flag_of, flag_key};
ghost use Rattle.column_index.specs.Kept.{FlagsStand, AreAnswers};

use crate::answered::exact;
use crate::asked::{Asked, flags_asked};
use crate::kept::{Bitmap, Flags, Pair};
use bits_law::{Bits, BitsEnd};
use digit_index::{Bases, Coding, DigitIndex};
use query_meaning::Rel;
use std::alloc::{AllocError, Global};
use vast_value::Value;

/// The number that stands for a bool.
fn flag_of(value: &Value) -> u64
    ensures value { result ≡ flag_of value.now }
    ensures small { result < 2 }
{
    match value {
        Value::Bool(true) => 1,
        _ => 0,
    }
}

impl Flags {
    pub(crate) fn new(alloc: Global) -> Result<Self, AllocError>
        ensures stands { IfOk result (λ n. FlagsStand n []) }
        ensures rows { IfOk result (λ n. length n.index.table.present ≡ 0) }
    {
        let mut bases = Bases::new(alloc);
        bases.push(2)?;
        let index = DigitIndex::new(alloc, bases, Coding::Equality)?;
        Ok(Flags { index })
    }

    /// Puts a value at `row`.
    pub(crate) fn put(&mut self, row: u64, value: &Value) -> Result<(), BitsEnd>
        requires { length self.old.index.table.present ≤ row }
        ensures stands { OnOk result ((cells : List (Option Cell)) → length cells ≤ row → FlagsStand self.old cells → FlagsStand self.new (with_key cells row (One value.now))) }
        ensures rows { length self.new.index.table.present ≤ row + 1 }
    {
        let key = flag_of(value);
        self.index.put(row, key)?;
        Ok(())
    }

    /// Adds the rows of another, this one having `rows` rows.
    pub(crate) fn append(self, rows: u64, other: &Self) -> Result<Self, BitsEnd>
        requires { length self.index.table.present ≤ rows }
        ensures stands { IfOk result (λ n. (cells more : List (Option Cell)) → length cells ≡ rows → FlagsStand self cells → FlagsStand other.now more → FlagsStand n (cells ++ more)) }
        ensures rows { IfOk result (λ n. length n.index.table.present ≡ rows + length other.now.index.table.present) }
    {
        let Flags { index } = self;
        let index = index.pad(rows)?;
        let index = index.append(&other.index)?;
        Ok(Flags { index })
    }

    /// The rows where a relation to the literal surely holds and may hold.
    pub(crate) fn ask(&self, alloc: Global, rel: Rel, literal: &Value) -> Result<Pair, AllocError>
        ensures { IfOk result (λ pair. (cells : List (Option Cell)) → AreOf (kind.One elem.Bool) cells → FlagsStand self.now cells → AreAnswers pair rel literal.now cells) }
    {
        let rows = self.rows(alloc, flags_asked(rel, literal))?;
        let pair = exact(rows)?;
        Ok(pair)
    }

    fn rows(&self, alloc: Global, asked: Asked) -> Result<Bitmap, AllocError>
        requires { IsTrue (is_below 2 asked) }
        ensures { IfOk result (λ bits. (cells : List (Option Cell)) → FlagsStand self.now cells → Answers bits (λ x. meets (asked_test asked) (flag_key x)) cells) }
    {
        match asked {
            Asked::Never => Ok(Bitmap::empty(alloc)),
            Asked::Set => {
                let rows = self.index.present()?;
                Ok(rows)
            }
            Asked::Ordered(order, key) => {
                let rows = self.index.ask(order, key)?;
                Ok(rows)
            }
        }
    }
}
