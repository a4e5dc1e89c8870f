//! Columns of containers.
ghost use Rattle.std.specs.Prelude.{◌≡◌, ◌+◌, ◌<◌, ◌≤◌, ◌^◌, ◌++◌, length, IfOk, OnOk, Option, List, []};
ghost use Rattle.bits_law.specs.Keys.{with_key};
ghost use Rattle.vast_value.specs.declared.cell.Cell.{Cell};
ghost use Rattle.vast_value.specs.declared.cell.Cell.TheVariants.{Many};
ghost use Rattle.vast_value.specs.declared.kind.Kind.TheVariants as kind;
ghost use Rattle.column_index.specs.Columns.{AreOf, buckets_of, with_bucket};
ghost use Rattle.column_index.specs.Kept.{AreAnswers, BucketsStand};

use crate::answered::nothing;
use crate::asked::is_contains;
use crate::kept::{Bitmap, Buckets, Pair};
use bits_law::{Bits, BitsEnd};
use query_meaning::{Rel, bucket, goes_with};
use set_index::SetIndex;
use std::alloc::{AllocError, Global};
use vast_value::{Elem, Value};

/// The buckets of some, and that of an element.
fn with_bucket(buckets: u64, item: &Option<Value>) -> u64
    ensures { result ≡ with_bucket buckets item.now }
{
    match item {
        None => buckets,
        Some(value) => buckets | 1u64 << bucket(value),
    }
}

/// The buckets that the elements of a container take, one bit for each.
fn buckets_of(items: &[Option<Value>]) -> u64
    ensures { result ≡ buckets_of items.now }
{
    let mut buckets = 0;
    for item in items {
        buckets = with_bucket(buckets, item);
    }
    buckets
}

impl Buckets {
    pub(crate) fn new(alloc: Global) -> Result<Self, AllocError>
        ensures stands { IfOk result (λ b. BucketsStand b []) }
        ensures rows { IfOk result (λ b. length b.index.table.present ≡ 0) }
    {
        Ok(Buckets {
            index: SetIndex::new(alloc)?,
        })
    }

    /// Puts a container's elements at `row`.
    pub(crate) fn put(&mut self, row: u64, items: &[Option<Value>]) -> Result<(), BitsEnd>
        requires { length self.old.index.table.present ≤ row }
        ensures stands { OnOk result ((cells : List (Option Cell)) → length cells ≤ row → BucketsStand self.old cells → BucketsStand self.new (with_key cells row (Many items.now))) }
        ensures rows { length self.new.index.table.present ≤ row + 1 }
    {
        let key = buckets_of(items);
        self.index.put(row, key)?;
        Ok(())
    }

    /// Adds the rows of another, this one having `rows` rows.
    pub(crate) fn append(self, rows: u64, other: &Self) -> Result<Self, BitsEnd>
        requires { length self.index.table.present ≤ rows }
        ensures stands { IfOk result (λ b. (cells more : List (Option Cell)) → length cells ≡ rows → BucketsStand self cells → BucketsStand other.now more → BucketsStand b (cells ++ more)) }
        ensures rows { IfOk result (λ b. length b.index.table.present ≡ rows + length other.now.index.table.present) }
    {
        let Buckets { index } = self;
        let index = index.pad(rows)?;
        let index = index.append(&other.index)?;
        Ok(Buckets { index })
    }

    /// The rows where a relation to the literal surely holds and may hold, of containers of elements of a kind.
    pub(crate) fn ask(
        &self,
        alloc: Global,
        elem: Elem,
        rel: Rel,
        literal: &Value,
    ) -> Result<Pair, AllocError>
        ensures { IfOk result (λ pair. (cells : List (Option Cell)) → AreOf (kind.SetOf elem) cells → BucketsStand self.now cells → AreAnswers pair rel literal.now cells) }
    {
        if !goes_with(literal.elem(), elem) {
            return Ok(nothing(alloc));
        }
        if !is_contains(rel) {
            return Ok(nothing(alloc));
        }
        let bucket = bucket(literal);
        let maybe = self.index.taken(bucket)?;
        let sure = Bitmap::empty(alloc);
        Ok(Pair { sure, maybe })
    }
}
