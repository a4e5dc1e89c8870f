//! Columns of addresses.
ghost use Rattle.std.specs.Prelude.{◌≡◌, ◌+◌, ◌<◌, ◌≤◌, ◌^◌, ◌++◌, length, IfOk, OnOk, Option, Some, List, []};
ghost use Rattle.bits_law.specs.Keys.{meets, with_key};
ghost use Rattle.column_index.specs.Asked.{address_test};
ghost use Rattle.vast_value.specs.declared.cell.Cell.{Cell};
ghost use Rattle.vast_value.specs.declared.cell.Cell.TheVariants.{One};
ghost use Rattle.vast_value.specs.declared.kind.Elem.TheVariants as elem;
ghost use Rattle.vast_value.specs.declared.kind.Kind.TheVariants as kind;
ghost use Rattle.column_index.specs.Columns.{AreOf, Answers, address_of, address_key};
ghost use Rattle.column_index.specs.Kept.{AddressesStand, AreAnswers};

use crate::answered::exact;
use crate::asked::{AddressAsked, address_asked};
use crate::kept::{Addresses, Bitmap, Pair};
use address_index::AddrIndex;
use bits_law::{Bits, BitsEnd};
use query_meaning::Rel;
use std::alloc::{AllocError, Global};
use vast_value::Value;

/// The address of a value, and 0 of one that is none.
fn address_of(value: &Value) -> u128
    ensures { result ≡ address_of value.now }
{
    match value {
        Value::Addr(address) => *address,
        _ => 0,
    }
}

impl Addresses {
    pub(crate) fn new(alloc: Global) -> Result<Self, AllocError>
        ensures stands { IfOk result (λ a. AddressesStand a []) }
        ensures rows { IfOk result (λ a. length a.index.table.present ≡ 0) }
    {
        Ok(Addresses {
            index: AddrIndex::new(alloc)?,
        })
    }

    /// Puts a value at `row`.
    pub(crate) fn put(&mut self, row: u64, value: &Value) -> Result<(), BitsEnd>
        requires { length self.old.index.table.present ≤ row }
        ensures stands { OnOk result ((cells : List (Option Cell)) → length cells ≤ row → AddressesStand self.old cells → AddressesStand self.new (with_key cells row (One value.now))) }
        ensures rows { length self.new.index.table.present ≤ row + 1 }
    {
        let key = address_of(value);
        self.index.put(row, key)?;
        Ok(())
    }

    /// Adds the rows of another, this one having `rows` rows.
    pub(crate) fn append(self, rows: u64, other: &Self) -> Result<Self, BitsEnd>
        requires { length self.index.table.present ≤ rows }
        ensures stands { IfOk result (λ a. (cells more : List (Option Cell)) → length cells ≡ rows → AddressesStand self cells → AddressesStand other.now more → AddressesStand a (cells ++ more)) }
        ensures rows { IfOk result (λ a. length a.index.table.present ≡ rows + length other.now.index.table.present) }
    {
        let Addresses { index } = self;
        let index = index.pad(rows)?;
        let index = index.append(&other.index)?;
        Ok(Addresses { index })
    }

    /// The rows where a relation to the literal surely holds and may hold.
    pub(crate) fn ask(&self, alloc: Global, rel: Rel, literal: &Value) -> Result<Pair, AllocError>
        ensures { IfOk result (λ pair. (cells : List (Option Cell)) → AreOf (kind.One elem.Addr) cells → AddressesStand self.now cells → AreAnswers pair rel literal.now cells) }
    {
        let rows = self.rows(alloc, address_asked(rel, literal))?;
        let pair = exact(rows)?;
        Ok(pair)
    }

    fn rows(&self, alloc: Global, asked: AddressAsked) -> Result<Bitmap, AllocError>
        ensures { IfOk result (λ bits. (cells : List (Option Cell)) → AddressesStand self.now cells → Answers bits (λ x. meets (address_test asked) (address_key x)) cells) }
    {
        match asked {
            AddressAsked::Never => Ok(Bitmap::empty(alloc)),
            AddressAsked::Equal(address) => {
                let rows = self.index.equal(address)?;
                Ok(rows)
            }
            AddressAsked::Differs(address) => {
                let set = self.index.present()?;
                let rows = self.index.equal(address)?;
                let others = set.and_not(&rows)?;
                Ok(others)
            }
            AddressAsked::Within(net) => {
                let rows = self.index.within(net.base, net.bits)?;
                Ok(rows)
            }
        }
    }
}
