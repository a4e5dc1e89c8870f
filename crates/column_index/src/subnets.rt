//! Columns of subnets.
ghost use Rattle.std.specs.Prelude.{◌≡◌, ◌+◌, ◌<◌, ◌≤◌, ◌^◌, ◌++◌, length, IfOk, OnOk, Option, Some, List, []};
ghost use Rattle.bits_law.specs.Keys.{meets, with_key};
ghost use Rattle.address_index.specs.Subnets.{subnet};
ghost use Rattle.column_index.specs.Asked.{subnet_test};
ghost use Rattle.vast_value.specs.declared.cell.Cell.{Cell};
ghost use Rattle.vast_value.specs.declared.cell.Cell.TheVariants.{One};
ghost use Rattle.vast_value.specs.declared.kind.Elem.TheVariants as elem;
ghost use Rattle.vast_value.specs.declared.kind.Kind.TheVariants as kind;
ghost use Rattle.column_index.specs.Columns.{AreOf, Answers, subnet_of, subnet_key};
ghost use Rattle.column_index.specs.Kept.{SubnetsStand, AreAnswers};

use crate::answered::exact;
use crate::asked::{SubnetAsked, subnet_asked};
use crate::kept::{Bitmap, Pair, Subnets};
use address_index::NetIndex;
use bits_law::{Bits, BitsEnd};
use query_meaning::Rel;
use std::alloc::{AllocError, Global};
use vast_value::{Net, Value};

/// The subnet of a value, and that of every address of one that is none.
fn subnet_of(value: &Value) -> Net
    ensures { subnet result.base result.bits ≡ subnet_of value.now }
{
    match value {
        Value::Subnet(net) => *net,
        _ => Net { base: 0, bits: 0 },
    }
}

impl Subnets {
    pub(crate) fn new(alloc: Global) -> Result<Self, AllocError>
        ensures stands { IfOk result (λ n. SubnetsStand n []) }
        ensures rows { IfOk result (λ n. length n.index.table.present ≡ 0) }
    {
        Ok(Subnets {
            index: NetIndex::new(alloc)?,
        })
    }

    /// Puts a value at `row`.
    pub(crate) fn put(&mut self, row: u64, value: &Value) -> Result<(), BitsEnd>
        requires { length self.old.index.table.present ≤ row }
        ensures stands { OnOk result ((cells : List (Option Cell)) → length cells ≤ row → SubnetsStand self.old cells → SubnetsStand self.new (with_key cells row (One value.now))) }
        ensures rows { length self.new.index.table.present ≤ row + 1 }
    {
        let net = subnet_of(value);
        self.index.put(row, net.base, net.bits)?;
        Ok(())
    }

    /// Adds the rows of another, this one having `rows` rows.
    pub(crate) fn append(self, rows: u64, other: &Self) -> Result<Self, BitsEnd>
        requires { length self.index.table.present ≤ rows }
        ensures stands { IfOk result (λ n. (cells more : List (Option Cell)) → length cells ≡ rows → SubnetsStand self cells → SubnetsStand other.now more → SubnetsStand n (cells ++ more)) }
        ensures rows { IfOk result (λ n. length n.index.table.present ≡ rows + length other.now.index.table.present) }
    {
        let Subnets { index } = self;
        let index = index.pad(rows)?;
        let index = index.append(&other.index)?;
        Ok(Subnets { index })
    }

    /// The rows where a relation to the literal surely holds and may hold.
    pub(crate) fn ask(&self, alloc: Global, rel: Rel, literal: &Value) -> Result<Pair, AllocError>
        ensures { IfOk result (λ pair. (cells : List (Option Cell)) → AreOf (kind.One elem.Subnet) cells → SubnetsStand self.now cells → AreAnswers pair rel literal.now cells) }
    {
        let rows = self.rows(alloc, subnet_asked(rel, literal))?;
        let pair = exact(rows)?;
        Ok(pair)
    }

    fn rows(&self, alloc: Global, asked: SubnetAsked) -> Result<Bitmap, AllocError>
        ensures { IfOk result (λ bits. (cells : List (Option Cell)) → SubnetsStand self.now cells → Answers bits (λ x. meets (subnet_test asked) (subnet_key x)) cells) }
    {
        match asked {
            SubnetAsked::Never => Ok(Bitmap::empty(alloc)),
            SubnetAsked::Equal(net) => {
                let rows = self.index.equal(net.base, net.bits)?;
                Ok(rows)
            }
            SubnetAsked::Differs(net) => {
                let set = self.index.present()?;
                let rows = self.index.equal(net.base, net.bits)?;
                let others = set.and_not(&rows)?;
                Ok(others)
            }
            SubnetAsked::Within(net) => {
                let rows = self.index.within(net.base, net.bits)?;
                Ok(rows)
            }
            SubnetAsked::Covers(net) => {
                let rows = self.index.covers(net.base, net.bits)?;
                Ok(rows)
            }
            SubnetAsked::Holds(address) => {
                let rows = self.index.covers(address, 128)?;
                Ok(rows)
            }
        }
    }
}
