//! What is kept, whatever the kind.
ghost use Rattle.std.specs.Prelude.{◌≡◌, ◌+◌, ◌<◌, ◌≤◌, ◌^◌, ◌++◌, length, IfOk, OnOk, IsTrue, Option, List, []};
ghost use Rattle.bits_law.specs.Keys.{with_key};
ghost use Rattle.vast_value.specs.declared.cell.Cell.{Cell};
ghost use Rattle.vast_value.specs.declared.cell.Cell.TheVariants.{One, Many};
ghost use Rattle.column_index.specs.Columns.{AreOf, Answers};
ghost use Rattle.column_index.specs.Kept.{AreAnswers, KeysStand, is_made, is_kept, kind_elem, keys_rows};
ghost use Rattle.vast_value.specs.declared.kind.Kind.{Kind};
ghost use Rattle.vast_value.specs.declared.kind.Kind.TheVariants as kind;

use crate::kept::{Addresses, Bitmap, Buckets, Flags, Keys, Numbers, Pair, Ports, Subnets, Texts};
use bits_law::BitsEnd;
use query_meaning::Rel;
use std::alloc::{AllocError, Global};
use vast_value::{Cell, Elem, Kind, Value};

impl Keys {
    pub(crate) fn new(alloc: Global, kind: Kind) -> Result<Self, AllocError>
        ensures made { IfOk result (λ k. IsTrue (is_made kind k)) }
        ensures stands { IfOk result (λ k. KeysStand k []) }
        ensures rows { IfOk result (λ k. keys_rows k ≡ 0) }
    {
        match kind {
            Kind::One(elem) => Keys::single(alloc, elem),
            Kind::SetOf(_) | Kind::VecOf(_) => Ok(Keys::Buckets(Buckets::new(alloc)?)),
        }
    }

    fn single(alloc: Global, elem: Elem) -> Result<Self, AllocError>
        ensures made { IfOk result (λ k. IsTrue (is_made (kind.One elem) k)) }
        ensures stands { IfOk result (λ k. KeysStand k []) }
        ensures rows { IfOk result (λ k. keys_rows k ≡ 0) }
    {
        Ok(match elem {
            Elem::Bool => Keys::Flags(Flags::new(alloc)?),
            Elem::Count | Elem::Int | Elem::Time | Elem::Span => Keys::Numbers(Numbers::new(
                alloc,
            )?),
            Elem::Text | Elem::Name => Keys::Texts(Texts::new(alloc)?),
            Elem::Addr => Keys::Addresses(Addresses::new(alloc)?),
            Elem::Subnet => Keys::Subnets(Subnets::new(alloc)?),
            Elem::Port => Keys::Ports(Ports::new(alloc)?),
        })
    }

    /// Puts a cell at `row`. Nothing is kept of an unset one.
    pub(crate) fn put(&mut self, row: u64, cell: &Cell) -> Result<(), BitsEnd>
        requires { keys_rows self.old ≤ row }
        ensures made { (kind : Kind) → is_made kind self.new ≡ is_made kind self.old }
        ensures stands { OnOk result ((cells : List (Option Cell)) → length cells ≤ row → KeysStand self.old cells → KeysStand self.new (with_key cells row cell.now)) }
        ensures rows { keys_rows self.new ≤ row + 1 }
    {
        match cell {
            Cell::Unset => Ok(()),
            Cell::One(value) => self.put_value(row, value),
            Cell::Many(items) => self.put_items(row, items.as_slice()),
        }
    }

    fn put_value(&mut self, row: u64, value: &Value) -> Result<(), BitsEnd>
        requires { keys_rows self.old ≤ row }
        ensures made { (kind : Kind) → is_made kind self.new ≡ is_made kind self.old }
        ensures stands { OnOk result ((cells : List (Option Cell)) → length cells ≤ row → KeysStand self.old cells → KeysStand self.new (with_key cells row (One value.now))) }
        ensures rows { keys_rows self.new ≤ row + 1 }
    {
        match self {
            Keys::Flags(flags) => flags.put(row, value),
            Keys::Numbers(numbers) => numbers.put(row, value),
            Keys::Ports(ports) => ports.put(row, value),
            Keys::Addresses(addresses) => addresses.put(row, value),
            Keys::Subnets(subnets) => subnets.put(row, value),
            Keys::Texts(texts) => texts.put(row, value),
            Keys::Buckets(_) => Ok(()),
        }
    }

    fn put_items(&mut self, row: u64, items: &[Option<Value>]) -> Result<(), BitsEnd>
        requires { keys_rows self.old ≤ row }
        ensures made { (kind : Kind) → is_made kind self.new ≡ is_made kind self.old }
        ensures stands { OnOk result ((cells : List (Option Cell)) → length cells ≤ row → KeysStand self.old cells → KeysStand self.new (with_key cells row (Many items.now))) }
        ensures rows { keys_rows self.new ≤ row + 1 }
    {
        match self {
            Keys::Buckets(buckets) => buckets.put(row, items),
            _ => Ok(()),
        }
    }

    /// Adds what another of the same kind keeps, this one having `rows` rows.
    pub(crate) fn append(self, kind: Kind, rows: u64, other: &Self) -> Result<Self, BitsEnd>
        requires made { IsTrue (is_made kind self) }
        requires alike { IsTrue (is_made kind other.now) }
        requires rows { keys_rows self ≤ rows }
        ensures made { IfOk result (λ k. IsTrue (is_made kind k)) }
        ensures stands { IfOk result (λ k. (cells more : List (Option Cell)) → length cells ≡ rows → KeysStand self cells → KeysStand other.now more → KeysStand k (cells ++ more)) }
        ensures rows { IfOk result (λ k. keys_rows k ≡ rows + keys_rows other.now) }
    {
        match (self, other) {
            (Keys::Flags(own), Keys::Flags(other)) => Ok(Keys::Flags(own.append(rows, other)?)),
            (Keys::Numbers(own), Keys::Numbers(other)) => {
                Ok(Keys::Numbers(own.append(rows, other)?))
            }
            (Keys::Ports(own), Keys::Ports(other)) => Ok(Keys::Ports(own.append(rows, other)?)),
            (Keys::Addresses(own), Keys::Addresses(other)) => {
                Ok(Keys::Addresses(own.append(rows, other)?))
            }
            (Keys::Subnets(own), Keys::Subnets(other)) => {
                Ok(Keys::Subnets(own.append(rows, other)?))
            }
            (Keys::Texts(own), Keys::Texts(other)) => Ok(Keys::Texts(own.append(rows, other)?)),
            (Keys::Buckets(own), Keys::Buckets(other)) => {
                Ok(Keys::Buckets(own.append(rows, other)?))
            }
            _ => Err(BitsEnd::Memory),
        }
    }

    /// The rows that have a value.
    pub(crate) fn set(&self) -> Result<Bitmap, AllocError>
        ensures cells { IfOk result (λ bits. (cells : List (Option Cell)) → KeysStand self.now cells → Answers bits (is_kept self.now) cells) }
        ensures rows { IfOk result (λ bits. length bits ≤ keys_rows self.now) }
    {
        match self {
            Keys::Flags(flags) => Ok(flags.index.present()?),
            Keys::Numbers(numbers) => Ok(numbers.index.present()?),
            Keys::Ports(ports) => Ok(ports.numbers.present()?),
            Keys::Addresses(addresses) => Ok(addresses.index.present()?),
            Keys::Subnets(subnets) => Ok(subnets.index.present()?),
            Keys::Texts(texts) => Ok(texts.index.present()?),
            Keys::Buckets(buckets) => Ok(buckets.index.present()?),
        }
    }

    /// The rows where a relation to the literal surely holds and may hold, of cells of a kind.
    pub(crate) fn ask(
        &self,
        alloc: Global,
        kind: Kind,
        rel: Rel,
        literal: &Value,
    ) -> Result<Pair, AllocError>
        requires { IsTrue (is_made kind self.now) }
        ensures { IfOk result (λ pair. (cells : List (Option Cell)) → AreOf kind cells → KeysStand self.now cells → AreAnswers pair rel literal.now cells) }
    {
        let elem = kind_elem(kind);
        match self {
            Keys::Flags(flags) => Ok(flags.ask(alloc, rel, literal)?),
            Keys::Numbers(numbers) => Ok(numbers.ask(alloc, elem, rel, literal)?),
            Keys::Ports(ports) => Ok(ports.ask(alloc, rel, literal)?),
            Keys::Addresses(addresses) => Ok(addresses.ask(alloc, rel, literal)?),
            Keys::Subnets(subnets) => Ok(subnets.ask(alloc, rel, literal)?),
            Keys::Texts(texts) => Ok(texts.ask(alloc, elem, rel, literal)?),
            Keys::Buckets(buckets) => Ok(buckets.ask(alloc, elem, rel, literal)?),
        }
    }
}

/// The kind of a column's values or elements.
fn kind_elem(kind: Kind) -> Elem
    ensures { result ≡ kind_elem kind }
{
    match kind {
        Kind::One(elem) | Kind::SetOf(elem) | Kind::VecOf(elem) => elem,
    }
}
