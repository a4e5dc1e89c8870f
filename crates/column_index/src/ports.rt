//! Columns of ports.
ghost use Rattle.std.specs.Prelude.{◌≡◌, ◌+◌, ◌<◌, ◌≤◌, ◌^◌, ◌++◌, ◌&&◌, length, IfOk, OnOk, Option, List, [], ◌∷◌};
ghost use Rattle.bits_law.specs.Bitwise.{bitwise, and_not};
ghost use Rattle.bits_law.specs.Keys.{meets, with_key};
ghost use Rattle.bits_law.specs.Numbers.{holds};
ghost use Rattle.vast_value.specs.declared.cell.Cell.{Cell};
ghost use Rattle.vast_value.specs.declared.cell.Cell.TheVariants.{One};
ghost use Rattle.vast_value.specs.declared.kind.Elem.TheVariants as elem;
ghost use Rattle.vast_value.specs.declared.kind.Kind.TheVariants as kind;
ghost use Rattle.digit_index.specs.Digits.{Holds};
ghost use Rattle.digit_index.specs.declared.coding.Coding.TheVariants.{Equality, Range};
ghost use Rattle.column_index.specs.Asked.{cell_port_test, transport_test};
ghost use Rattle.column_index.specs.declared.asked.PortAsked.TheVariants.{Stands};
ghost use Rattle.column_index.specs.Columns.{AreOf, Answers, port_of, port_key, transport_of, transport_key};
ghost use Rattle.column_index.specs.Kept.{AreAnswers, PortsStand};

use crate::answered::exact;
use crate::asked::{PortAsked, port_asked};
use crate::kept::{Bitmap, Pair, Ports};
use bits_law::{Bits, BitsEnd, Order};
use digit_index::{Bases, Coding, DigitIndex};
use query_meaning::Rel;
use std::alloc::{AllocError, Global};
use vast_value::{Transport, Value};

/// The number of a port, and 0 of another value.
fn port_of(value: &Value) -> u64
    ensures value { result ≡ port_of value.now }
    ensures small { result < 65536 }
{
    match value {
        Value::Port { number, .. } => *number as u64,
        _ => 0,
    }
}

/// The number of a port's transport, and 0 of another value.
fn transport_of(value: &Value) -> u64
    ensures value { result ≡ transport_of value.now }
    ensures small { result < 4 }
{
    match value {
        Value::Port { over, .. } => over.code() as u64,
        _ => 0,
    }
}

/// The rows of both. Bitmaps of two lengths come only from indexes of which one was refused memory.
fn both(rows: &Bitmap, others: &Bitmap) -> Result<Bitmap, AllocError>
    ensures value { IfOk result (λ bits. bits ≡ bitwise ◌&&◌ rows.now others.now) }
    ensures even { IfOk result (λ _. length rows.now ≡ length others.now) }
{
    if rows.len() != others.len() {
        return Err(AllocError);
    }
    rows.and(others)
}

/// The rows that aren't among others.
fn without(rows: &Bitmap, others: &Bitmap) -> Result<Bitmap, AllocError>
    ensures value { IfOk result (λ bits. bits ≡ bitwise and_not rows.now others.now) }
    ensures even { IfOk result (λ _. length rows.now ≡ length others.now) }
{
    if rows.len() != others.len() {
        return Err(AllocError);
    }
    rows.and_not(others)
}

fn numbers(alloc: Global) -> Result<DigitIndex<Bitmap>, AllocError>
    ensures coding { IfOk result (λ i. i.coding ≡ Range) }
    ensures bases { IfOk result (λ i. i.bases ≡ 256 ∷ 256 ∷ []) }
    ensures keys { IfOk result (λ i. Holds i.coding i.bases i.table []) }
{
    let mut bases = Bases::new(alloc);
    bases.push(256)?;
    bases.push(256)?;
    let index = DigitIndex::new(alloc, bases, Coding::Range)?;
    Ok(index)
}

fn transports(alloc: Global) -> Result<DigitIndex<Bitmap>, AllocError>
    ensures coding { IfOk result (λ i. i.coding ≡ Equality) }
    ensures bases { IfOk result (λ i. i.bases ≡ 4 ∷ []) }
    ensures keys { IfOk result (λ i. Holds i.coding i.bases i.table []) }
{
    let mut bases = Bases::new(alloc);
    bases.push(4)?;
    let index = DigitIndex::new(alloc, bases, Coding::Equality)?;
    Ok(index)
}

impl Ports {
    pub(crate) fn new(alloc: Global) -> Result<Self, AllocError>
        ensures stands { IfOk result (λ p. PortsStand p []) }
        ensures rows { IfOk result (λ p. (length p.numbers.table.present ≡ 0) × (length p.transports.table.present ≡ 0)) }
    {
        let numbers = numbers(alloc)?;
        let transports = transports(alloc)?;
        Ok(Ports {
            numbers,
            transports,
        })
    }

    /// Puts a value at `row`.
    pub(crate) fn put(&mut self, row: u64, value: &Value) -> Result<(), BitsEnd>
        requires numbers { length self.old.numbers.table.present ≤ row }
        requires transports { length self.old.transports.table.present ≤ row }
        ensures stands { OnOk result ((cells : List (Option Cell)) → length cells ≤ row → PortsStand self.old cells → PortsStand self.new (with_key cells row (One value.now))) }
        ensures numbers { length self.new.numbers.table.present ≤ row + 1 }
        ensures transports { length self.new.transports.table.present ≤ row + 1 }
    {
        let number = port_of(value);
        let transport = transport_of(value);
        self.numbers.put(row, number)?;
        self.transports.put(row, transport)?;
        Ok(())
    }

    /// Adds the rows of another, this one having `rows` rows.
    pub(crate) fn append(self, rows: u64, other: &Self) -> Result<Self, BitsEnd>
        requires numbers { length self.numbers.table.present ≤ rows }
        requires transports { length self.transports.table.present ≤ rows }
        ensures stands { IfOk result (λ p. (cells more : List (Option Cell)) → length cells ≡ rows → PortsStand self cells → PortsStand other.now more → PortsStand p (cells ++ more)) }
        ensures numbers { IfOk result (λ p. length p.numbers.table.present ≡ rows + length other.now.numbers.table.present) }
        ensures transports { IfOk result (λ p. length p.transports.table.present ≡ rows + length other.now.transports.table.present) }
    {
        let Ports {
            numbers,
            transports,
        } = self;
        let numbers = numbers.pad(rows)?;
        let numbers = numbers.append(&other.numbers)?;
        let transports = transports.pad(rows)?;
        let transports = transports.append(&other.transports)?;
        Ok(Ports {
            numbers,
            transports,
        })
    }

    /// The rows where a relation to the literal surely holds and may hold.
    pub(crate) fn ask(&self, alloc: Global, rel: Rel, literal: &Value) -> Result<Pair, AllocError>
        ensures { IfOk result (λ pair. (cells : List (Option Cell)) → AreOf (kind.One elem.Port) cells → PortsStand self.now cells → AreAnswers pair rel literal.now cells) }
    {
        let rows = self.rows(alloc, port_asked(rel, literal))?;
        let pair = exact(rows)?;
        Ok(pair)
    }

    fn rows(&self, alloc: Global, asked: PortAsked) -> Result<Bitmap, AllocError>
        ensures { IfOk result (λ bits. (cells : List (Option Cell)) → PortsStand self.now cells → Answers bits (cell_port_test asked) cells) }
    {
        match asked {
            PortAsked::Never => Ok(Bitmap::empty(alloc)),
            PortAsked::Stands(order, number, over) => {
                let rows = self.standing(order, number, over)?;
                Ok(rows)
            }
            PortAsked::Differs(number, over) => {
                let set = self.numbers.present()?;
                let rows = self.standing(Order::Eq, number, over)?;
                let others = without(&set, &rows)?;
                Ok(others)
            }
        }
    }

    /// The rows whose number stands in an order to one, and whose transport the literal's takes.
    fn standing(&self, order: Order, number: u16, over: Transport) -> Result<Bitmap, AllocError>
        ensures { IfOk result (λ bits. (cells : List (Option Cell)) → PortsStand self.now cells → Answers bits (cell_port_test (Stands order number over)) cells) }
    {
        let rows = self.numbers.ask(order, number as u64)?;
        if over.is(Transport::Unknown) {
            return Ok(rows);
        }
        let taken = self.transports.ask(Order::Eq, over.code() as u64)?;
        let matched = both(&rows, &taken)?;
        Ok(matched)
    }
}
