//! The relations of a cell to a literal.
ghost use Rattle.std.specs.Prelude.{◌≡◌, ◌&&◌, ◌||◌, ◌==◌};
ghost use Rattle.std.specs.List.{list_any};
ghost use Rattle.std.specs.Str.{bytes_eq};
ghost use Rattle.vast_value.specs.declared.cell.Cell.TheVariants as cell;
ghost use Rattle.vast_value.specs.declared.value.Value.TheVariants as value;
ghost use Rattle.vast_value.specs.Views.{number_cell};
ghost use Rattle.query_meaning.specs.Relations.{goes_with, takes_transport, equals, order_to, differs, is_less, is_greater, is_equal, holds_address, holds_net, lies_in, has_text, has, equals_element, value_meets, elements_meet, nil_meets, literal_meets, meets, is_unset};

use crate::expr::{Literal, Rel};
use memchr::memmem;
use std::cmp::Ordering;
use vast_value::{Bytes, Cell, Elem, Net, PlainNumber, Transport, Value};

/// Whether a cell meets a relation to a literal.
///
/// An unset cell meets `== nil` alone. A relation that the table of relations doesn't have for the literal and the
/// cell's kind holds of nothing.
pub fn meets(rel: Rel, literal: &Literal, cell: &Cell) -> bool
    ensures { result ≡ meets rel literal.now cell.now }
{
    match literal {
        Literal::Nil => nil_meets(rel, cell),
        Literal::Of(value) => literal_meets(rel, value, cell),
    }
}

/// Whether a cell that is a plain number meets a relation to a literal.
pub fn number_meets(rel: Rel, literal: &Literal, number: PlainNumber) -> bool
    ensures { result ≡ meets rel literal.now (number_cell number) }
{
    match literal {
        Literal::Nil => matches!(rel, Rel::Ne),
        Literal::Of(value) => value_meets(rel, value, &value_of(number)),
    }
}

fn value_of(number: PlainNumber) -> Value
    ensures { cell.One result ≡ number_cell number }
{
    match number {
        PlainNumber::Count(n) => Value::Count(n),
        PlainNumber::Port(number) => Value::Port {
            number,
            over: Transport::Unknown,
        },
    }
}

/// Whether a string cell with these bytes meets a relation to a literal.
pub fn text_meets(rel: Rel, literal: &Literal, text: &[u8]) -> bool
    ensures { result ≡ meets rel literal.now (cell.One (value.Text text.now)) }
{
    match literal {
        Literal::Nil => matches!(rel, Rel::Ne),
        Literal::Of(Value::Text(own)) => text_relates(rel, own, text),
        Literal::Of(Value::Name(own)) => text_relates(rel, own, text),
        Literal::Of(_) => false,
    }
}

// Whether a text relates to a literal text.
fn text_relates(rel: Rel, literal: &Bytes, text: &[u8]) -> bool
    ensures text { result ≡ value_meets rel (value.Text literal.now) (value.Text text.now) }
    ensures name { result ≡ value_meets rel (value.Name literal.now) (value.Text text.now) }
{
    match rel {
        Rel::Eq => is_text(literal, text),
        Rel::Ne => !is_text(literal, text),
        Rel::Contains => has_text(literal.as_slice(), text),
        _ => false,
    }
}

fn is_text(literal: &Bytes, text: &[u8]) -> bool
    ensures { result ≡ bytes_eq literal.now text.now }
{
    literal.as_slice() == text
}

pub(crate) fn nil_meets(rel: Rel, cell: &Cell) -> bool
    ensures { result ≡ nil_meets rel cell.now }
{
    match rel {
        Rel::Eq => is_unset(cell),
        Rel::Ne => !is_unset(cell),
        _ => false,
    }
}

fn is_unset(cell: &Cell) -> bool
    ensures { result ≡ is_unset cell.now }
{
    matches!(cell, Cell::Unset)
}

fn literal_meets(rel: Rel, literal: &Value, cell: &Cell) -> bool
    ensures { result ≡ literal_meets rel literal.now cell.now }
{
    match cell {
        Cell::Unset => false,
        Cell::One(value) => value_meets(rel, literal, value),
        Cell::Many(items) => elements_meet(rel, literal, items.as_slice()),
    }
}

fn elements_meet(rel: Rel, literal: &Value, items: &[Option<Value>]) -> bool
    ensures { result ≡ elements_meet rel literal.now items.now }
{
    match rel {
        Rel::Contains => has_element(literal, items),
        _ => false,
    }
}

fn has_element(literal: &Value, items: &[Option<Value>]) -> bool
    ensures { result ≡ list_any (equals_element literal.now) items.now }
{
    items.iter().any(|item| equals_element(literal, item))
}

fn equals_element(literal: &Value, item: &Option<Value>) -> bool
    ensures { result ≡ equals_element literal.now item.now }
{
    match item {
        None => false,
        Some(value) => equals(literal, value),
    }
}

pub(crate) fn value_meets(rel: Rel, literal: &Value, value: &Value) -> bool
    ensures { result ≡ value_meets rel literal.now value.now }
{
    match rel {
        Rel::Eq => equals(literal, value),
        Rel::Ne => differs(literal, value),
        Rel::Lt => is_less(order_to(literal, value)),
        Rel::Le => is_at_most(order_to(literal, value)),
        Rel::Gt => is_greater(order_to(literal, value)),
        Rel::Ge => is_at_least(order_to(literal, value)),
        Rel::Within => lies_in(literal, value),
        Rel::Contains => has(literal, value),
    }
}

// How the value stands to the literal. Ports are ordered by number alone, where the literal takes the transport.
fn order_to(literal: &Value, value: &Value) -> Option<Ordering>
    ensures { result ≡ order_to literal.now value.now }
{
    match (literal, value) {
        (
            Value::Port { number: p, over },
            Value::Port {
                number: q,
                over: by,
            },
        ) => {
            if takes_transport(*over, *by) {
                Some(q.cmp(p))
            } else {
                None
            }
        }
        _ => value.compare(literal),
    }
}

// Whether a literal port of this transport takes a port of the other.
fn takes_transport(literal: Transport, over: Transport) -> bool
    ensures { result ≡ takes_transport literal over }
{
    match literal {
        Transport::Unknown => true,
        _ => literal.is(over),
    }
}

fn is_less(order: Option<Ordering>) -> bool
    ensures { result ≡ is_less order }
{
    matches!(order, Some(Ordering::Less))
}

fn is_at_most(order: Option<Ordering>) -> bool
    ensures { result ≡ (is_less order || is_equal order) }
{
    matches!(order, Some(Ordering::Less | Ordering::Equal))
}

fn is_greater(order: Option<Ordering>) -> bool
    ensures { result ≡ is_greater order }
{
    matches!(order, Some(Ordering::Greater))
}

fn is_at_least(order: Option<Ordering>) -> bool
    ensures { result ≡ (is_greater order || is_equal order) }
{
    matches!(order, Some(Ordering::Greater | Ordering::Equal))
}

fn equals(literal: &Value, value: &Value) -> bool
    ensures { result ≡ equals literal.now value.now }
{
    match (literal, value) {
        (Value::Bool(a), Value::Bool(b)) => a == b,
        (Value::Count(n), Value::Count(m)) => n == m,
        (Value::Int(n), Value::Int(m)) => n == m,
        (Value::Time(t), Value::Time(u)) => t == u,
        (Value::Span(t), Value::Span(u)) => t == u,
        (Value::Text(t) | Value::Name(t), Value::Text(u) | Value::Name(u)) => is_text(
            t,
            u.as_slice(),
        ),
        (Value::Addr(a), Value::Addr(b)) => a == b,
        (Value::Subnet(n), Value::Subnet(m)) => is_net(n, m),
        (
            Value::Port { number: p, over },
            Value::Port {
                number: q,
                over: by,
            },
        ) => { p == q && takes_transport(*over, *by) }
        _ => false,
    }
}

fn is_net(a: &Net, b: &Net) -> bool
    ensures { result ≡ (a.now.base == b.now.base && a.now.bits == b.now.bits) }
{
    a.base == b.base && a.bits == b.bits
}

fn differs(literal: &Value, value: &Value) -> bool
    ensures { result ≡ differs literal.now value.now }
{
    goes_with(literal.elem(), value.elem()) && !equals(literal, value)
}

/// Whether a literal of the first kind goes with cells of the second.
pub fn goes_with(literal: Elem, cell: Elem) -> bool
    ensures { result ≡ goes_with literal cell }
{
    match (literal, cell) {
        (Elem::Text, Elem::Name) => true,
        (Elem::Name, Elem::Text) => true,
        _ => literal.is(cell),
    }
}

fn lies_in(literal: &Value, value: &Value) -> bool
    ensures { result ≡ lies_in literal.now value.now }
{
    match (literal, value) {
        (Value::Subnet(net), Value::Addr(address)) => holds_address(net, *address),
        (Value::Subnet(net), Value::Subnet(inner)) => holds_net(net, inner),
        _ => false,
    }
}

fn has(literal: &Value, value: &Value) -> bool
    ensures { result ≡ has literal.now value.now }
{
    match (literal, value) {
        (Value::Text(needle) | Value::Name(needle), Value::Text(text) | Value::Name(text)) => {
            has_text(needle.as_slice(), text.as_slice())
        }
        (Value::Addr(address), Value::Subnet(net)) => holds_address(net, *address),
        (Value::Subnet(inner), Value::Subnet(net)) => holds_net(net, inner),
        _ => false,
    }
}

fn holds_net(outer: &Net, inner: &Net) -> bool
    ensures { result ≡ holds_net outer.now inner.now }
{
    outer.bits <= inner.bits && holds_address(outer, inner.base)
}

#[tactic(auto, using(crate::proofs::TextLemmas::agree_in_none))]
fn holds_address(net: &Net, address: u128) -> bool
    ensures { result ≡ holds_address net.now address }
{
    let base = net.base;
    if net.bits == 0 {
        return true;
    }
    let low = 128 - net.bits;
    address >> low == base >> low
}

#[tactic(auto, using(crate::proofs::TextLemmas::has_found, crate::proofs::TextLemmas::has_not_found))]
fn has_text(needle: &[u8], text: &[u8]) -> bool
    ensures { result ≡ has_text needle.now text.now }
{
    match memmem::find(text, needle) {
        Some(_) => true,
        None => false,
    }
}
