//! What is asked of an index of numbers.
ghost use Rattle.std.specs.Prelude.{◌≡◌, IsTrue};
ghost use Rattle.vast_value.specs.declared.value.Value.TheVariants as value;
ghost use Rattle.column_index.specs.Asked.{address_asked, exactly, flags_asked, is_below, is_contains, maybe_so, port_asked, subnet_asked, surely, text_asked};

use bits_law::Order;
use query_meaning::Rel;
use vast_value::{Net, Transport, Value};

/// What is asked of an index of numbers.
#[derive(Clone, Copy)]
pub(crate) enum Asked {
    /// No row.
    Never,
    /// The rows that have a number.
    Set,
    /// The rows whose number stands in this order to a key.
    Ordered(Order, u64),
}

/// Of numbers that are known whole.
pub(crate) fn exactly(rel: Rel, key: u64) -> Asked
    ensures { result ≡ exactly rel key }
{
    match rel {
        Rel::Eq => Asked::Ordered(Order::Eq, key),
        Rel::Ne => Asked::Ordered(Order::Ne, key),
        Rel::Lt => Asked::Ordered(Order::Lt, key),
        Rel::Le => Asked::Ordered(Order::Le, key),
        Rel::Gt => Asked::Ordered(Order::Gt, key),
        Rel::Ge => Asked::Ordered(Order::Ge, key),
        Rel::Within | Rel::Contains => Asked::Never,
    }
}

/// Of times whose seconds are known: where the relation is sure.
pub(crate) fn surely(rel: Rel, key: u64) -> Asked
    ensures { result ≡ surely rel key }
{
    match rel {
        Rel::Ne => Asked::Ordered(Order::Ne, key),
        Rel::Lt | Rel::Le => Asked::Ordered(Order::Lt, key),
        Rel::Gt | Rel::Ge => Asked::Ordered(Order::Gt, key),
        Rel::Eq | Rel::Within | Rel::Contains => Asked::Never,
    }
}

/// Of times whose seconds are known: where the relation may be.
pub(crate) fn maybe_so(rel: Rel, key: u64) -> Asked
    ensures { result ≡ maybe_so rel key }
{
    match rel {
        Rel::Eq => Asked::Ordered(Order::Eq, key),
        Rel::Ne => Asked::Set,
        Rel::Lt | Rel::Le => Asked::Ordered(Order::Le, key),
        Rel::Gt | Rel::Ge => Asked::Ordered(Order::Ge, key),
        Rel::Within | Rel::Contains => Asked::Never,
    }
}

fn flag_asked(rel: Rel, held: bool) -> Asked
    ensures value { result ≡ flags_asked rel (value.Bool held) }
    ensures below { IsTrue (is_below 2 result) }
{
    let key = held as u64;
    match rel {
        Rel::Eq => Asked::Ordered(Order::Eq, key),
        Rel::Ne => Asked::Ordered(Order::Ne, key),
        _ => Asked::Never,
    }
}

/// Of bools.
pub(crate) fn flags_asked(rel: Rel, literal: &Value) -> Asked
    ensures value { result ≡ flags_asked rel literal.now }
    ensures below { IsTrue (is_below 2 result) }
{
    match literal {
        Value::Bool(held) => flag_asked(rel, *held),
        _ => Asked::Never,
    }
}

/// What is asked of an index of addresses.
#[derive(Clone, Copy)]
pub(crate) enum AddressAsked {
    Never,
    Equal(u128),
    Differs(u128),
    Within(Net),
}

/// Of addresses.
pub(crate) fn address_asked(rel: Rel, literal: &Value) -> AddressAsked
    ensures { result ≡ address_asked rel literal.now }
{
    match (rel, literal) {
        (Rel::Eq, Value::Addr(address)) => AddressAsked::Equal(*address),
        (Rel::Ne, Value::Addr(address)) => AddressAsked::Differs(*address),
        (Rel::Within, Value::Subnet(net)) => AddressAsked::Within(*net),
        _ => AddressAsked::Never,
    }
}

/// What is asked of an index of subnets.
#[derive(Clone, Copy)]
pub(crate) enum SubnetAsked {
    Never,
    Equal(Net),
    Differs(Net),
    Within(Net),
    Covers(Net),
    Holds(u128),
}

/// Of subnets. An address is the subnet of all its bits.
pub(crate) fn subnet_asked(rel: Rel, literal: &Value) -> SubnetAsked
    ensures { result ≡ subnet_asked rel literal.now }
{
    match (rel, literal) {
        (Rel::Eq, Value::Subnet(net)) => SubnetAsked::Equal(*net),
        (Rel::Ne, Value::Subnet(net)) => SubnetAsked::Differs(*net),
        (Rel::Within, Value::Subnet(net)) => SubnetAsked::Within(*net),
        (Rel::Contains, Value::Subnet(net)) => SubnetAsked::Covers(*net),
        (Rel::Contains, Value::Addr(address)) => SubnetAsked::Holds(*address),
        _ => SubnetAsked::Never,
    }
}

/// What is asked of the indexes of ports.
#[derive(Clone, Copy)]
pub(crate) enum PortAsked {
    Never,
    /// The number stands in this order to one, and the literal takes the transport.
    Stands(Order, u16, Transport),
    /// Either isn't so of equality.
    Differs(u16, Transport),
}

/// Of ports.
pub(crate) fn port_asked(rel: Rel, literal: &Value) -> PortAsked
    ensures { result ≡ port_asked rel literal.now }
{
    match (rel, literal) {
        (Rel::Eq, Value::Port { number, over }) => PortAsked::Stands(Order::Eq, *number, *over),
        (Rel::Ne, Value::Port { number, over }) => PortAsked::Differs(*number, *over),
        (Rel::Lt, Value::Port { number, over }) => PortAsked::Stands(Order::Lt, *number, *over),
        (Rel::Le, Value::Port { number, over }) => PortAsked::Stands(Order::Le, *number, *over),
        (Rel::Gt, Value::Port { number, over }) => PortAsked::Stands(Order::Gt, *number, *over),
        (Rel::Ge, Value::Port { number, over }) => PortAsked::Stands(Order::Ge, *number, *over),
        _ => PortAsked::Never,
    }
}

/// What is asked of an index of texts.
#[derive(Clone, Copy)]
pub(crate) enum TextAsked {
    Never,
    Equal,
    Differs,
    Contains,
}

/// Of texts.
pub(crate) fn text_asked(rel: Rel) -> TextAsked
    ensures { result ≡ text_asked rel }
{
    match rel {
        Rel::Eq => TextAsked::Equal,
        Rel::Ne => TextAsked::Differs,
        Rel::Contains => TextAsked::Contains,
        _ => TextAsked::Never,
    }
}

/// Whether the relation is `ni`.
pub(crate) fn is_contains(rel: Rel) -> bool
    ensures { result ≡ is_contains rel }
{
    matches!(rel, Rel::Contains)
}
