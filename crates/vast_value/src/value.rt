//! Single values.
ghost use Rattle.std.specs.Prelude.{◌≡◌, ◌↔◌, IsTrue, IfOk};
ghost use Rattle.vast_value.specs.Kinds.{elem_of};
ghost use Rattle.vast_value.specs.Values.{order_of};

use crate::bytes::Bytes;
use crate::kind::Elem;
use crate::net::Net;
use crate::transport::Transport;
use std::alloc::{AllocError, Global};
use std::cmp::Ordering;

/// A value of one of the ten kinds of [`Elem`].
#[derive(Debug, Drop)]
pub enum Value {
    Bool(bool),
    Count(u64),
    Int(i64),
    /// Nanoseconds since 1970-01-01T00:00:00Z.
    Time(i64),
    /// Nanoseconds.
    Span(i64),
    Text(Bytes),
    Name(Bytes),
    /// An IPv4 address a.b.c.d is held as ::ffff:a.b.c.d.
    Addr(u128),
    Subnet(Net),
    /// A port's number, and the transport protocol that it is of.
    Port { number: u16, over: Transport },
}

impl Value {
    /// The value's kind.
    pub fn elem(&self) -> Elem
        ensures { result ≡ elem_of self.now }
    {
        match self {
            Value::Bool(_) => Elem::Bool,
            Value::Count(_) => Elem::Count,
            Value::Int(_) => Elem::Int,
            Value::Time(_) => Elem::Time,
            Value::Span(_) => Elem::Span,
            Value::Text(_) => Elem::Text,
            Value::Name(_) => Elem::Name,
            Value::Addr(_) => Elem::Addr,
            Value::Subnet(_) => Elem::Subnet,
            Value::Port { .. } => Elem::Port,
        }
    }

    /// Whether both are one value of one kind.
    pub fn same(&self, other: &Value) -> bool
        ensures { IsTrue result ↔ (self.now ≡ other.now) }
    {
        match (self, other) {
            (Value::Bool(a), Value::Bool(b)) => a == b,
            (Value::Count(a), Value::Count(b)) => a == b,
            (Value::Int(a), Value::Int(b)) => a == b,
            (Value::Time(a), Value::Time(b)) => a == b,
            (Value::Span(a), Value::Span(b)) => a == b,
            (Value::Text(a), Value::Text(b)) => a.as_slice() == b.as_slice(),
            (Value::Name(a), Value::Name(b)) => a.as_slice() == b.as_slice(),
            (Value::Addr(a), Value::Addr(b)) => a == b,
            (Value::Subnet(a), Value::Subnet(b)) => a.is(b),
            (Value::Port { number: a, over: c }, Value::Port { number: b, over: d }) => a == b
                && c == d,
            _ => false,
        }
    }

    /// The order of two values of one kind. It is `None` exactly where the kinds differ or have no order: only counts,
    /// ints, times, spans and ports have one. Ports are ordered by number, and those of one number by transport.
    pub fn compare(&self, other: &Value) -> Option<Ordering>
        ensures { result ≡ order_of self.now other.now }
    {
        match (self, other) {
            (Value::Count(a), Value::Count(b)) => Some(a.cmp(b)),
            (Value::Int(a), Value::Int(b)) => Some(a.cmp(b)),
            (Value::Time(a), Value::Time(b)) => Some(a.cmp(b)),
            (Value::Span(a), Value::Span(b)) => Some(a.cmp(b)),
            (Value::Port { number: a, over: c }, Value::Port { number: b, over: d }) => {
                Some(a.cmp(b).then(c.code().cmp(&d.code())))
            }
            _ => None,
        }
    }

    /// An equal copy.
    pub fn duplicate(&self, alloc: Global) -> Result<Value, AllocError>
        ensures { IfOk result (λ copy. copy ≡ self.now) }
    {
        Ok(match self {
            Value::Bool(b) => Value::Bool(*b),
            Value::Count(n) => Value::Count(*n),
            Value::Int(n) => Value::Int(*n),
            Value::Time(t) => Value::Time(*t),
            Value::Span(t) => Value::Span(*t),
            Value::Text(text) => Value::Text(text.duplicate(alloc)?),
            Value::Name(text) => Value::Name(text.duplicate(alloc)?),
            Value::Addr(a) => Value::Addr(*a),
            Value::Subnet(net) => Value::Subnet(*net),
            Value::Port { number, over } => Value::Port {
                number: *number,
                over: *over,
            },
        })
    }
}
