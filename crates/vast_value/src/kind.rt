//! The kinds of values and of cells.
ghost use Rattle.std.specs.Prelude.{◌≡◌};
ghost use Rattle.vast_value.specs.Kinds.{elem_eq, elem_named, short_named};

/// The kind of a single value.
#[derive(Clone, Copy, Debug, PartialEq, Eq)]
pub enum Elem {
    /// True or false.
    Bool,
    /// A natural number below 2^64.
    Count,
    /// A signed number of 64 bits.
    Int,
    /// A moment, in nanoseconds since 1970.
    Time,
    /// A span of time, in nanoseconds: Zeek's `interval`.
    Span,
    /// A text of any bytes: Zeek's `string`.
    Text,
    /// A name from a list of names: Zeek's `enum`.
    Name,
    /// An IPv6 address, or an IPv4 address mapped into IPv6.
    Addr,
    /// A subnet of such addresses.
    Subnet,
    /// A port number.
    Port,
}

/// The kind of a column.
#[derive(Clone, Copy, Debug, PartialEq, Eq)]
pub enum Kind {
    /// One value.
    One(Elem),
    /// A set of values.
    SetOf(Elem),
    /// A vector of values.
    VecOf(Elem),
}

impl Elem {
    /// Whether both are one kind.
    pub fn is(self, other: Elem) -> bool
        ensures { result ≡ elem_eq self other }
    {
        self == other
    }

    /// The kind that has this name in logs and queries: `bool`, `count`, `int`, `time`, `interval`, `string`, `enum`,
    /// `addr`, `subnet` or `port`.
    pub fn named(name: &[u8]) -> Option<Elem>
        ensures { result ≡ elem_named name.now }
    {
        if name == b"string".as_slice() {
            return Some(Elem::Text);
        }
        if name == b"interval".as_slice() {
            return Some(Elem::Span);
        }
        if name == b"subnet".as_slice() {
            return Some(Elem::Subnet);
        }
        short_named(name)
    }
}

/// The kind that has this name, among those of at most five letters.
fn short_named(name: &[u8]) -> Option<Elem>
    ensures { result ≡ short_named name.now }
{
    match name {
        b"bool" => Some(Elem::Bool),
        b"count" => Some(Elem::Count),
        b"int" => Some(Elem::Int),
        b"time" => Some(Elem::Time),
        b"enum" => Some(Elem::Name),
        b"addr" => Some(Elem::Addr),
        b"port" => Some(Elem::Port),
        _ => None,
    }
}
