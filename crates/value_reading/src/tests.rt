use super::*;
use std::alloc::Global;
use std::test::Fail;
use vast_value::{Cell, Elem, Kind, Value};

/// What a test wants to see.
#[derive(Debug, Drop)]
enum Seen {
    Bad,
    Unset,
    Number(i128),
    Addr(u128),
    Net(u128, u8),
    Text(&'static str),
    Many(usize),
}

fn number_in(value: &Value) -> Option<i128> {
    match value {
        Value::Bool(b) => Some(i128::from(*b)),
        Value::Count(n) => Some(i128::from(*n)),
        Value::Int(n) => Some(i128::from(*n)),
        Value::Time(t) => Some(i128::from(*t)),
        Value::Span(t) => Some(i128::from(*t)),
        Value::Port { number, .. } => Some(i128::from(*number)),
        _ => None,
    }
}

fn is_value(value: &Value, seen: &Seen) -> bool {
    match (value, seen) {
        (Value::Addr(a), Seen::Addr(b)) => a == b,
        (Value::Subnet(net), Seen::Net(base, bits)) => net.base == *base && net.bits == *bits,
        (Value::Text(a), Seen::Text(b)) => a.as_slice() == b.as_bytes(),
        (Value::Name(a), Seen::Text(b)) => a.as_slice() == b.as_bytes(),
        (_, Seen::Number(n)) => number_in(value) == Some(*n),
        _ => false,
    }
}

fn is_cell(cell: &Cell, seen: &Seen) -> bool {
    match (cell, seen) {
        (Cell::Unset, Seen::Unset) => true,
        (Cell::One(value), _) => is_value(value, seen),
        (Cell::Many(items), Seen::Many(count)) => items.as_slice().len() == *count,
        _ => false,
    }
}

fn reads(alloc: Global, elem: Elem, text: &str, seen: &Seen) -> bool {
    match read_value(alloc, elem, text.as_bytes()) {
        Ok(value) => is_value(&value, seen),
        Err(_) => matches!(seen, Seen::Bad),
    }
}

fn reads_cell(alloc: Global, marks: &Marks, kind: Kind, raw: &str, seen: &Seen) -> bool {
    match read_cell(alloc, kind, marks, raw.as_bytes()) {
        Ok(cell) => is_cell(&cell, seen),
        Err(_) => matches!(seen, Seen::Bad),
    }
}

// Each kind once, and a text that takes memory.
#[test]
fn a_value_of_each_kind_is_read(rt: HostRuntime) {
    let rows = [
        (Elem::Bool, "T", Seen::Number(1)),
        (Elem::Count, "007", Seen::Number(7)),
        (Elem::Int, "-0", Seen::Number(0)),
        (Elem::Time, "1.", Seen::Number(1000000000)),
        (Elem::Span, "-0.000000001", Seen::Number(-1)),
        (Elem::Port, "65535/icmp", Seen::Number(65535)),
        (Elem::Port, "65536", Seen::Bad),
        (Elem::Addr, "::ffff:1.2.3.4", Seen::Addr(0xffff_0102_0304)),
        (Elem::Subnet, "10.1.2.3/8", Seen::Net(0xffff_0a00_0000, 104)),
        (
            Elem::Text,
            "a text of more than twenty bytes",
            Seen::Text("a text of more than twenty bytes"),
        ),
        (Elem::Name, "", Seen::Text("")),
    ];
    for (elem, text, seen) in &rows {
        assert!(rt; reads(rt.alloc(), *elem, text, seen), "{text}");
    }
}

#[test]
fn marks_come_before_escapes(rt: HostRuntime) -> Result<(), Fail> {
    let marks = Marks::usual(rt.alloc())?;
    let rows = [
        (Kind::One(Elem::Count), "-", Seen::Unset),
        (Kind::One(Elem::Count), "\\x31", Seen::Number(1)),
        (Kind::One(Elem::Text), "\\x2d", Seen::Text("-")),
        (
            Kind::One(Elem::Text),
            "a\\\\x41\\x4",
            Seen::Text("a\\x41\\x4"),
        ),
        (Kind::SetOf(Elem::Count), "(empty)", Seen::Many(0)),
        (Kind::SetOf(Elem::Count), "1,-,3", Seen::Many(3)),
        (Kind::VecOf(Elem::Port), "53/udp,53/x", Seen::Bad),
        (Kind::VecOf(Elem::Text), "", Seen::Many(1)),
    ];
    for (kind, raw, seen) in &rows {
        assert!(rt; reads_cell(rt.alloc(), &marks, *kind, raw, seen), "{raw}");
    }
    Ok(())
}
