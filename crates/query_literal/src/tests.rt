use super::*;
use std::alloc::Global;
use vast_value::Value;

/// What a test wants to see.
#[derive(Debug, Drop)]
enum Seen {
    Bad,
    Number(i128),
    Addr(u128),
    Net(u128, u8),
}

fn is_value(value: &Value, seen: &Seen) -> bool {
    match (value, seen) {
        (Value::Count(n), Seen::Number(m)) => i128::from(*n) == *m,
        (Value::Int(n), Seen::Number(m)) => i128::from(*n) == *m,
        (Value::Time(t), Seen::Number(m)) => i128::from(*t) == *m,
        (Value::Span(t), Seen::Number(m)) => i128::from(*t) == *m,
        (Value::Port { number, .. }, Seen::Number(m)) => i128::from(*number) == *m,
        (Value::Addr(a), Seen::Addr(b)) => a == b,
        (Value::Subnet(net), Seen::Net(base, bits)) => net.base == *base && net.bits == *bits,
        _ => false,
    }
}

fn reads_literal(alloc: Global, word: &str, seen: &Seen) -> bool {
    match read_literal(alloc, word) {
        Ok(value) => is_value(&value, seen),
        Err(_) => matches!(seen, Seen::Bad),
    }
}

#[test]
fn each_form_of_a_literal_is_read(rt: HostRuntime) {
    let rows = [
        ("5", Seen::Number(5)),
        ("+5", Seen::Number(5)),
        ("-5", Seen::Number(-5)),
        ("5.s", Seen::Number(5000000000)),
        ("+5s", Seen::Bad),
        ("65535/?", Seen::Number(65535)),
        ("53/udp", Seen::Number(53)),
        ("1.2.3.4", Seen::Addr(0xffff_0102_0304)),
        ("::/0", Seen::Net(0, 0)),
        ("@-5.", Seen::Number(-5000000000)),
        ("@2016-03-16T12:00:00Z", Seen::Number(1458129600000000000)),
    ];
    for (word, seen) in &rows {
        assert!(rt; reads_literal(rt.alloc(), word, seen), "{word}");
    }
}

#[test]
fn moments_are_days_and_seconds_of_the_calendar(rt: HostRuntime) {
    let rows = [
        ("1677-09-21T00:12:43.145224192Z", Some(i64::MIN)),
        ("1677-09-21T00:12:43.145224191Z", None),
        ("2262-04-11T23:47:16.854775807Z", Some(i64::MAX)),
        ("2262-04-11T23:47:16.854775808Z", None),
        ("1970-01-01T00:00:00.5Z", Some(500000000)),
        ("1970-01-01T00:00:00.Z", None),
        ("2016-02-29T00:00:00Z", Some(1456704000000000000)),
        ("2016-02-30T00:00:00Z", None),
        ("2016-03-16T24:00:00Z", None),
        ("2016-03-16T12:00:00", None),
    ];
    for (text, moment) in &rows {
        assert!(rt; read_moment(text) == *moment, "{text}");
    }
}
