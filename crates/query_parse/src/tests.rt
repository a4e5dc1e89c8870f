//! Queries and their refusals.
use crate::{ParseEnd, QueryFault, QueryWhat, parse};
use query_meaning::{Expr, Exprs, Rel};
use std::test::Fail;

// A text and its refusal.
#[derive(Drop)]
struct Refusal {
    text: &'static str,
    at: u32,
    what: QueryWhat,
}

const fn refused_at(text: &'static str, at: u32, what: QueryWhat) -> Refusal {
    Refusal { text, at, what }
}

#[test]
fn each_refusal_stands_at_its_place(rt: HostRuntime) -> Result<(), Fail> {
    let rows = [
        refused_at("a ==", 4, QueryWhat::Unexpected),
        refused_at("a < \"x\"", 4, QueryWhat::KindClash),
        refused_at("a == \"x", 5, QueryWhat::BadLiteral),
        refused_at("a == 1 &b == 2", 7, QueryWhat::Unexpected),
        refused_at("@2016-02-30T00:00:00Z == &time", 0, QueryWhat::BadLiteral),
        refused_at(
            "!!!!!!!!!!!!!!!!!!!!!!!!!!!!!!!!!!!!!!!!!!!!!!!!!!!!!!!!!!!!!!!!!",
            64,
            QueryWhat::TooDeep,
        ),
    ];
    for row in rows.iter() {
        let fault = QueryFault {
            at: row.at,
            what: row.what,
        };
        assert!(rt; matches!(parse(rt.alloc(), row.text), Err(ParseEnd::Fault(f)) if f == fault));
    }
    Ok(())
}

// How many members the expression has, and what joins them.
fn members(expr: &Expr) -> (&'static str, usize) {
    match expr {
        Expr::Test(_) => ("test", 0),
        Expr::Not(_) => ("not", 1),
        Expr::And(members) => ("and", members.len()),
        Expr::Or(members) => ("or", members.len()),
    }
}

#[test]
fn members_make_one_list_and_parentheses_no_node(rt: HostRuntime) -> Result<(), Fail> {
    let rows = [
        ("a == 1||!b == 2 && c == 3", "or", 2),
        ("(a == 1 && b == 2) && c == 3", "and", 2),
        ("((a == 1))", "test", 0),
        ("!(a == 1 || b == 2)", "not", 1),
    ];
    for (text, name, count) in rows.iter() {
        let Ok(expr) = parse(rt.alloc(), text) else {
            return Err("refused".into());
        };
        assert!(rt; members(&expr) == (*name, *count));
    }
    Ok(())
}

// The relation and the literal's form of a test.
fn relation(expr: &Expr) -> Option<Rel> {
    match expr {
        Expr::Test(test) => Some(test.rel),
        _ => None,
    }
}

#[test]
fn the_reversed_form_is_turned(rt: HostRuntime) -> Result<(), Fail> {
    let rows = [
        ("3 < a", Rel::Gt),
        ("10.0.0.0/8 ni h", Rel::Within),
        ("id.resp_p == 53/udp", Rel::Eq),
        ("@2016-03-16T12:00:00Z <= &time", Rel::Ge),
        ("s == \"a\\\"b\\x41\"", Rel::Eq),
    ];
    for (text, rel) in rows.iter() {
        let Ok(expr) = parse(rt.alloc(), text) else {
            return Err("refused".into());
        };
        assert!(rt; relation(&expr) == Some(*rel));
    }
    Ok(())
}

// The longest query, of 10,923 tests, and one byte more.
#[test]
fn a_query_has_at_most_65536_bytes(rt: HostRuntime) -> Result<(), Fail> {
    let mut text = String::new(rt.alloc());
    text.push_str("a==1")?;
    for _ in 0..10_922 {
        text.push_str("&&a==1")?;
    }
    let Ok(expr) = parse(rt.alloc(), &text) else {
        return Err("refused".into());
    };
    assert!(rt; text.len() == 65_536 && members(&expr) == ("and", 10_923));
    text.push(' ')?;
    let fault = QueryFault {
        at: 65_536,
        what: QueryWhat::TooLong,
    };
    assert!(rt; matches!(parse(rt.alloc(), &text), Err(ParseEnd::Fault(f)) if f == fault));
    Ok(())
}
