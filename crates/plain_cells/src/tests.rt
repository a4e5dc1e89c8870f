use super::*;
use vast_value::{Elem, Kind, PlainNumber};

/// A check of a cell.
#[derive(Clone, Copy, Debug)]
enum Check {
    Count,
    Port,
    Bool,
    Time,
    Address,
    Groups,
    OwnNumber,
    OwnTime,
    OwnAddress,
    OwnText,
}

/// The text with separators behind it.
fn held(text: &[u8]) -> [u8; 64] {
    let mut bytes = [b'\t'; 64];
    for (at, byte) in text.iter().enumerate() {
        if at < 64 {
            bytes[at] = *byte;
        }
    }
    bytes
}

fn passes(check: Check, text: &str) -> bool {
    let count = text.len();
    if count > 40 {
        return false;
    }
    let bytes = held(text.as_bytes());
    match check {
        Check::Count => is_plain_count(&bytes, count),
        Check::Port => is_plain_port(&bytes, count),
        Check::Bool => is_plain_bool(&bytes, count),
        Check::Time => is_plain_time(&bytes, count),
        Check::Address => is_plain_address(&bytes, count),
        Check::Groups => is_plain_groups(&bytes, count),
        Check::OwnNumber => is_own_number(&bytes, count),
        Check::OwnTime => is_own_time(&bytes, count),
        Check::OwnAddress => is_own_address(&bytes, count),
        Check::OwnText => is_own_text(&bytes, count),
    }
}

// What is well spelled passes: a clause says nothing of a check that answers false.
#[test]
fn well_spelled_cells_pass(rt: HostRuntime) {
    let rows = [
        (Check::Count, "0"),
        (Check::Count, "007"),
        (Check::Count, "1234567890123456"),
        (Check::Port, "0"),
        (Check::Port, "53"),
        (Check::Port, "9999"),
        (Check::Port, "65535"),
        (Check::Port, "00080"),
        (Check::Bool, "T"),
        (Check::Bool, "F"),
        (Check::Time, "0.000000"),
        (Check::Time, "1."),
        (Check::Time, "1331901000.123456789"),
        (Check::Time, "8999999999.9"),
        (Check::Address, "0.0.0.0"),
        (Check::Address, "255.255.255.255"),
        (Check::Address, "10.1.22.033"),
        (Check::Groups, "::"),
        (Check::Groups, "::1"),
        (Check::Groups, "fe80::"),
        (Check::Groups, "2001:DB8:0:0:8:800:200c:417A"),
        (Check::Groups, "fe80::2d4c:9a0:77b:1e"),
        (Check::Groups, "1:2:3:4:5:6:7::"),
        (Check::OwnNumber, "0"),
        (Check::OwnNumber, "1234567890123456"),
        (Check::OwnTime, "0.000000"),
        (Check::OwnTime, "1331901000.123456"),
        (Check::OwnAddress, "10.0.22.255"),
        (Check::OwnText, "a"),
        (Check::OwnText, "(empty)"),
        (Check::OwnText, "abcdefghijklmnopqrstuvwxyz ~!{}"),
    ];
    for (check, text) in rows {
        assert!(rt; passes(check, text), "{check:?} {text}");
    }
}

#[test]
fn other_cells_are_left_to_the_reader(rt: HostRuntime) {
    let rows = [
        (Check::Count, ""),
        (Check::Count, "-"),
        (Check::Count, "1 "),
        (Check::Count, "18446744073709551616"),
        (Check::Port, ""),
        (Check::Port, "65536"),
        (Check::Port, "53/tcp"),
        (Check::Bool, "TT"),
        (Check::Bool, "t"),
        (Check::Time, ".5"),
        (Check::Time, "9223372037.0"),
        (Check::Time, "1.0000000000"),
        (Check::Time, "1.5s"),
        (Check::Address, "256.1.1.1"),
        (Check::Address, "1.1.1"),
        (Check::Address, "1.1.1.1."),
        (Check::Address, "1..1.1"),
        (Check::Address, "0001.1.1.1"),
        (Check::Groups, "1:2:3:4:5:6:7"),
        (Check::Groups, "1:2:3:4:5:6:7:8:9"),
        (Check::Groups, "1:2:3:4:5:6:7::8"),
        (Check::Groups, "1::2::3"),
        (Check::Groups, "1:::2"),
        (Check::Groups, ":1::2"),
        (Check::Groups, "12345::"),
        (Check::Groups, "g::1"),
        (Check::OwnNumber, "00"),
        (Check::OwnTime, "00.000000"),
        (Check::OwnTime, "0.000000000"),
        (Check::OwnAddress, "10.0.02.5"),
        (Check::OwnText, ""),
        (Check::OwnText, "a\\x2c"),
        (Check::OwnText, "0123456789abcdef\t"),
    ];
    for (check, text) in rows {
        assert!(rt; !passes(check, text), "{check:?} {text}");
    }
}

const LINE: &[u8; 101] =
    b"\tab\t\tc\n4567890123456789012345678\t\t\t2345678901234567890123456789\t\n2345678901234567890123456789\t0123456";

#[test]
fn places_of_a_byte_are_found(rt: HostRuntime) {
    let mut places = [0u32; 8];
    assert!(rt; byte_places(b'\t', LINE, 64, &mut places) == Some(7));
    let first = [0, 3, 4, 32, 33, 34, 63, 0];
    assert!(rt; byte_places(b'\t', LINE, 63, &mut places) == Some(6));
    assert!(rt; places[..6] == first[..6]);
}

#[test]
fn places_of_a_line_are_found(rt: HostRuntime) {
    let mut places = [0u32; 8];
    assert!(rt; line_places(b'\t', LINE, &mut places) == Some(4));
    assert!(rt; places[..4] == [0, 3, 4, 6]);
    assert!(rt; line_places(b'\t', LINE, &mut places[..3]).is_none());
    let (_, rest) = LINE.split_at(7);
    assert!(rt; line_places(b'\t', rest, &mut places) == Some(5));
    let (_, last) = LINE.split_at(69);
    assert!(rt; line_places(b'\t', last, &mut places).is_none());
}

// Digits are told as numbers: a clause says nothing of `None`.
#[test]
fn digits_are_plain_numbers(rt: HostRuntime) {
    let count = Kind::One(Elem::Count);
    let port = Kind::One(Elem::Port);
    let most = PlainNumber::Count(u64::MAX);
    assert!(rt; plain_number(count, b"18446744073709551615") == Some(most));
    assert!(rt; plain_number(port, b"0053") == Some(PlainNumber::Port(53)));
    for other in [b"65536".as_slice(), b"53/tcp", b"-", b""] {
        assert!(rt; plain_number(port, other).is_none());
    }
}
