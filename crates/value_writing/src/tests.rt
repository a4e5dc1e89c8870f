use crate::{write_cell, write_escaped};
use std::alloc::{AllocError, Global};
use std::test::Fail;
use vast_value::{Bytes, Cell, Cells, Net, Transport, Value};

fn text_of(alloc: Global, cell: &Cell) -> Result<Bytes, AllocError> {
    let mut out = Bytes::new(alloc);
    write_cell(cell, &mut out)?;
    Ok(out)
}

fn text_of_value(alloc: Global, value: Value) -> Result<Bytes, AllocError> {
    text_of(alloc, &Cell::One(value))
}

fn text_of_element(alloc: Global, text: &[u8]) -> Result<Bytes, Fail> {
    let mut items = Cells::new(alloc);
    if text.len() > 16 {
        return Err("a long text".into());
    }
    items.push(Some(Value::Text(Bytes::copy(alloc, text)?)))?;
    Ok(text_of(alloc, &Cell::Many(items))?)
}

#[test]
fn ports_tell_a_known_transport(rt: HostRuntime) -> Result<(), Fail> {
    for (number, over, text) in [
        (65535, Transport::Unknown, "65535"),
        (53, Transport::Tcp, "53/tcp"),
        (53, Transport::Udp, "53/udp"),
        (0, Transport::Icmp, "0/icmp"),
    ] {
        let written = text_of_value(rt.alloc(), Value::Port { number, over })?;
        assert_eq!(rt; written.as_slice(), text.as_bytes());
    }
    Ok(())
}

#[test]
fn times_have_six_decimals_or_nine(rt: HostRuntime) -> Result<(), Fail> {
    for (nanoseconds, text) in [
        (1000, "0.000001"),
        (-1, "-0.000000001"),
        (1_500_000_000, "1.500000"),
        (i64::MIN, "-9223372036.854775808"),
    ] {
        let written = text_of_value(rt.alloc(), Value::Time(nanoseconds))?;
        assert_eq!(rt; written.as_slice(), text.as_bytes());
    }
    Ok(())
}

// The first to the fourth stand in RFC 5952, 4.2 and 4.3.
#[test]
fn the_first_longest_run_is_the_gap(rt: HostRuntime) -> Result<(), Fail> {
    for (address, text) in [
        (
            0x2001_0db8_0000_0001_0001_0001_0001_0001u128,
            "2001:db8:0:1:1:1:1:1",
        ),
        (0x2001_0000_0000_0001_0000_0000_0000_0001, "2001:0:0:1::1"),
        (
            0x2001_0db8_0000_0000_0001_0000_0000_0001,
            "2001:db8::1:0:0:1",
        ),
        (0x2001_0db8_0000_0000_0000_0000_0000_aaaa, "2001:db8::aaaa"),
        (0, "::"),
        (0xffff_0a00_0001, "10.0.0.1"),
    ] {
        let written = text_of_value(rt.alloc(), Value::Addr(address))?;
        assert_eq!(rt; written.as_slice(), text.as_bytes());
    }
    Ok(())
}

#[test]
fn subnets_of_96_bits_and_more_may_be_dotted(rt: HostRuntime) -> Result<(), Fail> {
    for (base, bits, text) in [
        (0xffff_0a00_0000, 104, "10.0.0.0/8"),
        (0, 0, "::/0"),
        (0x2001_0db8 << 96, 32, "2001:db8::/32"),
    ] {
        let written = text_of_value(rt.alloc(), Value::Subnet(Net { base, bits }))?;
        assert_eq!(rt; written.as_slice(), text.as_bytes());
    }
    Ok(())
}

#[test]
fn texts_are_escaped_where_they_stand(rt: HostRuntime) -> Result<(), Fail> {
    for (text, whole, element) in [
        (b"".as_slice(), "(empty)", ""),
        (b"-", "\\x2d", "\\x2d"),
        (b"--", "--", "--"),
        (b"(empty)", "\\x28empty)", "\\x28empty)"),
        (b"a,b", "a,b", "a\\x2cb"),
        (b"a\\b", "a\\\\b", "a\\\\b"),
        (b"\t~\x7f\xff", "\\x09~\\x7f\\xff", "\\x09~\\x7f\\xff"),
    ] {
        if text.len() > 16 {
            return Err("a long text".into());
        }
        let written = text_of_value(rt.alloc(), Value::Text(Bytes::copy(rt.alloc(), text)?))?;
        assert_eq!(rt; written.as_slice(), whole.as_bytes());
        assert_eq!(rt;
            text_of_element(rt.alloc(), text)?.as_slice(),
            element.as_bytes()
        );
    }
    Ok(())
}

#[test]
fn containers_hold_dashes_and_commas(rt: HostRuntime) -> Result<(), Fail> {
    let mut items = Cells::new(rt.alloc());
    let empty = text_of(rt.alloc(), &Cell::Many(Cells::new(rt.alloc())))?;
    assert_eq!(rt; empty.as_slice(), b"(empty)".as_slice());
    items.push(Some(Value::Count(1)))?;
    items.push(None)?;
    let mut out = text_of(rt.alloc(), &Cell::Many(items))?;
    write_cell(&Cell::Unset, &mut out)?;
    write_escaped(b"a\\\n-", &mut out)?;
    assert_eq!(rt; out.as_slice(), b"1,--a\\\\\\x0a-".as_slice());
    Ok(())
}
