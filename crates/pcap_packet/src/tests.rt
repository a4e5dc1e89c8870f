//! Packets by hand, with the parts that the standards give them.
use crate::{Parts, decode};

const HERE: u128 = 0xffff_0a00_0001;

const THERE: u128 = 0xffff_0a00_0002;

const TAGGED: [u8; 50] = [
    2, 0, 0, 0, 0, 2, 2, 0, 0, 0, 0, 1, 0x81, 0, 0, 1, 0x81, 0, 0, 2, 8, 0, 0x45, 0, 0, 0x1c, 0, 0,
    0, 0, 0x40, 0x11, 0, 0, 10, 0, 0, 1, 10, 0, 0, 2, 0x03, 0xe8, 0, 0x35, 0, 8, 0, 0,
];

fn parts(between: Option<(u128, u128)>, protocol: Option<u8>, ports: Option<(u16, u16)>) -> Parts {
    Parts {
        source: between.map(|pair| pair.0),
        target: between.map(|pair| pair.1),
        protocol,
        source_port: ports.map(|pair| pair.0),
        target_port: ports.map(|pair| pair.1),
    }
}

#[test]
fn ethernet_and_ipv4(rt: HostRuntime) {
    let ends = Some((HERE, THERE));
    let udp = parts(ends, Some(17), Some((1000, 53)));
    let nothing = parts(None, None, None);
    let plain: &[u8] = &TAGGED[22..];
    let mut third = TAGGED;
    third[20] = 0x81;
    let mut fragment = TAGGED;
    fragment[29] = 1;
    let mut short_head = TAGGED;
    short_head[22] = 0x44;
    let mut options = TAGGED;
    options[22] = 0x46;
    for (name, link, bytes, want) in [
        ("two tags", 1u16, TAGGED.as_slice(), udp),
        ("Linux cooked", 113, &TAGGED[6..], udp),
        ("a third tag", 1, third.as_slice(), nothing),
        (
            "a fragment offset",
            1,
            fragment.as_slice(),
            parts(ends, Some(17), None),
        ),
        ("header length 4", 1, short_head.as_slice(), nothing),
        (
            "4 bytes of options",
            1,
            options.as_slice(),
            parts(ends, Some(17), Some((8, 0))),
        ),
        ("raw IP", 101, plain, udp),
        (
            "ports cut off",
            101,
            &plain[..23],
            parts(ends, Some(17), None),
        ),
        ("19 bytes", 101, &plain[..19], nothing),
        ("no bytes", 101, &plain[..0], nothing),
        ("another link", 0, plain, nothing),
    ] {
        assert_eq!(rt; decode(link, bytes), want, "{name}");
    }
}

#[test]
fn further_headers_of_ipv6(rt: HostRuntime) {
    // Behind the first 40 bytes stand hop-by-hop options of 8 bytes each, for as long as nothing else is
    // written; the ports 1000 and 53 follow the eighth.
    let mut eight = [0u8; 116];
    eight[0] = 0x60;
    eight[23] = 1;
    eight[39] = 2;
    eight[104] = 0x03;
    eight[105] = 0xe8;
    eight[107] = 0x35;
    let mut ninth = eight;
    eight[96] = 6;
    ninth[104] = 6;
    let mut later = ninth;
    later[6] = 44;
    later[40] = 60;
    later[43] = 8;
    let mut first = eight;
    first[6] = 44;
    first[43] = 1;
    let ends = Some((1, 2));
    for (name, bytes, want) in [
        (
            "eight",
            eight.as_slice(),
            parts(ends, Some(6), Some((1000, 53))),
        ),
        ("a ninth", ninth.as_slice(), parts(ends, None, None)),
        (
            "a later fragment",
            later.as_slice(),
            parts(ends, Some(60), None),
        ),
        (
            "a first fragment",
            first.as_slice(),
            parts(ends, Some(6), Some((1000, 53))),
        ),
        ("a header cut off", &eight[..97], parts(ends, None, None)),
        ("ports cut off", &eight[..107], parts(ends, Some(6), None)),
    ] {
        assert_eq!(rt; decode(101, bytes), want, "{name}");
    }
}
