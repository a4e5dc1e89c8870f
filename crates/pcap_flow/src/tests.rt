//! Rows by hand.
ghost use Rattle.std.specs.Prelude.{◌<◌, ◌≤◌, ◌+◌, ◌^◌};

use crate::{Flows, Packet, flow_layout, packet_layout, packet_row};
use pcap_packet::decode;
use std::alloc::{AllocError, Global};
use std::test::Fail;
use vast_value::{Cell, Row, Value, fits};

const SECOND: i64 = 1_000_000_000;

// A packet of UDP between 10.0.0.1 port 1000 and 10.0.0.2 port 53, behind an Ethernet head with two tags.
const TAGGED: [u8; 50] = [
    2, 0, 0, 0, 0, 2, 2, 0, 0, 0, 0, 1, 0x81, 0, 0, 1, 0x81, 0, 0, 2, 8, 0, 0x45, 0, 0, 0x1c, 0, 0,
    0, 0, 0x40, 0x11, 0, 0, 10, 0, 0, 1, 10, 0, 0, 2, 0x03, 0xe8, 0, 0x35, 0, 8, 0, 0,
];

fn packet(time: i64, original: u32) -> Packet {
    Packet {
        time,
        captured: 50,
        original,
        parts: decode(1, TAGGED.as_slice()),
    }
}

fn answered(time: i64, original: u32) -> Packet {
    let mut packet = packet(time, original);
    let parts = packet.parts;
    packet.parts.source = parts.target;
    packet.parts.source_port = parts.target_port;
    packet.parts.target = parts.source;
    packet.parts.target_port = parts.source_port;
    packet
}

fn number(row: &Row, column: usize) -> Option<u64> {
    match row.as_slice().get(column) {
        Some(Cell::One(Value::Count(count))) => Some(*count),
        Some(Cell::One(Value::Span(span))) => u64::try_from(*span).ok(),
        Some(Cell::One(Value::Time(time))) => u64::try_from(*time).ok(),
        Some(Cell::One(Value::Port { number, .. })) => Some(u64::from(*number)),
        _ => None,
    }
}

// Duration, packets and bytes of the originator, packets and bytes of the other end.
fn counts(row: &Row) -> [Option<u64>; 5] {
    [
        number(row, 6),
        number(row, 7),
        number(row, 8),
        number(row, 9),
        number(row, 10),
    ]
}

fn add(flows: &mut Flows, packet: &Packet) -> Result<(), AllocError>
    requires { flows.old.added < 2 ^ 32 }
    ensures { flows.new.added ≤ flows.old.added + 1 }
{
    if packet.time < 0 {
        return Err(AllocError);
    }
    flows.add(packet)
}

fn three(alloc: Global, packets: &[Packet; 3]) -> Result<Flows, AllocError> {
    let mut flows = Flows::new(alloc);
    add(&mut flows, &packets[0])?;
    add(&mut flows, &packets[1])?;
    add(&mut flows, &packets[2])?;
    Ok(flows)
}

#[test]
fn sixty_seconds_join_and_sixty_one_part(rt: HostRuntime) -> Result<(), Fail> {
    let packets = [
        packet(0, 50),
        packet(60 * SECOND, 50),
        packet(121 * SECOND, 50),
    ];
    let rows = three(rt.alloc(), &packets)?.finish(rt.alloc())?;
    let [first, second] = rows.as_slice() else {
        return Err("not two flows".into());
    };
    let minute = 60_000_000_000;
    assert_eq!(rt;
        counts(first),
        [Some(minute), Some(2), Some(100), Some(0), Some(0)]
    );
    assert_eq!(rt;
        counts(second),
        [Some(0), Some(1), Some(50), Some(0), Some(0)]
    );
    Ok(())
}

#[test]
fn an_answer_counts_for_the_other_end(rt: HostRuntime) -> Result<(), Fail> {
    let mut fragment = packet(SECOND, 60);
    fragment.parts.target_port = None;
    let packets = [packet(SECOND, 50), answered(SECOND, 70), fragment];
    let rows = three(rt.alloc(), &packets)?.finish(rt.alloc())?;
    let [row] = rows.as_slice() else {
        return Err("not one flow".into());
    };
    assert_eq!(rt;
        counts(row),
        [Some(0), Some(1), Some(50), Some(1), Some(70)]
    );
    assert!(rt; fits(&flow_layout(rt.alloc())?, row));
    Ok(())
}

#[test]
fn a_packet_has_a_row(rt: HostRuntime) -> Result<(), Fail> {
    let row = packet_row(rt.alloc(), &packet(10 * SECOND + 5, 50))?;
    assert!(rt; fits(&packet_layout(rt.alloc())?, &row));
    let Some(Cell::One(Value::Name(protocol))) = row.as_slice().last() else {
        return Err("no protocol".into());
    };
    assert_eq!(rt; protocol.as_slice(), b"udp".as_slice());
    assert_eq!(rt; number(&row, 0), Some(10_000_000_005));
    assert_eq!(rt; number(&row, 4), Some(1000));
    assert_eq!(rt; number(&row, 6), Some(53));
    Ok(())
}
