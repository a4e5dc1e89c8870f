//! A made capture of three kinds of packets.
use pcap_packet::decode;

// UDP over IPv4 behind two tags of Ethernet.
const TAGGED: [u8; 50] = [
    2, 0, 0, 0, 0, 2, 2, 0, 0, 0, 0, 1, 0x81, 0, 0, 1, 0x81, 0, 0, 2, 8, 0, 0x45, 0, 0, 0x1c, 0, 0,
    0, 0, 0x40, 0x11, 0, 0, 10, 0, 0, 1, 10, 0, 0, 2, 0x03, 0xe8, 0, 0x35, 0, 8, 0, 0,
];

/// Decodes so many packets, and counts those that had a source port: by turns one of UDP over IPv4 behind two
/// tags, one of UDP over IPv4, and one of TCP over IPv6 behind one further header.
pub fn decode_all(number: u32) -> u32 {
    let mut tagged = TAGGED;
    let mut six = [0u8; 80];
    six[0] = 0x60;
    six[6] = 0;
    six[40] = 6;
    let mut with_ports = 0u32;
    for i in 0..number {
        let byte = (i % 256) as u8;
        tagged[41] = byte;
        six[39] = byte;
        let parts = match i % 3 {
            0 => decode(1, tagged.as_slice()),
            1 => decode(101, &tagged[22..]),
            _ => decode(101, six.as_slice()),
        };
        if parts.source_port.is_some() && parts.target.is_some() {
            with_ports = with_ports.wrapping_add(1);
        }
    }
    with_ports
}
