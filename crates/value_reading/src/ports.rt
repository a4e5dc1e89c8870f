//! Ports and their transports.
ghost use Rattle.std.specs.Prelude.{◌≡◌};
ghost use Rattle.value_reading.specs.Ports.{transport_named, transport_behind, transport_marked, port_by, port_of, marked_port_of};

use crate::numbers::{first_at, number_up_to};
use vast_value::Transport;

fn transport_named(name: &[u8]) -> Option<Transport>
    ensures { result ≡ transport_named name.now }
{
    match name {
        b"?" => Some(Transport::Unknown),
        b"tcp" => Some(Transport::Tcp),
        b"udp" => Some(Transport::Udp),
        b"icmp" => Some(Transport::Icmp),
        _ => None,
    }
}

// The transport that a slash and its name give, or none where there is no slash.
fn transport_marked(text: &[u8]) -> Option<Transport>
    ensures { result ≡ transport_marked text.now }
{
    match text {
        [] => None,
        [_, name @ ..] => transport_named(name),
    }
}

fn transport_behind(text: &[u8]) -> Option<Transport>
    ensures { result ≡ transport_behind text.now }
{
    match text {
        [] => Some(Transport::Unknown),
        [_, name @ ..] => transport_named(name),
    }
}

#[inline]
fn port_by(digits: &[u8], over: Option<Transport>) -> Option<(u16, Transport)>
    ensures { result ≡ port_by digits.now over }
{
    let number = number_up_to(u16::MAX as u64, digits)?;
    Some((number as u16, over?))
}

/// The number and the transport of a port: digits of at most 65,535, with `/?`, `/tcp`, `/udp` or `/icmp` behind them or
/// nothing. With `/?` and with nothing the transport is unknown.
pub fn port_of(text: &[u8]) -> Option<(u16, Transport)>
    ensures { result ≡ port_of text.now }
{
    let (digits, mark) = text.split_at(first_at(b'/', text));
    port_by(digits, transport_behind(mark))
}

/// The number and the transport of a port whose transport is told, be it by `/?`.
pub fn marked_port_of(text: &[u8]) -> Option<(u16, Transport)>
    ensures { result ≡ marked_port_of text.now }
{
    let (digits, mark) = text.split_at(first_at(b'/', text));
    port_by(digits, transport_marked(mark))
}
