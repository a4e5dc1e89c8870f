//! The texts of numbers and times.
ghost use Rattle.std.specs.Prelude.{◌≡◌, ◌<◌, ◌+◌, ◌%◌, ◌^◌, ◌∷◌, [], ◌++◌, OnOk, OnErr};
ghost use Rattle.std.specs.Fmt.{decimal, signed_decimal};
ghost use Rattle.value_writing.specs.Writing.{BeginsWith, port_text, last_digits, fraction_text, seconds_text, span_text};

use itoa::Buffer;
use std::alloc::AllocError;
use value_reading::SECOND;
use vast_value::{Bytes, Transport};

/// Puts the decimal digits of a number behind the others.
pub(crate) fn push_count(number: u64, out: &mut Bytes) -> Result<(), AllocError>
    ensures written { OnOk result (out.new ≡ out.old ++ decimal number) }
    ensures kept { OnErr result (out.new ≡ out.old) }
{
    let mut buffer = Buffer::new();
    out.append(buffer.format(number).as_bytes())
}

/// Puts the decimal digits of a number behind the others, with a minus where it is negative.
pub(crate) fn push_int(number: i64, out: &mut Bytes) -> Result<(), AllocError>
    ensures written { OnOk result (out.new ≡ out.old ++ signed_decimal number) }
    ensures kept { OnErr result (out.new ≡ out.old) }
{
    let mut buffer = Buffer::new();
    out.append(buffer.format(number).as_bytes())
}

/// Puts the text of a port behind the others: its digits, and its transport where it is known.
#[tactic(auto, using(crate::proofs::WritingFronts::fronts))]
pub(crate) fn push_port(number: u16, over: Transport, out: &mut Bytes) -> Result<(), AllocError>
    ensures written { OnOk result (out.new ≡ out.old ++ port_text number over) }
    ensures front { OnErr result (BeginsWith out.new out.old) }
{
    push_count(u64::from(number), out)?;
    match over {
        Transport::Unknown => Ok(()),
        Transport::Tcp => out.append(b"/tcp"),
        Transport::Udp => out.append(b"/udp"),
        Transport::Icmp => out.append(b"/icmp"),
    }
}

/// Puts nanoseconds behind the others, as seconds.
#[tactic(auto, using(crate::proofs::WritingFronts::fronts), unfolding(crate::specs::Writing::span_text))]
pub(crate) fn push_span(nanoseconds: i64, out: &mut Bytes) -> Result<(), AllocError>
    ensures written { OnOk result (out.new ≡ out.old ++ span_text nanoseconds) }
    ensures front { OnErr result (BeginsWith out.new out.old) }
{
    if nanoseconds < 0 {
        out.push(b'-')?;
    }
    push_seconds(nanoseconds.unsigned_abs(), out)
}

#[tactic(auto, using(crate::proofs::WritingFronts::fronts))]
fn push_seconds(nanoseconds: u64, out: &mut Bytes) -> Result<(), AllocError>
    ensures written { OnOk result (out.new ≡ out.old ++ seconds_text nanoseconds) }
    ensures front { OnErr result (BeginsWith out.new out.old) }
{
    push_count(nanoseconds / SECOND, out)?;
    out.push(b'.')?;
    push_fraction(nanoseconds % SECOND, out)
}

fn push_fraction(nanoseconds: u64, out: &mut Bytes) -> Result<(), AllocError>
    ensures written { OnOk result (out.new ≡ out.old ++ fraction_text nanoseconds) }
    ensures kept { OnErr result (out.new ≡ out.old) }
{
    if nanoseconds % 1000 == 0 {
        out.append(&six_digits(nanoseconds / 1000))
    } else {
        out.append(&nine_digits(nanoseconds))
    }
}

fn six_digits(number: u64) -> [u8; 6]
    ensures { result ≡ last_digits 6 number }
{
    [
        digit(number / 100_000),
        digit(number / 10_000),
        digit(number / 1000),
        digit(number / 100),
        digit(number / 10),
        digit(number),
    ]
}

fn nine_digits(number: u64) -> [u8; 9]
    ensures { result ≡ last_digits 9 number }
{
    [
        digit(number / 100_000_000),
        digit(number / 10_000_000),
        digit(number / 1_000_000),
        digit(number / 100_000),
        digit(number / 10_000),
        digit(number / 1000),
        digit(number / 100),
        digit(number / 10),
        digit(number),
    ]
}

// The last decimal digit of a number.
fn digit(number: u64) -> u8
    ensures { result ≡ 48 + number % 10 }
{
    48 + (number % 10) as u8
}
