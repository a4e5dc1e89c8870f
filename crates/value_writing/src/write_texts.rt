//! The texts of texts: escapes.
ghost use Rattle.std.specs.Prelude.{◌≡◌, ◌<◌, ◌++◌, IsTrue, OnOk, OnErr};
ghost use Rattle.std.specs.List.{flat_map, list_all};
ghost use Rattle.value_reading.specs.Escapes.{unescaped};
ghost use Rattle.value_writing.specs.Writing.{BeginsWith, hexadecimal, byte_escape, escaped_byte, escaped_text, byte_text, is_bare, is_printable, text_text};
ghost use Rattle.value_writing.specs.declared.place.Place.TheVariants.{Whole};

use crate::place::Place;
use std::alloc::AllocError;
use vast_value::{Bytes, ranged_bytes};

/// Puts a text behind what `out` holds, by the plain escape: a backslash stands twice, and a byte that is no printable
/// character of ASCII is `\xHH` in lower case. What was put is printable ASCII, and reads as the text again.
pub fn write_escaped(text: &[u8], out: &mut Bytes) -> Result<(), AllocError>
    ensures written { OnOk result (out.new ≡ out.old ++ escaped_text text.now) }
    ensures kept { OnErr result (out.new ≡ out.old) }
    ensures printable { IsTrue (list_all is_printable (escaped_text text.now)) }
    ensures read_back { unescaped (escaped_text text.now) ≡ text.now }
{
    ranged_bytes(text);
    let before = out.as_slice().len();
    let done = push_escaped(Place::Whole, text, out);
    if done.is_err() {
        out.truncate(before);
    }
    done
}

/// Puts the spelling of a text behind the others.
#[tactic(auto, using(crate::proofs::WritingFronts::fronts))]
pub(crate) fn push_text(place: Place, text: &[u8], out: &mut Bytes) -> Result<(), AllocError>
    ensures written { OnOk result (out.new ≡ out.old ++ text_text place text.now) }
    ensures front { OnErr result (BeginsWith out.new out.old) }
{
    if text == b"-".as_slice() {
        return out.append(b"\\x2d");
    }
    if text == b"(empty)".as_slice() {
        return out.append(b"\\x28empty)");
    }
    push_escaped(place, text, out)
}

#[tactic(auto, using(crate::proofs::WritingFronts::fronts, crate::proofs::WritingBare::bare_text))]
fn push_escaped(place: Place, text: &[u8], out: &mut Bytes) -> Result<(), AllocError>
    ensures written { OnOk result (out.new ≡ out.old ++ flat_map (byte_text place) text.now) }
    ensures front { OnErr result (BeginsWith out.new out.old) }
{
    if are_bare(place, text) {
        return out.append(text);
    }
    push_each(place, text, out)
}

fn are_bare(place: Place, text: &[u8]) -> bool
    ensures { result ≡ list_all (is_bare place) text.now }
{
    text.iter().all(|byte| is_bare(place, *byte))
}

// Whether a byte is printable ASCII.
fn is_printable(byte: u8) -> bool
    ensures { result ≡ is_printable byte }
{
    32 <= byte && byte < 127
}

// Whether a byte stands for itself.
fn is_bare(place: Place, byte: u8) -> bool
    ensures { result ≡ is_bare place byte }
{
    match place {
        Place::Whole => is_printable(byte) && byte != b'\\',
        Place::Element => is_printable(byte) && byte != b'\\' && byte != b',',
    }
}

#[tactic(auto, using(crate::proofs::WritingFronts::fronts))]
fn push_each(place: Place, text: &[u8], out: &mut Bytes) -> Result<(), AllocError>
    ensures written { OnOk result (out.new ≡ out.old ++ flat_map (byte_text place) text.now) }
    ensures front { OnErr result (BeginsWith out.new out.old) }
{
    for byte in text {
        push_byte(place, *byte, out)?;
    }
    Ok(())
}

fn push_byte(place: Place, byte: u8, out: &mut Bytes) -> Result<(), AllocError>
    ensures written { OnOk result (out.new ≡ out.old ++ byte_text place byte) }
    ensures kept { OnErr result (out.new ≡ out.old) }
{
    match place {
        Place::Whole => push_escaped_byte(byte, out),
        Place::Element => {
            if byte == b',' {
                return out.append(&byte_escape(byte));
            }
            push_escaped_byte(byte, out)
        }
    }
}

fn push_escaped_byte(byte: u8, out: &mut Bytes) -> Result<(), AllocError>
    ensures written { OnOk result (out.new ≡ out.old ++ escaped_byte byte) }
    ensures kept { OnErr result (out.new ≡ out.old) }
{
    if byte == b'\\' {
        return out.append(b"\\\\");
    }
    if is_printable(byte) {
        return out.push(byte);
    }
    out.append(&byte_escape(byte))
}

fn byte_escape(byte: u8) -> [u8; 4]
    ensures { result ≡ byte_escape byte }
{
    [b'\\', b'x', hexadecimal(byte / 16), hexadecimal(byte % 16)]
}

/// A hexadecimal digit in lower case.
pub(crate) fn hexadecimal(digit: u8) -> u8
    requires { digit < 16 }
    ensures { result ≡ hexadecimal digit }
{
    if digit < 10 { 48 + digit } else { 87 + digit }
}
