//! The names of types.
ghost use Rattle.std.specs.Prelude.{◌≡◌, if◌then◌else◌};
ghost use Rattle.std.specs.Option.{option_copied, option_and_then};
ghost use Rattle.vast_value.specs.Kinds.{elem_named};
ghost use Rattle.zeek_log.specs.Heads.{kind_named, kind_read, is_floating, within_brackets, single_byte, separator_of};

use crate::fault::{At, ZeekFault};
use value_text::escaped_byte;
use vast_value::{Elem, Kind};

/// The kind of the type with this number, from 1, or what is wrong with it.
pub fn kind_read(number: u32, name: &[u8]) -> Result<Kind, At>
    ensures { result ≡ kind_read number name.now }
{
    match kind_named(name) {
        Some(kind) => Ok(kind),
        None => Err(At {
            column: number,
            what: unread_fault(name),
        }),
    }
}

fn unread_fault(name: &[u8]) -> ZeekFault
    ensures { result ≡ (if is_floating name.now then ZeekFault.Floating else ZeekFault.UnknownKind) }
{
    if is_floating(name) {
        ZeekFault::Floating
    } else {
        ZeekFault::UnknownKind
    }
}

fn is_floating(name: &[u8]) -> bool
    ensures { result ≡ is_floating name.now }
{
    if name == b"double".as_slice() {
        return true;
    }
    if name == b"set[double]".as_slice() {
        return true;
    }
    name == b"vector[double]".as_slice()
}

fn kind_named(name: &[u8]) -> Option<Kind>
    ensures { result ≡ kind_named name.now }
{
    if let Some(elem) = Elem::named(name) {
        return Some(Kind::One(elem));
    }
    if let Some(elem) = elem_within(b"set[", name) {
        return Some(Kind::SetOf(elem));
    }
    elem_within(b"vector[", name).map(Kind::VecOf)
}

fn elem_within(front: &[u8], name: &[u8]) -> Option<Elem>
    ensures { result ≡ option_and_then elem_named (within_brackets front.now name.now) }
{
    within_brackets(front, name).and_then(Elem::named)
}

fn within_brackets<'a>(front: &[u8], name: &'a [u8]) -> Option<&'a [u8]>
    ensures { option_copied result ≡ within_brackets front.now name.now }
{
    if !name.starts_with(front) {
        return None;
    }
    if !name.ends_with(b"]") {
        return None;
    }
    let (_, behind) = name.split_at(front.len());
    let (inner, _) = behind.split_at(behind.len().saturating_sub(1));
    Some(inner)
}

/// The byte of a separator's value: one byte, as itself or as `\xHH`, that is neither a newline nor `#` nor a backslash.
pub fn separator_of(value: &[u8]) -> Option<u8>
    ensures { result ≡ separator_of value.now }
{
    let byte = single_byte(value)?;
    if byte == b'\n' || (byte == b'#' || byte == b'\\') {
        return None;
    }
    Some(byte)
}

fn single_byte(value: &[u8]) -> Option<u8>
    ensures { result ≡ single_byte value.now }
{
    match value {
        [byte] => Some(*byte),
        [b'\\', x, high, low] => escaped_byte(*x, *high, *low),
        _ => None,
    }
}
