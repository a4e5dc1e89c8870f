//! The names that a `#fields` line tells.
ghost use Rattle.std.specs.Prelude.{◌≡◌, ◌≤◌, ◌+◌, ◌^◌, length};
ghost use Rattle.std.specs.List.{list_any};
ghost use Rattle.std.specs.Str.{bytes_eq};
ghost use Rattle.zeek_log.specs.Heads.{name_fault, fault_of, names_read};
ghost use Rattle.zeek_log.specs.Lines.{pieces_of};
ghost use Rattle.zeek_log.specs.Answers.{Answers, PushesName};

use crate::cut::split_piece;
use crate::fault::{At, LineEnd, ZeekFault};
use crate::names::Names;
use std::alloc::Global;
use vast_value::{BadLayout, Bytes, Seq};

/// The names in a text, if nothing is wrong with them.
pub fn read_names(alloc: Global, separator: u8, text: &[u8]) -> Result<Names, LineEnd>
    requires { length text.now ≤ 2 ^ 24 }
    ensures { Answers (λ names. names.items) result (names_read (pieces_of separator text.now)) }
{
    let mut items = Seq::new(alloc);
    let mut rest = Some(text);
    while let Some(piece) = rest {
        let (name, after) = split_piece(separator, piece);
        push_name(alloc, &mut items, name)?;
        rest = after;
    }
    Ok(Names { items })
}

/// Puts a name behind others, if nothing is wrong with it.
fn push_name(alloc: Global, names: &mut Seq<Bytes>, name: &[u8]) -> Result<(), LineEnd>
    requires few { length names.old ≤ 2 ^ 24 }
    requires short { length name.now ≤ 2 ^ 24 }
    ensures { PushesName (name_fault (length names.old + 1) names.old name.now) names.old names.new name.now result }
{
    if let Some(at) = name_fault(names.as_slice(), name) {
        return Err(LineEnd::Bad(at));
    }
    let name = Bytes::copy(alloc, name)?;
    Ok(names.push(name)?)
}

/// What is wrong with a name that follows these.
fn name_fault(before: &[Bytes], name: &[u8]) -> Option<At>
    requires { length before.now ≤ 2 ^ 24 }
    ensures { result ≡ name_fault (length before.now + 1) before.now name.now }
{
    let column = before.len() as u32 + 1;
    vast_value::name_fault(before.len(), name, is_among(before, name)).map(|bad| At {
        column,
        what: fault_of(bad),
    })
}

/// What a log's fault is where names make no layout.
fn fault_of(bad: BadLayout) -> ZeekFault
    ensures { result ≡ fault_of bad }
{
    match bad {
        BadLayout::TooManyColumns => ZeekFault::TooManyColumns,
        BadLayout::EmptyName { .. } => ZeekFault::EmptyName,
        BadLayout::SameName { .. } => ZeekFault::SameName,
        BadLayout::EmptyPath | BadLayout::NoColumns => ZeekFault::NoHead,
    }
}

fn is_among(names: &[Bytes], name: &[u8]) -> bool
    ensures { result ≡ list_any (λ other. bytes_eq other name.now) names.now }
{
    names.iter().any(|other| other.as_slice() == name)
}
