//! The numbers that cells are.
ghost use Rattle.std.specs.Prelude.{◌≡◌, Some, IfSome};
ghost use Rattle.vast_value.specs.Views.{number_cell};
ghost use Rattle.plain_cells.specs.Readable.{ReadsAs};

use value_reading::number_up_to;
use vast_value::{Elem, Kind, PlainNumber};

/// The number that a cell of a kind is, where its bytes are digits and no more, and the kind is a count or a port.
/// `None` says nothing.
#[inline(always)]
pub fn plain_number(kind: Kind, raw: &[u8]) -> Option<PlainNumber>
    ensures { IfSome result (λ number. ReadsAs kind raw.now (number_cell number)) }
{
    match kind {
        Kind::One(Elem::Count) => plain_count(raw),
        Kind::One(Elem::Port) => plain_port(raw),
        _ => None,
    }
}

#[inline(always)]
#[tactic(auto, using(crate::proofs::NumberLemmas::count_reads))]
fn plain_count(raw: &[u8]) -> Option<PlainNumber>
    ensures { IfSome result (λ number. ReadsAs (Kind.One Elem.Count) raw.now (number_cell number)) }
{
    let number = number_up_to(u64::MAX, raw)?;
    Some(PlainNumber::Count(number))
}

#[inline(always)]
#[tactic(auto, using(crate::proofs::NumberLemmas::port_reads))]
fn plain_port(raw: &[u8]) -> Option<PlainNumber>
    ensures { IfSome result (λ number. ReadsAs (Kind.One Elem.Port) raw.now (number_cell number)) }
{
    let number = number_up_to(65_535, raw)?;
    Some(PlainNumber::Port(number as u16))
}
