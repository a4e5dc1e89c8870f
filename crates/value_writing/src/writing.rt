//! The canonical texts of cells.
ghost use Rattle.std.specs.Prelude.{◌≡◌, ◌∷◌, [], ◌++◌, if◌then◌else◌, Some, length, codes, IsTrue, OnOk, OnErr};
ghost use Rattle.std.specs.List.{flat_map, list_all};
ghost use Rattle.vast_value.specs.declared.cell.Cell.TheVariants.{Many};
ghost use Rattle.vast_value.specs.declared.kind.Kind.{Kind};
ghost use Rattle.vast_value.specs.Kinds.{has_kind};
ghost use Rattle.value_reading.specs.Reading.{cell_read};
ghost use Rattle.value_reading.specs.declared.marks.Marks.{Marks};
ghost use Rattle.value_writing.specs.Writing.{AreUsual, BeginsWith, is_printable, is_empty_value, value_text, element_text, cell_text};
ghost use Rattle.value_writing.specs.declared.place.Place.TheVariants.{Whole};

use crate::place::Place;
use crate::write_addresses::{push_address, push_subnet};
use crate::write_numbers::{push_count, push_int, push_port, push_span};
use crate::write_texts::push_text;
use std::alloc::AllocError;
use vast_value::{Bytes, Cell, Value, ranged_cell};

/// Puts the canonical text of a cell, which is printable ASCII, behind what `out` holds. In a log with the usual marks
/// that text reads as the cell again, in a column of each kind that the cell has.
pub fn write_cell(cell: &Cell, out: &mut Bytes) -> Result<(), AllocError>
    ensures written { OnOk result (out.new ≡ out.old ++ cell_text cell.now) }
    ensures kept { OnErr result (out.new ≡ out.old) }
    ensures printable { IsTrue (list_all is_printable (cell_text cell.now)) }
    ensures read_back { (marks : Marks) (kind : Kind) → AreUsual marks → IsTrue (has_kind cell.now kind) → cell_read marks kind (cell_text cell.now) ≡ Some cell.now }
{
    ranged_cell(cell);
    let before = out.as_slice().len();
    let done = push_cell(cell, out);
    if done.is_err() {
        out.truncate(before);
    }
    done
}

#[tactic(auto, using(crate::proofs::WritingFronts::fronts), unfolding(crate::specs::Writing::cell_text))]
fn push_cell(cell: &Cell, out: &mut Bytes) -> Result<(), AllocError>
    ensures written { OnOk result (out.new ≡ out.old ++ cell_text cell.now) }
    ensures front { OnErr result (BeginsWith out.new out.old) }
{
    match cell {
        Cell::Unset => out.append(b"-"),
        Cell::One(value) => push_whole(value, out),
        Cell::Many(items) => push_items(items.as_slice(), out),
    }
}

#[tactic(auto, using(crate::proofs::WritingFronts::fronts))]
fn push_whole(value: &Value, out: &mut Bytes) -> Result<(), AllocError>
    ensures written { OnOk result (out.new ≡ out.old ++ (if is_empty_value value.now then codes "(empty)" else value_text Whole value.now)) }
    ensures front { OnErr result (BeginsWith out.new out.old) }
{
    if is_empty_value(value) {
        return out.append(b"(empty)");
    }
    push_value(Place::Whole, value, out)
}

fn is_empty_value(value: &Value) -> bool
    ensures { result ≡ is_empty_value value.now }
{
    match value {
        Value::Text(text) | Value::Name(text) => text.as_slice().is_empty(),
        _ => false,
    }
}

#[tactic(auto, using(crate::proofs::WritingFronts::fronts), unfolding(crate::specs::Writing::cell_text))]
fn push_items(items: &[Option<Value>], out: &mut Bytes) -> Result<(), AllocError>
    ensures written { OnOk result (out.new ≡ out.old ++ cell_text (Many items.now)) }
    ensures front { OnErr result (BeginsWith out.new out.old) }
{
    match items {
        [] => out.append(b"(empty)"),
        [first, rest @ ..] => {
            push_element(first, out)?;
            push_more(rest, out)
        }
    }
}

// The elements behind the first one.
#[tactic(auto, using(crate::proofs::WritingFronts::fronts))]
fn push_more(items: &[Option<Value>], out: &mut Bytes) -> Result<(), AllocError>
    ensures written { OnOk result (out.new ≡ out.old ++ flat_map (λ x. 44 ∷ element_text x) items.now) }
    ensures front { OnErr result (BeginsWith out.new out.old) }
{
    for item in items {
        push_next(item, out)?;
    }
    Ok(())
}

#[tactic(auto, using(crate::proofs::WritingFronts::fronts))]
fn push_next(item: &Option<Value>, out: &mut Bytes) -> Result<(), AllocError>
    ensures written { OnOk result (out.new ≡ out.old ++ 44 ∷ element_text item.now) }
    ensures front { OnErr result (BeginsWith out.new out.old) }
{
    out.push(b',')?;
    push_element(item, out)
}

#[tactic(auto, using(crate::proofs::WritingFronts::fronts))]
fn push_element(item: &Option<Value>, out: &mut Bytes) -> Result<(), AllocError>
    ensures written { OnOk result (out.new ≡ out.old ++ element_text item.now) }
    ensures front { OnErr result (BeginsWith out.new out.old) }
{
    match item {
        None => out.append(b"-"),
        Some(value) => push_value(Place::Element, value, out),
    }
}

#[tactic(auto, using(crate::proofs::WritingFronts::fronts), unfolding(crate::specs::Writing::value_text))]
fn push_value(place: Place, value: &Value, out: &mut Bytes) -> Result<(), AllocError>
    ensures written { OnOk result (out.new ≡ out.old ++ value_text place value.now) }
    ensures front { OnErr result (BeginsWith out.new out.old) }
{
    match value {
        Value::Bool(is_true) => out.append(if *is_true { b"T" } else { b"F" }),
        Value::Count(number) => push_count(*number, out),
        Value::Int(number) => push_int(*number, out),
        Value::Time(nanoseconds) | Value::Span(nanoseconds) => push_span(*nanoseconds, out),
        Value::Text(text) | Value::Name(text) => push_text(place, text.as_slice(), out),
        Value::Addr(address) => push_address(*address, out),
        Value::Subnet(net) => push_subnet(net, out),
        Value::Port { number, over } => push_port(*number, *over, out),
    }
}
