//! That what a program keeps is in the range of its type. A proof knows it of what a body reads, so these functions read
//! each part and do no more: nothing of them is left when the program runs.
ghost use Rattle.std.specs.Prelude.{◌^◌, IsTrue, nat_lt};
ghost use Rattle.std.specs.List.{list_all};
ghost use Rattle.vast_value.specs.Fit.{is_byte, is_i64, is_ranged, is_ranged_element, is_ranged_cell};

use crate::cell::Cell;
use crate::value::Value;

/// Each number and byte of a cell is in range.
pub fn ranged_cell(cell: &Cell)
    ensures { IsTrue (is_ranged_cell cell.now) }
{
    match cell {
        Cell::Unset => {}
        Cell::One(value) => ranged(value),
        Cell::Many(items) => ranged_elements(items.as_slice()),
    }
}

fn ranged_elements(items: &[Option<Value>])
    ensures { IsTrue (list_all is_ranged_element items.now) }
{
    for item in items {
        ranged_element(item);
    }
}

fn ranged_element(item: &Option<Value>)
    ensures { IsTrue (is_ranged_element item.now) }
{
    match item {
        None => {}
        Some(value) => ranged(value),
    }
}

pub(crate) fn ranged(value: &Value)
    ensures { IsTrue (is_ranged value.now) }
{
    match value {
        Value::Bool(_) => {}
        Value::Count(number) => ranged_u64(*number),
        Value::Int(number) => ranged_i64(*number),
        Value::Time(time) => ranged_i64(*time),
        Value::Span(time) => ranged_i64(*time),
        Value::Text(text) => ranged_bytes(text.as_slice()),
        Value::Name(text) => ranged_bytes(text.as_slice()),
        Value::Addr(address) => ranged_u128(*address),
        Value::Subnet(net) => ranged_u128(net.base),
        Value::Port { number, .. } => ranged_u16(*number),
    }
}

/// Each byte of a text is one.
pub fn ranged_bytes(text: &[u8])
    ensures { IsTrue (list_all is_byte text.now) }
{
    let _ = text;
}

fn ranged_u16(number: u16)
    ensures { IsTrue (nat_lt number (2 ^ 16)) }
{
    let _ = number;
}

fn ranged_u64(number: u64)
    ensures { IsTrue (nat_lt number (2 ^ 64)) }
{
    let _ = number;
}

fn ranged_i64(number: i64)
    ensures { IsTrue (is_i64 number) }
{
    let _ = number;
}

fn ranged_u128(number: u128)
    ensures { IsTrue (nat_lt number (2 ^ 128)) }
{
    let _ = number;
}
