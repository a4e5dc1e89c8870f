//! The literals of queries.
ghost use Rattle.std.specs.Prelude.{◌≡◌, ℕ, ◌-◌, ◌^◌, Some, None, Option, true, false, IfOk, IsErrOf};
ghost use Rattle.std.specs.Option.{option_map, option_and_then, option_or};
ghost use Rattle.value_reading.specs.Numbers.{number_of, number_up_to, if_i64, span_of};
ghost use Rattle.query_literal.specs.Literals.{behind_byte, before_byte, int_literal, span_literal, time_literal, literal_read, moment_of};

use crate::moment::{before_byte, moment_of};
use std::alloc::Global;
use value_reading::{
    CellEnd, address_of, marked_port_of, number_up_to, span_of, subnet_of, with_sign,
};
use vast_value::Value;

fn behind_byte(byte: u8, text: &[u8]) -> Option<&[u8]>
    ensures { option_map (λ rest. rest.now) result ≡ behind_byte byte text.now }
{
    match text {
        [] => None,
        [first, rest @ ..] => { if *first == byte { Some(rest) } else { None } }
    }
}

// Digits behind a sign.
fn signed_by(sign: u8, negative: bool, word: &[u8]) -> Option<i64>
    ensures { result ≡ option_and_then (if_i64 negative) (option_and_then number_of (behind_byte sign word.now)) }
{
    let digits = behind_byte(sign, word)?;
    with_sign(negative, number_up_to(u64::MAX, digits)?)
}

fn int_in(word: &[u8]) -> Option<i64>
    ensures { option_map Value.Int result ≡ int_literal word.now }
{
    match signed_by(b'+', false, word) {
        Some(number) => Some(number),
        None => signed_by(b'-', true, word),
    }
}

fn span_in(word: &[u8]) -> Option<i64>
    ensures { option_map Value.Span result ≡ span_literal word.now }
{
    span_of(before_byte(b's', word)?)
}

fn time_in(word: &[u8]) -> Option<i64>
    ensures { option_map Value.Time result ≡ time_literal word.now }
{
    let text = behind_byte(b'@', word)?;
    match span_of(text) {
        Some(time) => Some(time),
        None => moment_of(text),
    }
}

#[tactic(auto, unfolding(crate::specs::Literals::literal_read))]
fn literal_of(word: &[u8]) -> Option<Value>
    ensures { result ≡ literal_read word.now }
{
    if let Some(number) = number_up_to(u64::MAX, word) {
        return Some(Value::Count(number));
    }
    if let Some(number) = int_in(word) {
        return Some(Value::Int(number));
    }
    if let Some(span) = span_in(word) {
        return Some(Value::Span(span));
    }
    if let Some((number, over)) = marked_port_of(word) {
        return Some(Value::Port { number, over });
    }
    if let Some(address) = address_of(word) {
        return Some(Value::Addr(address));
    }
    if let Some(net) = subnet_of(word) {
        return Some(Value::Subnet(net));
    }
    Some(Value::Time(time_in(word)?))
}

/// The value of a query's literal: digits are a count; digits behind a sign an int; seconds with an `s` behind them an
/// interval; digits with `/?`, `/tcp`, `/udp` or `/icmp` behind them a port; an address; a subnet; `@` and seconds or a moment (as
/// [`read_moment`](crate::read_moment) reads it) a time. Texts, bools and `nil` are no literals here. It takes no
/// memory.
pub fn read_literal(_alloc: Global, word: &str) -> Result<Value, CellEnd>
    ensures value { IfOk result (λ value. literal_read word.now ≡ Some value) }
    ensures bad { IsErrOf result CellEnd.BadText → literal_read word.now ≡ None }
    ensures memory { IsErrOf result CellEnd.Memory → ⊥ }
{
    literal_of(word.as_bytes()).ok_or(CellEnd::BadText)
}
