//! Moments of the calendar.
ghost use Rattle.std.specs.Prelude.{◌≡◌, ℕ, ℤ, pos, ◌+◌, ◌-◌, ◌*◌, ◌^◌, ◌<◌, ◌≤◌, ◌≤ℤ◌, ◌+ℤ◌, ◌*ℤ◌, neg_ℤ, length, take, drop, IfSome, Some, None, if◌then◌else◌, ◌&&◌};
ghost use Rattle.std.specs.Option.{option_map, option_and_then};
ghost use Rattle.jiff_core.specs.Calendar.{IsBetween, IsEpochDay, days_from_civil, days_in_month};
ghost use Rattle.query_literal.specs.Literals.{before_byte, digits_at, has_moment_marks, is_date, is_clock, day_of, second_of, part_of, if_i64_range, nanoseconds, plain_moment, moment_of};

use jiff_core::civil::{self, Date};
use value_reading::{few_digits, fraction_of};

/// The seconds of a day.
const DAY: i64 = 86_400;

/// What stands before a last `byte`, which is not 0.
pub(crate) fn before_byte(byte: u8, text: &[u8]) -> Option<&[u8]>
    requires { 0 < byte }
    ensures { option_map (λ front. front.now) result ≡ before_byte byte text.now }
{
    if text.is_empty() {
        return None;
    }
    if text[text.len() - 1] != byte {
        return None;
    }
    let (front, _) = text.split_at(text.len() - 1);
    Some(front)
}

// The number of a few digits.
#[tactic(auto, using(value_reading::proofs::NumberLemmas::four_digits))]
fn digits_at(at: usize, count: usize, text: &[u8]) -> Option<u32>
    requires few { count ≤ 4 }
    requires within { at + count ≤ length text.now }
    ensures value { result ≡ digits_at at count text.now }
    ensures below { IfSome result (λ n. n ≤ 9999) }
{
    let (_, behind) = text.split_at(at);
    let (digits, _) = behind.split_at(count);
    if digits.is_empty() {
        return None;
    }
    Some(few_digits(digits)? as u32)
}

fn has_moment_marks(text: &[u8]) -> bool
    ensures { result ≡ has_moment_marks text.now }
{
    if text.len() < 19 {
        return false;
    }
    text[4] == b'-'
        && (text[7] == b'-' && (text[10] == b'T' && (text[13] == b':' && text[16] == b':')))
}

fn is_date(year: u32, month: u32, day: u32) -> bool
    requires { year ≤ 9999 }
    ensures { result ≡ is_date year month day }
{
    if month < 1 {
        return false;
    }
    if month > 12 {
        return false;
    }
    if day < 1 {
        return false;
    }
    day <= civil::days_in_month(year as i16, month as u8) as u32
}

fn is_clock(hour: u32, minute: u32, second: u32) -> bool
    ensures { result ≡ is_clock hour minute second }
{
    hour <= 23 && (minute <= 59 && second <= 59)
}

fn day_number(year: u32, month: u32, day: u32) -> Option<i64>
    requires { year ≤ 9999 }
    ensures value { result ≡ (if is_date year month day then Some (days_from_civil (pos year) month day) else None) }
    ensures within { IfSome result IsEpochDay }
{
    if !is_date(year, month, day) {
        return None;
    }
    let date = Date {
        year: year as i16,
        month: month as u8,
        day: day as u8,
    };
    Some(date.to_unix_epoch_day() as i64)
}

fn day_of(text: &[u8]) -> Option<i64>
    requires { 19 ≤ length text.now }
    ensures value { result ≡ day_of text.now }
    ensures within { IfSome result IsEpochDay }
{
    let year = digits_at(0, 4, text)?;
    let month = digits_at(5, 2, text)?;
    let day = digits_at(8, 2, text)?;
    day_number(year, month, day)
}

fn second_of(text: &[u8]) -> Option<u32>
    requires { 19 ≤ length text.now }
    ensures value { result ≡ second_of text.now }
    ensures below { IfSome result (λ n. n < 86400) }
{
    let hour = digits_at(11, 2, text)?;
    let minute = digits_at(14, 2, text)?;
    let second = digits_at(17, 2, text)?;
    if !is_clock(hour, minute, second) {
        return None;
    }
    Some(hour * 3600 + minute * 60 + second)
}

fn part_of(text: &[u8]) -> Option<u64>
    ensures value { result ≡ part_of text.now }
    ensures below { IfSome result (λ n. n < 10 ^ 9) }
{
    match text {
        [] => Some(0),
        [_] => None,
        [first, digits @ ..] => {
            if *first == b'.' {
                fraction_of(digits)
            } else {
                None
            }
        }
    }
}

fn nanoseconds(day: i64, second: u32, part: u64) -> i128
    requires day { IsEpochDay day }
    requires second { second < 86400 }
    requires part { part < 10 ^ 9 }
    ensures { result ≡ nanoseconds day second part }
{
    let seconds = day * DAY + second as i64;
    seconds as i128 * 1_000_000_000 + part as i128
}

fn if_i64_range(number: i128) -> Option<i64>
    ensures { result ≡ if_i64_range number }
{
    if number < i64::MIN as i128 {
        return None;
    }
    if number > i64::MAX as i128 {
        return None;
    }
    Some(number as i64)
}

fn plain_moment(text: &[u8]) -> Option<i64>
    ensures { result ≡ plain_moment text.now }
{
    if !has_moment_marks(text) {
        return None;
    }
    let day = day_of(text)?;
    let second = second_of(text)?;
    let (_, rest) = text.split_at(19);
    let part = part_of(rest)?;
    if_i64_range(nanoseconds(day, second, part))
}

#[tactic(auto, unfolding(crate::specs::Literals::moment_of))]
pub(crate) fn moment_of(text: &[u8]) -> Option<i64>
    ensures { result ≡ moment_of text.now }
{
    plain_moment(before_byte(b'Z', text)?)
}

/// The nanoseconds since 1970-01-01T00:00:00Z of a moment `YYYY-MM-DDTHH:MM:SSZ`, with a point and one to nine digits
/// before the `Z` or without. It is `None` exactly where the text has another form, the Gregorian calendar has no such
/// day, the hour is above 23 or the minute or second above 59, or the nanoseconds are out of the range of 64 bits: the
/// first moment is 1677-09-21T00:12:43.145224192Z, and the last 2262-04-11T23:47:16.854775807Z.
pub fn read_moment(text: &str) -> Option<i64>
    ensures { result ≡ moment_of text.now }
{
    moment_of(text.as_bytes())
}
