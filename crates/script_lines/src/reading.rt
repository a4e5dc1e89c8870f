//! What a line asks for.
ghost use Rattle.std.specs.Prelude.{◌≡◌, None, Some, length, map, IfSome, MatchOption};
ghost use Rattle.std.specs.Option.{option_map};
ghost use Rattle.std.specs.Str.{IsUtf8};
ghost use Rattle.script_lines.specs.Lines.{Fits, asked, asked_by, bare, by_words, cut, is_in_range, is_skipped, limit_by, limit_to, most_of, number, of_batch, of_number, of_query, of_source, query_by, query_in, quantity_of, since, since_by, source_by, with_more};

use crate::line::{Line, Quantity};
use event_history::Mode;
use value_reading::number_up_to;

/// Whether a line is skipped: it has no bytes, or begins with `#`.
pub fn is_skipped(text: &[u8]) -> bool
    ensures { result ≡ is_skipped text.now }
{
    match text.first() {
        None => true,
        Some(&first) => first == b'#',
    }
}

/// What a line asks for. `None` comes exactly where it isn't in the grammar, and a limit is in its range.
pub fn read_line(text: &str) -> Option<Line<'_>>
    ensures asked { option_map asked_by result ≡ asked text.now }
    ensures fits { IfSome result (λ line. Fits (asked_by line)) }
{
    match cut(text) {
        None => bare(text),
        Some((word, more)) => with_more(word, more),
    }
}

// The first word, and what stands behind the space after it.
fn cut(text: &str) -> Option<(&str, &str)>
    ensures { option_map (λ words. (words.0.now, words.1.now)) result ≡ cut text.now }
{
    text.split_once(' ')
}

// A line of one word.
fn bare(word: &str) -> Option<Line<'_>>
    ensures asked { option_map asked_by result ≡ bare word.now }
    ensures fits { IfSome result (λ line. Fits (asked_by line)) }
{
    match word.as_bytes() {
        b"claim" => Some(Line::Claim),
        b"group" => Some(Line::Group),
        b"seal" => Some(Line::Seal),
        b"rows" => Some(Line::Rows),
        _ => None,
    }
}

// A line whose first word has something behind it.
fn with_more<'a>(word: &str, more: &'a str) -> Option<Line<'a>>
    ensures asked { option_map asked_by result ≡ with_more word.now more.now }
    ensures fits { IfSome result (λ line. Fits (asked_by line)) }
{
    let word = word.as_bytes();
    if word == b"source".as_slice() {
        source(more)
    } else if word == b"query".as_slice() {
        query(more)
    } else if word == b"limit".as_slice() {
        limit(more)
    } else {
        numbered(word, more)
    }
}

fn source(name: &str) -> Option<Line<'_>>
    ensures asked { option_map asked_by result ≡ source_by name.now }
    ensures fits { IfSome result (λ line. Fits (asked_by line)) }
{
    if name.is_empty() {
        None
    } else {
        Some(Line::Source { name })
    }
}

fn query(more: &str) -> Option<Line<'_>>
    ensures asked { option_map asked_by result ≡ query_by (cut more.now) }
    ensures fits { IfSome result (λ line. Fits (asked_by line)) }
{
    let (mode, text) = cut(more)?;
    query_in(mode.as_bytes(), text)
}

fn query_in<'a>(mode: &[u8], text: &'a str) -> Option<Line<'a>>
    ensures asked { option_map asked_by result ≡ query_in mode.now text.now }
    ensures fits { IfSome result (λ line. Fits (asked_by line)) }
{
    if mode == b"past".as_slice() {
        Some(Line::Query {
            mode: Mode::Past,
            text,
        })
    } else if mode == b"coming".as_slice() {
        Some(Line::Query {
            mode: Mode::Coming,
            text,
        })
    } else if mode == b"both".as_slice() {
        Some(Line::Query {
            mode: Mode::Both,
            text,
        })
    } else if mode == b"since".as_slice() {
        query_since(text)
    } else {
        None
    }
}

fn query_since(more: &str) -> Option<Line<'_>>
    ensures asked { option_map asked_by result ≡ since_by (cut more.now) }
    ensures fits { IfSome result (λ line. Fits (asked_by line)) }
{
    let (id, text) = cut(more)?;
    let from = number(id)?;
    Some(Line::Query {
        mode: Mode::Since { from },
        text,
    })
}

fn limit(more: &str) -> Option<Line<'static>>
    ensures asked { option_map asked_by result ≡ limit_by (cut more.now) }
    ensures fits { IfSome result (λ line. Fits (asked_by line)) }
{
    let (word, digits) = cut(more)?;
    let quantity = quantity(word.as_bytes())?;
    let number = number(digits)?;
    if 1 <= number && number <= quantity.most() {
        Some(Line::Limit { quantity, number })
    } else {
        None
    }
}

fn quantity(word: &[u8]) -> Option<Quantity>
    ensures { result ≡ quantity_of word.now }
{
    if word == b"rows".as_slice() {
        Some(Quantity::Rows)
    } else if word == b"batch".as_slice() {
        Some(Quantity::Batch)
    } else if word == b"group".as_slice() {
        Some(Quantity::Group)
    } else if word == b"cache".as_slice() {
        Some(Quantity::Cache)
    } else if word == b"queries".as_slice() {
        Some(Quantity::Queries)
    } else if word == b"inbox".as_slice() {
        Some(Quantity::Inbox)
    } else {
        None
    }
}

impl Quantity {
    /// The most that it may be limited to; the least is 1.
    pub fn most(self) -> u64
        ensures { result ≡ most_of self }
    {
        match self {
            Quantity::Rows => 1 << 32,
            Quantity::Batch => 4096,
            Quantity::Group | Quantity::Queries => 256,
            Quantity::Cache | Quantity::Inbox => 1024,
        }
    }
}

fn number(digits: &str) -> Option<u64>
    ensures { result ≡ number digits.now }
{
    number_up_to(u64::MAX, digits.as_bytes())
}

// A line of a word and a number.
fn numbered(word: &[u8], digits: &str) -> Option<Line<'static>>
    ensures asked { option_map asked_by result ≡ of_number word.now (number digits.now) }
    ensures fits { IfSome result (λ line. Fits (asked_by line)) }
{
    let number = number(digits)?;
    of_query(word, number)
}

fn of_query(word: &[u8], query: u64) -> Option<Line<'static>>
    ensures asked { option_map asked_by result ≡ of_query word.now query }
    ensures fits { IfSome result (λ line. Fits (asked_by line)) }
{
    if word == b"drain".as_slice() {
        Some(Line::Drain { query })
    } else if word == b"take".as_slice() {
        Some(Line::Take { query })
    } else if word == b"page".as_slice() {
        Some(Line::Page { query })
    } else if word == b"leave".as_slice() {
        Some(Line::Leave { query })
    } else {
        of_batch(word, query)
    }
}

fn of_batch(word: &[u8], batch: u64) -> Option<Line<'static>>
    ensures asked { option_map asked_by result ≡ of_batch word.now batch }
    ensures fits { IfSome result (λ line. Fits (asked_by line)) }
{
    if word == b"index".as_slice() {
        Some(Line::Index { batch })
    } else if word == b"unclaim".as_slice() {
        Some(Line::Unclaim { batch })
    } else if word == b"lose".as_slice() {
        Some(Line::Lose { batch })
    } else {
        of_source(word, batch)
    }
}

fn of_source(word: &[u8], source: u64) -> Option<Line<'static>>
    ensures asked { option_map asked_by result ≡ of_source word.now source }
    ensures fits { IfSome result (λ line. Fits (asked_by line)) }
{
    if word == b"accept".as_slice() {
        Some(Line::Accept { source })
    } else {
        None
    }
}
