//! The lines of a script.
ghost use Rattle.std.specs.Prelude.{◌≡◌, ◌≤◌, ◌^◌, None, Some, false, length, map, IfOk, IfSome, MatchOption};
ghost use Rattle.std.specs.Option.{option_copied, option_map};
ghost use Rattle.script_lines.specs.Lines.{Fits, Limit, asked_by};
ghost use Rattle.zeek_log.specs.Cuts.{SplitsPiece};
ghost use Rattle.step_script.specs.Reading.{Takes, script_seen};
ghost use Rattle.step_script.specs.Scripts.{InRange, asked_in, is_limit, script_of};

use crate::settings::Settings;
use memchr::memchr;
use script_lines::{Line, Quantity, is_skipped, read_line};
use std::alloc::{AllocError, Global};
use std::str;

/// What a script says.
#[derive(Drop)]
pub struct Script<'a> {
    pub settings: Settings,
    /// The lines behind the limits, up to the first that isn't one.
    pub lines: Vec<Line<'a>>,
    /// The number of the first line that isn't one, from 1.
    pub bad: Option<u64>,
}

/// Reads a script of at most 1,048,576 bytes.
pub fn read_script<'a>(alloc: Global, bytes: &'a [u8]) -> Result<Script<'a>, AllocError>
    requires { length bytes.now ≤ 2 ^ 20 }
    ensures script { IfOk result (λ s. script_seen s.settings s.lines.items s.bad ≡ script_of bytes.now) }
    ensures range { IfOk result (λ s. InRange s.settings) }
{
    let mut script = Script {
        settings: Settings::usual(),
        lines: Vec::new(alloc),
        bad: None,
    };
    let mut rest = Some(bytes);
    let mut number = 0;
    while let Some(text) = rest {
        let (line, more) = first_line(text);
        number += 1;
        if !script.take(number, line)? {
            break;
        }
        rest = more;
    }
    Ok(script)
}

impl<'a> Script<'a> {
    // Takes a line, and answers whether the script goes on.
    #[tactic(auto, using(crate::proofs::ScriptLemmas::bad_limit))]
    fn take(&mut self, number: u64, text: &'a [u8]) -> Result<bool, AllocError>
        requires range { InRange self.old.settings }
        requires good { self.old.bad ≡ None }
        ensures takes { IfOk result (λ goes. Takes goes (script_seen self.old.settings self.old.lines.items self.old.bad) (script_seen self.new.settings self.new.lines.items self.new.bad) number text.now) }
        ensures range { IfOk result (λ goes. InRange self.new.settings) }
    {
        if is_skipped(text) {
            return Ok(true);
        }
        let Some(line) = line_in(text) else {
            self.bad = Some(number);
            return Ok(false);
        };
        match limit_in(&line) {
            None => self.lines.push(line)?,
            Some((quantity, most)) => {
                if !self.lines.is_empty() {
                    self.bad = Some(number);
                    return Ok(false);
                }
                self.settings.set(quantity, most);
            }
        }
        Ok(true)
    }
}

// The limit that a line is, if it is one.
fn limit_in(line: &Line<'_>) -> Option<(Quantity, u64)>
    ensures { MatchOption result (is_limit (Some (asked_by line.now)) ≡ false) (λ limit. asked_by line.now ≡ Limit limit.0 limit.1) }
{
    match *line {
        Line::Limit { quantity, number } => Some((quantity, number)),
        _ => None,
    }
}

// What a text asks for.
fn line_in(text: &[u8]) -> Option<Line<'_>>
    ensures asked { option_map asked_by result ≡ asked_in text.now }
    ensures fits { IfSome result (λ line. Fits (asked_by line)) }
{
    match str::from_utf8(text) {
        Ok(text) => read_line(text),
        Err(_) => None,
    }
}

// The first line of a text, and what stands behind its newline.
fn first_line(text: &[u8]) -> (&[u8], Option<&[u8]>)
    ensures { SplitsPiece 10 text.now result.0.now (option_copied result.1) }
{
    let Some(at) = memchr(b'\n', text) else {
        return (text, None);
    };
    let (line, behind) = text.split_at(at);
    let (_, rest) = behind.split_at(1);
    (line, Some(rest))
}
