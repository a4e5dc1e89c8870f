//! A script being played.
ghost use Rattle.std.specs.Prelude.{◌≡◌, ℕ, ◌≤◌, ◌+◌, ◌<◌, ◌++◌, ◌∷◌, [], List, Option, length, map, OnOk, OnErr, IfOk, IfErr};
ghost use Rattle.std.specs.Io.KnownBytes.{append_known};
ghost use Rattle.vast_io.specs.Causes.{HasCause};
ghost use Rattle.vast_io.specs.Told.{WritesPart};
ghost use Rattle.script_desk.specs.Desks.{Plays};
ghost use Rattle.script_lines.specs.Lines.{Accept, Source as SourceLine, asked_by};
ghost use Rattle.step_script.specs.Feeds.{IsFed, Outward};
ghost use Rattle.step_script.specs.Playing.{Playing, open_source, opened, played_by, reads_by, starting};
ghost use Rattle.step_script.specs.Runs.{Agree, Held, IsUnsent, Keeps, LineEnds, Opens, PlaysOn, RunEnds, SendsSome, Stands, Writes};
ghost use Rattle.step_script.specs.Scripts.{InRange};

use crate::feed::Feed;
use crate::settings::Settings;
use event_batch::Steps;
use history_core::Store;
use script_desk::{Desk, push_line};
use script_lines::Line;
use std::alloc::{AllocError, Global};
use std::marker::Model;
use std::sync::ledger::Ledger;
use vast_io::{Failed, OpenEnd, Opener, Sink, write_all};
use vast_value::Bytes;

/// A text of as many bytes is written.
const FULL: usize = 65_536;

/// Why the lines of a script are not played to the last.
#[derive(Clone, Copy)]
pub enum Stop<'a> {
    /// A name could not be opened.
    Unopened { name: &'a str },
    /// The sink failed.
    Unwritten,
    /// No memory was left.
    Memory,
}

/// The store with what is held, the sources, and what was replied and isn't written yet.
#[derive(Drop)]
pub struct Player<O: Opener> {
    alloc: Global,
    /// How many rows close a batch of a source.
    batch: u32,
    desk: Desk,
    feeds: Vec<Feed<O::Src>>,
    text: Bytes,
}

impl<O: Opener> Model for Player<O> {
    ghost use Rattle.std.specs.Prelude.{◌≤◌};
    ghost use Rattle.step_script.specs.Runs.{Held};
    ghost use Rattle.event_history.specs.contracts.entry.Entry as e;
    ghost use Rattle.event_history.specs.contracts.entry.Limits as l;
    ghost use Rattle.query_meaning.specs.contracts.expr.Expr as x;
    ghost use Rattle.std.specs.Coded.{codes};

    ghost Value = { Held O.Src };

    ghost coded = { Prim.hlevel (codes, e.the_row.coded, l.the_row.coded, x.the_row.coded, O.Src.code) };

    ghost view = { λ p. record { batch = p.batch; desk = p.desk; feeds = p.feeds.items; text = p.text } };

    ghost invariant = { λ p. (1 ≤ p.batch) × (p.batch ≤ 4096) };
}

impl<O: Opener> Player<O> {
    /// Before the first line.
    pub fn new(alloc: Global, settings: &Settings) -> Result<Player<O>, AllocError>
        requires { InRange settings.now }
        ensures { (told : List ℕ → Option (List ℕ)) → IfOk result (λ player. Stands (record { left = O.Src.left; faults = O.Src.faults }) told [] (starting settings.now) player) }
    {
        Ok(Player {
            alloc,
            batch: settings.batch,
            desk: Desk::new(alloc, settings.limits, settings.cache)?,
            feeds: Vec::new(alloc),
            text: Bytes::new(alloc),
        })
    }

    /// Plays the lines of a script in order.
    pub fn play_all<'a, K: Sink, L: Ledger>(
        &mut self,
        lines: &[Line<'a>],
        opener: &mut O,
        sink: &mut K,
        steps: &mut Steps<L>,
    ) -> Result<(), Stop<'a>>
        ensures runs { (told : List ℕ → Option (List ℕ)) (p : Playing) → Agree (O.bytes_of opener.old) told → Stands (record { left = O.Src.left; faults = O.Src.faults }) told [] p self.old → RunEnds (record { left = O.Src.left; faults = O.Src.faults }) result told (map asked_by lines.now) p self.new (K.written sink.old) (K.written sink.new) steps.old steps.new }
        ensures opens { Opens result (O.faults opener.old) (O.faults opener.new) }
        ensures writes { Writes result (K.faults sink.old) (K.faults sink.new) }
        ensures same { Agree (O.bytes_of opener.new) (O.bytes_of opener.old) }
    {
        for line in lines {
            self.play(*line, opener, steps)?;
            if self.send_full(sink).is_err() {
                return Err(Stop::Unwritten);
            }
        }
        Ok(())
    }

    // Plays a line.
    fn play<'a, L: Ledger>(
        &mut self,
        line: Line<'a>,
        opener: &mut O,
        steps: &mut Steps<L>,
    ) -> Result<(), Stop<'a>>
        ensures plays { (told : List ℕ → Option (List ℕ)) (sent : List ℕ) (p : Playing) → Agree (O.bytes_of opener.old) told → Stands (record { left = O.Src.left; faults = O.Src.faults }) told sent p self.old → LineEnds (record { left = O.Src.left; faults = O.Src.faults }) result told sent (asked_by line.entry) p self.new }
        ensures steps { steps.new ≤ steps.old + reads_by (asked_by line.entry) self.old.desk }
        ensures unsent { IsUnsent result }
        ensures opens { Opens result (O.faults opener.old) (O.faults opener.new) }
        ensures same { Agree (O.bytes_of opener.new) (O.bytes_of opener.old) }
    {
        match line {
            Line::Source { name } => self.open(name, opener),
            Line::Accept { source } => match self.accept(source) {
                Ok(()) => Ok(()),
                Err(_) => Err(Stop::Memory),
            },
            line => match play_at_desk(&mut self.desk, line, steps, &mut self.text) {
                Ok(()) => Ok(()),
                Err(_) => Err(Stop::Memory),
            },
        }
    }

    // `source NAME`: the name is opened.
    fn open<'a>(&mut self, name: &'a str, opener: &mut O) -> Result<(), Stop<'a>>
        ensures plays { (told : List ℕ → Option (List ℕ)) (sent : List ℕ) (p : Playing) → Agree (O.bytes_of opener.old) told → Stands (record { left = O.Src.left; faults = O.Src.faults }) told sent p self.old → LineEnds (record { left = O.Src.left; faults = O.Src.faults }) result told sent (SourceLine name.now) p self.new }
        ensures unsent { IsUnsent result }
        ensures opens { Opens result (O.faults opener.old) (O.faults opener.new) }
        ensures same { Agree (O.bytes_of opener.new) (O.bytes_of opener.old) }
    {
        let number = self.feeds.len() + 1;
        let Ok(small) = u32::try_from(number) else {
            return Err(Stop::Memory);
        };
        let Ok(copy) = copy_of(self.alloc, name) else {
            return Err(Stop::Memory);
        };
        match opener.open_one(self.alloc, name) {
            Ok(source) => {
                let feed = Feed::new(self.alloc, small, self.batch, copy, source);
                match self.begin(feed, small) {
                    Ok(()) => Ok(()),
                    Err(_) => Err(Stop::Memory),
                }
            }
            Err(OpenEnd::Failed) => Err(Stop::Unopened { name }),
            Err(OpenEnd::Memory) => Err(Stop::Memory),
        }
    }

    // A source that was opened is told.
    fn begin(&mut self, feed: Feed<O::Src>, number: u32) -> Result<(), AllocError>
        requires { number ≡ length self.old.feeds + 1 }
        ensures { (told : List ℕ → Option (List ℕ)) (sent : List ℕ) (p : Playing) → Stands (record { left = O.Src.left; faults = O.Src.faults }) told sent p self.old → IsFed (record { left = O.Src.left; faults = O.Src.faults }) told p.batch (opened number feed.name) feed → OnOk result (Stands (record { left = O.Src.left; faults = O.Src.faults }) told sent (open_source feed.name p) self.new) }
    {
        self.feeds.push(feed)?;
        push_line(b"source ", u64::from(number), &mut self.text)
    }

    // `accept S`: the next batch of a source is offered to the store.
    fn accept(&mut self, source: u64) -> Result<(), AllocError>
        ensures { (told : List ℕ → Option (List ℕ)) (sent : List ℕ) (p : Playing) → Stands (record { left = O.Src.left; faults = O.Src.faults }) told sent p self.old → OnOk result (PlaysOn (record { left = O.Src.left; faults = O.Src.faults }) told sent (Accept source) p self.new) }
    {
        if source == 0 || source > self.feeds.len() as u64 {
            return push_line(b"no source ", source, &mut self.text);
        }
        self.feeds[(source - 1) as usize].accept(&mut self.desk, &mut self.text)
    }

    // Writes the text where there is much of it.
    fn send_full<K: Sink>(&mut self, sink: &mut K) -> Result<(), Failed>
        ensures sends { OnOk result (SendsSome self.old self.new (K.written sink.old) (K.written sink.new)) }
        ensures keeps { Keeps self.old self.new }
        ensures part { WritesPart (K.written sink.old) (K.written sink.new) self.old.text }
        ensures cause { HasCause (K.faults sink.old) (K.faults sink.new) result }
    {
        if self.text.as_slice().len() < FULL {
            return Ok(());
        }
        self.send(sink)
    }

    /// Writes the text.
    pub fn send<K: Sink>(&mut self, sink: &mut K) -> Result<(), Failed>
        ensures whole { OnOk result (K.written sink.new ≡ append_known (K.written sink.old) self.old.text) }
        ensures sends { OnOk result (SendsSome self.old self.new (K.written sink.old) (K.written sink.new)) }
        ensures keeps { Keeps self.old self.new }
        ensures part { WritesPart (K.written sink.old) (K.written sink.new) self.old.text }
        ensures cause { HasCause (K.faults sink.old) (K.faults sink.new) result }
    {
        write_all(sink, self.text.as_slice())?;
        self.text.truncate(0);
        Ok(())
    }
}

impl<O: Opener> Player<O> {
    /// The store, the sources, and what is held of the text.
    pub fn into_parts(self) -> (Store, Vec<Feed<O::Src>>, Bytes)
        ensures store { result.0 ≡ record { limits = self.desk.limits; history = self.desk.history } }
        ensures feeds { result.1.items ≡ self.feeds }
        ensures text { result.2 ≡ self.text }
    {
        (self.desk.into_store(), self.feeds, self.text)
    }
}

// The bytes of a name.
fn copy_of(alloc: Global, name: &str) -> Result<Bytes, AllocError>
    ensures { IfOk result (λ copy. copy ≡ name.now) }
{
    let mut copy = Bytes::new(alloc);
    copy.append(name.as_bytes())?;
    Ok(copy)
}

// A line that speaks of the store alone.
fn play_at_desk<'a, L: Ledger>(
    desk: &mut Desk,
    line: Line<'a>,
    steps: &mut Steps<L>,
    out: &mut Bytes,
) -> Result<(), AllocError>
    ensures plays { OnOk result (Plays (played_by (asked_by line.entry) desk.old) desk.new out.old out.new) }
    ensures steps { steps.new ≤ steps.old + reads_by (asked_by line.entry) desk.old }
{
    match line {
        Line::Claim => desk.claim(out),
        Line::Unclaim { batch } => desk.unclaim(batch, out),
        Line::Lose { batch } => desk.lose(batch, out),
        Line::Index { batch } => desk.index(batch, steps, out),
        Line::Group => desk.group(out),
        Line::Seal => desk.seal(out),
        Line::Query { mode, text } => desk.query(mode, text, out),
        Line::Take { query } => desk.take(query, out),
        Line::Page { query } => desk.page(query, steps, out),
        Line::Drain { query } => desk.drain(query, steps, out),
        Line::Leave { query } => desk.leave(query, out),
        Line::Rows => desk.rows(out),
        Line::Limit { .. } | Line::Source { .. } | Line::Accept { .. } => out.push(b'\n'),
    }
}
