//! The sources of a script.
ghost use Rattle.std.specs.Prelude.{◌≡◌, ℕ, ◌≤◌, ◌++◌, ◌∷◌, [], List, Option, None, Some, OnOk};
ghost use Rattle.event_history.specs.Steps as s;
ghost use Rattle.importer.specs.declared.ends.ImportEnd.{ImportEnd as End};
ghost use Rattle.script_desk.specs.Desks.{Plays, play_accept, step_at};
ghost use Rattle.step_script.specs.Feeds.{Accepts, IsFed, Outward, fed_tally};
ghost use Rattle.step_script.specs.Playing.{Source as Seen, after_offer, end_reply, ended_tally, opened};

use event_batch::{Packed, encode};
use importer::{How, Import, ImportEnd, SourceEnd};
use input_report::push_end;
use script_desk::{Desk, Refused, push_told};
use std::alloc::{AllocError, Global};
use std::marker::Model;
use vast_io::Source;
use vast_value::Bytes;

/// A source that is being read.
#[derive(Drop)]
pub struct Feed<S: Source> {
    alloc: Global,
    number: u32,
    name: Bytes,
    rows: u64,
    how: How,
    /// The batch that the store refused last.
    refused: Option<Packed>,
    import: Import<S>,
}

impl<S: Source> Model for Feed<S> {
    ghost use Rattle.step_script.specs.Feeds.{Fed};

    ghost Value = { Fed S };

    ghost view = { λ f. record { number = f.number; name = f.name; tally = record { rows = f.rows; how = f.how; refused = f.refused }; at = f.import.at; source = f.import.source } };
}

impl<S: Source> Feed<S> {
    /// A source that was opened, whose batches have at most `batch` rows: 1 to 4,096.
    pub fn new(alloc: Global, number: u32, batch: u32, name: Bytes, source: S) -> Feed<S>
        requires some { 1 ≤ batch }
        requires few { batch ≤ 4096 }
        ensures name { result.name ≡ name }
        ensures fed { (told : List ℕ → Option (List ℕ)) → told name ≡ S.left source → S.faults source ≡ 0 → IsFed (record { left = S.left; faults = S.faults }) told batch (opened number name) result }
    {
        Feed {
            alloc,
            number,
            name,
            rows: 0,
            how: How::Unread,
            refused: None,
            import: Import::start(alloc, number, batch, source),
        }
    }

    /// The next batch, or the one that was refused last, is offered to the store. At the end that is told.
    pub fn accept(&mut self, desk: &mut Desk, out: &mut Bytes) -> Result<(), AllocError>
        ensures { (told : List ℕ → Option (List ℕ)) (batch : ℕ) (x : Seen) → IsFed (record { left = S.left; faults = S.faults }) told batch x self.old → OnOk result (Accepts (record { left = S.left; faults = S.faults }) told batch x self.new desk.old desk.new out.old out.new) }
    {
        match self.refused.take() {
            Some(packed) => self.offer(packed, desk, out),
            None => self.accept_next(desk, out),
        }
    }

    // The next batch is offered.
    fn accept_next(&mut self, desk: &mut Desk, out: &mut Bytes) -> Result<(), AllocError>
        requires { self.old.tally.refused ≡ None }
        ensures { (told : List ℕ → Option (List ℕ)) (batch : ℕ) (x : Seen) → IsFed (record { left = S.left; faults = S.faults }) told batch x self.old → OnOk result (Accepts (record { left = S.left; faults = S.faults }) told batch x self.new desk.old desk.new out.old out.new) }
    {
        match self.import.next_batch() {
            Ok(Some(batch)) => {
                let packed = encode(self.alloc, &batch)?;
                self.offer(packed, desk, out)
            }
            Ok(None) => self.end(None, out),
            Err(end) => match end {
                ImportEnd::Memory => Err(AllocError),
                why => self.end(Some(why), out),
            },
        }
    }

    // A batch is offered.
    fn offer(&mut self, packed: Packed, desk: &mut Desk, out: &mut Bytes) -> Result<(), AllocError>
        requires { self.old.tally.refused ≡ None }
        ensures tally { OnOk result (self.new ≡ fed_tally self.old (after_offer packed (step_at desk.old (s.Accept packed)).reply self.old.tally)) }
        ensures plays { OnOk result (Plays (play_accept packed desk.old) desk.new out.old out.new) }
    {
        self.how = How::Unread;
        let count = u64::from(packed.rows());
        match desk.accept(packed, out)? {
            None => self.rows = self.rows.checked_add(count).ok_or(AllocError)?,
            Some(
                Refused {
                    packed,
                    have,
                    limit,
                },
            ) => {
                self.how = How::Full { have, limit };
                self.refused = Some(packed);
            }
        }
        Ok(())
    }

    // The end is told.
    fn end(&mut self, end: Option<ImportEnd>, out: &mut Bytes) -> Result<(), AllocError>
        ensures tally { OnOk result (self.new ≡ fed_tally self.old (ended_tally end self.old.tally)) }
        ensures told { OnOk result (out.new ≡ out.old ++ (end_reply self.old.number end ++ 10 ∷ [])) }
    {
        self.how = How::ended(end);
        push_told(b"end ", u64::from(self.number), out)?;
        out.push(b' ')?;
        push_end(end, out)?;
        out.push(b'\n')
    }

    /// How the source ended, and the source as it was left.
    pub fn into_end(self) -> SourceEnd<S>
        ensures { result ≡ record { source = self.number; name = self.name; rows = self.tally.rows; how = self.tally.how; rest = Some self.source } }
    {
        SourceEnd {
            source: self.number,
            name: self.name,
            rows: self.rows,
            how: self.how,
            rest: Some(self.import.into_source()),
        }
    }
}
