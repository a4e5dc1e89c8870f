//! The lines that print pages.
ghost use Rattle.std.specs.Prelude.{◌≡◌, ◌≤◌, ◌+◌, true, None, Some, is_some, IfErr, IfOk, List, MatchOption, OnOk};
ghost use Rattle.event_history.specs.declared.entry.Entry.{Entry};
ghost use Rattle.history_core.specs.Snapshots.{Snapshot};
ghost use Rattle.exporter.specs.Asks.{AgreesWith};
ghost use Rattle.exporter.specs.Finished.{IsPage};
ghost use Rattle.script_desk.specs.Desks.{Plays, drain_reads, held_of_query, play_drain, play_page, reads_of, take_of};
ghost use Rattle.script_desk.specs.Kept.{HoldsAccepted, KeepsAccepted, batches_in, query_of, take_in};

use crate::desk::{Desk, Hold};
use crate::page_text::push_page;
use crate::replies::push_line;
use archive_cache::Cache;
use event_batch::Steps;
use exporter::{Page, finish};
use std::alloc::{AllocError, Global};
use std::mem;
use std::sync::ledger::Ledger;
use vast_value::Bytes;

impl Desk {
    /// `page Q`: prints the page of a held take, whose session is then free. Each batch that is decoded counts one step, and
    /// only those are that the page has to read.
    pub fn page<L: Ledger>(
        &mut self,
        query: u64,
        steps: &mut Steps<L>,
        out: &mut Bytes,
    ) -> Result<(), AllocError>
        ensures plays { OnOk result (Plays (play_page query self.old) self.new out.old out.new) }
        ensures steps { steps.new ≤ steps.old + reads_of (take_of query self.old) }
    {
        match self.taken_place(query) {
            None => push_line(b"no page ", query, out),
            Some(at) => self.page_at(at, query, steps, out),
        }
    }

    /// `drain Q`: takes what a query is to be told, and prints its page. Each batch that is decoded counts one step, and only
    /// those are that the page has to read.
    pub fn drain<L: Ledger>(
        &mut self,
        query: u64,
        steps: &mut Steps<L>,
        out: &mut Bytes,
    ) -> Result<(), AllocError>
        ensures plays { OnOk result (Plays (play_drain query self.old) self.new out.old out.new) }
        ensures steps { steps.new ≤ steps.old + drain_reads query self.old (held_of_query self.old.queries query) }
    {
        let Some(at) = self.free_place(query) else {
            return push_line(b"no session ", query, out);
        };
        if self.take_at(at, query)? {
            self.page_at(at, query, steps, out)
        } else {
            push_line(b"already left ", query, out)
        }
    }

    // The place of a query whose take is held.
    fn taken_place(&self, query: u64) -> Option<usize>
        ensures { MatchOption result (take_of query self.now ≡ None) (λ at. (at + 1 ≡ query) × (is_some (take_of query self.now) ≡ true)) }
    {
        if query == 0 || query > self.queries.len() as u64 {
            return None;
        }
        let at = (query - 1) as usize;
        match &self.queries[at] {
            Hold::Taken(_) => Some(at),
            _ => None,
        }
    }

    fn page_at<L: Ledger>(
        &mut self,
        at: usize,
        query: u64,
        steps: &mut Steps<L>,
        out: &mut Bytes,
    ) -> Result<(), AllocError>
        requires place { at + 1 ≡ query }
        requires taken { is_some (take_of query self.old) ≡ true }
        ensures plays { OnOk result (Plays (play_page query self.old) self.new out.old out.new) }
        ensures steps { steps.new ≤ steps.old + reads_of (take_of query self.old) }
    {
        let page = finish_hold(self.alloc, &mut self.queries[at], &mut self.cache, steps)?;
        push_page(query, &page, out)
    }
}

// The page of the take that is held, whose session is then free. Where memory is wanting the take is still held.
fn finish_hold<L: Ledger>(
    alloc: Global,
    hold: &mut Hold,
    cache: &mut Cache,
    steps: &mut Steps<L>,
) -> Result<Page, AllocError>
    requires taken { is_some (take_in hold.old) ≡ true }
    requires agree { AgreesWith (batches_in (take_in hold.old)) cache.old }
    ensures page { IfOk result (λ page. (x : Snapshot) → take_in hold.old ≡ Some x → IsPage x cache.old page) }
    ensures free { IfOk result (λ page. take_in hold.new ≡ None) }
    ensures back { IfErr result (λ e. take_in hold.new ≡ take_in hold.old) }
    ensures of { query_of hold.new ≡ query_of hold.old }
    ensures steps { steps.new ≤ steps.old + reads_of (take_in hold.old) }
    ensures accepted { (before : List Entry) → HoldsAccepted before hold.old → HoldsAccepted before hold.new }
    ensures cache { (before : List Entry) → HoldsAccepted before hold.old → KeepsAccepted before cache.old → KeepsAccepted before cache.new }
{
    let Hold::Taken(taken) = mem::replace(hold, Hold::Moved) else {
        unreachable!()
    };
    match finish(alloc, taken, cache, steps) {
        Ok((session, page)) => {
            *hold = Hold::Session(session);
            Ok(page)
        }
        Err((taken, _)) => {
            *hold = Hold::Taken(taken);
            Err(AllocError)
        }
    }
}
