//! The lines on claims and batches.
ghost use Rattle.std.specs.Prelude.{◌≡◌, ◌≤◌, ◌+◌, ◌<◌, length, slice_index_or, IfOk, MatchOption, OnOk};
ghost use Rattle.event_history.specs.Histories.{batch_count, past};
ghost use Rattle.history_core.specs.Replies.{IsClaimAt};
ghost use Rattle.event_history.specs.Steps as s;
ghost use Rattle.script_desk.specs.Desks.{Plays, moved, play_claim, play_index, play_lose, play_unclaim, without_claim};
ghost use Rattle.script_desk.specs.Kept.{IsFirstOn, NoneOn};

use crate::desk::{Desk, SEAT};
use crate::laws::kept_stays;
use crate::replies::{push_line, push_words};
use event_batch::Steps;
use history_core::{Claim, PublishEnd, given_stays};
use indexer::index_claim;
use std::alloc::AllocError;
use std::sync::ledger::Ledger;
use vast_value::Bytes;

impl Desk {
    /// `claim`: claims the next batch to index, and holds the claim.
    pub fn claim(&mut self, out: &mut Bytes) -> Result<(), AllocError>
        ensures { OnOk result (Plays (play_claim self.old) self.new out.old out.new) }
    {
        given_stays();
        kept_stays();
        self.claims.reserve(1)?;
        let end = self.store.claim(SEAT);
        let _ = self.store.entries();
        match end {
            Ok(None) => push_words(b"claim none", out),
            Ok(Some(claim)) => {
                let batch = claim.batch;
                self.claims.push_reserved(claim);
                push_line(b"claim ", batch, out)
            }
            Err(failed) => Err(failed),
        }
    }

    /// `unclaim B`: gives a held claim back.
    pub fn unclaim(&mut self, batch: u64, out: &mut Bytes) -> Result<(), AllocError>
        ensures { OnOk result (Plays (play_unclaim batch self.old) self.new out.old out.new) }
    {
        let Some(at) = claim_on(self.claims.as_slice(), batch) else {
            return push_line(b"no claim ", batch, out);
        };
        let claim = self.claims.remove(at);
        self.give_back(claim)?;
        push_line(b"unclaimed ", batch, out)
    }

    fn give_back(&mut self, claim: Claim) -> Result<(), AllocError>
        requires { IsClaimAt (past self.old.history) claim }
        ensures { OnOk result (self.new ≡ moved self.old (s.Unclaim claim.batch)) }
    {
        given_stays();
        kept_stays();
        if self.store.unclaim(SEAT, claim).is_err() {
            return Err(AllocError);
        }
        let _ = self.store.entries();
        Ok(())
    }

    /// `lose B`: drops a held claim, which the store doesn't see.
    pub fn lose(&mut self, batch: u64, out: &mut Bytes) -> Result<(), AllocError>
        ensures { OnOk result (Plays (play_lose batch self.old) self.new out.old out.new) }
    {
        let Some(at) = claim_on(self.claims.as_slice(), batch) else {
            return push_line(b"no claim ", batch, out);
        };
        let _claim = self.claims.remove(at);
        push_line(b"lost ", batch, out)
    }

    /// `index B`: indexes a batch with the held claim, or with one for it. A batch that has an index isn't decoded.
    pub fn index<L: Ledger>(
        &mut self,
        batch: u64,
        steps: &mut Steps<L>,
        out: &mut Bytes,
    ) -> Result<(), AllocError>
        ensures plays { OnOk result (Plays (play_index batch self.old) self.new out.old out.new) }
        ensures steps { steps.new ≤ steps.old + 1 }
    {
        given_stays();
        kept_stays();
        if batch >= self.store.batches() {
            return push_line(b"no batch ", batch, out);
        }
        let claim = self.claim_to_index(batch)?;
        if self.store.indexed(batch) {
            return push_line(b"already ", batch, out);
        }
        let fragment = index_claim(self.alloc, &claim, steps)?;
        if self.store.publish(SEAT, claim, fragment).is_err() {
            return Err(AllocError);
        }
        let _ = self.store.entries();
        push_line(b"indexed ", batch, out)
    }

    // The claim on a batch that is held, which is then held no more, or one for it.
    fn claim_to_index(&mut self, batch: u64) -> Result<Claim, AllocError>
        requires { batch < batch_count (past self.old.history) }
        ensures desk { IfOk result (λ claim. self.new ≡ without_claim batch self.old) }
        ensures of { IfOk result (λ claim. IsClaimAt (past self.old.history) claim) }
        ensures batch { IfOk result (λ claim. claim.batch ≡ batch) }
    {
        match claim_on(self.claims.as_slice(), batch) {
            Some(at) => Ok(self.claims.remove(at)),
            None => self.store.claim_for(batch),
        }
    }
}

// The place of the first claim on a batch.
fn claim_on(claims: &[Claim], batch: u64) -> Option<usize>
    ensures { MatchOption result (NoneOn claims.now batch) (IsFirstOn claims.now batch) }
{
    for at in 0..claims.len() {
        if claims[at].batch == batch {
            return Some(at);
        }
    }
    None
}
