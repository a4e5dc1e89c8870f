//! Claiming batches, and publishing their indexes.
ghost use Rattle.std.specs.Prelude.{◌≡◌, ◌<◌, ◌≤◌, false, length, slice_index_or, IfErr, IfOk, MatchOption};
ghost use Rattle.std.specs.Arc.{arc_value};
ghost use Rattle.event_history.specs.Histories.{batch_count, past};
ghost use Rattle.event_history.specs.Steps as s;
ghost use Rattle.history_core.specs.declared.kept.Kept.{Kept};
ghost use Rattle.history_core.specs.Replies.{IsClaim, GivesBackClaim, GivesClaim, Makes, Replies, claim_reply, claim_for_reply, claimed_piece, publish_reply, unclaim_reply};
ghost use Rattle.history_core.specs.Searches.{IsFirstFree, NoneFree};

use super::Store;
use crate::answers::{Claim, PublishEnd};
use crate::kept::Kept;
use crate::shared::SharedFragment;
use event_history::{Deed, Entry};
use partition::Fragment;
use std::alloc::AllocError;
use std::sync::Arc;

impl Store {
    /// Claims the least batch that is neither indexed nor claimed. `None` comes exactly where there is none, and then
    /// nothing is appended.
    pub fn claim(&mut self, seat: u32) -> Result<Option<Claim>, AllocError>
        ensures step { Makes self.old self.new seat s.Claim (claim_reply result) }
        ensures given { IfOk result (GivesClaim self.new) }
    {
        let Some(at) = next_free(self.kept.as_slice(), self.low) else {
            return Ok(None);
        };
        let first = self.kept[at].first;
        let packed = self.kept[at].packed.share()?;
        self.entries.reserve(1)?;
        let batch = at as u64;
        self.kept[at].marked = true;
        self.low = at + 1;
        self.entries.push_reserved(Entry {
            seat,
            deed: Deed::Claim { batch },
        });
        Ok(Some(Claim {
            batch,
            first,
            packed,
        }))
    }

    /// A claim on a batch that was accepted, whoever claimed it. It marks nothing.
    pub fn claim_for(&self, batch: u64) -> Result<Claim, AllocError>
        requires { batch < batch_count (past self.now.history) }
        ensures step { Replies self.now (s.ClaimFor batch) (claim_for_reply result) }
        ensures given { IfOk result (IsClaim self.now) }
    {
        let kept = &self.kept[batch as usize];
        Ok(Claim {
            batch,
            first: kept.first,
            packed: kept.packed.share()?,
        })
    }

    /// Gives a claim back.
    pub fn unclaim(&mut self, seat: u32, claim: Claim) -> Result<(), (Claim, AllocError)>
        requires { IsClaim self.old claim }
        ensures step { Makes self.old self.new seat (s.Unclaim claim.batch) (unclaim_reply result) }
        ensures back { IfErr result (λ e. e.0 ≡ claim) }
    {
        if self.entries.reserve(1).is_err() {
            return Err((claim, AllocError));
        }
        let at = claim.batch as usize;
        self.kept[at].marked = false;
        self.low = lesser(self.low, at);
        self.entries.push_reserved(Entry {
            seat,
            deed: Deed::Unclaim { batch: claim.batch },
        });
        Ok(())
    }

    /// Keeps the index of a claimed batch. `Already` comes exactly where the batch has one.
    pub fn publish(
        &mut self,
        seat: u32,
        claim: Claim,
        fragment: Arc<Fragment>,
    ) -> Result<(), PublishEnd>
        requires claim { IsClaim self.old claim }
        requires fragment { arc_value fragment ≡ claimed_piece claim }
        ensures step { Makes self.old self.new seat (s.Publish claim.batch) (publish_reply result) }
        ensures back { IfErr result (GivesBackClaim claim fragment) }
    {
        let at = claim.batch as usize;
        if self.kept[at].index.is_some() {
            return Err(PublishEnd::Already { batch: claim.batch });
        }
        if self.entries.reserve(1).is_err() {
            return Err(PublishEnd::Memory(claim, fragment));
        }
        self.kept[at].index = Some(SharedFragment::new(fragment));
        self.entries.push_reserved(Entry {
            seat,
            deed: Deed::Index { batch: claim.batch },
        });
        Ok(())
    }
}

/// The first batch from a place on that is neither indexed nor claimed.
fn next_free(kept: &[Kept], from: usize) -> Option<usize>
    ensures { MatchOption result (NoneFree kept.now from) (IsFirstFree kept.now from) }
{
    for at in from..kept.len() {
        let batch = &kept[at];
        if batch.index.is_none() && !batch.marked {
            return Some(at);
        }
    }
    None
}

fn lesser(low: usize, at: usize) -> usize
    ensures low { result ≤ low }
    ensures at { result ≤ at }
{
    if at < low { at } else { low }
}
