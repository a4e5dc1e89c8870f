//! Merging the indexes of groups.
ghost use Rattle.std.specs.Prelude.{◌≡◌, ◌+◌, ◌*◌, ◌≤◌, ℕ, true, length, IfErr, IfOk, OnErr, OnOk};
ghost use Rattle.std.specs.Arc.{arc_value};
ghost use Rattle.event_history.specs.Choices.{is_waiting, next_group};
ghost use Rattle.event_history.specs.Histories.{batch_count, is_full, is_indexed, is_sealed, past};
ghost use Rattle.event_history.specs.Pieces.{group_piece, joined, piece_in};
ghost use Rattle.event_history.specs.Steps.{group_pieces};
ghost use Rattle.event_history.specs.Steps as s;
ghost use Rattle.history_core.specs.Replies.{GivesBackGroup, GivesGroup, GivesMergeable, IsGroupOf, Makes, MayMerge, MergesTo, Replies, claim_group_reply, publish_group_reply};
ghost use Rattle.history_core.specs.Searches.{AllSealed};
ghost use Rattle.history_core.specs.Stores.{seal_at};

use super::Store;
use crate::answers::{Fragments, Group, SealEnd};
use crate::kept::Seal;
use crate::shared::SharedSealed;
use event_history::{Deed, Entry};
use partition::{Fragment, Sealed};
use std::alloc::AllocError;
use std::sync::Arc;

impl Store {
    /// The least group whose batches are all indexed and that has no merged index. `None` comes exactly where there is
    /// none. The indexes of a group that is given may be merged, and joined they stand for its batches.
    pub fn claim_group(&self) -> Result<Option<Group>, AllocError>
        ensures step { Replies self.now s.ClaimGroup (claim_group_reply result) }
        ensures given { IfOk result (GivesGroup self.now) }
        ensures merged { IfOk result (MergesTo self.now) }
        ensures mergeable { IfOk result GivesMergeable }
    {
        let Some(number) = self.next_group() else {
            return Ok(None);
        };
        let fragments = self.fragments(number)?;
        Ok(Some(Group {
            number: number as u64,
            fragments,
        }))
    }

    /// Keeps the merged index of a group whose batches are all indexed. `AlreadySealed` comes exactly where the group has
    /// one.
    pub fn publish_group(
        &mut self,
        seat: u32,
        group: Group,
        sealed: Arc<Sealed>,
    ) -> Result<(), SealEnd>
        requires group { IsGroupOf self.old group }
        requires sealed { arc_value sealed ≡ joined group.fragments }
        ensures step { Makes self.old self.new seat (s.PublishGroup group.number) (publish_group_reply result) }
        ensures back { IfErr result (GivesBackGroup group sealed) }
    {
        let at = group.number as usize;
        if self.is_sealed(at) {
            return Err(SealEnd::AlreadySealed {
                group: group.number,
            });
        }
        if self.entries.reserve(1).is_err() || grow(&mut self.seals, at + 1).is_err() {
            return Err(SealEnd::Memory(group, sealed));
        }
        self.seals[at] = Seal {
            sealed: Some(SharedSealed::new(sealed)),
        };
        self.unsealed = first_unsealed(self.seals.as_slice(), self.unsealed);
        self.entries.push_reserved(Entry {
            seat,
            deed: Deed::Seal {
                group: group.number,
            },
        });
        Ok(())
    }

    fn next_group(&self) -> Option<usize>
        ensures { result ≡ next_group self.now.limits.group (past self.now.history) }
    {
        let groups = self.kept.len() / self.limits.group as usize;
        for number in self.unsealed..groups {
            if self.is_waiting(number) {
                return Some(number);
            }
        }
        None
    }

    fn is_waiting(&self, number: usize) -> bool
        requires { number * self.now.limits.group + self.now.limits.group ≤ batch_count (past self.now.history) }
        ensures { result ≡ is_waiting self.now.limits.group (past self.now.history) number }
    {
        !self.is_sealed(number) && self.is_full(number)
    }

    pub(super) fn is_sealed(&self, number: usize) -> bool
        ensures { result ≡ is_sealed number (past self.now.history) }
    {
        match self.seals.get(number) {
            Some(seal) => seal.sealed.is_some(),
            None => false,
        }
    }

    fn is_full(&self, number: usize) -> bool
        requires { number * self.now.limits.group + self.now.limits.group ≤ batch_count (past self.now.history) }
        ensures { result ≡ is_full self.now.limits.group number (past self.now.history) }
    {
        let size = self.limits.group as usize;
        let start = number * size;
        for i in 0..size {
            if !self.indexed((start + i) as u64) {
                return false;
            }
        }
        true
    }

    fn fragments(&self, number: usize) -> Result<Fragments, AllocError>
        requires { is_full self.now.limits.group number (past self.now.history) ≡ true }
        ensures pieces { IfOk result (λ f. f ≡ group_pieces (past self.now.history) (number * self.now.limits.group) self.now.limits.group) }
        ensures merged { IfOk result (λ f. joined f ≡ group_piece self.now.limits.group number (past self.now.history)) }
        ensures mergeable { IfOk result MayMerge }
    {
        let size = self.limits.group as usize;
        let start = number * size;
        let mut fragments = Fragments::new(self.alloc);
        for i in 0..size {
            fragments.push(self.fragment(start + i)?)?;
        }
        Ok(fragments)
    }

    /// A share of the index of an indexed batch.
    pub(super) fn fragment(&self, at: usize) -> Result<Arc<Fragment>, AllocError>
        requires { is_indexed at (past self.now.history) ≡ true }
        ensures { IfOk result (λ f. arc_value f ≡ piece_in (past self.now.history) at) }
    {
        let Some(index) = &self.kept[at].index else {
            unreachable!()
        };
        index.share()
    }
}

/// Room for so many groups, the new ones without an index.
fn grow(seals: &mut Vec<Seal>, count: usize) -> Result<(), AllocError>
    ensures same { (k : ℕ) → seal_at seals.new.items k ≡ seal_at seals.old.items k }
    ensures long { OnOk result (count ≤ length seals.new.items) }
    ensures kept { OnErr result (seals.new.items ≡ seals.old.items) }
{
    let have = seals.len();
    if count <= have {
        return Ok(());
    }
    seals.reserve(count - have)?;
    for _at in have..count {
        seals.push_reserved(Seal { sealed: None });
    }
    Ok(())
}

/// The first group from one on that has no index.
fn first_unsealed(seals: &[Seal], from: usize) -> usize
    ensures { AllSealed seals.now from result }
{
    for at in from..seals.len() {
        if seals[at].sealed.is_none() {
            return at;
        }
    }
    seals.len()
}
