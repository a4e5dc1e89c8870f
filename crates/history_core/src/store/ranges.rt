//! The parts and batches of a range.
ghost use Rattle.std.specs.Prelude.{◌≡◌, ◌+◌, ◌*◌, ◌<◌, ◌≤◌, ◌++◌, ℕ, false, true, map, IfOk, OnOk};
ghost use Rattle.event_history.specs.Choices.{again_of, holds_up, reaches, stop_at};
ghost use Rattle.event_history.specs.Histories.{batch_count, first_of, is_indexed, is_sealed, past};
ghost use Rattle.event_history.specs.Pieces.{group_parts, group_piece, group_reaches, held_at, held_of, one_if, parts_of, piece_in, reached};
ghost use Rattle.history_core.specs.Snapshots.{spans};
ghost use Rattle.partition.specs.Parts.{piece_of};

use super::Store;
use crate::taken::Held;
use partition::Part;
use std::alloc::AllocError;

impl Store {
    /// Where a past range ends that may go as far as `high`, and the batch that it stops at, if there is one.
    pub(super) fn stop(&self, low: u64, high: u64) -> (u64, Option<u64>)
        ensures again { result.1 ≡ again_of low high (past self.now.history) }
        ensures end { result.0 ≡ stop_at low high (past self.now.history) (again_of low high (past self.now.history)) }
    {
        let (begin, end) = self.reach(low, high);
        for at in begin..end {
            if self.holds_up(low, high, at) {
                return (low.max(self.kept[at].first), Some(at as u64));
            }
        }
        (high, None)
    }

    /// The batches that have events in a range.
    pub(super) fn batches_over(&self, low: u64, high: u64) -> Result<Vec<Held>, AllocError>
        ensures { IfOk result (λ held. held.items ≡ held_of low high (past self.now.history)) }
    {
        let (begin, end) = self.reach(low, high);
        let mut held = Vec::new(self.alloc);
        for at in begin..end {
            self.push_held(&mut held, low, high, at)?;
        }
        Ok(held)
    }

    /// The parts of a range whose batches are all indexed.
    pub(super) fn parts_over(&self, low: u64, high: u64) -> Result<Vec<Part>, AllocError>
        requires { (b : ℕ) → reaches low high (past self.now.history) b ≡ true → is_indexed b (past self.now.history) ≡ true }
        ensures { IfOk result (λ parts. map piece_of parts.items ≡ parts_of self.now.limits.group low high (past self.now.history)) }
    {
        let (begin, end) = self.reach(low, high);
        let size = self.limits.group as usize;
        let mut parts = Vec::new(self.alloc);
        for number in begin / size..end / size + 1 {
            self.push_group(&mut parts, low, high, number)?;
        }
        Ok(parts)
    }

    fn push_held(
        &self,
        held: &mut Vec<Held>,
        low: u64,
        high: u64,
        at: usize,
    ) -> Result<(), AllocError>
        requires { at < batch_count (past self.now.history) }
        ensures { OnOk result (held.new.items ≡ held.old.items ++ held_at (reaches low high (past self.now.history) at) (past self.now.history) at) }
    {
        if !self.reaches(low, high, at) {
            return Ok(());
        }
        let kept = &self.kept[at];
        held.push(Held {
            no: at as u64,
            first: kept.first,
            packed: kept.packed.share()?,
        })?;
        Ok(())
    }

    fn push_group(
        &self,
        parts: &mut Vec<Part>,
        low: u64,
        high: u64,
        number: usize,
    ) -> Result<(), AllocError>
        requires ready { (b : ℕ) → reaches low high (past self.now.history) b ≡ true → is_indexed b (past self.now.history) ≡ true }
        requires begins { number * self.now.limits.group ≤ batch_count (past self.now.history) }
        ensures { OnOk result (map piece_of parts.new.items ≡ map piece_of parts.old.items ++ group_parts self.now.limits.group low high (past self.now.history) number) }
    {
        if self.is_sealed(number) {
            self.push_sealed(parts, low, high, number)
        } else {
            self.push_fragments(parts, low, high, number)
        }
    }

    fn push_sealed(
        &self,
        parts: &mut Vec<Part>,
        low: u64,
        high: u64,
        number: usize,
    ) -> Result<(), AllocError>
        requires { is_sealed number (past self.now.history) ≡ true }
        ensures { OnOk result (map piece_of parts.new.items ≡ map piece_of parts.old.items ++ one_if (group_reaches self.now.limits.group low high (past self.now.history) number) (group_piece self.now.limits.group number (past self.now.history))) }
    {
        let size = self.limits.group as usize;
        let start = number * size;
        if low.max(self.kept[start].first) >= high.min(self.kept[start + size - 1].end) {
            return Ok(());
        }
        let Some(sealed) = &self.seals[number].sealed else {
            unreachable!()
        };
        parts.push(Part::Many(sealed.share()?))?;
        Ok(())
    }

    fn push_fragments(
        &self,
        parts: &mut Vec<Part>,
        low: u64,
        high: u64,
        number: usize,
    ) -> Result<(), AllocError>
        requires ready { (b : ℕ) → reaches low high (past self.now.history) b ≡ true → is_indexed b (past self.now.history) ≡ true }
        requires begins { number * self.now.limits.group ≤ batch_count (past self.now.history) }
        ensures { OnOk result (map piece_of parts.new.items ≡ map piece_of parts.old.items ++ reached low high (past self.now.history) (number * self.now.limits.group) self.now.limits.group) }
    {
        let size = self.limits.group as usize;
        let start = number * size;
        for i in 0..size {
            self.push_fragment(parts, low, high, start + i)?;
        }
        Ok(())
    }

    fn push_fragment(
        &self,
        parts: &mut Vec<Part>,
        low: u64,
        high: u64,
        at: usize,
    ) -> Result<(), AllocError>
        requires ready { (b : ℕ) → reaches low high (past self.now.history) b ≡ true → is_indexed b (past self.now.history) ≡ true }
        ensures { OnOk result (map piece_of parts.new.items ≡ map piece_of parts.old.items ++ one_if (reaches low high (past self.now.history) at) (piece_in (past self.now.history) at)) }
    {
        if at >= self.kept.len() {
            return Ok(());
        }
        if !self.reaches(low, high, at) {
            return Ok(());
        }
        parts.push(Part::One(self.fragment(at)?))?;
        Ok(())
    }

    fn holds_up(&self, low: u64, high: u64, at: usize) -> bool
        requires { at < batch_count (past self.now.history) }
        ensures { result ≡ holds_up low high (past self.now.history) at }
    {
        self.kept[at].index.is_none() && self.reaches(low, high, at)
    }

    fn reaches(&self, low: u64, high: u64, at: usize) -> bool
        requires { at < batch_count (past self.now.history) }
        ensures { result ≡ reaches low high (past self.now.history) at }
    {
        let kept = &self.kept[at];
        low.max(kept.first) < high.min(kept.end)
    }

    /// Between which places the batches stand that may have events in a range.
    fn reach(&self, low: u64, high: u64) -> (usize, usize)
        ensures begins { result.0 ≤ batch_count (past self.now.history) }
        ensures ends { result.1 ≤ batch_count (past self.now.history) }
        ensures before { (b c : ℕ) → c ≤ result.0 → spans low high (past self.now.history) b c ≡ false }
        ensures after { (b c : ℕ) → result.1 ≤ b → spans low high (past self.now.history) b c ≡ false }
    {
        (
            self.place_of(low),
            self.kept.len().min(self.place_of(high) + 1),
        )
    }

    /// How many batches end at an id or before it: a search by halves.
    fn place_of(&self, id: u64) -> usize
        ensures within { result ≤ batch_count (past self.now.history) }
        ensures before { first_of result (past self.now.history) ≤ id }
        ensures after { result < batch_count (past self.now.history) → id < first_of (result + 1) (past self.now.history) }
    {
        let mut low = 0;
        let mut high = self.kept.len();
        while low < high {
            let middle = low + (high - low) / 2;
            if self.kept[middle].end <= id {
                low = middle + 1;
            } else {
                high = middle;
            }
        }
        low
    }
}
