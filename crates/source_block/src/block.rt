//! The bytes that were taken of a source and not let go yet.
ghost use Rattle.std.specs.Prelude.{◌≡◌, ◌≤◌, ◌+◌, [], length, drop, max, IfOk};
ghost use Rattle.source_block.specs.Holding.{most_bytes};
ghost use Rattle.source_block.specs.Taking.{Takes, Tells, Fills, Counts};

use crate::buffer::{BLOCK, MOST_BYTES, make_room, read_some, zeros};
use crate::stop::{Stop, Took};
use std::alloc::{AllocError, Global};
use std::marker::Model;
use vast_io::Source;

/// The bytes of a source that were taken and not let go yet.
///
/// Contracts see these bytes, how many were taken in all (at most 2^36), and how many bytes of memory are kept for them.
#[derive(Drop)]
pub struct Block {
    buffer: Vec<u8>,
    start: usize,
    end: usize,
    taken: u64,
    alloc: Global,
}

impl Model for Block {
    ghost use Rattle.std.specs.Prelude.{◌≤◌, length};
    ghost use Rattle.source_block.specs.Holding.{Hold, hold, most_bytes};

    ghost Value = { Hold };

    ghost view = { λ b. hold b.buffer.items b.start b.end b.taken };

    ghost invariant = { λ b. (b.start ≤ b.end) × (b.end ≤ length b.buffer.items) × (b.taken ≤ most_bytes) };
}

impl Block {
    /// No bytes, with memory for 65,536.
    pub fn new(alloc: Global) -> Result<Self, AllocError>
        ensures { IfOk result (λ block. block ≡ record { bytes = []; taken = 0; kept = 65536 }) }
    {
        let buffer = zeros(alloc, BLOCK)?;
        Ok(Block {
            buffer,
            start: 0,
            end: 0,
            taken: 0,
            alloc,
        })
    }

    /// The bytes that are held.
    pub fn as_slice(&self) -> &[u8]
        ensures { result.now ≡ self.now.bytes }
    {
        let (front, _) = self.buffer.as_slice().split_at(self.end);
        let (_, held) = front.split_at(self.start);
        held
    }

    /// Lets the first bytes go.
    #[tactic(auto, using(crate::proofs::BufferLemmas::drop_more))]
    pub fn skip(&mut self, count: usize)
        requires { count ≤ length self.old.bytes }
        ensures { self.new ≡ record { bytes = drop count self.old.bytes; taken = self.old.taken; kept = self.old.kept } }
    {
        self.start += count;
    }

    /// Takes some bytes of a source, at least one where `Enough` is answered, and nothing where memory is wanting.
    pub fn take<S: Source>(&mut self, source: &mut S) -> Result<Took, AllocError>
        ensures takes { Takes self.old self.new (S.left source.old) (S.left source.new) }
        ensures tells { Tells result self.old self.new (S.left source.new) }
        ensures counts { Counts result (S.faults source.old) (S.faults source.new) }
        ensures room { self.new.taken ≤ most_bytes }
        ensures kept { self.new.kept ≤ max self.old.kept (length self.old.bytes + 65536) }
    {
        if self.taken == MOST_BYTES {
            return Ok(Took::Stopped(Stop::AtBound));
        }
        make_room(self.alloc, &mut self.buffer, &mut self.start, &mut self.end)?;
        Ok(read_some(
            source,
            self.buffer.as_mut_slice(),
            self.start,
            &mut self.end,
            &mut self.taken,
        ))
    }

    /// Takes bytes of a source until `need` are held.
    #[tactic(auto, using(crate::proofs::TakeLemmas::takes_more, crate::proofs::TakeLemmas::takes_nothing))]
    pub fn fill<S: Source>(&mut self, source: &mut S, need: usize) -> Result<Took, AllocError>
        ensures takes { Takes self.old self.new (S.left source.old) (S.left source.new) }
        ensures fills { Fills result need self.new (S.left source.new) }
        ensures counts { Counts result (S.faults source.old) (S.faults source.new) }
        ensures room { self.new.taken ≤ most_bytes }
        ensures kept { self.new.kept ≤ max self.old.kept (need + 65536) }
    {
        // A look at a field makes what always holds of a block known before the loop: that no more than the bound was taken.
        let _ = &self.taken;
        while self.as_slice().len() < need {
            match self.take(source)? {
                Took::Enough => {}
                stopped => return Ok(stopped),
            }
        }
        Ok(Took::Enough)
    }
}
