//! The cache.
ghost use Rattle.std.specs.Prelude.{◌≡◌, ◌+◌, ◌≤◌, [], is_some, length, IfOk, OnOk, OnErr};
ghost use Rattle.std.specs.Arc.{arc_value};
ghost use Rattle.event_batch.specs.Contents.{content_of};
ghost use Rattle.archive_cache.specs.Caches.{IsCache, Agrees, after_ask, decodings, kept_as};

use event_batch::{Batch, Packed, Steps, unpack};
use lru::LruCache;
use std::alloc::{AllocError, Global};
use std::marker::Model;
use std::num::NonZeroUsize;
use std::sync::Arc;
use std::sync::ledger::Ledger;

/// Decoded batches by their numbers, of which those asked for last are kept.
///
/// Contracts see its size and its entries: the number and the content of each batch, the one asked for last in front.
#[derive(Drop)]
pub struct Cache {
    alloc: Global,
    batches: LruCache<u64, Arc<Batch>>,
}

impl Model for Cache {
    ghost use Rattle.archive_cache.specs.Caches.{Caching};
    ghost use Rattle.archive_cache.specs.Contents.{caching_of};

    ghost Value = { Caching };

    ghost view = { λ cache. caching_of cache.batches };
}

impl Cache {
    /// A cache that keeps at most so many batches, at least 1. It takes memory for what it keeps alone.
    pub fn new(alloc: Global, batches: u32) -> Result<Cache, AllocError>
        requires { 1 ≤ batches }
        ensures { IfOk result (λ cache. cache ≡ record { size = batches; entries = [] }) }
    {
        let size = NonZeroUsize::new(batches as usize).unwrap();
        let batches = LruCache::sparse(alloc, size)?;
        Ok(Cache { alloc, batches })
    }

    /// How many batches are kept.
    pub fn len(&self) -> usize
        ensures count { result ≡ length self.now.entries }
        ensures sound { IsCache self.now }
    {
        self.batches.len()
    }

    /// Whether a batch is kept.
    pub fn keeps(&self, number: u64) -> bool
        ensures { result ≡ is_some (kept_as number self.now) }
    {
        self.batches.peek(&number).is_some()
    }

    /// The batch of this number, whose bytes are `packed`. A batch that is kept is answered as it is; another is decoded,
    /// which counts one step, also where there is no memory. Where it is answered it stands in front, and of a full cache
    /// the last entry is gone. Where there is no memory the entries stay.
    pub fn get<L: Ledger>(
        &mut self,
        number: u64,
        packed: &Packed,
        steps: &mut Steps<L>,
    ) -> Result<Arc<Batch>, AllocError>
        requires { Agrees number packed.now.content self.old }
        ensures batch { IfOk result (λ batch. content_of (arc_value batch) ≡ packed.now.content) }
        ensures entries { OnOk result (self.new ≡ after_ask number packed.now.content self.old) }
        ensures kept { OnErr result (self.new ≡ self.old) }
        ensures step { steps.new ≡ steps.old + decodings number self.old }
    {
        // What always holds of the entries is known once they are counted.
        let _ = self.batches.len();
        match self.batches.peek(&number) {
            Some(kept) => {
                let batch = Arc::try_clone(kept)?;
                self.batches.promote(&number);
                Ok(batch)
            }
            None => {
                let batch = Arc::new(self.alloc, unpack(self.alloc, packed, steps)?)?;
                let share = Arc::try_clone(&batch)?;
                self.batches.put(number, share)?;
                Ok(batch)
            }
        }
    }
}
