//! Batches as bytes.
ghost use Rattle.std.specs.Prelude.{◌≡◌, ◌+◌, ◌≤◌, length, IsTrue, IfOk, IfErr};
ghost use Rattle.std.specs.Arc.{arc_value};
ghost use Rattle.event_batch.specs.declared.format.Format.TheVariants.{Second};
ghost use Rattle.event_batch.specs.declared.packed_end.PackedEnd.TheVariants.{NotABatch};
ghost use Rattle.event_batch.specs.Contents.{Spelled, content_of, is_content, is_spellable};
ghost use Rattle.event_batch.specs.Packings.{IsSpelled};
ghost use Rattle.event_batch.specs.Spelling.{spelling, Spells};

use crate::batch::Batch;
use crate::packed_end::PackedEnd;
use crate::place::{row_count_in, source_in};
use crate::reading::{batch_in, check_spelled};
use crate::steps::Steps;
use crate::writing::spell;
use std::alloc::{AllocError, Global};
use std::marker::Model;
use std::sync::Arc;
use std::sync::ledger::Ledger;
use vast_value::Bytes;

/// The bytes of one batch, in a block that may be shared.
///
/// Contracts see what the bytes say: a format, and a source, a heading and rows.
#[derive(Drop)]
pub struct Packed {
    block: Arc<Vec<u8>>,
}

impl Model for Packed {
    ghost use Rattle.std.specs.Arc.{arc_value};
    ghost use Rattle.event_batch.specs.Contents.{Spelled};
    ghost use Rattle.event_batch.specs.Packings.{said_in, IsSpelled};

    ghost Value = { Spelled };

    ghost view = { λ packed. said_in (arc_value packed.block).items };

    ghost invariant = { λ packed. IsSpelled (arc_value packed.block).items };
}

/// The bytes of the batch, in format 2. Each batch has one spelling.
pub fn encode(alloc: Global, batch: &Batch) -> Result<Packed, AllocError>
    ensures { IfOk result (λ packed. packed ≡ record { format = Second; content = content_of batch.now }) }
{
    let block = Arc::new(alloc, spell(alloc, batch)?)?;
    Ok(Packed { block })
}

/// The batch whose bytes these are. It counts one step, also where there is no memory for the batch.
pub fn unpack<L: Ledger>(
    alloc: Global,
    packed: &Packed,
    steps: &mut Steps<L>,
) -> Result<Batch, AllocError>
    ensures batch { IfOk result (λ batch. content_of batch ≡ packed.now.content) }
    ensures step { steps.new ≡ steps.old + 1 }
{
    steps.tick();
    packed.batch(alloc)
}

impl Packed {
    /// The batch that the bytes spell in format 1 or 2. The bytes come back with [`PackedEnd::NotABatch`] exactly where
    /// they spell none in either, and with [`PackedEnd::Memory`] where there was no memory.
    pub fn read(alloc: Global, bytes: Bytes) -> Result<Packed, (Bytes, PackedEnd)>
        ensures read { IfOk result (λ packed. Spells bytes packed) }
        ensures refused { IfErr result (λ refusal. refusal.1 ≡ NotABatch → (s : Spelled) → ¬ Spells bytes s) }
        ensures back { IfErr result (λ refusal. refusal.0 ≡ bytes) }
    {
        match read_block(alloc, bytes.as_slice()) {
            Ok(block) => Ok(Packed { block }),
            Err(end) => Err((bytes, end)),
        }
    }

    /// The bytes, which are the one spelling of the batch in their format.
    pub fn bytes(&self) -> &[u8]
        ensures { result.now ≡ spelling self.now }
    {
        self.block.as_slice()
    }

    /// The number of the batch's source.
    pub fn source(&self) -> u32
        ensures { result ≡ self.now.content.source }
    {
        source_in(self.block.as_slice())
    }

    /// The number of the batch's rows, 1 to 4,096.
    pub fn rows(&self) -> u32
        ensures count { result ≡ length self.now.content.rows }
        ensures some { 1 ≤ result }
        ensures content { IsTrue (is_content self.now.content) }
        ensures spellable { IsTrue (is_spellable self.now) }
    {
        row_count_in(self.block.as_slice())
    }

    /// The same batch. Both have their bytes in one block.
    pub fn share(&self) -> Result<Packed, AllocError>
        ensures { IfOk result (λ packed. packed ≡ self.now) }
    {
        let block = Arc::try_clone(&self.block)?;
        Ok(Packed { block })
    }

    fn batch(&self, alloc: Global) -> Result<Batch, AllocError>
        ensures { IfOk result (λ batch. content_of batch ≡ self.now.content) }
    {
        batch_in(alloc, self.block.as_slice())
    }
}

// A block of the bytes of a batch.
fn read_block(alloc: Global, bytes: &[u8]) -> Result<Arc<Vec<u8>>, PackedEnd>
    ensures spelled { IfOk result (λ block. IsSpelled (arc_value block).items) }
    ensures same { IfOk result (λ block. (arc_value block).items ≡ bytes.now) }
    ensures refused { IfErr result (λ end. end ≡ NotABatch → (s : Spelled) → ¬ Spells bytes.now s) }
{
    check_spelled(alloc, bytes)?;
    let mut block = Vec::with_capacity(alloc, bytes.len())?;
    block.extend_from_slice(bytes)?;
    Ok(Arc::new(alloc, block)?)
}
