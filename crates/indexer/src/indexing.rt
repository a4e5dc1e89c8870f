//! The work between a claim and its index, and between a group and its merged index.
ghost use Rattle.std.specs.Prelude.{◌≡◌, ◌+◌, IfOk};
ghost use Rattle.std.specs.Arc.{arc_value};
ghost use Rattle.event_history.specs.Pieces.{joined};
ghost use Rattle.history_core.specs.Replies.{MayMerge, claimed_piece};

use event_batch::{Steps, unpack};
use history_core::{Claim, Group};
use partition::{Fragment, Sealed};
use std::alloc::{AllocError, Global};
use std::sync::Arc;
use std::sync::ledger::Ledger;

/// The index of a claimed batch, which is decoded once: one step, also where there is no memory.
pub fn index_claim<L: Ledger>(
    alloc: Global,
    claim: &Claim,
    steps: &mut Steps<L>,
) -> Result<Arc<Fragment>, AllocError>
    ensures fragment { IfOk result (λ f. arc_value f ≡ claimed_piece claim.now) }
    ensures step { steps.new ≡ steps.old + 1 }
{
    let batch = unpack(alloc, &claim.packed, steps)?;
    let fragment = Fragment::build(alloc, claim.batch, claim.first, &batch)?;
    Ok(Arc::new(alloc, fragment)?)
}

/// The merged index of a group, which stands for what its indexes stand for. They are 1 to 256 of batches that follow each
/// other, as those of a group that a store gives.
pub fn seal_group(alloc: Global, group: &Group) -> Result<Arc<Sealed>, AllocError>
    requires { MayMerge group.now.fragments }
    ensures { IfOk result (λ s. arc_value s ≡ joined group.now.fragments) }
{
    let sealed = Sealed::merge(alloc, group.fragments.as_slice())?;
    Ok(Arc::new(alloc, sealed)?)
}
