//! Parts, which a query is asked of.
ghost use Rattle.std.specs.Prelude.{◌≡◌, length, IfOk};
ghost use Rattle.event_history.specs.Pieces.{piece_events};
ghost use Rattle.partition.specs.Asking.{maybe_bits, sure_bits};
ghost use Rattle.partition.specs.Parts.{piece_of};

use crate::fragment::Fragment;
use crate::sealed::Sealed;
use column_index::Pair;
use query_meaning::Test;
use std::alloc::{AllocError, Global};
use std::sync::Arc;

/// The index of some adjacent batches. `piece_of` says what it stands for.
#[derive(Drop)]
pub enum Part {
    /// Of one batch.
    One(Arc<Fragment>),
    /// Of a group of batches, merged.
    Many(Arc<Sealed>),
}

impl Part {
    /// The number of the first batch.
    pub fn first_batch(&self) -> u64
        ensures { result ≡ (piece_of self.now).batch }
    {
        match self {
            Part::One(fragment) => fragment.no(),
            Part::Many(sealed) => sealed.first_batch(),
        }
    }

    /// How many batches it is of.
    pub fn batches(&self) -> u64
        ensures { result ≡ length (piece_of self.now).contents }
    {
        match self {
            Part::One(fragment) => fragment.batches(),
            Part::Many(sealed) => sealed.batches(),
        }
    }

    /// The id of the first event.
    pub fn first(&self) -> u64
        ensures { result ≡ (piece_of self.now).first }
    {
        match self {
            Part::One(fragment) => fragment.first(),
            Part::Many(sealed) => sealed.first(),
        }
    }

    /// How many events the batches have.
    pub fn rows(&self) -> u64
        ensures { result ≡ length (piece_events (piece_of self.now)) }
    {
        match self {
            Part::One(fragment) => fragment.rows(),
            Part::Many(sealed) => sealed.rows(),
        }
    }

    /// The events that surely meet a test, and those that may.
    pub fn ask(&self, alloc: Global, test: &Test) -> Result<Pair, AllocError>
        ensures sure { IfOk result (λ pair. pair.sure ≡ sure_bits test.now (piece_events (piece_of self.now))) }
        ensures maybe { IfOk result (λ pair. pair.maybe ≡ maybe_bits test.now (piece_events (piece_of self.now))) }
    {
        match self {
            Part::One(fragment) => {
                let pair = fragment.ask(alloc, test)?;
                Ok(pair)
            }
            Part::Many(sealed) => {
                let pair = sealed.ask(alloc, test)?;
                Ok(pair)
            }
        }
    }

    /// One share more of the same part.
    pub fn share(&self) -> Result<Part, AllocError>
        ensures { IfOk result (λ part. piece_of part ≡ piece_of self.now) }
    {
        Ok(match self {
            Part::One(fragment) => Part::One(fragment.clone()?),
            Part::Many(sealed) => Part::Many(sealed.clone()?),
        })
    }
}
