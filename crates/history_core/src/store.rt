//! The store.
ghost use Rattle.std.specs.Prelude.{◌≡◌, ◌<◌, ◌≤◌, [], length};
ghost use Rattle.event_history.specs.Histories.{batch_count, event_count, is_indexed, past};
ghost use Rattle.event_history.specs.Legal.{Legal};

mod accept;
mod claims;
mod groups;
mod queries;
mod ranges;
mod taking;
mod waiting;

use crate::kept::{Kept, Query, Seal};
use event_history::{Entry, Limits};
use std::alloc::Global;
use std::marker::Model;

/// Accepted batches, their indexes, and the queries that are told of them. Contracts see its limits and its history.
#[derive(Drop)]
pub struct Store {
    alloc: Global,
    limits: Limits,
    entries: Vec<Entry>,
    rows: u64,
    kept: Vec<Kept>,
    low: usize,
    queries: Vec<Query>,
    seals: Vec<Seal>,
    unsealed: usize,
}

impl Model for Store {
    ghost use Rattle.history_core.specs.Shown.{Shown};
    ghost use Rattle.event_history.specs.contracts.entry.Entry as e;
    ghost use Rattle.event_history.specs.contracts.entry.Limits as l;
    ghost use Rattle.std.specs.Coded.{codes};
    ghost use Rattle.history_core.specs.Stores.{IsStore};

    ghost Value = { Shown };

    ghost coded = { Prim.hlevel (codes, e.the_row.coded, l.the_row.coded) };

    ghost view = { λ s. record { limits = s.limits; history = s.entries.items } };

    ghost invariant = { λ s. IsStore s.limits s.entries.items s.rows s.kept.items s.low s.queries.items s.seals.items s.unsealed };
}

impl Store {
    /// A store without events.
    pub fn new(alloc: Global, limits: Limits) -> Store
        requires some { 1 ≤ limits.group }
        requires few { limits.group ≤ 256 }
        requires room { 1 ≤ limits.inbox }
        ensures { result ≡ record { limits = limits; history = [] } }
    {
        Store {
            alloc,
            limits,
            entries: Vec::new(alloc),
            rows: 0,
            kept: Vec::new(alloc),
            low: 0,
            queries: Vec::new(alloc),
            seals: Vec::new(alloc),
            unsealed: 0,
        }
    }

    /// The history, and that it is legal.
    pub fn entries(&self) -> &[Entry]
        ensures history { result.now ≡ self.now.history }
        ensures legal { Legal self.now.limits (past self.now.history) }
    {
        self.entries.as_slice()
    }

    /// How many events there are.
    pub fn rows(&self) -> u64
        ensures { result ≡ event_count (past self.now.history) }
    {
        self.rows
    }

    /// How many batches there are.
    pub fn batches(&self) -> u64
        ensures { result ≡ batch_count (past self.now.history) }
    {
        self.kept.len() as u64
    }

    /// Whether a batch has an index.
    pub fn indexed(&self, batch: u64) -> bool
        ensures { result ≡ is_indexed batch (past self.now.history) }
    {
        match self.kept.get(batch as usize) {
            Some(kept) => kept.index.is_some(),
            None => false,
        }
    }
}
