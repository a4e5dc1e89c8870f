//! What the calls of a store answer.
ghost use Rattle.std.specs.Prelude.{◌≡◌, ◌++◌, ◌∷◌, [], map, OnOk, OnErr};
ghost use Rattle.std.specs.Arc.{arc_value};

use event_batch::Packed;
use partition::{Fragment, Sealed};
use std::alloc::{AllocError, Global};
use std::marker::Model;
use std::sync::Arc;

/// A batch was accepted: its number, and the id of its first event.
#[derive(Clone, Copy, Debug, PartialEq, Eq)]
pub struct Accepted {
    pub batch: u64,
    pub first: u64,
}

/// Why a batch was not accepted.
#[derive(Clone, Copy, Debug, PartialEq, Eq)]
pub enum AcceptEnd {
    /// Its rows and the `have` events that there are pass the limit.
    Full { have: u64, limit: u64 },
    Memory,
}

/// A batch to be indexed: its number, the id of its first event, and its bytes.
#[derive(Drop)]
pub struct Claim {
    pub batch: u64,
    pub first: u64,
    pub packed: Packed,
}

/// Why an index was not published.
#[derive(Drop)]
pub enum PublishEnd {
    /// The batch has an index.
    Already { batch: u64 },
    /// Memory ran out; what was handed in comes back.
    Memory(Claim, Arc<Fragment>),
}

/// Indexes of batches, in order. Contracts see what they stand for.
#[derive(Drop)]
pub struct Fragments {
    items: Vec<Arc<Fragment>>,
}

impl Model for Fragments {
    ghost use Rattle.std.specs.Prelude.{List, map};
    ghost use Rattle.std.specs.Arc.{arc_value};
    ghost use Rattle.event_history.specs.Pieces.{Piece};

    ghost Value = { List Piece };

    ghost view = { λ f. map arc_value f.items.items };
}

impl Fragments {
    /// The empty list.
    pub fn new(alloc: Global) -> Fragments
        ensures { result ≡ [] }
    {
        Fragments {
            items: Vec::new(alloc),
        }
    }

    /// Appends an index.
    pub fn push(&mut self, item: Arc<Fragment>) -> Result<(), AllocError>
        ensures ok { OnOk result (self.new ≡ self.old ++ arc_value item ∷ []) }
        ensures err { OnErr result (self.new ≡ self.old) }
    {
        self.items.push(item)?;
        Ok(())
    }

    /// The indexes.
    pub fn as_slice(&self) -> &[Arc<Fragment>]
        ensures { map arc_value result.now ≡ self.now }
    {
        self.items.as_slice()
    }
}

/// A group to be merged: its number, and the indexes of its batches.
#[derive(Drop)]
pub struct Group {
    pub number: u64,
    pub fragments: Fragments,
}

/// Why a merged index was not published.
#[derive(Drop)]
pub enum SealEnd {
    /// The group has a merged index.
    AlreadySealed { group: u64 },
    /// Memory ran out; what was handed in comes back.
    Memory(Group, Arc<Sealed>),
}

/// Why a query was not registered.
#[derive(Clone, Copy, Debug, PartialEq, Eq)]
pub enum RegisterEnd {
    /// So many queries are registered already.
    TooMany { limit: u32 },
    /// It would begin at an event behind the `have` events that there are.
    Ahead { from: u64, have: u64 },
    Memory,
}

/// Why a query was told nothing.
#[derive(Clone, Copy, Debug, PartialEq, Eq)]
pub enum TakeEnd {
    /// It has left.
    Left { query: u32 },
    Memory,
}

/// Why a query did not leave.
#[derive(Clone, Copy, Debug, PartialEq, Eq)]
pub enum LeaveEnd {
    /// It has left already.
    Left { query: u32 },
    Memory,
}
