//! The entries of a history.
ghost use Rattle.std.specs.Prelude.{◌≡◌, IfOk, IfErr};
ghost use Rattle.std.specs.Arc.{arc_value};
ghost use Rattle.event_history.specs.Modes.{live_end, past_begin};

use event_batch::Packed;
use query_meaning::Expr;
use std::alloc::{AllocError, Global};
use std::marker::Model;
use std::sync::Arc;

/// What a store may hold.
#[derive(Clone, Copy, Debug, PartialEq, Eq)]
pub struct Limits {
    /// Accepted events, all together.
    pub rows: u64,
    /// Queries that were registered, those that left among them.
    pub queries: u32,
    /// Batches of a group, 1 to 256.
    pub group: u32,
    /// Batches that wait for a query, at least 1.
    pub inbox: u32,
}

/// Which events a query is told: those from before its registration are its past part, those from then on its live part.
#[derive(Clone, Copy, Debug, PartialEq, Eq)]
pub enum Mode {
    /// The past part alone.
    Past,
    /// The live part alone.
    Coming,
    /// Both parts.
    Both,
    /// Both, the past part from this event on.
    Since { from: u64 },
}

impl Mode {
    /// Where the past part begins of a query that is registered where there are `from` events.
    pub fn past_begin(self, from: u64) -> u64
        ensures { result ≡ past_begin self from }
    {
        match self {
            Mode::Past | Mode::Both => 0,
            Mode::Coming => from,
            Mode::Since { from: id } => id,
        }
    }

    /// Where the live part ends where there are `events` events.
    pub fn live_end(self, from: u64, events: u64) -> u64
        ensures { result ≡ live_end self from events }
    {
        match self {
            Mode::Past => from,
            _ => events,
        }
    }
}

/// An expression that is shared.
#[derive(Drop)]
pub struct SharedExpr {
    expr: Arc<Expr>,
}

impl Model for SharedExpr {
    ghost use Rattle.std.specs.Arc.{arc_value};
    ghost use Rattle.std.specs.Coded.{codes};
    ghost use Rattle.query_meaning.specs.declared.expr.Expr.{Expr};
    ghost use Rattle.query_meaning.specs.contracts.expr.Expr as e;

    ghost Value = { Expr };

    ghost coded = { Prim.hlevel (codes, e.the_row.coded) };

    ghost view = { λ shared. arc_value shared.expr };
}

impl SharedExpr {
    /// The expression, to be shared. It comes back where memory is wanting.
    pub fn new(alloc: Global, expr: Expr) -> Result<SharedExpr, (Expr, AllocError)>
        ensures value { IfOk result (λ shared. shared ≡ expr) }
        ensures back { IfErr result (λ refusal. refusal.0 ≡ expr) }
    {
        match Arc::new(alloc, expr) {
            Ok(expr) => Ok(SharedExpr { expr }),
            Err(failed) => Err((failed.value, AllocError)),
        }
    }

    /// The expression.
    pub fn get(&self) -> &Expr
        ensures { result.now ≡ self.now }
    {
        &self.expr
    }

    /// One share more.
    pub fn share(&self) -> Result<SharedExpr, AllocError>
        ensures { IfOk result (λ shared. shared ≡ self.now) }
    {
        let expr = self.expr.clone()?;
        Ok(SharedExpr { expr })
    }
}

/// What was done to a store. Batches and groups count from 0, queries from 1.
#[derive(Drop)]
pub enum Deed {
    /// A batch was accepted: the next one.
    Accept {
        packed: Packed,
    },
    /// A batch was claimed, to be indexed.
    Claim {
        batch: u64,
    },
    /// A claim was given back.
    Unclaim {
        batch: u64,
    },
    /// A batch's index was published.
    Index {
        batch: u64,
    },
    /// A group's merged index was published.
    Seal {
        group: u64,
    },
    /// A query was registered: the next one.
    Register {
        query: u32,
        mode: Mode,
        expr: SharedExpr,
    },
    /// A query was told what matches up to these two positions, one in its past part and one in its live part.
    Take {
        query: u32,
        past_to: u64,
        live_to: u64,
    },
    /// A query left.
    Leave {
        query: u32,
    },
}

/// A deed and the seat that did it.
#[derive(Drop)]
pub struct Entry {
    pub seat: u32,
    pub deed: Deed,
}
