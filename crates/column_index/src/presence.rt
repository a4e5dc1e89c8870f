//! Which rows have a column.
ghost use Rattle.std.specs.Prelude.{◌≡◌, ◌+◌, ◌-◌, ◌^◌, ◌<◌, ◌≤◌, ◌++◌, ◌∷◌, [], true, false, length, replicate, IfOk, OnOk, OnErr, IfErr};
ghost use Rattle.bits_law.specs.declared.bits.BitsEnd.TheVariants.{Memory};

use crate::kept::Bitmap;
use bits_law::{Bits, BitsEnd};
use std::alloc::{AllocError, Global};
use std::marker::Model;

/// The rows that have a column, as a list of bools: a bitmap of the first rows, and how many rows there are. All behind the
/// bitmap have the column, so one that each row has is a number.
#[derive(Drop)]
pub(crate) struct Presence {
    bits: Bitmap,
    rows: u64,
}

impl Model for Presence {
    ghost use Rattle.std.specs.Prelude.{◌-◌, ◌^◌, ◌≤◌, ◌++◌, List, Bool, true, length, replicate};

    ghost Value = { List Bool };

    ghost view = { λ p. p.bits ++ replicate (p.rows - length p.bits) true };

    ghost invariant = { λ p. (length p.bits ≤ p.rows) × (p.rows ≤ 2 ^ 40) };
}

impl Presence {
    /// No rows.
    pub(crate) fn new(alloc: Global) -> Presence
        ensures { result ≡ [] }
    {
        Presence {
            bits: Bitmap::empty(alloc),
            rows: 0,
        }
    }

    /// How many rows there are.
    pub(crate) fn len(&self) -> u64
        ensures value { result ≡ length self.now }
        ensures bounded { length self.now ≤ 2 ^ 40 }
    {
        self.rows
    }

    /// One row more, which has the column.
    pub(crate) fn push(&mut self)
        requires { length self.old < 2 ^ 40 }
        ensures { self.new ≡ self.old ++ true ∷ [] }
    {
        self.rows += 1;
    }

    /// Rows without the column up to `rows`. After a refusal the rows are as before.
    pub(crate) fn reach(&mut self, rows: u64) -> Result<(), BitsEnd>
        requires after { length self.old ≤ rows }
        requires short { rows ≤ 2 ^ 40 }
        ensures ok { OnOk result (self.new ≡ self.old ++ replicate (rows - length self.old) false) }
        ensures end { IfErr result (λ e. e ≡ Memory) }
        ensures err { OnErr result (self.new ≡ self.old) }
    {
        if rows == self.rows {
            return Ok(());
        }
        match self.push_gap(rows) {
            Ok(()) => Ok(()),
            Err(_) => Err(BitsEnd::Memory),
        }
    }

    #[inline(never)]
    fn push_gap(&mut self, rows: u64) -> Result<(), BitsEnd>
        requires after { length self.old ≤ rows }
        requires short { rows ≤ 2 ^ 40 }
        ensures ok { OnOk result (self.new ≡ self.old ++ replicate (rows - length self.old) false) }
        ensures err { OnErr result (self.new ≡ self.old) }
    {
        self.bits.push_run(true, self.rows - self.bits.len())?;
        self.bits.push_run(false, rows - self.rows)?;
        self.rows = rows;
        Ok(())
    }

    /// Appends other rows.
    #[tactic(auto, using(crate::proofs::PresenceLemmas::counted_behind))]
    pub(crate) fn append(&mut self, other: &Presence) -> Result<(), BitsEnd>
        requires { length self.old + length other.now ≤ 2 ^ 40 }
        ensures { OnOk result (self.new ≡ self.old ++ other.now) }
    {
        if other.bits.len() > 0 {
            self.append_bits(other)?;
            return Ok(());
        }
        self.rows += other.rows;
        Ok(())
    }

    fn append_bits(&mut self, other: &Presence) -> Result<(), BitsEnd>
        requires { length self.old + length other.now ≤ 2 ^ 40 }
        ensures { OnOk result (self.new ≡ self.old ++ other.now) }
    {
        self.bits.push_run(true, self.rows - self.bits.len())?;
        self.bits.append(&other.bits)?;
        self.rows += other.rows;
        Ok(())
    }

    /// The rows as a bitmap.
    pub(crate) fn bits(&self) -> Result<Bitmap, AllocError>
        ensures { IfOk result (λ bits. bits ≡ self.now) }
    {
        let mut bits = self.bits.duplicate()?;
        match bits.push_run(true, self.rows - self.bits.len()) {
            Ok(()) => Ok(bits),
            Err(_) => Err(AllocError),
        }
    }
}
