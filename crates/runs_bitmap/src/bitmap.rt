ghost use Rattle.std.specs.Prelude.{◌≡◌, length, IfOk};
ghost use Rattle.bits_law.specs.Bitwise.{bitwise};
ghost use Rattle.runs_bitmap.specs.Runs.{joins};

use crate::combine::Ones;
use crate::edits;
use crate::run::Run;
use crate::sweep::Sweep;
use bits_law::{Bits, BitsEnd, LONGEST};
use std::alloc::{AllocError, Global};
use std::marker::Model;

/// A bitmap as sorted runs of ones that never touch each other, seen as a list of bools.
#[derive(Drop)]
pub struct RunsBitmap {
    runs: Vec<Run>,
    len: u64,
}

impl Model for RunsBitmap {
    ghost use Rattle.std.specs.Prelude.{List, Bool, ◌≤◌, ◌^◌};

    ghost Value = { List Bool };

    ghost use Rattle.runs_bitmap.specs.Runs.{rendered, AreApart};

    ghost view = { λ b. rendered 0 b.runs.items b.len };

    ghost invariant = { λ b. (b.len ≤ 2 ^ 40) × AreApart 0 b.runs.items b.len };
}

/// The bits of two bitmaps, joined.
fn combined(first: &RunsBitmap, second: &RunsBitmap, ones: Ones) -> Result<RunsBitmap, AllocError>
    requires { length first.now ≡ length second.now }
    ensures { IfOk result (λ b. b ≡ bitwise (joins ones) first.now second.now) }
{
    let mut runs = Vec::new(*first.runs.allocator());
    let len = first.len;
    let mut at = 0;
    let mut left = Sweep::new(&first.runs, len);
    let mut right = Sweep::new(&second.runs, len);
    while at < len {
        let n = left.stretch().min(right.stretch());
        let bit = ones.join(left.bit(), right.bit());
        edits::extend(&mut runs, at, bit, n)?;
        left = left.after(n);
        right = right.after(n);
        at += n;
    }
    Ok(RunsBitmap { runs, len })
}

impl Bits for RunsBitmap {
    ghost bits = { λ b. b };

    fn empty(alloc: Global) -> Self {
        RunsBitmap {
            runs: Vec::new(alloc),
            len: 0,
        }
    }

    fn len(&self) -> u64 {
        self.len
    }

    fn get(&self, at: u64) -> bool {
        let k = edits::ended_by(&self.runs, at);
        k < self.runs.len() && self.runs[k].start <= at
    }

    fn push_run(&mut self, bit: bool, n: u64) -> Result<(), BitsEnd> {
        if n > LONGEST - self.len {
            return Err(BitsEnd::TooLong {
                have: self.len,
                more: n,
            });
        }
        edits::extend(&mut self.runs, self.len, bit, n)?;
        self.len += n;
        Ok(())
    }

    fn append(&mut self, other: &Self) -> Result<(), BitsEnd> {
        if other.len > LONGEST - self.len {
            return Err(BitsEnd::TooLong {
                have: self.len,
                more: other.len,
            });
        }
        edits::join(&mut self.runs, self.len, &other.runs, other.len)?;
        self.len += other.len;
        Ok(())
    }

    fn and(&self, other: &Self) -> Result<Self, AllocError> {
        combined(self, other, Ones::OfBoth)
    }

    fn or(&self, other: &Self) -> Result<Self, AllocError> {
        combined(self, other, Ones::OfEither)
    }

    fn and_not(&self, other: &Self) -> Result<Self, AllocError> {
        combined(self, other, Ones::OfFirstAlone)
    }

    fn not(&self) -> Result<Self, AllocError> {
        combined(self, self, Ones::OfNotFirst)
    }

    fn duplicate(&self) -> Result<Self, AllocError> {
        Ok(RunsBitmap {
            runs: Vec::from_slice(*self.runs.allocator(), &self.runs)?,
            len: self.len,
        })
    }

    fn count(&self) -> u64 {
        edits::ones(&self.runs, self.len)
    }

    fn next_one(&self, from: u64) -> Option<u64> {
        let k = edits::ended_by(&self.runs, from);
        if k < self.runs.len() {
            Some(self.runs[k].start.max(from))
        } else {
            None
        }
    }
}
