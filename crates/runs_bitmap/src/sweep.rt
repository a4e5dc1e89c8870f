ghost use Rattle.std.specs.Prelude.{◌≡◌, ◌+◌, ◌-◌, ◌<◌, ◌≤◌, ◌++◌, length, replicate};
ghost use Rattle.runs_bitmap.specs.Runs.{rendered, AreAhead, bit_at, stretch_at, runs_after};

use crate::run::Run;

/// A place in a bitmap, and the runs that end after it.
#[derive(Drop)]
pub struct Sweep<'a> {
    runs: &'a [Run],
    at: u64,
    len: u64,
}

impl<'a> Sweep<'a> {
    /// From the first bit on.
    pub fn new(runs: &'a [Run], len: u64) -> Sweep<'a>
        ensures runs { result.runs.now ≡ runs.now }
        ensures at { result.at ≡ 0 }
        ensures len { result.len ≡ len }
    {
        Sweep { runs, at: 0, len }
    }

    /// The bit at the place.
    pub fn bit(&self) -> bool
        ensures { result ≡ bit_at self.now.at self.now.runs.now }
    {
        match self.runs.first() {
            Some(run) => run.start <= self.at,
            None => false,
        }
    }

    /// How many bits from the place on are equal.
    pub fn stretch(&self) -> u64
        requires ahead { AreAhead self.now.at self.now.runs.now self.now.len }
        requires within { self.now.at ≤ self.now.len }
        ensures { result ≡ stretch_at self.now.at self.now.runs.now self.now.len }
    {
        match self.runs.first() {
            Some(run) if self.at < run.start => run.start - self.at,
            Some(run) => run.end - self.at,
            None => self.len - self.at,
        }
    }

    /// The place `n` bits further on, within the stretch.
    pub fn after(self, n: u64) -> Sweep<'a>
        requires ahead { AreAhead self.at self.runs.now self.len }
        requires within { self.at < self.len }
        requires short { n ≤ stretch_at self.at self.runs.now self.len }
        ensures at { result.at ≡ self.entry.at + n }
        ensures len { result.len ≡ self.entry.len }
        ensures ahead { AreAhead result.at result.runs.now result.len }
        ensures rest { rendered self.entry.at self.entry.runs.now self.entry.len ≡ replicate n (bit_at self.entry.at self.entry.runs.now) ++ rendered result.at result.runs.now result.len }
    {
        let Sweep { runs, at, len } = self;
        let at = at + n;
        Sweep {
            runs: left_at(runs, at),
            at,
            len,
        }
    }
}

/// The runs that are left at `at`, where at most the first one has ended.
fn left_at(runs: &[Run], at: u64) -> &[Run]
    ensures { result.now ≡ runs_after at runs.now }
{
    match runs.first() {
        Some(run) if run.end <= at => &runs[1..],
        _ => runs,
    }
}
