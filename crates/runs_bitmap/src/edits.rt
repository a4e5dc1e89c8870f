ghost use Rattle.std.specs.Prelude.{◌≡◌, ◌+◌, ◌-◌, ◌^◌, ◌<◌, ◌≤◌, ◌++◌, true, false, replicate, IsOk, OnOk, OnErr, vec_len, vec_capacity, nat_le, length, count_by};
ghost use Rattle.std.specs.List.Sorted.{IsPartitionedBy, IsPartitionPoint};
ghost use Rattle.runs_bitmap.specs.Runs.{rendered, AreApart};

use crate::run::Run;
use std::alloc::AllocError;

/// Appends ones from `from` up to `to` to runs of `from` bits. Only where a run begins is anything allocated.
pub fn lengthen(runs: &mut Vec<Run>, from: u64, to: u64) -> Result<(), AllocError>
    requires apart { AreApart 0 runs.old.items from }
    requires some { from < to }
    ensures ones { OnOk result (rendered 0 runs.new.items to ≡ rendered 0 runs.old.items from ++ replicate (to - from) true) }
    ensures apart { OnOk result (AreApart 0 runs.new.items to) }
    ensures err { OnErr result (runs.new.items ≡ runs.old.items) }
    ensures succeeds { vec_len runs.old < vec_capacity runs.old → IsOk result }
    ensures len { vec_len runs.new ≤ vec_len runs.old + 1 }
    ensures capacity { vec_capacity runs.old ≤ vec_capacity runs.new }
{
    let count = runs.len();
    if count > 0 && runs[count - 1].end == from {
        runs[count - 1].end = to;
        return Ok(());
    }
    runs.push(Run {
        start: from,
        end: to,
    })?;
    Ok(())
}

/// Appends `n` equal bits to runs of `len` bits.
pub fn extend(runs: &mut Vec<Run>, len: u64, bit: bool, n: u64) -> Result<(), AllocError>
    requires apart { AreApart 0 runs.old.items len }
    requires short { len + n ≤ 2 ^ 40 }
    ensures bits { OnOk result (rendered 0 runs.new.items (len + n) ≡ rendered 0 runs.old.items len ++ replicate n bit) }
    ensures apart { OnOk result (AreApart 0 runs.new.items (len + n)) }
    ensures err { OnErr result (runs.new.items ≡ runs.old.items) }
{
    if bit && n > 0 {
        lengthen(runs, len, len + n)?;
    }
    Ok(())
}

/// Appends the bits of `more` to runs of `len` bits.
pub fn join(runs: &mut Vec<Run>, len: u64, more: &[Run], more_len: u64) -> Result<(), AllocError>
    requires apart { AreApart 0 runs.old.items len }
    requires more_apart { AreApart 0 more.now more_len }
    requires short { len + more_len ≤ 2 ^ 40 }
    ensures joined { OnOk result (rendered 0 runs.new.items (len + more_len) ≡ rendered 0 runs.old.items len ++ rendered 0 more.now more_len) }
    ensures apart { OnOk result (AreApart 0 runs.new.items (len + more_len)) }
    ensures err { OnErr result (runs.new.items ≡ runs.old.items) }
{
    runs.reserve(more.len())?;
    for run in more {
        lengthen(runs, len + run.start, len + run.end).unwrap();
    }
    let _ = more_len;
    Ok(())
}

/// How many runs end at or before `at`.
pub fn ended_by(runs: &[Run], at: u64) -> usize
    requires { IsPartitionedBy (λ r. nat_le r.end at) runs.now }
    ensures within { result ≤ length runs.now }
    ensures place { IsPartitionPoint (λ r. nat_le r.end at ≡ true) (λ r. nat_le r.end at ≡ false) runs.now result }
{
    runs.partition_point(|run| run.end <= at)
}

/// How many ones there are.
pub fn ones(runs: &[Run], len: u64) -> u64
    requires { AreApart 0 runs.now len }
    ensures { result ≡ count_by (λ bit. bit) (rendered 0 runs.now len) }
{
    let mut ones = 0;
    for run in runs {
        ones += run.end - run.start;
    }
    let _ = len;
    ones
}
