//! What is promised of the gap in an address.
ghost use Rattle.std.specs.Prelude.{ℕ, List};
ghost use Rattle.value_writing.specs.Writing.{IsFirstLongest, longest_run};

/// A law on the definition by which [`write_cell`](crate::write_cell) answers, and no code: the run of groups that is
/// written as `::`, where it has two or more, is the longest run of zero groups, and the first such one (RFC 5952, 4.2.3).
pub fn first_longest_gap()
    ensures { (groups : List ℕ) → IsFirstLongest groups (longest_run 0 groups) }
{}
