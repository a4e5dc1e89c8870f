//! The traits of the outside.
ghost use Rattle.std.specs.Prelude.{◌≡◌, ℕ, ◌<◌, ◌≤◌, List, Option, Ok, length, is_some, IfOk, OnOk, IsErrOf};
ghost use Rattle.vast_io.specs.Causes.{HasCause, Rose};
ghost use Rattle.vast_io.specs.Told.{Reads, Writes, IsAtEnd};

use std::alloc::Global;

/// A call of the outside failed. Its object's count of faults rose in that call.
#[derive(Clone, Copy, Debug, PartialEq, Eq)]
pub struct Failed;

/// Why a name was not opened.
#[derive(Clone, Copy, Debug, PartialEq, Eq)]
pub enum OpenEnd {
    /// The opener's count of faults rose in this call.
    Failed,
    /// No memory was left.
    Memory,
}

/// Where bytes come from.
///
/// Contracts see the bytes that are left, where the source tells them, and its count of faults.
pub trait Source: Drop + Send {
    ghost left: { Self → Option (List ℕ) };

    ghost faults: { Self → ℕ };

    /// Puts the first bytes that are left into `into`, and answers how many. 0 for an `into` that is not empty means
    /// that none are left. A failed read takes none.
    fn read(&mut self, into: &mut [u8]) -> Result<usize, Failed>
        ensures bound { IfOk result (λ count. count ≤ length into.new) }
        ensures tells { is_some (left self.new) ≡ is_some (left self.old) }
        ensures bytes { Reads (left self.old) (left self.new) into.new result }
        ensures end { result ≡ Ok 0 → 0 < length into.new → IsAtEnd (left self.new) }
        ensures cause { HasCause (faults self.old) (faults self.new) result };
}

/// Where a text goes.
///
/// Contracts see the bytes that were written, where the sink tells them, and its count of faults.
pub trait Sink {
    ghost written: { Self → Option (List ℕ) };

    ghost faults: { Self → ℕ };

    /// Writes the first bytes of `piece`, and answers how many: at least one, if `piece` is not empty. A sink that takes
    /// nothing of one raises its count and fails. A failed write takes none.
    fn write(&mut self, piece: &[u8]) -> Result<usize, Failed>
        ensures bound { IfOk result (λ count. count ≤ length piece.now) }
        ensures some { 0 < length piece.now → IfOk result (λ count. 0 < count) }
        ensures tells { is_some (written self.new) ≡ is_some (written self.old) }
        ensures bytes { Writes (written self.old) (written self.new) piece.now result }
        ensures cause { HasCause (faults self.old) (faults self.new) result };
}

/// What gives a source for a name.
///
/// Contracts see the bytes of each name, where the opener tells them, and its count of faults.
pub trait Opener {
    type Src: Source;

    ghost bytes_of: { Self → List ℕ → Option (List ℕ) };

    ghost faults: { Self → ℕ };

    /// A source that has the name's bytes left and no faults. The count rises where the answer is `Failed`, and nowhere
    /// else.
    fn open_one(&mut self, alloc: Global, name: &str) -> Result<Self::Src, OpenEnd>
        ensures left { IfOk result (λ source. Self.Src.left source ≡ bytes_of self.old name.now) }
        ensures fresh { IfOk result (λ source. Self.Src.faults source ≡ 0) }
        ensures same { (any : List ℕ) → bytes_of self.new any ≡ bytes_of self.old any }
        ensures later { faults self.old ≤ faults self.new }
        ensures failed { IsErrOf result OpenEnd.Failed → Rose (faults self.old) (faults self.new) }
        ensures kept { OnOk result (faults self.new ≡ faults self.old) }
        ensures memory { IsErrOf result OpenEnd.Memory → faults self.new ≡ faults self.old };
}

/// A place in a worker's turn.
#[derive(Clone, Copy, Debug, PartialEq, Eq)]
pub enum Place {
    /// Before a batch is read.
    Read,
    /// Between a claim and its indexing.
    Index,
    /// Between a claim of a group and its merging.
    Merge,
    /// Between a take and its page.
    Page,
}

/// What a worker calls at certain places. It tells nothing, and may wait.
pub trait Gate {
    fn before(&self, worker: u32, turn: u64, place: Place);
}
