//! A source whose first bytes were taken before.
ghost use Rattle.std.specs.Prelude.{◌≡◌, ◌≤◌, ◌<◌, Ok, length, is_some, IfOk};
ghost use Rattle.std.specs.Io.KnownBytes.{prepend_known};
ghost use Rattle.vast_io.specs.Causes.{HasCause};
ghost use Rattle.vast_io.specs.Told.{Reads, IsAtEnd};

use crate::memory::copy_front;
use crate::outside::{Failed, Source};
use std::marker::Model;
use vast_value::Bytes;

/// The bytes of a text, and behind them those that another source has left. Its faults are that source's.
///
/// Contracts see the bytes of the text that are still to be given, and the source.
#[derive(Drop)]
pub struct Front<S: Source> {
    front: Bytes,
    at: usize,
    rest: S,
}

impl<S: Source> Model for Front<S> {
    ghost use Rattle.std.specs.Prelude.{◌≤◌, length, drop};
    ghost use Rattle.vast_io.specs.Fronts.{Fronted};

    ghost Value = { Fronted S };

    ghost view = { λ f. record { front = drop f.at f.front; rest = f.rest } };

    ghost invariant = { λ f. f.at ≤ length f.front };
}

impl<S: Source> Front<S> {
    /// The source that gives `front` and then what `rest` has left.
    pub fn new(front: Bytes, rest: S) -> Front<S>
        ensures { result ≡ record { front = front; rest = rest } }
    {
        Front { front, at: 0, rest }
    }

    /// The source behind the text, as it is now.
    pub fn rest(&self) -> &S
        ensures { result.now ≡ self.now.rest }
    {
        &self.rest
    }

    /// The source behind the text, as it was left. What was not yet given of the text is gone.
    pub fn into_rest(self) -> S
        ensures { result ≡ self.rest }
    {
        self.rest
    }
}

impl<S: Source> Source for Front<S> {
    ghost left = { λ f. prepend_known f.front (S.left f.rest) };

    ghost faults = { λ f. S.faults f.rest };

    fn read(&mut self, into: &mut [u8]) -> Result<usize, Failed>
        ensures bound { IfOk result (λ count. count ≤ length into.new) }
        ensures tells { is_some (prepend_known self.new.front (S.left self.new.rest)) ≡ is_some (prepend_known self.old.front (S.left self.old.rest)) }
        ensures bytes { Reads (prepend_known self.old.front (S.left self.old.rest)) (prepend_known self.new.front (S.left self.new.rest)) into.new result }
        ensures end { result ≡ Ok 0 → 0 < length into.new → IsAtEnd (prepend_known self.new.front (S.left self.new.rest)) }
        ensures cause { HasCause (S.faults self.old.rest) (S.faults self.new.rest) result }
    {
        let (_, front) = self.front.as_slice().split_at(self.at);
        if front.is_empty() {
            return self.rest.read(into);
        }
        let count = copy_front(front, front.len(), into);
        self.at += count;
        Ok(count)
    }
}
