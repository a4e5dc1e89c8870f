//! The names of columns.
ghost use Rattle.std.specs.Prelude.{◌≡◌, [], IsTrue};
ghost use Rattle.zeek_log.specs.Naming.{are_named};

use std::alloc::Global;
use vast_value::{Bytes, Seq};

/// The names of columns: at most 256, which are not empty and differ.
#[derive(Debug, Drop)]
pub struct Names {
    pub items: Seq<Bytes>,
    ghost named: { IsTrue (are_named items) },
}

impl Names {
    /// No names.
    #[tactic(auto, unfolding(crate::specs::Naming::are_named))]
    pub fn none(alloc: Global) -> Self
        ensures { result.items ≡ [] }
    {
        Names {
            items: Seq::new(alloc),
        }
    }

    /// The names, in order.
    pub fn as_slice(&self) -> &[Bytes]
        ensures { result.now ≡ self.now.items }
    {
        self.items.as_slice()
    }
}
