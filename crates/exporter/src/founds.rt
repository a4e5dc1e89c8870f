//! What a page found.
ghost use Rattle.std.specs.Prelude.{◌≡◌, [], ◌∷◌, ◌++◌, map, OnErr, OnOk};
ghost use Rattle.exporter.specs.Founds.{found_of};

use std::alloc::{AllocError, Global};
use std::marker::Model;
use vast_value::{Layout, Row};

/// An event that matches: its id, its layout and its row.
#[derive(Drop)]
pub struct Found {
    pub id: u64,
    pub layout: Layout,
    pub row: Row,
}

/// The events that were found, in order. Contracts see the id and the event of each.
#[derive(Drop)]
pub struct Founds {
    items: Vec<Found>,
}

impl Model for Founds {
    ghost use Rattle.std.specs.Prelude.{ℕ, List, map};
    ghost use Rattle.event_history.specs.Events.{Event};
    ghost use Rattle.exporter.specs.Founds.{found_of};

    ghost Value = { List (ℕ × Event) };

    ghost view = { λ founds. map found_of founds.items.items };
}

impl Founds {
    /// None.
    pub fn new(alloc: Global) -> Founds
        ensures { result ≡ [] }
    {
        Founds {
            items: Vec::new(alloc),
        }
    }

    /// Puts an event behind the others.
    pub fn push(&mut self, item: Found) -> Result<(), AllocError>
        ensures ok { OnOk result (self.new ≡ self.old ++ found_of item ∷ []) }
        ensures err { OnErr result (self.new ≡ self.old) }
    {
        self.items.push(item)?;
        Ok(())
    }

    /// The events.
    pub fn as_slice(&self) -> &[Found]
        ensures { map found_of result.now ≡ self.now }
    {
        self.items.as_slice()
    }
}
