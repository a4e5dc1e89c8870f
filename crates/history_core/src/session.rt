//! Sessions.
ghost use Rattle.std.specs.Prelude.{◌≡◌};

use event_history::Mode;

/// The right to be told what matches a query.
#[derive(Drop)]
pub struct Session {
    pub(crate) query: u32,
    pub(crate) mode: Mode,
    pub(crate) registered: u64,
}

impl Session {
    /// The query's number, from 1.
    pub fn query(&self) -> u32
        ensures { result ≡ self.now.query }
    {
        self.query
    }

    /// Which events it is told.
    pub fn mode(&self) -> Mode
        ensures { result ≡ self.now.mode }
    {
        self.mode
    }

    /// How many events there were when it was registered.
    pub fn registered(&self) -> u64
        ensures { result ≡ self.now.registered }
    {
        self.registered
    }
}
