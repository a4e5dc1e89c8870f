//! What a script sets before all else.
ghost use Rattle.std.specs.Prelude.{◌≡◌, true};
ghost use Rattle.script_lines.specs.Lines.{is_in_range};
ghost use Rattle.step_script.specs.Scripts.{InRange, set, usual};

use history_core::Limits;
use script_lines::Quantity;

/// The limits of a store, how many rows close a batch of a source, and how many decoded batches are kept for pages.
#[derive(Clone, Copy)]
pub struct Settings {
    pub limits: Limits,
    /// 1 to 4,096 rows.
    pub batch: u32,
    /// 1 to 1,024 batches.
    pub cache: u32,
}

impl Settings {
    /// What holds where no line says otherwise: 2^23 rows, 256 queries, groups of 16 batches, inboxes of 64, batches of
    /// 1,024 rows, and 16 decoded batches.
    pub fn usual() -> Settings
        ensures { result ≡ usual }
    {
        Settings {
            limits: Limits {
                rows: 1 << 23,
                queries: 256,
                group: 16,
                inbox: 64,
            },
            batch: 1024,
            cache: 16,
        }
    }

    /// One of them is set, to a number within its range.
    pub fn set(&mut self, quantity: Quantity, number: u64)
        requires range { InRange self.old }
        requires fits { is_in_range quantity number ≡ true }
        ensures set { self.new ≡ set quantity number self.old }
        ensures range { InRange self.new }
    {
        match quantity {
            Quantity::Rows => self.limits.rows = number,
            Quantity::Batch => self.batch = number as u32,
            Quantity::Group => self.limits.group = number as u32,
            Quantity::Cache => self.cache = number as u32,
            Quantity::Queries => self.limits.queries = number as u32,
            Quantity::Inbox => self.limits.inbox = number as u32,
        }
    }
}
