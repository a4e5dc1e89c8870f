//! Accepting batches.
ghost use Rattle.std.specs.Prelude.{◌≡◌, IfErr};
ghost use Rattle.event_history.specs.Steps as s;
ghost use Rattle.history_core.specs.Replies.{Makes, accept_reply};

use super::Store;
use crate::answers::{AcceptEnd, Accepted};
use crate::kept::Kept;
use event_batch::Packed;
use event_history::{Deed, Entry};

impl Store {
    /// Accepts a batch: the next one. `Full` comes exactly where its rows and those that there are pass the limit.
    pub fn accept(&mut self, seat: u32, packed: Packed) -> Result<Accepted, (Packed, AcceptEnd)>
        ensures step { Makes self.old self.new seat (s.Accept packed) (accept_reply result) }
        ensures back { IfErr result (λ e. e.0 ≡ packed) }
    {
        let more = u64::from(packed.rows());
        if more > self.limits.rows - self.rows {
            let end = AcceptEnd::Full {
                have: self.rows,
                limit: self.limits.rows,
            };
            return Err((packed, end));
        }
        if self.entries.reserve(1).is_err() || self.kept.reserve(1).is_err() {
            return Err((packed, AcceptEnd::Memory));
        }
        let Ok(shared) = packed.share() else {
            return Err((packed, AcceptEnd::Memory));
        };
        let first = self.rows;
        let batch = self.kept.len() as u64;
        self.rows += more;
        self.kept.push_reserved(Kept {
            packed: shared,
            first,
            end: self.rows,
            index: None,
            marked: false,
        });
        self.entries.push_reserved(Entry {
            seat,
            deed: Deed::Accept { packed },
        });
        Ok(Accepted { batch, first })
    }
}
