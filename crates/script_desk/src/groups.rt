//! The lines on groups.
ghost use Rattle.std.specs.Prelude.{◌≡◌, OnOk};
ghost use Rattle.event_history.specs.Steps as s;
ghost use Rattle.script_desk.specs.Desks.{Plays, play_group, play_seal, seal_new, seal_played, step_at};
ghost use Rattle.script_desk.specs.Kept.{IsOfGroups};

use crate::desk::{Desk, SEAT};
use crate::laws::kept_stays;
use crate::replies::{push_line, push_words};
use history_core::{Group, SealEnd, given_stays};
use indexer::seal_group;
use std::alloc::AllocError;
use vast_value::Bytes;

impl Desk {
    /// `group`: claims the next group to merge, and holds it.
    pub fn group(&mut self, out: &mut Bytes) -> Result<(), AllocError>
        ensures { OnOk result (Plays (play_group self.old) self.new out.old out.new) }
    {
        self.groups.reserve(1)?;
        match self.store.claim_group() {
            Ok(None) => push_words(b"group none", out),
            Ok(Some(group)) => {
                let number = group.number;
                self.groups.push_reserved(group);
                push_line(b"group ", number, out)
            }
            Err(failed) => Err(failed),
        }
    }

    /// `seal`: merges the earliest group that is held, or a new one.
    pub fn seal(&mut self, out: &mut Bytes) -> Result<(), AllocError>
        ensures { OnOk result (Plays (play_seal self.old) self.new out.old out.new) }
    {
        if self.groups.is_empty() {
            return self.seal_new(out);
        }
        let group = self.groups.remove(0);
        self.seal_one(group, out)
    }

    fn seal_new(&mut self, out: &mut Bytes) -> Result<(), AllocError>
        ensures { OnOk result (Plays (seal_new self.old (step_at self.old s.ClaimGroup).reply) self.new out.old out.new) }
    {
        match self.store.claim_group() {
            Ok(None) => push_words(b"seal none", out),
            Ok(Some(group)) => self.seal_one(group, out),
            Err(failed) => Err(failed),
        }
    }

    fn seal_one(&mut self, group: Group, out: &mut Bytes) -> Result<(), AllocError>
        requires { IsOfGroups (record { limits = self.old.limits; history = self.old.history }) group }
        ensures { OnOk result (Plays (seal_played group.number self.old) self.new out.old out.new) }
    {
        given_stays();
        kept_stays();
        let number = group.number;
        let sealed = seal_group(self.alloc, &group)?;
        let end = self.store.publish_group(SEAT, group, sealed);
        let _ = self.store.entries();
        match end {
            Ok(()) => push_line(b"sealed ", number, out),
            Err(SealEnd::AlreadySealed { .. }) => push_line(b"already sealed ", number, out),
            Err(SealEnd::Memory(..)) => Err(AllocError),
        }
    }
}
