//! The calls on a store as moves, each of which is one turn.
ghost use Rattle.std.specs.Prelude.{◌≡◌, ◌<◌, ◌++◌, IfErr, IfOk};
ghost use Rattle.std.proofs.Common.{◌∙◌, append_assoc};
ghost use Rattle.std.specs.Arc.{arc_value};
ghost use Rattle.event_history.specs.Histories.{batch_count, past};
ghost use Rattle.event_history.specs.Legal.{Legal};
ghost use Rattle.event_history.specs.Pieces.{joined};
ghost use Rattle.event_history.specs.Queries.{registration};
ghost use Rattle.event_history.specs.Steps as s;
ghost use Rattle.history_core.specs.Replies.{GivesBackClaim, GivesBackGroup, GivesMergeable, IsClaimAt, IsRegisteredAt, accept_reply, claim_for_reply, claim_group_reply, claim_reply, claimed_piece, leave_reply, publish_group_reply, publish_reply, register_reply, take_reply, unclaim_reply};
ghost use Rattle.history_core.specs.Snapshots.{IsSnapshot};
ghost use Rattle.history_core.specs.Telling.{TellsUpTo};
ghost use Rattle.shared_store.specs.Given.{ClaimIsGiven, GroupIsGiven, IsGroup, Lasts};
ghost use Rattle.shared_store.specs.Turns.{Answers};

use crate::shared::Shared;
use event_batch::Packed;
use history_core::{
    AcceptEnd, Accepted, Claim as Claimed, Group, LeaveEnd, Mode, PublishEnd, RegisterEnd, SealEnd,
    Session, TakeEnd, Taken,
};
use partition::{Fragment, Sealed};
use query_meaning::Expr;
use std::alloc::AllocError;
use std::sync::Arc;
use turn_book::Move as BookMove;

#[derive(Drop)]
pub(crate) struct Accept {
    pub(crate) packed: Packed,
}

impl BookMove<Shared> for Accept {
    type Answer = Result<Accepted, (Packed, AcceptEnd)>;

    ghost needs = { λ m f h. Unit {0} };

    ghost does = { λ m f seat h answer new. Answers f h seat (s.Accept m.packed) (accept_reply answer) new × Legal f (past (h ++ new)) × IfErr answer (λ e. e.0 ≡ m.packed) };

    fn act(self, seat: u32, state: &mut Shared) -> Result<Accepted, (Packed, AcceptEnd)> {
        let answer = state.store.accept(seat, self.packed);
        state.entries();
        answer
    }

    ghost kept = { λ m f names h rest n o. n };
}

#[derive(Drop)]
pub(crate) struct Claim {}

impl BookMove<Shared> for Claim {
    type Answer = Result<Option<Claimed>, AllocError>;

    ghost needs = { λ m f h. Unit {0} };

    ghost does = { λ m f seat h answer new. Answers f h seat s.Claim (claim_reply answer) new × Legal f (past (h ++ new)) × IfOk answer (ClaimIsGiven (past (h ++ new))) };

    fn act(self, seat: u32, state: &mut Shared) -> Result<Option<Claimed>, AllocError> {
        let answer = state.store.claim(seat);
        state.entries();
        answer
    }

    ghost kept = { λ m f names h rest n o. n };
}

#[derive(Drop)]
pub(crate) struct ClaimFor {
    pub(crate) batch: u64,
}

impl BookMove<Shared> for ClaimFor {
    type Answer = Result<Claimed, AllocError>;

    ghost needs = { λ m f h. Lasts (λ before. m.batch < batch_count before) f h };

    ghost does = { λ m f seat h answer new. Answers f h seat (s.ClaimFor m.batch) (claim_for_reply answer) new × Legal f (past (h ++ new)) × IfOk answer (IsClaimAt (past (h ++ new))) };

    fn act(self, _seat: u32, state: &mut Shared) -> Result<Claimed, AllocError> {
        state.entries();
        state.store.claim_for(self.batch)
    }

    ghost kept = { λ m f names h rest n o later b legal. n later (rest ++ b.0, b.1 ∙ append_assoc h rest b.0) legal };
}

#[derive(Drop)]
pub(crate) struct Unclaim {
    pub(crate) claim: Claimed,
}

impl BookMove<Shared> for Unclaim {
    type Answer = Result<(), (Claimed, AllocError)>;

    ghost needs = { λ m f h. Lasts (λ before. IsClaimAt before m.claim) f h };

    ghost does = { λ m f seat h answer new. Answers f h seat (s.Unclaim m.claim.batch) (unclaim_reply answer) new × Legal f (past (h ++ new)) × IfErr answer (λ e. e.0 ≡ m.claim) };

    fn act(self, seat: u32, state: &mut Shared) -> Result<(), (Claimed, AllocError)> {
        state.entries();
        let answer = state.store.unclaim(seat, self.claim);
        state.entries();
        answer
    }

    ghost kept = { λ m f names h rest n o later b legal. n later (rest ++ b.0, b.1 ∙ append_assoc h rest b.0) legal };
}

#[derive(Drop)]
pub(crate) struct Publish {
    pub(crate) claim: Claimed,
    pub(crate) fragment: Arc<Fragment>,
}

impl BookMove<Shared> for Publish {
    type Answer = Result<(), PublishEnd>;

    ghost needs = { λ m f h. Lasts (λ before. IsClaimAt before m.claim) f h × (arc_value m.fragment ≡ claimed_piece m.claim) };

    ghost does = { λ m f seat h answer new. Answers f h seat (s.Publish m.claim.batch) (publish_reply answer) new × Legal f (past (h ++ new)) × IfErr answer (GivesBackClaim m.claim m.fragment) };

    fn act(self, seat: u32, state: &mut Shared) -> Result<(), PublishEnd> {
        state.entries();
        let answer = state.store.publish(seat, self.claim, self.fragment);
        state.entries();
        answer
    }

    ghost kept = { λ m f names h rest n o. ((λ later b legal. n.0 later (rest ++ b.0, b.1 ∙ append_assoc h rest b.0) legal), n.1) };
}

#[derive(Drop)]
pub(crate) struct ClaimGroup {}

impl BookMove<Shared> for ClaimGroup {
    type Answer = Result<Option<Group>, AllocError>;

    ghost needs = { λ m f h. Unit {0} };

    ghost does = { λ m f seat h answer new. Answers f h seat s.ClaimGroup (claim_group_reply answer) new × Legal f (past (h ++ new)) × IfOk answer (λ group. GroupIsGiven group f (past (h ++ new))) × IfOk answer GivesMergeable };

    fn act(self, _seat: u32, state: &mut Shared) -> Result<Option<Group>, AllocError> {
        state.entries();
        state.store.claim_group()
    }

    ghost kept = { λ m f names h rest n o. n };
}

#[derive(Drop)]
pub(crate) struct PublishGroup {
    pub(crate) group: Group,
    pub(crate) sealed: Arc<Sealed>,
}

impl BookMove<Shared> for PublishGroup {
    type Answer = Result<(), SealEnd>;

    ghost needs = { λ m f h. Lasts (IsGroup m.group f) f h × (arc_value m.sealed ≡ joined m.group.fragments) };

    ghost does = { λ m f seat h answer new. Answers f h seat (s.PublishGroup m.group.number) (publish_group_reply answer) new × Legal f (past (h ++ new)) × IfErr answer (GivesBackGroup m.group m.sealed) };

    fn act(self, seat: u32, state: &mut Shared) -> Result<(), SealEnd> {
        state.entries();
        let answer = state.store.publish_group(seat, self.group, self.sealed);
        state.entries();
        answer
    }

    ghost kept = { λ m f names h rest n o. ((λ later b legal. n.0 later (rest ++ b.0, b.1 ∙ append_assoc h rest b.0) legal), n.1) };
}

#[derive(Drop)]
pub(crate) struct Register {
    pub(crate) mode: Mode,
    pub(crate) expr: Expr,
}

impl BookMove<Shared> for Register {
    type Answer = Result<Session, (Expr, RegisterEnd)>;

    ghost needs = { λ m f h. Unit {0} };

    ghost does = { λ m f seat h answer new. Answers f h seat (s.Register m.mode m.expr) (register_reply answer) new × Legal f (past (h ++ new)) × IfOk answer (λ session. IsRegisteredAt (past (h ++ new)) session.query) × IfErr answer (λ e. e.0 ≡ m.expr) };

    fn act(self, seat: u32, state: &mut Shared) -> Result<Session, (Expr, RegisterEnd)> {
        let answer = state.store.register(seat, self.mode, self.expr);
        state.entries();
        answer
    }

    ghost kept = { λ m f names h rest n o. n };
}

#[derive(Drop)]
pub(crate) struct Take {
    pub(crate) session: Session,
}

impl BookMove<Shared> for Take {
    type Answer = Result<Taken, (Session, TakeEnd)>;

    ghost needs = { λ m f h. Lasts (λ before. IsRegisteredAt before m.session.query) f h };

    ghost does = { λ m f seat h answer new. Answers f h seat (s.Take m.session.query) (take_reply answer) new × Legal f (past h) × Legal f (past (h ++ new)) × IfOk answer (λ t. IsSnapshot f.group (past h) m.session.query t.snapshot (registration m.session.query (past h))) × IfOk answer (λ t. TellsUpTo (past (h ++ new)) m.session.query t.snapshot.taking (registration m.session.query (past (h ++ new)))) × IsRegisteredAt (past (h ++ new)) m.session.query × IfOk answer (λ t. t.session ≡ m.session) × IfErr answer (λ e. e.0 ≡ m.session) };

    fn act(self, seat: u32, state: &mut Shared) -> Result<Taken, (Session, TakeEnd)> {
        state.entries();
        let answer = state.store.take(seat, self.session);
        state.entries();
        answer
    }

    ghost kept = { λ m f names h rest n o later b legal. n later (rest ++ b.0, b.1 ∙ append_assoc h rest b.0) legal };
}

#[derive(Drop)]
pub(crate) struct Leave {
    pub(crate) query: u32,
}

impl BookMove<Shared> for Leave {
    type Answer = Result<(), LeaveEnd>;

    ghost needs = { λ m f h. Lasts (λ before. IsRegisteredAt before m.query) f h };

    ghost does = { λ m f seat h answer new. Answers f h seat (s.Leave m.query) (leave_reply answer) new × Legal f (past (h ++ new)) × IsRegisteredAt (past (h ++ new)) m.query };

    fn act(self, seat: u32, state: &mut Shared) -> Result<(), LeaveEnd> {
        state.entries();
        let answer = state.store.leave(seat, self.query);
        state.entries();
        answer
    }

    ghost kept = { λ m f names h rest n o later b legal. n later (rest ++ b.0, b.1 ∙ append_assoc h rest b.0) legal };
}
