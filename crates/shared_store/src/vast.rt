//! The store that threads share.
ghost use Rattle.std.specs.Prelude.{◌≡◌, ◌+◌, ◌<◌, ◌++◌, [], All, Contains, IfErr, IfOk, IsOkAnd, Some};
ghost use Rattle.std.specs.Arc.{arc_value};
ghost use Rattle.event_history.specs.Histories.{batch_count, past};
ghost use Rattle.event_history.specs.Pieces.{joined};
ghost use Rattle.event_history.specs.Queries.{registration};
ghost use Rattle.event_history.specs.Steps as s;
ghost use Rattle.history_core.specs.Replies.{GivesBackClaim, GivesBackGroup, GivesMergeable, IsClaimAt, IsRegisteredAt, accept_reply, claim_for_reply, claim_group_reply, claim_reply, claimed_piece, leave_reply, publish_group_reply, publish_reply, register_reply, take_reply, unclaim_reply};
ghost use Rattle.history_core.specs.Telling.{TellsUpTo};
ghost use Rattle.shared_store.specs.Given.{ClaimIsGiven, GroupIsGiven, IsGroup, Sees};
ghost use Rattle.shared_store.specs.Turns.{IsTakenAt, IsTurn, own, seat_of};
ghost use Rattle.turn_book.specs.Histories.{GrowsByOthers, longer};
ghost use Rattle.turn_book.specs.Seats.{book_id, pass_book, pass_standing, root_book, root_standing};
ghost use Rattle.turn_book.specs.Standings.{first_standing, new_standing};

use crate::moves;
use crate::shared::Shared;
use event_batch::Packed;
use event_history::histories_grow;
use history_core::{
    AcceptEnd, Accepted, Claim, Group, LeaveEnd, Mode, PublishEnd, RegisterEnd, SealEnd, Session,
    Store, TakeEnd, Taken, given_stays,
};
use partition::{Fragment, Sealed};
use query_meaning::Expr;
use std::alloc::{AllocError, Global};
use std::sync::{Arc, Wait};
use turn_book::{Book, Turner};

/// The seat that makes the others and takes them in again.
pub type Root = turn_book::Root<Shared>;

/// The right of a thread to call the store.
pub type Pass = turn_book::Pass<Shared>;

/// A store that threads share by reference. Each call on it but those of the root is one turn.
#[derive(Drop)]
pub struct Vast {
    pub(crate) book: Book<Shared>,
}

impl Vast {
    /// The store under its lock, and the root. The store has no history yet, and is gone where memory ran out.
    pub fn new(alloc: Global, store: Store) -> Result<(Vast, Root), AllocError>
        requires { store.history ≡ [] }
        ensures { IfOk result (λ made. (root_book made.1 ≡ book_id made.0.book) × (root_standing made.1 ≡ first_standing store.limits)) }
    {
        let (book, root) = Book::new(alloc, Shared { store })?;
        Ok((Vast { book }, root))
    }

    /// A pass with a new seat, which has seen what the root has seen and has made nothing. It takes no memory, so its
    /// answer is always `Ok`.
    pub fn split(&self, root: &mut Root) -> Result<Pass, AllocError>
        requires book { root_book root.old ≡ book_id self.now.book }
        requires room { (root_standing root.old).made < 4294967295 }
        ensures book { root_book root.new ≡ root_book root.old }
        ensures root { root_standing root.new ≡ record (root_standing root.old) { made = (root_standing root.old).made + 1; out = (root_standing root.old).out + 1 } }
        ensures pass { IsOkAnd result (λ pass. (pass_book pass ≡ root_book root.old) × (pass_standing pass ≡ new_standing ((root_standing root.old).made + 1) (root_standing root.old).seen (root_standing root.old).frame)) }
        ensures nothing_made { IsOkAnd result (λ pass. own (pass_standing pass) ≡ []) }
    {
        self.book.split(root)
    }

    /// The root takes the pass's names as its own, and has then seen the longer of both histories: it begins with each of
    /// them, and goes on from each with entries of others.
    pub fn join(&self, root: &mut Root, pass: Pass)
        requires book { (root_book root.old ≡ book_id self.now.book) × (pass_book pass ≡ book_id self.now.book) }
        ensures book { root_book root.new ≡ root_book root.old }
        ensures names { (root_standing root.new).names ≡ (root_standing root.old).names ++ (pass_standing pass).names }
        ensures seen { (root_standing root.new).seen ≡ longer (root_standing root.old).seen (pass_standing pass).seen }
        ensures root_grows { GrowsByOthers seat_of (root_standing root.old).names (root_standing root.old).seen (root_standing root.new).seen }
        ensures pass_grows { GrowsByOthers seat_of (pass_standing pass).names (pass_standing pass).seen (root_standing root.new).seen }
        ensures out { (root_standing root.new).out + 1 ≡ (root_standing root.old).out }
        ensures rest { ((root_standing root.new).seat ≡ (root_standing root.old).seat) × ((root_standing root.new).frame ≡ (root_standing root.old).frame) × ((root_standing root.new).made ≡ (root_standing root.old).made) }
    {
        self.book.join(root, pass);
    }

    /// The store, once all passes are joined. Its history is what the root has seen, and the root's names made all of it.
    pub fn close(self, root: Root) -> Store
        requires book { root_book root ≡ book_id self.book }
        requires out { (root_standing root).out ≡ 0 }
        ensures history { result.history ≡ (root_standing root).seen }
        ensures limits { (root_standing root).frame ≡ Some result.limits }
        ensures made { All (λ e. Contains (root_standing root).names (seat_of e)) result.history }
    {
        let Vast { book } = self;
        let Shared { store } = book.close(root);
        store
    }

    /// Accepts a batch: the next one. `Full` comes exactly where its rows and the events there are pass the limit.
    pub fn accept<P: Turner<Shared>, R: Wait>(
        &self,
        rt: &R,
        pass: &mut P,
        packed: Packed,
    ) -> Result<Accepted, (Packed, AcceptEnd)>
        requires book { P.of pass.old ≡ book_id self.now.book }
        ensures book { P.of pass.new ≡ P.of pass.old }
        ensures turn { IsTurn (s.Accept packed) (P.standing pass.old) (P.standing pass.new) (accept_reply result) }
        ensures back { IfErr result (λ e. e.0 ≡ packed) }
    {
        self.book.turn(rt, pass, moves::Accept { packed })
    }

    /// Claims the least batch that is neither indexed nor claimed, if there is one.
    pub fn claim<P: Turner<Shared>, R: Wait>(
        &self,
        rt: &R,
        pass: &mut P,
    ) -> Result<Option<Claim>, AllocError>
        requires book { P.of pass.old ≡ book_id self.now.book }
        ensures book { P.of pass.new ≡ P.of pass.old }
        ensures turn { IsTurn s.Claim (P.standing pass.old) (P.standing pass.new) (claim_reply result) }
        ensures given { IfOk result (ClaimIsGiven (past (P.standing pass.new).seen)) }
    {
        self.book.turn(rt, pass, moves::Claim {})
    }

    /// A batch to be indexed, whoever has claimed it. The caller has seen that it was accepted. It marks nothing.
    pub fn claim_for<P: Turner<Shared>, R: Wait>(
        &self,
        rt: &R,
        pass: &mut P,
        batch: u64,
    ) -> Result<Claim, AllocError>
        requires book { P.of pass.old ≡ book_id self.now.book }
        requires known { batch < batch_count (past (P.standing pass.old).seen) }
        ensures book { P.of pass.new ≡ P.of pass.old }
        ensures turn { IsTurn (s.ClaimFor batch) (P.standing pass.old) (P.standing pass.new) (claim_for_reply result) }
        ensures given { IfOk result (IsClaimAt (past (P.standing pass.new).seen)) }
    {
        histories_grow();
        self.book.turn(rt, pass, moves::ClaimFor { batch })
    }

    /// Gives a claim back, so that its batch can be claimed again.
    pub fn unclaim<P: Turner<Shared>, R: Wait>(
        &self,
        rt: &R,
        pass: &mut P,
        claim: Claim,
    ) -> Result<(), (Claim, AllocError)>
        requires book { P.of pass.old ≡ book_id self.now.book }
        requires known { IsClaimAt (past (P.standing pass.old).seen) claim }
        ensures book { P.of pass.new ≡ P.of pass.old }
        ensures turn { IsTurn (s.Unclaim claim.batch) (P.standing pass.old) (P.standing pass.new) (unclaim_reply result) }
        ensures back { IfErr result (λ e. e.0 ≡ claim) }
    {
        given_stays();
        self.book.turn(rt, pass, moves::Unclaim { claim })
    }

    /// Publishes the index of a claimed batch. `Already` comes exactly where the batch is indexed.
    pub fn publish<P: Turner<Shared>, R: Wait>(
        &self,
        rt: &R,
        pass: &mut P,
        claim: Claim,
        fragment: Arc<Fragment>,
    ) -> Result<(), PublishEnd>
        requires book { P.of pass.old ≡ book_id self.now.book }
        requires known { IsClaimAt (past (P.standing pass.old).seen) claim }
        requires fragment { arc_value fragment ≡ claimed_piece claim }
        ensures book { P.of pass.new ≡ P.of pass.old }
        ensures turn { IsTurn (s.Publish claim.batch) (P.standing pass.old) (P.standing pass.new) (publish_reply result) }
        ensures back { IfErr result (GivesBackClaim claim fragment) }
    {
        given_stays();
        self.book.turn(rt, pass, moves::Publish { claim, fragment })
    }

    /// The least group whose batches are all indexed and which isn't sealed, if there is one.
    pub fn claim_group<P: Turner<Shared>, R: Wait>(
        &self,
        rt: &R,
        pass: &mut P,
    ) -> Result<Option<Group>, AllocError>
        requires book { P.of pass.old ≡ book_id self.now.book }
        ensures book { P.of pass.new ≡ P.of pass.old }
        ensures turn { IsTurn s.ClaimGroup (P.standing pass.old) (P.standing pass.new) (claim_group_reply result) }
        ensures given { IfOk result (λ group. Sees (GroupIsGiven group) (P.standing pass.new)) }
        ensures mergeable { IfOk result GivesMergeable }
    {
        self.book.turn(rt, pass, moves::ClaimGroup {})
    }

    /// Publishes the merged index of a group. `AlreadySealed` comes exactly where the group is sealed.
    pub fn publish_group<P: Turner<Shared>, R: Wait>(
        &self,
        rt: &R,
        pass: &mut P,
        group: Group,
        sealed: Arc<Sealed>,
    ) -> Result<(), SealEnd>
        requires book { P.of pass.old ≡ book_id self.now.book }
        requires known { Sees (IsGroup group) (P.standing pass.old) }
        requires sealed { arc_value sealed ≡ joined group.fragments }
        ensures book { P.of pass.new ≡ P.of pass.old }
        ensures turn { IsTurn (s.PublishGroup group.number) (P.standing pass.old) (P.standing pass.new) (publish_group_reply result) }
        ensures back { IfErr result (GivesBackGroup group sealed) }
    {
        given_stays();
        self.book
            .turn(rt, pass, moves::PublishGroup { group, sealed })
    }

    /// Registers a query: the next one. `TooMany` comes exactly where as many as the limit are registered, and else `Ahead`
    /// exactly where it would begin at an event that is not there.
    pub fn register<P: Turner<Shared>, R: Wait>(
        &self,
        rt: &R,
        pass: &mut P,
        mode: Mode,
        expr: Expr,
    ) -> Result<Session, (Expr, RegisterEnd)>
        requires book { P.of pass.old ≡ book_id self.now.book }
        ensures book { P.of pass.new ≡ P.of pass.old }
        ensures turn { IsTurn (s.Register mode expr) (P.standing pass.old) (P.standing pass.new) (register_reply result) }
        ensures known { IfOk result (λ session. IsRegisteredAt (past (P.standing pass.new).seen) session.query) }
        ensures back { IfErr result (λ e. e.0 ≡ expr) }
    {
        self.book.turn(rt, pass, moves::Register { mode, expr })
    }

    /// Takes what a query is to be told next. `Left` comes exactly where it has left.
    pub fn take<P: Turner<Shared>, R: Wait>(
        &self,
        rt: &R,
        pass: &mut P,
        session: Session,
    ) -> Result<Taken, (Session, TakeEnd)>
        requires book { P.of pass.old ≡ book_id self.now.book }
        requires known { IsRegisteredAt (past (P.standing pass.old).seen) session.query }
        ensures book { P.of pass.new ≡ P.of pass.old }
        ensures turn { IsTurn (s.Take session.query) (P.standing pass.old) (P.standing pass.new) (take_reply result) }
        ensures taken { IfOk result (λ t. IsTakenAt (P.standing pass.new) session.query t.snapshot) }
        ensures told { IfOk result (λ t. TellsUpTo (past (P.standing pass.new).seen) session.query t.snapshot.taking (registration session.query (past (P.standing pass.new).seen))) }
        ensures known { IsRegisteredAt (past (P.standing pass.new).seen) session.query }
        ensures session { IfOk result (λ t. t.session ≡ session) }
        ensures back { IfErr result (λ e. e.0 ≡ session) }
    {
        given_stays();
        self.book.turn(rt, pass, moves::Take { session })
    }

    /// Ends a query. `Left` comes exactly where it has left.
    pub fn leave<P: Turner<Shared>, R: Wait>(
        &self,
        rt: &R,
        pass: &mut P,
        query: u32,
    ) -> Result<(), LeaveEnd>
        requires book { P.of pass.old ≡ book_id self.now.book }
        requires known { IsRegisteredAt (past (P.standing pass.old).seen) query }
        ensures book { P.of pass.new ≡ P.of pass.old }
        ensures turn { IsTurn (s.Leave query) (P.standing pass.old) (P.standing pass.new) (leave_reply result) }
        ensures known { IsRegisteredAt (past (P.standing pass.new).seen) query }
    {
        given_stays();
        self.book.turn(rt, pass, moves::Leave { query })
    }
}
