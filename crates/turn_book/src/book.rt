//! The book, which keeps the state, and all that is done with it.
ghost use Rattle.std.specs.Prelude.{◌≡◌, ◌+◌, ◌<◌, [], ◌∷◌, ◌++◌, All, Contains, IfOk, IsOkAnd, Some};

use crate::lock::TICKET;
use crate::seats::{Pass, Root, Turner};
use crate::told::{History, Move};
use crate::view::{Cut, InTurn, Learning, View};
use atomic_table::Table;
use std::alloc::{AllocError, Global};
use std::snapshot::Snapshot;
use std::sync::Wait;

/// A state under a ticket lock, which threads share by reference.
///
/// The state's history is one: what a pass has seen is a beginning of it, and each turn adds to its end.
#[derive(Drop)]
pub struct Book<S: History> {
    pub(crate) table: Table<
        Option<S>,
        View<<S as History>::Entry, <S as History>::Frame>,
        Snapshot<S>,
        InTurn,
        Global,
    >,
    pub ghost words: { table.shared.table_id.words ≡ 3 },
    pub ghost slots: { table.shared.table_id.slots ≡ 1 },
}

impl<S: History> Book<S> {
    ghost use Rattle.turn_book.specs.Histories.{GrowsByOthers, longer, own_of};
    ghost use Rattle.turn_book.specs.Seats.{book_id, pass_book, pass_standing, root_book, root_standing};
    ghost use Rattle.turn_book.specs.Standings.{NeedHolds, Turned, first_standing, new_standing};

    /// A book that keeps the state, and its root.
    ///
    /// # Errors
    ///
    /// `AllocError` where memory ran out. The state is gone then.
    pub fn new(alloc: Global, state: S) -> Result<(Book<S>, Root<S>), AllocError>
        requires { S.history state ≡ [] }
        ensures { IfOk result (λ made. (root_book made.1 ≡ book_id made.0) × (root_standing made.1 ≡ first_standing (S.frame state))) }
    {
        let key = Snapshot::of(&state);
        let mut slots = Vec::new(alloc);
        slots.push(Some(state))?;
        let (table, place) = Table::new(alloc, &[0, 0, 0], slots, &key)
            .ok()
            .ok_or(AllocError)?;
        Ok((
            Book { table },
            Root {
                place,
                made: 0,
                out: 0,
            },
        ))
    }

    /// A pass with a new seat, which has seen what the root has seen and has made nothing.
    ///
    /// It takes no memory, so its answer is always `Ok`.
    pub fn split(&self, root: &mut Root<S>) -> Result<Pass<S>, AllocError>
        requires book { root_book root.old ≡ book_id self.now }
        requires room { (root_standing root.old).made < 4294967295 }
        ensures book { root_book root.new ≡ root_book root.old }
        ensures root { root_standing root.new ≡ record (root_standing root.old) { made = (root_standing root.old).made + 1; out = (root_standing root.old).out + 1 } }
        ensures pass { IsOkAnd result (λ pass. (pass_book pass ≡ root_book root.old) × (pass_standing pass ≡ new_standing ((root_standing root.old).made + 1) (root_standing root.old).seen (root_standing root.old).frame)) }
        ensures nothing_made { IsOkAnd result (λ pass. own_of S.maker (pass_standing pass).names (pass_standing pass).seen ≡ []) }
    {
        Ok(self.cut(root))
    }

    // The root learns by a look that no entry that it has seen is of the new seat.
    fn cut(&self, root: &mut Root<S>) -> Pass<S>
        requires book { root_book root.old ≡ book_id self.now }
        requires room { (root_standing root.old).made < 4294967295 }
        ensures book { root_book root.new ≡ root_book root.old }
        ensures root { root_standing root.new ≡ record (root_standing root.old) { made = (root_standing root.old).made + 1; out = (root_standing root.old).out + 1 } }
        ensures pass { (pass_book result ≡ root_book root.old) × (pass_standing result ≡ new_standing ((root_standing root.old).made + 1) (root_standing root.old).seen (root_standing root.old).frame) }
        ensures nothing_made { own_of S.maker (pass_standing result).names (pass_standing result).seen ≡ [] }
    {
        let hall = &self.table.shared;
        hall.load::<Learning<S>>(&mut root.place, TICKET);
        let place = hall.split_seat::<Cut>(&mut root.place);
        root.made += 1;
        root.out += 1;
        Pass {
            place,
            number: root.made,
        }
    }

    /// The root takes the pass's names as its own, and has then seen the longer of both histories.
    /// It begins with each of them, and goes on from each with entries of others.
    pub fn join(&self, root: &mut Root<S>, pass: Pass<S>)
        requires book { (root_book root.old ≡ book_id self.now) × (pass_book pass ≡ book_id self.now) }
        ensures book { root_book root.new ≡ root_book root.old }
        ensures names { (root_standing root.new).names ≡ (root_standing root.old).names ++ (pass_standing pass).names }
        ensures seen { (root_standing root.new).seen ≡ longer (root_standing root.old).seen (pass_standing pass).seen }
        ensures root_grows { GrowsByOthers S.maker (root_standing root.old).names (root_standing root.old).seen (root_standing root.new).seen }
        ensures pass_grows { GrowsByOthers S.maker (pass_standing pass).names (pass_standing pass).seen (root_standing root.new).seen }
        ensures out { (root_standing root.new).out + 1 ≡ (root_standing root.old).out }
        ensures rest { ((root_standing root.new).seat ≡ (root_standing root.old).seat) × ((root_standing root.new).frame ≡ (root_standing root.old).frame) × ((root_standing root.new).made ≡ (root_standing root.old).made) }
    {
        let Pass { place, number: _ } = pass;
        let hall = &self.table.shared;
        hall.join_seat::<Cut>(&mut root.place, place);
        hall.load::<Learning<S>>(&mut root.place, TICKET);
        root.out -= 1;
    }

    /// The state, once all passes are joined. Its history is what the root has seen, and the root's names made all of it.
    pub fn close(self, root: Root<S>) -> S
        requires book { root_book root ≡ book_id self }
        requires out { (root_standing root).out ≡ 0 }
        ensures history { S.history result ≡ (root_standing root).seen }
        ensures frame { (root_standing root).frame ≡ Some (S.frame result) }
        ensures made { All (λ e. Contains (root_standing root).names (S.maker e)) (S.history result) }
    {
        let Book { table } = self;
        let Root {
            place,
            made: _,
            out: _,
        } = root;
        let mut closed = table.close_with(place);
        let found = closed.take(0);
        closed.free();
        let Some(state) = found else { unreachable!() };
        state
    }

    /// One turn: waits until the seat is served, has the move act on the state, and passes the turn on.
    ///
    /// The history that the move finds begins with all that the pass had seen, and goes on with entries of seats
    /// that aren't the pass's own. The move's need holds there, and its answer and its entries are those of its meaning
    /// there. Then the pass has seen the history that the move left. It has no answer of its own.
    pub fn turn<M: Move<S>, P: Turner<S>, R: Wait>(
        &self,
        rt: &R,
        pass: &mut P,
        step: M,
    ) -> M::Answer
        requires book { P.of pass.old ≡ book_id self.now }
        requires needs { NeedHolds M.needs step (P.standing pass.old) }
        ensures book { P.of pass.new ≡ P.of pass.old }
        ensures turned { Turned S.maker M.needs M.does step (P.standing pass.old) (P.standing pass.new) result }
    {
        pass.take_turn(rt, self, step)
    }
}
