//! The root, the passes, and who makes turns.
ghost use Rattle.std.specs.Prelude.{◌≡◌, ◌+◌, [], ◌∷◌, length, slice_get, IsSome, Some};
ghost use Rattle.turn_book.specs.declared.view.Stage.TheVariants.{Idle};

use crate::book::Book;
use crate::lock::{Place, turn_at};
use crate::told::{History, Move};
use std::sync::Wait;

/// The right to make turns. It has a seat of its own, and has seen a beginning of the history.
///
/// A pass that is dropped without a join leaves `Root::out` above 0 for good.
#[derive(Drop)]
pub struct Pass<S: History> {
    pub(crate) place: Place<S>,
    pub(crate) number: u32,
    pub ghost idle: { place.me.0.stage ≡ Idle },
    pub ghost empty: { place.me.1 ≡ [] },
    pub ghost seated: { place.me.0.seat ≡ number },
    pub ghost named: { place.me.0.names ≡ number ∷ [] },
    pub ghost framed: { IsSome place.me.0.frame },
}

/// The pass with seat 0, which makes the others and takes them in again.
#[derive(Drop)]
pub struct Root<S: History> {
    pub(crate) place: Place<S>,
    pub(crate) made: u32,
    pub(crate) out: u32,
    pub ghost first: { place.id ≡ 0 },
    pub ghost idle: { place.me.0.stage ≡ Idle },
    pub ghost empty: { place.me.1 ≡ [] },
    pub ghost seated: { place.me.0.seat ≡ 0 },
    pub ghost named: { slice_get place.me.0.names 0 ≡ Some 0 },
    pub ghost framed: { IsSome place.me.0.frame },
    pub ghost counts_made: { place.me.0.made ≡ made },
    pub ghost counts_out: { length place.me.0.away ≡ out },
    pub ghost shared: { length place.me.0.names + out ≡ made + 1 },
}

impl<S: History> Root<S> {
    ghost use Rattle.turn_book.specs.Seats.{root_standing};

    /// How many passes were made.
    pub fn made(&self) -> u32
        ensures { result ≡ (root_standing self.now).made }
    {
        self.made
    }

    /// How many passes were made and not joined.
    pub fn out(&self) -> u32
        ensures { result ≡ (root_standing self.now).out }
    {
        self.out
    }
}

/// What a type has that sits at the table of a book. No other crate can name it, so none can make a `Turner`.
pub trait Seated {}

impl<S: History> Seated for Pass<S> {}

impl<S: History> Seated for Root<S> {}

/// Who makes turns: the root and the passes, and no other type.
///
/// All but `seat` is for `Book` alone, whose `turn` says what a turn is.
pub trait Turner<S: History>: Seated {
    ghost use Rattle.turn_book.specs.Seats.{book_id};
    ghost use Rattle.turn_book.specs.Standings.{BookId, Standing, NeedHolds, Turned};

    // The book that it is of.
    ghost of: { Self → BookId };

    // What contracts see of it.
    ghost standing: { Self → Standing S.Entry S.Frame };

    /// The seat's number: 0 for the root, and from 1 on for the passes in the order in which they were made.
    fn seat(&self) -> u32
        ensures { result ≡ (standing self.now).seat };

    fn take_turn<M: Move<S>, R: Wait>(&mut self, rt: &R, book: &Book<S>, step: M) -> M::Answer
        requires book { of self.old ≡ book_id book.now }
        requires needs { NeedHolds M.needs step (standing self.old) }
        ensures book { of self.new ≡ of self.old }
        ensures turned { Turned S.maker M.needs M.does step (standing self.old) (standing self.new) result };
}

impl<S: History> Turner<S> for Pass<S> {
    ghost use Rattle.turn_book.specs.Seats.{pass_book, pass_standing};

    ghost of = { pass_book };

    ghost standing = { pass_standing };

    fn seat(&self) -> u32 {
        self.number
    }

    fn take_turn<M: Move<S>, R: Wait>(&mut self, rt: &R, book: &Book<S>, step: M) -> M::Answer {
        turn_at(rt, &book.table.shared, &mut self.place, self.number, step)
    }
}

impl<S: History> Turner<S> for Root<S> {
    ghost use Rattle.turn_book.specs.Seats.{root_book, root_standing};

    ghost of = { root_book };

    ghost standing = { root_standing };

    fn seat(&self) -> u32 {
        0
    }

    fn take_turn<M: Move<S>, R: Wait>(&mut self, rt: &R, book: &Book<S>, step: M) -> M::Answer {
        turn_at(rt, &book.table.shared, &mut self.place, 0, step)
    }
}
