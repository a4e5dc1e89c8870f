//! What the seats at the table of a book know, and the rule that ties it to the table.
//! The words are ticket, serving and tally. The slot has the state, or nothing while the state is out.
use crate::told::History;
use atomic_table::{Join, Play, Split, TableRule};
use std::collections::LinkedList;
use std::marker::PhantomData;
use std::snapshot::Snapshot;

/// How far a turn has come, with its ticket.
pub enum Stage {
    Idle,
    Waits(u64),
    /// The state is out with this seat.
    Holds(u64),
    /// The state is back, and the turn isn't passed on yet.
    Left(u64),
}

/// A beginning of the history, and seats that made nothing past it.
pub struct Known<E> {
    pub names: LinkedList<u32>,
    pub seen: LinkedList<E>,
}

/// What a seat knows. No value of it is made.
pub struct View<E, F> {
    pub stage: Stage,
    pub seat: u32,
    pub names: LinkedList<u32>,
    pub seen: LinkedList<E>,
    /// It is `None` once the view is spent.
    pub frame: Option<F>,
    /// Of the root: how many seats were made, and which of them are out.
    pub made: u32,
    pub away: LinkedList<u32>,
    /// What the root and the pass knew when they were joined last, until the root's next turn.
    pub mine: Known<E>,
    pub theirs: Known<E>,
}

/// The rule of the lock.
pub struct InTurn;

impl<S: History> TableRule<Option<S>, View<S::Entry, S::Frame>, Snapshot<S>> for InTurn {
    ghost use Rattle.turn_book.specs.Turns.{Turns, root_view};

    ghost holds = { λ k. Turns S.history S.frame S.maker (S.frame k.value) };

    ghost first = { λ k. root_view (S.frame k.value) };
}

/// The step that draws a ticket.
pub struct Drawing;

impl<S, E, F> Play<Option<S>, View<E, F>> for Drawing {
    ghost use Rattle.turn_book.specs.Steps.{drew};

    ghost then = { drew };
}

/// The step that looks whether the seat is served. The state leaves home in it.
pub struct Looking<S> {
    state: PhantomData<S>,
}

impl<S: History> Play<Option<S>, View<S::Entry, S::Frame>> for Looking<S> {
    ghost use Rattle.turn_book.specs.Steps.{looked};

    ghost then = { looked S.history S.frame S.maker };
}

/// The step that counts the new entries. The state comes home in it.
pub struct Tallying<S> {
    state: PhantomData<S>,
}

impl<S: History> Play<Option<S>, View<S::Entry, S::Frame>> for Tallying<S> {
    ghost use Rattle.turn_book.specs.Steps.{tallied};

    ghost then = { tallied S.history };
}

/// The step that passes the turn on.
pub struct Passing;

impl<S, E, F> Play<Option<S>, View<E, F>> for Passing {
    ghost use Rattle.turn_book.specs.Steps.{passed};

    ghost then = { passed };
}

/// A look of the root, which learns what only the rule knows.
pub struct Learning<S> {
    state: PhantomData<S>,
}

impl<S: History> Play<Option<S>, View<S::Entry, S::Frame>> for Learning<S> {
    ghost use Rattle.turn_book.specs.Steps.{learnt};

    ghost then = { learnt S.maker };
}

/// How the root's view is cut, and takes in another.
pub struct Cut;

impl<E, F> Split<View<E, F>> for Cut {
    ghost use Rattle.turn_book.specs.Steps.{root_after, newcomer};

    ghost left = { root_after };

    ghost right = { newcomer };
}

impl<E, F> Join<View<E, F>> for Cut {
    ghost use Rattle.turn_book.specs.Steps.{joined, spent};

    ghost both = { joined };

    ghost spent = { spent _ _ };
}
