//! A ticket lock whose locked state is a history.
//!
//! A `Book` keeps a state that holds a history, a list of entries each of which tells the seat that made it. Threads
//! share the book. A thread acts on the state in its turn, by a `Move`, and needs a `Root` or a `Pass` for it: each has a
//! seat with a number of its own. The root has seat 0, and the passes that it splits off have 1, 2, 3 and so on. A pass
//! goes to a thread of its own, and at the end the root joins it. Once all are joined, `Book::close` gives the state back.
//!
//! What a root or a pass has seen is the history at the end of its last turn, or at a split what the root had seen; a join
//! makes the root's the longer of both.
//!
//! # What is claimed
//!
//! For any number of seats and every schedule of the threads:
//!
//! - There is one history. A turn finds it beginning with all that the pass had seen, and what came since was made by
//!   other seats. The move's need holds there. Its answer and its entries are those that the move's meaning gives for that
//!   history, and each entry tells the pass's seat. They are put at the end, and then the pass has seen the whole.
//! - So among all that a pass has seen, its own entries are just those that its turns made, each once and in order.
//! - A new pass has a new number, has seen what the root has seen, and has made nothing.
//! - At a join, one of what the two have seen begins with the other. In the longer one, past what the pass had seen and
//!   past what the root had seen, there are entries of other seats alone.
//! - The state that `close` gives has the history that the root has seen, made by the seats that are the root's own,
//!   and the frame of the state that `Book::new` was given.
//! - No call but a turn waits, and none but `Book::new` takes memory, besides what a move does.
//!
//! # What isn't
//!
//! - No progress: not that a turn ever comes, nor that a thread that sleeps is woken. A move that never returns keeps the
//!   others waiting, and so does a thread that calls a turn inside a move.
//! - No fairness and no order of service: nothing says that seats are served in the order in which they asked.
//! - No order between threads that told each other nothing. Their entries are in one history, and that is all.
//! - Nothing of time or speed.
//!
//! A pass that is dropped without a join keeps its number, and the root counts it as out for good, so that the book
//! can't be closed. Its turns stay in the history, and the others go on.
#![tactic(auto)]

mod book;
mod lock;
mod seats;
#[cfg(test)]
mod tests;
mod told;
mod view;

pub use book::Book;
pub use seats::{Pass, Root, Turner};
pub use told::{History, Move, Told};
