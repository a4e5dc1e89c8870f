//! The state that the lock keeps, and what one turn does to it.
ghost use Rattle.std.specs.Prelude.{◌≡◌, ℕ, List, ◌++◌, length, All};
ghost use Rattle.turn_book.specs.Histories.{Outside};

/// A state that holds a history: a list of entries, each of which tells the seat that made it.
/// Besides it has a frame, plain data that no move changes.
pub trait History: Drop {
    type Entry;

    type Frame;

    ghost history: { Self → List Self.Entry };

    ghost frame: { Self → Self.Frame };

    ghost maker: { Self.Entry → ℕ };

    /// The history's length.
    fn told(&self) -> u64
        ensures { result ≡ length (history self.now) };
}

/// A state that may go from thread to thread, so that threads can share a book of it. An `impl` is empty: the compiler
/// sees at it, by the types, that the state can be sent. That it can is proved where threads are started. No call of a book
/// asks for it.
pub trait Told: History + Send {}

/// What one turn does to the state. It waits for nobody, and has want of memory in its own answer.
pub trait Move<S: History> {
    type Answer;

    // What the move needs of the frame and of the history.
    ghost needs: { Self → S.Frame → List S.Entry → Type 0 };

    // What it does, by the frame, the seat and the history that it finds: its answer and the entries that it appends.
    ghost does: { Self → S.Frame → ℕ → List S.Entry → Self.Answer → List S.Entry → Type 0 };

    fn act(self, seat: u32, state: &mut S) -> Self::Answer
        requires { needs self (S.frame state.old) (S.history state.old) }
        ensures { (new : List S.Entry) × (S.history state.new ≡ S.history state.old ++ new) × does self (S.frame state.old) seat (S.history state.old) result new × All (λ e. S.maker e ≡ seat) new × (S.frame state.new ≡ S.frame state.old) };

    // Entries of other seats keep the need.
    ghost kept: { (m : Self) (f : S.Frame) (names : List ℕ) (h rest : List S.Entry) → needs m f h → Outside S.maker names rest → needs m f (h ++ rest) };
}
