//! A book over a list of pairs of a seat and a number.
ghost use Rattle.std.specs.Prelude.{◌≡◌, ◌+◌, ◌≤◌, [], ◌∷◌, All, IfOk, MatchResult, vec_len};
ghost use Rattle.turn_book.specs.Seats.{book_id, pass_book, root_book, root_standing};

use crate::{Book, History, Move as BookMove, Pass, Root, Told, Turner};
use std::alloc::{AllocError, Global};
use std::sync::Wait;
use std::test::Fail;
use std::thread;
use std::thread::Threads;

#[derive(Debug, Clone, Copy, PartialEq)]
struct Pair {
    seat: u32,
    number: u64,
}

#[derive(Drop)]
struct Pairs {
    entries: Vec<Pair>,
    label: u8,
}

impl History for Pairs {
    type Entry = Pair;

    type Frame = u8;

    ghost history = { λ s. s.entries.items };

    ghost frame = { λ s. s.label };

    ghost maker = { λ e. e.seat };

    fn told(&self) -> u64 {
        self.entries.len() as u64
    }
}

impl Told for Pairs {}

fn pair_of(seat: u32, number: u64) -> Pair
    ensures { result ≡ record { seat = seat; number = number } }
{
    Pair { seat, number }
}

// Appends the number.
#[derive(Drop)]
struct Append {
    number: u64,
}

impl BookMove<Pairs> for Append {
    type Answer = Result<(), AllocError>;

    ghost needs = { λ m f h. Unit {0} };

    ghost does = { λ m f seat h answer new. MatchResult answer (λ _. new ≡ record { seat = seat; number = m.number } ∷ []) (λ _. new ≡ []) };

    fn act(self, seat: u32, state: &mut Pairs) -> Result<(), AllocError> {
        state
            .entries
            .push(pair_of(seat, self.number))
            .map_err(|_| AllocError)
    }

    ghost kept = { λ m f names h rest n o. tt };
}

fn empty(alloc: Global) -> Pairs
    ensures { result.entries.items ≡ [] }
{
    Pairs {
        entries: Vec::new(alloc),
        label: 7,
    }
}

#[test]
fn the_turns_of_two_passes_stand_in_the_order_made(rt: HostRuntime) -> Result<(), Fail> {
    let (book, mut root) = Book::new(rt.alloc(), empty(rt.alloc()))?;
    let mut a = book.split(&mut root)?;
    let mut b = book.split(&mut root)?;
    assert_eq!(rt; (root.seat(), a.seat(), b.seat()), (0, 1, 2));
    book.turn(&rt, &mut a, Append { number: 5 })?;
    book.turn(&rt, &mut b, Append { number: 6 })?;
    book.turn(&rt, &mut a, Append { number: 7 })?;
    book.join(&mut root, a);
    book.join(&mut root, b);
    assert_eq!(rt; (root.made(), root.out()), (2, 0));
    let state = book.close(root);
    let pairs = [pair_of(1, 5), pair_of(2, 6), pair_of(1, 7)];
    assert_eq!(rt; state.entries.as_slice(), pairs.as_slice());
    assert_eq!(rt; state.label, 7);
    Ok(())
}

// Appends the numbers below `turns`, in order.
fn count_up<R: Wait>(rt: &R, book: &Book<Pairs>, mut pass: Pass<Pairs>, turns: u64) -> Pass<Pairs>
    requires { pass_book pass ≡ book_id book.now }
    ensures { pass_book result ≡ book_id book.now }
{
    for number in 0..turns {
        if book.turn(rt, &mut pass, Append { number }).is_err() {
            break;
        }
    }
    pass
}

// Each pass counts up in a thread of its own.
fn count_up_all<R: Threads + Wait + Sync>(
    rt: &R,
    book: &Book<Pairs>,
    passes: Vec<Pass<Pairs>>,
    turns: u64,
) -> Result<Vec<Pass<Pairs>>, AllocError>
    requires { All (λ pass. pass_book pass ≡ book_id book.now) passes.items }
    ensures { IfOk result (λ done. All (λ pass. pass_book pass ≡ book_id book.now) done.items) }
{
    thread::map_vec(
        rt,
        passes,
        &|pass| -> Pass<Pairs>
            requires { pass_book pass ≡ book_id book.now }
            ensures { pass_book result ≡ book_id book.entry.now }
        { count_up(rt, book, pass, turns) },
    )
}

fn split_all(
    alloc: Global,
    book: &Book<Pairs>,
    root: &mut Root<Pairs>,
    seats: u32,
) -> Result<Vec<Pass<Pairs>>, AllocError>
    requires book { root_book root.old ≡ book_id book.now }
    requires room { (root_standing root.old).made + seats ≤ 4294967295 }
    ensures book { root_book root.new ≡ book_id book.now }
    ensures passes { IfOk result (λ passes. All (λ pass. pass_book pass ≡ book_id book.now) passes.items) }
{
    let mut passes = Vec::new(alloc);
    for _ in 0..seats {
        passes.push(book.split(root)?).map_err(|_| AllocError)?;
    }
    Ok(passes)
}

fn join_all(book: &Book<Pairs>, root: &mut Root<Pairs>, mut passes: Vec<Pass<Pairs>>)
    requires book { root_book root.old ≡ book_id book.now }
    requires passes { All (λ pass. pass_book pass ≡ book_id book.now) passes.items }
    ensures { root_book root.new ≡ book_id book.now }
{
    while let Some(pass) = passes.pop() {
        book.join(root, pass);
    }
}

// How many entries the seat made, where it made the numbers from 0 on in order.
fn counted(pairs: &[Pair], seat: u32) -> Option<u64> {
    let mut next = 0;
    for pair in pairs {
        if pair.seat == seat {
            if pair.number != next {
                return None;
            }
            next = pair.number.checked_add(1)?;
        }
    }
    Some(next)
}

/// With many turns, threads sleep often, so the test doesn't end where a sleeper isn't woken.
#[test]
fn each_seat_keeps_its_order_in_threads(rt: HostRuntime) -> Result<(), Fail> {
    for (seats, turns) in [(2, 100), (4, 100_000)] {
        let (book, mut root) = Book::new(rt.alloc(), empty(rt.alloc()))?;
        let passes = split_all(rt.alloc(), &book, &mut root, seats)?;
        let passes = count_up_all(&rt, &book, passes, turns)?;
        join_all(&book, &mut root, passes);
        assert_eq!(rt; (root.made(), root.out()), (seats, 0));
        let state = book.close(root);
        assert_eq!(rt; state.entries.len() as u64, u64::from(seats) * turns);
        for seat in 1..=seats {
            assert_eq!(rt;
                counted(state.entries.as_slice(), seat),
                Some(turns),
                "seat {seat}"
            );
        }
    }
    Ok(())
}

#[test]
fn a_dropped_pass_stays_out(rt: HostRuntime) -> Result<(), Fail> {
    let (book, mut root) = Book::new(rt.alloc(), empty(rt.alloc()))?;
    let mut a = book.split(&mut root)?;
    let b = book.split(&mut root)?;
    book.turn(&rt, &mut a, Append { number: 1 })?;
    drop(a);
    book.join(&mut root, b);
    book.turn(&rt, &mut root, Append { number: 2 })?;
    assert_eq!(rt; (root.made(), root.out()), (2, 1));
    Ok(())
}
