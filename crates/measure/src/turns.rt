//! Turns of a book with an empty move, and the same work under a mutex.
ghost use Rattle.std.specs.Prelude.{◌≡◌, ◌+◌, ◌≤◌, [], List, All, IfOk, vec_len};
ghost use Rattle.turn_book.specs.Seats.{book_id, pass_book, root_book, root_standing};

use std::alloc::{AllocError, Global};
use std::rt::Clock;
use std::sync::{Mutex, Wait};
use std::thread;
use std::thread::Threads;
use std::time::{Duration, Instant};
use turn_book::{Book, History, Move as BookMove, Pass, Root, Told};

/// How long all turns of all threads took.
#[derive(Clone, Copy)]
pub struct Spent {
    pub book: Duration,
    pub mutex: Duration,
}

// A state whose history stays empty. It counts the calls, so that each call does something.
#[derive(Drop)]
struct Calls {
    count: u64,
}

impl Calls {
    fn call(&mut self) {
        self.count = self.count.wrapping_add(1);
    }
}

impl History for Calls {
    type Entry = u32;

    type Frame = ();

    ghost history = { λ s. [] };

    ghost frame = { λ s. tt };

    ghost maker = { λ e. e };

    fn told(&self) -> u64 {
        0
    }
}

impl Told for Calls {}

// A move that appends nothing.
#[derive(Drop)]
struct Call;

impl BookMove<Calls> for Call {
    type Answer = ();

    ghost needs = { λ m f h. Unit {0} };

    ghost does = { λ m f seat h answer new. new ≡ [] };

    fn act(self, _seat: u32, state: &mut Calls) {
        state.call();
    }

    ghost kept = { λ m f names h rest n o. tt };
}

fn make_turns<R: Wait>(rt: &R, book: &Book<Calls>, mut pass: Pass<Calls>, turns: u64)
    requires { pass_book pass ≡ book_id book.now }
{
    for _ in 0..turns {
        book.turn(rt, &mut pass, Call);
    }
}

fn split_all(
    alloc: Global,
    book: &Book<Calls>,
    root: &mut Root<Calls>,
    threads: u32,
) -> Result<Vec<Pass<Calls>>, AllocError>
    requires book { root_book root.old ≡ book_id book.now }
    requires room { (root_standing root.old).made + threads ≤ 4294967295 }
    ensures { IfOk result (λ passes. All (λ pass. pass_book pass ≡ book_id book.now) passes.items) }
{
    let mut passes = Vec::new(alloc);
    for _ in 0..threads {
        passes.push(book.split(root)?).map_err(|_| AllocError)?;
    }
    Ok(passes)
}

// Each pass makes its turns in a thread of its own.
fn make_all_turns<R: Threads + Wait + Sync>(
    rt: &R,
    book: &Book<Calls>,
    passes: Vec<Pass<Calls>>,
    turns: u64,
) -> Result<(), AllocError>
    requires { All (λ pass. pass_book pass ≡ book_id book.now) passes.items }
{
    let _done = thread::map_vec(
        rt,
        passes,
        &|pass|
            requires { pass_book pass ≡ book_id book.now }
        { make_turns(rt, book, pass, turns) },
    )?;
    Ok(())
}

fn by_book<R: Threads + Wait + Sync + Clock>(
    rt: &R,
    alloc: Global,
    threads: u32,
    turns: u64,
) -> anyhow::Result<Duration> {
    let (book, mut root) = Book::new(alloc, Calls { count: 0 })?;
    let passes = split_all(alloc, &book, &mut root, threads)?;
    let start = Instant::now(rt)?;
    make_all_turns(rt, &book, passes, turns)?;
    Ok(start.elapsed(rt)?)
}

fn lock_often<R: Wait>(rt: &R, calls: &Mutex<Calls>, turns: u64) {
    for _ in 0..turns {
        calls.lock(rt).call();
    }
}

fn by_mutex<R: Threads + Wait + Sync + Clock>(
    rt: &R,
    alloc: Global,
    threads: u32,
    turns: u64,
) -> anyhow::Result<Duration> {
    let calls = Mutex::new(Calls { count: 0 });
    let start = Instant::now(rt)?;
    thread::map_indices(
        rt,
        alloc,
        threads as usize,
        &|_| lock_often(rt, &calls, turns),
    )?;
    Ok(start.elapsed(rt)?)
}

/// Each of the threads makes so many turns, first of a book and then under a mutex.
pub fn measure<R: Threads + Wait + Sync + Clock>(
    rt: &R,
    alloc: Global,
    threads: u32,
    turns: u64,
) -> anyhow::Result<Spent> {
    Ok(Spent {
        book: by_book(rt, alloc, threads, turns)?,
        mutex: by_mutex(rt, alloc, threads, turns)?,
    })
}
