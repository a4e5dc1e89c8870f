//! The steps of one turn, and the whole of it.
ghost use Rattle.std.specs.Prelude.{◌≡◌, ◌≢◌, ℕ, [], ◌∷◌, IsSome, IsTrue, IsFalse, Some, None};
ghost use Rattle.turn_book.specs.declared.view.Stage.TheVariants.{Idle, Waits, Holds, Left};
ghost use Rattle.turn_book.specs.Standings.{standing_of, NeedHolds, Turned};
ghost use Rattle.turn_book.specs.Steps.{Serves, Gives, IsAtRest, rested};
ghost use Rattle.turn_book.specs.Turns.{staged, left};

use crate::told::{History, Move};
use crate::view::{Drawing, InTurn, Looking, Passing, Tallying, View};
use atomic_table::{Seat, Shared};
use std::snapshot::Snapshot;
use std::sync::Wait;
use std::thread;

/// A seat at the table of a book.
pub type Place<S> = Seat<Option<S>, View<<S as History>::Entry, <S as History>::Frame>>;

/// The table of a book, as threads share it.
pub type Hall<S> = Shared<
    Option<S>,
    View<<S as History>::Entry, <S as History>::Frame>,
    Snapshot<S>,
    InTurn,
>;

pub const TICKET: usize = 0;

const SERVING: usize = 1;

const TALLY: usize = 2;

// How often a thread that waits looks before it goes to sleep.
const LOOKS: u32 = 100;

fn draw<S: History>(hall: &Hall<S>, place: &mut Place<S>) -> u64
    requires { (place.old.table_id ≡ hall.now.table_id) × (hall.now.table_id.words ≡ 3) × (place.old.me.0.stage ≡ Idle) }
    ensures same { (place.new.table_id ≡ place.old.table_id) × (place.new.id ≡ place.old.id) }
    ensures told { place.new.me ≡ (staged place.old.me.0 (Waits result), place.old.me.1) }
{
    hall.fetch_add::<Drawing>(place, TICKET, 1)
}

// One look at the serving word.
fn look<S: History>(hall: &Hall<S>, place: &mut Place<S>, ticket: u64) -> u64
    requires { (place.old.table_id ≡ hall.now.table_id) × (hall.now.table_id.words ≡ 3) × (place.old.me.0.stage ≡ Waits ticket) × IsSome place.old.me.0.frame }
    ensures same { (place.new.table_id ≡ place.old.table_id) × (place.new.id ≡ place.old.id) }
    ensures served { result ≡ ticket → Serves S.history S.frame S.maker ticket place.old.me place.new.me }
    ensures waits { result ≢ ticket → place.new.me ≡ place.old.me }
{
    hall.load::<Looking<S>>(place, SERVING)
}

// Looks a few times, and lets other threads run between the looks. Says whether the seat is served.
fn spin<S: History>(hall: &Hall<S>, place: &mut Place<S>, ticket: u64) -> bool
    requires { (place.old.table_id ≡ hall.now.table_id) × (hall.now.table_id.words ≡ 3) × (place.old.me.0.stage ≡ Waits ticket) × IsSome place.old.me.0.frame }
    ensures same { (place.new.table_id ≡ place.old.table_id) × (place.new.id ≡ place.old.id) }
    ensures served { IsTrue result → Serves S.history S.frame S.maker ticket place.old.me place.new.me }
    ensures waits { IsFalse result → place.new.me ≡ place.old.me }
{
    for _ in 0..LOOKS {
        if look(hall, place, ticket) == ticket {
            return true;
        }
        thread::yield_now();
    }
    false
}

// Sleeps between looks until the seat is served.
fn sleep<S: History, R: Wait>(rt: &R, hall: &Hall<S>, place: &mut Place<S>, ticket: u64)
    requires { (place.old.table_id ≡ hall.now.table_id) × (hall.now.table_id.words ≡ 3) × (place.old.me.0.stage ≡ Waits ticket) × IsSome place.old.me.0.frame }
    ensures same { (place.new.table_id ≡ place.old.table_id) × (place.new.id ≡ place.old.id) }
    ensures told { Serves S.history S.frame S.maker ticket place.old.me place.new.me }
{
    for _ in rt.forever() {
        let serving = look(hall, place, ticket);
        if serving == ticket {
            return;
        }
        hall.park(rt, SERVING, (serving & 0xffff_ffff) as u32);
    }
    unreachable!()
}

fn wait<S: History, R: Wait>(rt: &R, hall: &Hall<S>, place: &mut Place<S>, ticket: u64)
    requires { (place.old.table_id ≡ hall.now.table_id) × (hall.now.table_id.words ≡ 3) × (place.old.me.0.stage ≡ Waits ticket) × IsSome place.old.me.0.frame }
    ensures same { (place.new.table_id ≡ place.old.table_id) × (place.new.id ≡ place.old.id) }
    ensures told { Serves S.history S.frame S.maker ticket place.old.me place.new.me }
{
    if !spin(hall, place, ticket) {
        sleep(rt, hall, place, ticket);
    }
}

fn take<S: History>(hall: &Hall<S>, place: &mut Place<S>) -> S
    requires { (place.old.table_id ≡ hall.now.table_id) × ((x : S) × (place.old.me.1 ≡ (0, Some x) ∷ [])) }
    ensures same { (place.new.table_id ≡ place.old.table_id) × (place.new.id ≡ place.old.id) }
    ensures taken { (place.old.me.1 ≡ (0, Some result) ∷ []) × (place.new.me ≡ (place.old.me.0, (0, None) ∷ [])) }
{
    let Some(state) = hall.exchange(place, 0, None) else {
        unreachable!()
    };
    state
}

fn put<S: History>(hall: &Hall<S>, place: &mut Place<S>, state: S)
    requires { (place.old.table_id ≡ hall.now.table_id) × (place.old.me.1 ≡ (0, None) ∷ []) }
    ensures same { (place.new.table_id ≡ place.old.table_id) × (place.new.id ≡ place.old.id) }
    ensures laid { place.new.me ≡ (place.old.me.0, (0, Some state) ∷ []) }
{
    drop(hall.exchange(place, 0, Some(state)));
}

fn tally<S: History>(hall: &Hall<S>, place: &mut Place<S>, more: u64)
    requires { (place.old.table_id ≡ hall.now.table_id) × (hall.now.table_id.words ≡ 3) × ((t : ℕ) × (x : S) × (place.old.me.0.stage ≡ Holds t) × (place.old.me.1 ≡ (0, Some x) ∷ []) × Gives S.history S.frame S.maker place.old.me.0 x more) }
    ensures same { (place.new.table_id ≡ place.old.table_id) × (place.new.id ≡ place.old.id) }
    ensures told { (t : ℕ) (x : S) → place.old.me.0.stage ≡ Holds t → place.old.me.1 ≡ (0, Some x) ∷ [] → place.new.me ≡ (left place.old.me.0 t (S.history x), []) }
{
    hall.fetch_add::<Tallying<S>>(place, TALLY, more);
}

// Wakes those who wait, if there are any: a ticket beyond the one that is served now was drawn.
fn pass_on<S: History>(hall: &Hall<S>, place: &mut Place<S>)
    requires { (place.old.table_id ≡ hall.now.table_id) × (hall.now.table_id.words ≡ 3) × ((t : ℕ) × (place.old.me.0.stage ≡ Left t)) }
    ensures same { (place.new.table_id ≡ place.old.table_id) × (place.new.id ≡ place.old.id) }
    ensures told { place.new.me ≡ (staged place.old.me.0 Idle, place.old.me.1) }
{
    let served = hall.fetch_add::<Passing>(place, SERVING, 1);
    if hall.peek(TICKET) != served.wrapping_add(1) {
        hall.wake_all(SERVING);
    }
}

/// One whole turn. `number` is the seat's.
pub fn turn_at<S: History, M: Move<S>, R: Wait>(
    rt: &R,
    hall: &Hall<S>,
    place: &mut Place<S>,
    number: u32,
    step: M,
) -> M::Answer
    requires hall { (place.old.table_id ≡ hall.now.table_id) × (hall.now.table_id.words ≡ 3) }
    requires rests { IsAtRest number place.old.me }
    requires needs { NeedHolds M.needs step (standing_of place.old.me.0) }
    ensures same { (place.new.table_id ≡ place.old.table_id) × (place.new.id ≡ place.old.id) }
    ensures rests { place.new.me ≡ (rested place.old.me.0 place.new.me.0.seen, []) }
    ensures turned { Turned S.maker M.needs M.does step (standing_of place.old.me.0) (standing_of place.new.me.0) result }
{
    let ticket = draw(hall, place);
    wait(rt, hall, place, ticket);
    let mut state = take(hall, place);
    let before = state.told();
    let answer = step.act(number, &mut state);
    let after = state.told();
    put(hall, place, state);
    tally(hall, place, after - before);
    pass_on(hall, place);
    answer
}
