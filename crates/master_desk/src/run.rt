//! Sessions at once: one worker for each, and one lock for the book.

ghost use Rattle.std.specs.Prelude.{◌≡◌, ◌-◌, ◌<◌, ◌≤◌, ◌^◌, ℕ, true, is_some, List, Option, IfOk, IfSome};
ghost use Rattle.std.specs.Thread.{IsSend};
ghost use Rattle.spec_roles.specs.MasterRoles.{MasterRole};
ghost use Rattle.master_desk.specs.contracts.book.Book.{the_row};
ghost use Rattle.fuxi_master.specs.Cores.{StandsFor};
ghost use Rattle.master_desk.specs.CallOrders.{IsCallOf, IsWhole, most_sessions};
ghost use Rattle.master_desk.specs.Books.{HasRun, IsNamed, order_in};

use crate::book::{Book, Seat};
use crate::call::{Decoded, decode};
use crate::entry::Entry;
use crate::gate::Gate;
use crate::left::take_left;
use crate::limits::MOST_SESSIONS;
use crate::sessions::Sessions;
use fuxi_master::Master;
use fuxi_terms::OutOfMemory;
use std::alloc::Global;
use std::marker::{Brand, Model, PhantomData};
use std::sync::{Mutex, Wait};
use std::thread::{Threads, map_indices};

/// The sessions and the opening master that all workers share.
pub trait Naming {
    ghost use Rattle.std.specs.Prelude.{ℕ, List, Option};
    ghost use Rattle.fuxi_master.specs.Cores.{MasterRecord};

    ghost sessions: { List (List (List ℕ)) };

    ghost opening: { Option MasterRecord };
}

impl Naming for Brand {
    ghost use Rattle.std.specs.Prelude.{[], None};

    ghost sessions = { [] };

    ghost opening = { None };
}

// What lies under the lock: the book of these sessions and this opening master.
#[derive(Drop)]
struct Desk<N: Naming> {
    book: Book,
    of: PhantomData<N>,
}

impl<N: Naming> Model for Desk<N> {
    ghost use Rattle.master_desk.specs.Books.{BookRecord, IsNamed};

    ghost Value = { BookRecord };

    ghost view = { λ d. d.book };

    ghost invariant = { λ d. IsNamed N.sessions N.opening d.book };
}

impl<N: Naming> Desk<N> {
    // Takes the call where it is the session's next one, and says whether it did.
    fn hear(&mut self, session: u32, number: u32, call: Decoded) -> bool
        requires session { session < most_sessions }
        requires first { 1 ≤ number }
        requires call { IsCallOf N.sessions session (number - 1) call }
    {
        if self.book.gone() || self.book.taken(session) != number - 1 {
            return false;
        }
        self.book.room();
        self.book.enter(session, call).is_ok()
    }
}

// One session: its calls one after another, each decoded without the lock.
fn work<N: Naming, R: Wait, G: Gate>(
    rt: &R,
    alloc: Global,
    desk: &Mutex<Desk<N>>,
    sessions: &Sessions,
    session: u32,
    gate: &G,
)
    requires sessions { sessions.now ≡ N.sessions }
    requires session { session < most_sessions }
{
    for number in 1..sessions.calls(session) + 1 {
        gate.before(session, number);
        let Ok(call) = decode(alloc, sessions.bytes(session, number)) else {
            return;
        };
        let took = desk.lock(rt).hear(session, number, call);
        if !took {
            return;
        }
        gate.after(session, number);
    }
}

// How many sessions have calls.
fn workers(sessions: &Sessions) -> usize {
    let mut count = 0;
    for session in 0..MOST_SESSIONS {
        if sessions.calls(session) > 0 {
            count += 1;
        }
    }
    count
}

// The session that has calls behind so many others that have.
fn session_of(sessions: &Sessions, worker: usize) -> Option<u32>
    ensures { IfSome result (λ session. session < most_sessions) }
{
    let mut before = worker;
    for session in 0..MOST_SESSIONS {
        if sessions.calls(session) == 0 {
            continue;
        }
        if before == 0 {
            return Some(session);
        }
        before -= 1;
    }
    None
}

// The worker of this number.
fn serve<N: Naming, R: Wait, G: Gate>(
    rt: &R,
    alloc: Global,
    desk: &Mutex<Desk<N>>,
    sessions: &Sessions,
    worker: usize,
    gate: &G,
)
    requires { sessions.now ≡ N.sessions }
{
    if let Some(session) = session_of(sessions, worker) {
        work(rt, alloc, desk, sessions, session, gate);
    }
}

// What lies under the lock may go from thread to thread.
fn may_move<T: Send>()
    ensures { IsSend T.row }
{}

// A book may go from thread to thread.
fn books_move()
    ensures { IsSend the_row }
{
    may_move::<Master>();
    may_move::<Seat>();
    may_move::<Vec<u32>>();
    may_move::<Vec<Entry>>();
    may_move::<Book>();
}

// The book behind all workers.
fn run_named<N: Naming + Send + Sync, R: Threads + Wait + Sync, G: Gate + Sync>(
    rt: &R,
    alloc: Global,
    book: Book,
    sessions: &Sessions,
    gate: &G,
) -> Result<Book, OutOfMemory>
    requires sessions { sessions.now ≡ N.sessions }
    requires named { IsNamed N.sessions N.opening book }
    ensures { IfOk result (IsNamed N.sessions N.opening) }
{
    books_move();
    may_move::<Desk<N>>();
    let desk: Mutex<Desk<N>> = Mutex::new(Desk {
        book,
        of: PhantomData,
    });
    let worker = |index: usize|
        requires { sessions.now ≡ N.sessions }
    { serve(rt, alloc, &desk, sessions, index, gate) };
    if map_indices(rt, alloc, workers(sessions), &worker).is_err() {
        return Err(OutOfMemory);
    }
    let Desk { book, of: _ } = desk.into_inner();
    Ok(book)
}

/// Runs all sessions at once, each in its own order, by one worker for each that has calls, and gives the book once each has ended.
///
/// A worker decodes a call, takes it under the lock, and calls the gate before and after that without the lock. The caller runs what can't be
/// started, and takes what is left once all have ended. It waits for its workers; that it returns is not proved.
pub fn run_all<R: Threads + Wait + Sync, G: Gate + Sync>(
    rt: &R,
    alloc: Global,
    master: Master,
    sessions: &Sessions,
    gate: &G,
) -> Result<Book, OutOfMemory>
    requires { master.steps < 2 ^ 49 }
    ensures sessions { IfOk result (λ book. book.sessions ≡ sessions.now) }
    ensures opening { IfOk result (λ book. book.opening ≡ master) }
    // Each call of each session stands in the journal once.
    ensures whole { IfOk result (λ book. IsWhole sessions.now (order_in book.journal)) }
    // Whatever written master this one stands for: journal and master are those of its desk over the journal's order.
    ensures runs { IfOk result (λ book. (r : MasterRole) → StandsFor master.core r → HasRun r book) }
    ensures here { IfOk result (λ book. is_some book.master ≡ true) }
{
    let book = match Book::start(alloc, master, sessions) {
        Ok(book) => book,
        Err(OutOfMemory) => return Err(OutOfMemory),
    };
    let mut book = match run_named::<Brand, R, G>(rt, alloc, book, sessions, gate) {
        Ok(book) => book,
        Err(OutOfMemory) => return Err(OutOfMemory),
    };
    if book.gone() {
        drop(book);
        return Err(OutOfMemory);
    }
    match take_left(alloc, &mut book, sessions) {
        Ok(()) => {
            let _master = book.master();
            Ok(book)
        }
        Err(OutOfMemory) => {
            drop(book);
            Err(OutOfMemory)
        }
    }
}
