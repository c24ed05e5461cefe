//! What is left of sessions is taken, session by session.

ghost use Rattle.std.specs.Prelude.{◌≡◌, ◌+◌, ◌<◌, ◌^◌, ℕ, true, is_some, length, OnOk};
ghost use Rattle.master_desk.specs.CallOrders.{IsWhole, calls_of, most_sessions, times};
ghost use Rattle.master_desk.specs.Books.{Grows, SameDesk, order_in};

use crate::book::Book;
use crate::call::decode;
use crate::limits::MOST_SESSIONS;
use crate::sessions::Sessions;
use fuxi_terms::OutOfMemory;
use std::alloc::Global;

// Takes the session's next call, where it has one left.
fn take_next(
    alloc: Global,
    book: &mut Book,
    sessions: &Sessions,
    session: u32,
) -> Result<(), OutOfMemory>
    requires sessions { book.old.sessions ≡ sessions.now }
    requires here { is_some book.old.master ≡ true }
    requires steps { book.old.opening.steps < 2 ^ 49 }
    requires session { session < most_sessions }
    requires left { times session (order_in book.old.journal) < length (calls_of sessions.now session) }
    ensures one { OnOk result (times session (order_in book.new.journal) ≡ times session (order_in book.old.journal) + 1) }
    ensures here { OnOk result (is_some book.new.master ≡ true) }
    ensures same { SameDesk book.old book.new }
    ensures grows { Grows book.old book.new }
{
    book.room();
    let _few = sessions.calls(session);
    let number = book.taken(session) + 1;
    match decode(alloc, sessions.bytes(session, number)) {
        Ok(call) => match book.enter(session, call) {
            Ok(()) => Ok(()),
            Err(OutOfMemory) => Err(OutOfMemory),
        },
        Err(OutOfMemory) => Err(OutOfMemory),
    }
}

// Takes each call that is left of a session.
fn take_session(
    alloc: Global,
    book: &mut Book,
    sessions: &Sessions,
    session: u32,
) -> Result<(), OutOfMemory>
    requires sessions { book.old.sessions ≡ sessions.now }
    requires here { is_some book.old.master ≡ true }
    requires steps { book.old.opening.steps < 2 ^ 49 }
    requires session { session < most_sessions }
    ensures whole { OnOk result (times session (order_in book.new.journal) ≡ length (calls_of sessions.now session)) }
    ensures here { OnOk result (is_some book.new.master ≡ true) }
    ensures same { SameDesk book.old book.new }
    ensures grows { Grows book.old book.new }
{
    while book.taken(session) < sessions.calls(session) {
        match take_next(alloc, book, sessions, session) {
            Ok(()) => {}
            Err(OutOfMemory) => return Err(OutOfMemory),
        }
    }
    Ok(())
}

/// Takes each call that is left, in the order of sessions, so that the order of the journal is whole. After a refusal the master may be gone.
pub fn take_left(alloc: Global, book: &mut Book, sessions: &Sessions) -> Result<(), OutOfMemory>
    requires sessions { book.old.sessions ≡ sessions.now }
    requires here { is_some book.old.master ≡ true }
    requires steps { book.old.opening.steps < 2 ^ 49 }
    ensures whole { OnOk result (IsWhole sessions.now (order_in book.new.journal)) }
    ensures here { OnOk result (is_some book.new.master ≡ true) }
    ensures same { SameDesk book.old book.new }
    ensures grows { Grows book.old book.new }
{
    for session in 0..MOST_SESSIONS {
        match take_session(alloc, book, sessions, session) {
            Ok(()) => {}
            Err(OutOfMemory) => return Err(OutOfMemory),
        }
        let _fits = book.taken(session);
    }
    let _last = book.taken(0);
    let _all = sessions.len();
    Ok(())
}
