//! The book of a desk: its master, and the journal of the calls that were taken.

ghost use Rattle.std.specs.Prelude.{◌≡◌, ◌+◌, ◌<◌, ◌≤◌, ◌^◌, ◌++◌, ◌∷◌, [], true, not, is_some, length, get_or, replicate, Some, None, IfOk, OnOk, OnErr};
ghost use Rattle.spec_roles.specs.MasterRoles.{MasterRole};
ghost use Rattle.fuxi_master.specs.Cores.{StandsFor};
ghost use Rattle.master_desk.specs.CallOrders.{IsCallOf, Fits, most_calls, most_sessions, times};
ghost use Rattle.master_desk.specs.Books.{Grows, HasRoom, HasRun, IsEntered, SameDesk, order_in};

use crate::call::Decoded;
use crate::entry::Entry;
use crate::hear::hear_call;
use crate::limits::MOST_SESSIONS;
use crate::sessions::Sessions;
use fuxi_master::Master;
use fuxi_terms::OutOfMemory;
use std::alloc::Global;
use std::marker::Model;
use std::snapshot::Snapshot;

// Where the master is, unless it is gone. Apart, so that it is seen by itself that it may go from thread to thread.
#[derive(Drop)]
pub(crate) struct Seat {
    master: Option<Master>,
}

impl Model for Seat {
    ghost use Rattle.std.specs.Prelude.{Option};
    ghost use Rattle.fuxi_master.specs.Cores.{MasterRecord};

    ghost Value = { Option MasterRecord };

    ghost view = { λ s. s.master };
}

impl Seat {
    fn take(&mut self) -> Option<Master>
        ensures value { result ≡ self.old }
        ensures after { self.new ≡ None }
    {
        self.master.take()
    }

    fn is_empty(&self) -> bool
        ensures { result ≡ not (is_some self.now) }
    {
        self.master.is_none()
    }

    fn master(&self) -> &Master
        requires { is_some self.now ≡ true }
        ensures { Some result.now ≡ self.now }
    {
        let Some(master) = &self.master else {
            unreachable!()
        };
        master
    }
}

/// The master of a desk with its journal.
///
/// Whenever no call is being taken, the order of the journal fits the sessions, and master and journal are those of the written desk over
/// this order (`IsBook`). Where memory is refused the master is gone, and the journal is as it was.
#[derive(Drop)]
pub struct Book {
    alloc: Global,
    opening: Snapshot<Master>,
    sessions: Snapshot<Sessions>,
    seat: Seat,
    taken: Vec<u32>,
    journal: Vec<Entry>,
}

impl Model for Book {
    ghost use Rattle.master_desk.specs.Books.{BookRecord, Counts, IsBook};

    ghost Value = { BookRecord };

    ghost view = { λ b. record { sessions = b.sessions.value; opening = b.opening.value; journal = b.journal.items; master = b.seat } };

    ghost invariant = { λ b.
        IsBook (record { sessions = b.sessions.value; opening = b.opening.value; journal = b.journal.items; master = b.seat })
        × Counts b.taken.items b.journal.items };
}

// Of no session a call was taken.
fn none_taken(alloc: Global, count: u32) -> Result<Vec<u32>, OutOfMemory>
    ensures { IfOk result (λ taken. taken.items ≡ replicate count 0) }
{
    let mut taken = Vec::new(alloc);
    for session in 0..count {
        match taken.push(0) {
            Ok(()) => {}
            Err(_) => return Err(OutOfMemory),
        }
    }
    Ok(taken)
}

impl Book {
    /// A book with this master and an empty journal, for the calls of these sessions.
    pub fn start(alloc: Global, master: Master, sessions: &Sessions) -> Result<Book, OutOfMemory>
        ensures sessions { IfOk result (λ book. book.sessions ≡ sessions.now) }
        ensures opening { IfOk result (λ book. book.opening ≡ master) }
        ensures master { IfOk result (λ book. book.master ≡ Some master) }
        ensures journal { IfOk result (λ book. book.journal ≡ []) }
    {
        let _few = sessions.len();
        let opening = Snapshot::of(&master);
        let taken = match none_taken(alloc, MOST_SESSIONS) {
            Ok(taken) => taken,
            Err(OutOfMemory) => {
                drop(master);
                return Err(OutOfMemory);
            }
        };
        Ok(Book {
            alloc,
            opening,
            sessions: Snapshot::of(sessions),
            seat: Seat {
                master: Some(master),
            },
            taken,
            journal: Vec::new(alloc),
        })
    }

    /// The session's next call goes to the end of the journal, and the master hears it. Nothing of the call is copied.
    pub fn enter(&mut self, session: u32, call: Decoded) -> Result<(), OutOfMemory>
        requires call { IsCallOf self.old.sessions session (times session (order_in self.old.journal)) call }
        requires master { HasRoom self.old.master }
        // Whatever written master the opening one stands for: order, journal and master are those of its desk over this order.
        ensures runs { (r : MasterRole) → StandsFor self.old.opening.core r → HasRun r self.new }
        ensures fits { Fits self.new.sessions (order_in self.new.journal) }
        ensures entered { OnOk result (IsEntered session self.old self.new) }
        ensures gone { OnErr result (self.new ≡ record self.old { master = None }) }
        ensures same { SameDesk self.old self.new }
        ensures grows { Grows self.old self.new }
    {
        let Some(master) = self.seat.take() else {
            unreachable!()
        };
        let number = self.taken[session as usize] + 1;
        let (master, words, heads) = match hear_call(self.alloc, master, call) {
            Ok(after) => after,
            Err(OutOfMemory) => return Err(OutOfMemory),
        };
        let entry = Entry {
            session,
            call: number,
            words,
            heads,
        };
        match self.journal.push(entry) {
            Ok(()) => {}
            Err(_) => {
                drop(master);
                return Err(OutOfMemory);
            }
        }
        self.taken[session as usize] = number;
        self.seat = Seat {
            master: Some(master),
        };
        Ok(())
    }

    /// The same of a call that stays the caller's, of which its packet is copied first.
    pub fn take(&mut self, session: u32, call: &Decoded) -> Result<(), OutOfMemory>
        requires call { IsCallOf self.old.sessions session (times session (order_in self.old.journal)) call.now }
        requires master { HasRoom self.old.master }
        ensures runs { (r : MasterRole) → StandsFor self.old.opening.core r → HasRun r self.new }
        ensures fits { Fits self.new.sessions (order_in self.new.journal) }
        ensures entered { OnOk result (IsEntered session self.old self.new) }
        ensures gone { OnErr result (self.new ≡ record self.old { master = None }) }
        ensures same { SameDesk self.old self.new }
        ensures grows { Grows self.old self.new }
    {
        match call.copy(self.alloc) {
            Ok(call) => self.enter(session, call),
            Err(OutOfMemory) => {
                self.leave();
                Err(OutOfMemory)
            }
        }
    }

    // The master is let go.
    fn leave(&mut self)
        ensures gone { self.new ≡ record self.old { master = None } }
        ensures fits { Fits self.new.sessions (order_in self.new.journal) }
        ensures runs { (r : MasterRole) → StandsFor self.old.opening.core r → HasRun r self.new }
    {
        self.seat = Seat { master: None };
    }

    /// Whether memory was refused where a call was taken. The journal is as it was before that call, and no call can be taken.
    pub fn gone(&self) -> bool
        ensures gone { result ≡ not (is_some self.now.master) }
    {
        self.seat.is_empty()
    }

    /// How many calls were taken of a session.
    pub fn taken(&self, session: u32) -> u32
        requires { session < most_sessions }
        ensures taken { result ≡ times session (order_in self.now.journal) }
        ensures fits { Fits self.now.sessions (order_in self.now.journal) }
    {
        self.taken[session as usize]
    }

    /// How many calls were taken.
    pub fn len(&self) -> u32
        ensures len { result ≡ length self.now.journal }
        ensures few { result ≤ most_calls }
    {
        self.journal.len() as u32
    }

    /// A call of the journal, which was taken behind so many others.
    pub fn at(&self, index: u32) -> &Entry
        requires { index < length self.now.journal }
        ensures { result.now ≡ get_or self.now.journal index result.now }
    {
        &self.journal[index as usize]
    }

    /// The master, which is there.
    pub fn master(&self) -> &Master
        requires { is_some self.now.master ≡ true }
        ensures master { Some result.now ≡ self.now.master }
        ensures runs { (r : MasterRole) → StandsFor self.now.opening.core r → HasRun r self.now }
    {
        self.seat.master()
    }

    // It may take two steps more. This does nothing; its contract tells that.
    pub(crate) fn room(&self)
        requires here { is_some self.now.master ≡ true }
        requires steps { self.now.opening.steps < 2 ^ 49 }
        ensures { HasRoom self.now.master }
    {
        let _journal = &self.journal;
    }
}
