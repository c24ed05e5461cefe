ghost use Rattle.std.specs.Prelude.{◌≡◌, ◌+◌, ◌≤◌, false};
ghost use Rattle.delta_channel.specs.Hearing.{verdict_of};
ghost use Rattle.delta_channel.specs.Calls.{new_receiving, Meets, TakesDelta, TakesFull};

use ledger_law::{Ledger, LedgerFault};
use std::alloc::Global;
use std::marker::Model;

/// A place in the history of a sender: its incarnation (0: none is known) and an index (0: nothing came).
#[derive(Clone, Copy, Debug, PartialEq, Eq)]
pub struct Place {
    /// The incarnation of the sender, or 0 where none is known.
    pub inc: u64,
    /// The index in its history, or 0 where nothing came.
    pub seq: u64,
}

/// What stands on a packet: the incarnations of its sender and of the one that it is for, whether it brings
/// a whole ledger or a change, and the place that it leads to.
#[derive(Clone, Copy, Debug, PartialEq, Eq)]
pub struct Stamp {
    /// The incarnation of its sender.
    pub from: u64,
    /// The incarnation of the one that it is for.
    pub to: u64,
    /// Whether it brings a whole ledger, and no change.
    pub full: bool,
    /// The place that it leads to.
    pub place: Place,
}

/// What a receiver makes of a packet.
#[derive(Clone, Copy, Debug, PartialEq, Eq)]
pub enum Verdict {
    /// It is the one to take.
    Take,
    /// The receiver is as far already.
    Old,
    /// A change that does not follow on the receiver's place.
    Gap,
    /// It is for another incarnation of the receiver.
    NotMine,
    /// It is from an earlier incarnation of the sender.
    Stale,
}

/// The receiving end of a channel: what came of the sender's ledger, and the place in its history.
#[derive(Drop)]
pub struct Receiver<L: Ledger> {
    own: u64,
    place: Place,
    received: L,
}

impl<L: Ledger> Model for Receiver<L> {
    ghost use Rattle.std.specs.Prelude.{◌≡◌};
    ghost use Rattle.delta_channel.specs.Hearing.{Receiving};

    ghost Value = { Receiving L };

    ghost view = { λ r. record { own = r.own; place = r.place; received = r.received } };

    ghost invariant = { λ r. r.place.seq ≡ 0 → r.received ≡ L.nothing };
}

impl<L: Ledger> Receiver<L> {
    /// A receiver of incarnation `own` that knows no sender.
    pub fn start(alloc: Global, own: u64) -> Receiver<L>
        ensures { result ≡ new_receiving L.nothing own }
    {
        Receiver {
            own,
            place: Place { inc: 0, seq: 0 },
            received: L::empty(alloc),
        }
    }

    /// Hears of an incarnation of the sender. A greater one than the known one is new: what came of the
    /// earlier one is dropped. Answers whether it is.
    pub fn hear(&mut self, alloc: Global, from: u64) -> bool
        ensures { Meets L.nothing from self.old result self.new }
    {
        if self.place.inc < from {
            self.place = Place { inc: from, seq: 0 };
            self.received = L::empty(alloc);
            true
        } else {
            false
        }
    }

    /// What to make of a packet of a sender that was heard of: its incarnation is not above the known one, and
    /// is that of its place.
    pub fn verdict(&self, stamp: &Stamp) -> Verdict
        requires from { stamp.now.from ≤ self.now.place.inc }
        requires place { stamp.now.place.inc ≡ stamp.now.from }
        ensures { result ≡ verdict_of self.now.own self.now.place stamp.now }
    {
        if stamp.from < self.place.inc {
            return Verdict::Stale;
        }
        if stamp.to != self.own {
            return Verdict::NotMine;
        }
        let index = stamp.place.seq;
        let here = self.place.seq;
        if stamp.full {
            return if here < index {
                Verdict::Take
            } else {
                Verdict::Old
            };
        }
        if here >= index {
            Verdict::Old
        } else if here > 0 && index - here == 1 {
            Verdict::Take
        } else {
            Verdict::Gap
        }
    }

    /// Makes a change of which the verdict is to take it.
    ///
    /// The fault is the ledger's refusal of the change, or want of memory. It leaves all as it was.
    pub fn take_delta(
        &mut self,
        alloc: Global,
        stamp: &Stamp,
        change: &L::Delta,
    ) -> Result<(), LedgerFault>
        requires { verdict_of self.old.own self.old.place stamp.now ≡ Verdict.Take }
        ensures next { stamp.now.full ≡ false → stamp.now.place.seq ≡ self.old.place.seq + 1 }
        ensures takes { TakesDelta L.patched stamp.now change.now self.old result self.new }
    {
        self.received.apply(alloc, change)?;
        self.place = stamp.place;
        Ok(())
    }

    /// Takes a whole ledger of which the verdict is to take it. It takes no memory.
    pub fn take_full(&mut self, stamp: &Stamp, ledger: L)
        requires { verdict_of self.old.own self.old.place stamp.now ≡ Verdict.Take }
        ensures { TakesFull stamp.now ledger self.old self.new }
    {
        self.received = ledger;
        let here = stamp.place;
        self.place = here;
    }

    /// The place in the sender's history.
    pub fn place(&self) -> Place
        ensures { result ≡ self.now.place }
    {
        self.place
    }

    /// What came of the sender's ledger: the one with no entry where nothing came.
    pub fn ledger(&self) -> &L
        ensures received { result.now ≡ self.now.received }
        ensures nothing { self.now.place.seq ≡ 0 → self.now.received ≡ L.nothing }
    {
        &self.received
    }

    /// The incarnation.
    pub fn own(&self) -> u64
        ensures { result ≡ self.now.own }
    {
        self.own
    }
}
