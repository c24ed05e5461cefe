ghost use Rattle.std.specs.Prelude.{◌≡◌, ◌+◌, ◌<◌, ◌≤◌, ◌^◌, List, [], ◌∷◌, map, IfOk, false, if◌then◌else◌};
ghost use Rattle.std.specs.List.{AllByRecursion};
ghost use Rattle.delta_channel.specs.Standing.{StandsFor};
ghost use Rattle.fuxi_terms.specs.Limits.{kept_changes};
ghost use Rattle.delta_channel.specs.Hearing.{verdict_of};
ghost use Rattle.delta_channel.specs.Calls.{Posts, Meets, TakesDelta, TakesFull};
ghost use Rattle.full_sync.specs.Turns.{new_endpoint, Brings, IsNoteOf, MarkDelta, mark_of, news, turn_of, acked_after};
ghost use Rattle.fuxi_terms.specs.Lists.{numbers_from};

use delta_channel::{Place, Receiver, Sender, Stamp, Verdict};
use fuxi_terms::limits::{KEPT_CHANGES, TURN_DELTAS};
use ledger_law::{Ledger, LedgerFault, OutOfMemory};
use std::alloc::Global;
use std::marker::Model;

/// One thing that a turn sends.
#[derive(Drop)]
pub enum Note<A: Ledger> {
    /// The change that leads to this index.
    Delta(u64, A::Delta),
    /// The whole ledger of this index.
    Full(u64, A),
    /// How far what came the other way has come.
    Ack(Place),
}

/// What a turn sends, in order.
#[derive(Drop)]
pub struct Notes<A: Ledger> {
    notes: Vec<Note<A>>,
}

impl<A: Ledger> Model for Notes<A> {
    ghost use Rattle.std.specs.Prelude.{List};
    ghost use Rattle.full_sync.specs.declared.duplex.Note.{Note};

    ghost Value = { List (Note A A.Delta) };

    ghost view = { λ n. n.notes.items };
}

impl<A: Ledger> Notes<A> {
    /// The notes, as a list of their own.
    pub fn into_vec(self) -> Vec<Note<A>>
        ensures { result.items ≡ self }
    {
        self.notes
    }

    /// The notes.
    pub fn as_slice(&self) -> &[Note<A>]
        ensures { result.now ≡ self.now }
    {
        &self.notes
    }
}

/// Both directions between a party and a peer: sends a ledger `A` and receives a ledger `B`.
pub struct Duplex<A: Ledger, B: Ledger> {
    sender: Sender<A>,
    receiver: Receiver<B>,
    acked: u64,
}

// Written out, so that who lets one go checks this call and not all of its parts.
impl<A: Ledger, B: Ledger> Drop for Duplex<A, B> {
    fn drop(self) {
        let Duplex {
            sender,
            receiver,
            acked,
        } = self;
    }
}

impl<A: Ledger, B: Ledger> Model for Duplex<A, B> {
    ghost use Rattle.std.specs.Prelude.{◌≡◌, ◌≤◌};
    ghost use Rattle.full_sync.specs.Turns.{Endpoint};

    ghost Value = { Endpoint A A.Delta B };

    ghost view = { λ d. record { outgoing = d.sender; incoming = d.receiver; acked = d.acked } };

    ghost invariant = { λ d. (d.acked ≤ d.sender.last) × (d.receiver.own ≡ d.sender.own) };
}

impl<A: Ledger, B: Ledger> Duplex<A, B> {
    /// A party of incarnation `own` that has posted nothing and knows no peer. Where memory is refused it is not
    /// made.
    pub fn start(alloc: Global, own: u64) -> Result<Duplex<A, B>, OutOfMemory>
        ensures value { IfOk result (λ d. d ≡ new_endpoint A.nothing B.nothing own) }
        ensures stands { IfOk result (λ d. StandsFor A.nothing A.patched d.outgoing (A.nothing ∷ [])) }
    {
        Ok(Duplex {
            sender: Sender::start(alloc, own)?,
            receiver: Receiver::start(alloc, own),
            acked: 0,
        })
    }

    /// Makes a change to the ledger that is sent, where the last index is below 2^62. Answers the new last index.
    ///
    /// The fault is the ledger's refusal of the change, or want of memory. It leaves all as it was.
    pub fn post(&mut self, alloc: Global, change: A::Delta) -> Result<u64, LedgerFault>
        requires { self.old.outgoing.last < 2 ^ 62 }
        ensures posts { Posts A.nothing A.patched change self.old.outgoing result self.new.outgoing }
        ensures rest { self.new ≡ record self.old { outgoing = self.new.outgoing } }
    {
        self.sender.post(alloc, change)
    }

    /// Hears of an incarnation of the peer. A greater one than the known one is new: what came of the earlier
    /// one is dropped, and nothing counts as acknowledged. Answers whether it is.
    pub fn hear(&mut self, alloc: Global, from: u64) -> bool
        ensures meets { Meets B.nothing from self.old.incoming result self.new.incoming }
        ensures rest { self.new ≡ record self.old { incoming = self.new.incoming; acked = if result then 0 else self.old.acked } }
    {
        let fresh = self.receiver.hear(alloc, from);
        if fresh {
            self.resync();
        }
        fresh
    }

    /// Hears the known peer acknowledge a place. It counts where it is one of this party's own incarnation,
    /// above the acknowledged index and not above the last.
    pub fn on_ack(&mut self, from: u64, place: Place)
        requires { from ≡ self.old.incoming.place.inc }
        ensures { self.new ≡ record self.old { acked = acked_after self.old.outgoing.own self.old.outgoing.last self.old.acked place } }
    {
        let peer = self.peer();
        prove!(from == peer);
        if place.inc == self.sender.own()
            && self.acked < place.seq
            && place.seq <= self.sender.last()
        {
            self.acked = place.seq;
        }
    }

    /// What to make of a packet of a peer that was heard of: its incarnation is not above the known one, and
    /// is that of its place.
    pub fn verdict(&self, stamp: &Stamp) -> Verdict
        requires from { stamp.now.from ≤ self.now.incoming.place.inc }
        requires place { stamp.now.place.inc ≡ stamp.now.from }
        ensures { result ≡ verdict_of self.now.incoming.own self.now.incoming.place stamp.now }
    {
        self.receiver.verdict(stamp)
    }

    /// Makes a change of which the verdict is to take it.
    ///
    /// The fault is the ledger's refusal of the change, or want of memory. It leaves all as it was.
    pub fn take_delta(
        &mut self,
        alloc: Global,
        stamp: &Stamp,
        change: &B::Delta,
    ) -> Result<(), LedgerFault>
        requires { verdict_of self.old.incoming.own self.old.incoming.place stamp.now ≡ Verdict.Take }
        ensures next { stamp.now.full ≡ false → stamp.now.place.seq ≡ self.old.incoming.place.seq + 1 }
        ensures takes { TakesDelta B.patched stamp.now change.now self.old.incoming result self.new.incoming }
        ensures rest { self.new ≡ record self.old { incoming = self.new.incoming } }
    {
        self.receiver.take_delta(alloc, stamp, change)
    }

    /// Takes a whole ledger of which the verdict is to take it. It takes no memory.
    pub fn take_full(&mut self, stamp: &Stamp, ledger: B)
        requires { verdict_of self.old.incoming.own self.old.incoming.place stamp.now ≡ Verdict.Take }
        ensures takes { TakesFull stamp.now ledger self.old.incoming self.new.incoming }
        ensures rest { self.new ≡ record self.old { incoming = self.new.incoming } }
    {
        self.receiver.take_full(stamp, ledger);
    }

    /// Forgets what the peer has acknowledged, so that the next turn sends the whole ledger.
    pub fn resync(&mut self)
        ensures { self.new ≡ record self.old { acked = 0 } }
    {
        self.acked = 0;
    }

    /// What one turn sends: what the peer lacks, and then an acknowledgement. It changes nothing.
    ///
    /// Nothing is lacking where no peer is known, nothing was posted or all is acknowledged. The whole ledger
    /// goes where nothing is acknowledged or more than 256 changes are not, and else the next changes, at most 64.
    /// Where memory is refused there are no notes.
    pub fn turn(&self, alloc: Global) -> Result<Notes<A>, OutOfMemory>
        ensures marks { IfOk result (λ notes. map mark_of notes ≡ turn_of self.now.outgoing.last self.now.acked self.now.incoming.place) }
        ensures sends { IfOk result (AllByRecursion (IsNoteOf self.now.outgoing)) }
        ensures brings { IfOk result (λ notes. (history : List A) → StandsFor A.nothing A.patched self.now.outgoing history → AllByRecursion (Brings A.patched history) notes) }
    {
        let mut notes = self.news(alloc)?;
        notes.push(Note::Ack(self.receiver.place()))?;
        Ok(Notes { notes })
    }

    // What the peer lacks.
    fn news(&self, alloc: Global) -> Result<Vec<Note<A>>, OutOfMemory>
        ensures marks { IfOk result (λ notes. map mark_of notes.items ≡ news self.now.incoming.place.inc self.now.outgoing.last self.now.acked) }
        ensures sends { IfOk result (λ notes. AllByRecursion (IsNoteOf self.now.outgoing) notes.items) }
        ensures brings { IfOk result (λ notes. (history : List A) → StandsFor A.nothing A.patched self.now.outgoing history → AllByRecursion (Brings A.patched history) notes.items) }
    {
        let last = self.sender.last();
        if self.receiver.place().inc == 0 || last == 0 || self.acked == last {
            return Ok(Vec::new(alloc));
        }
        let lacking = last - self.acked;
        if self.acked == 0 || lacking > KEPT_CHANGES as u64 {
            let mut notes = Vec::new(alloc);
            notes.push(Note::Full(last, self.sender.ledger().copy(alloc)?))?;
            return Ok(notes);
        }
        changes_from(
            alloc,
            &self.sender,
            self.acked + 1,
            lacking.min(TURN_DELTAS as u64),
        )
    }

    /// The incarnation of this party, the same in both directions.
    pub fn own(&self) -> u64
        ensures outgoing { result ≡ self.now.outgoing.own }
        ensures incoming { result ≡ self.now.incoming.own }
    {
        self.sender.own()
    }

    /// The known incarnation of the peer, 0 where none is known.
    pub fn peer(&self) -> u64
        ensures { result ≡ self.now.incoming.place.inc }
    {
        self.receiver.place().inc
    }

    /// The last index that the peer has acknowledged.
    pub fn acked(&self) -> u64
        ensures acked { result ≡ self.now.acked }
        ensures posted { self.now.acked ≤ self.now.outgoing.last }
    {
        self.acked
    }

    /// The last index of what is sent.
    pub fn last(&self) -> u64
        ensures { result ≡ self.now.outgoing.last }
    {
        self.sender.last()
    }

    /// The place in the peer's history.
    pub fn place(&self) -> Place
        ensures { result ≡ self.now.incoming.place }
    {
        self.receiver.place()
    }

    /// The ledger that is sent.
    pub fn sent(&self) -> &A
        ensures { result.now ≡ self.now.outgoing.present }
    {
        self.sender.ledger()
    }

    /// What came of the peer's ledger: the one with no entry where nothing came.
    pub fn got(&self) -> &B
        ensures received { result.now ≡ self.now.incoming.received }
        ensures nothing { self.now.incoming.place.seq ≡ 0 → self.now.incoming.received ≡ B.nothing }
    {
        self.receiver.ledger()
    }
}

// Copies of so many kept changes from the one that led to the first index on.
fn changes_from<A: Ledger>(
    alloc: Global,
    sender: &Sender<A>,
    first: u64,
    count: u64,
) -> Result<Vec<Note<A>>, OutOfMemory>
    requires posted { 1 ≤ first }
    requires last { first + count ≤ sender.now.last + 1 }
    requires near { sender.now.last < first + kept_changes }
    requires range { sender.now.last < 2 ^ 64 }
    ensures marks { IfOk result (λ notes. map mark_of notes.items ≡ map MarkDelta (numbers_from first count)) }
    ensures sends { IfOk result (λ notes. AllByRecursion (IsNoteOf sender.now) notes.items) }
    ensures brings { IfOk result (λ notes. (history : List A) → StandsFor A.nothing A.patched sender.now history → AllByRecursion (Brings A.patched history) notes.items) }
{
    let mut notes = Vec::with_capacity(alloc, count as usize + 1)?;
    for offset in 0..count {
        let index = first + offset;
        let change = A::copy_delta(alloc, sender.kept(index))?;
        notes.push(Note::Delta(index, change))?;
    }
    Ok(notes)
}
