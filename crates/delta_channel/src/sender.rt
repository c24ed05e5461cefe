ghost use Rattle.std.specs.Prelude.{◌≡◌, ◌+◌, ◌-◌, ◌<◌, ◌≤◌, ◌^◌, List, [], ◌∷◌, length, min, IfOk, slice_get, Some};
ghost use Rattle.delta_channel.specs.Standing.{StandsFor, IsChangeAt};
ghost use Rattle.fuxi_terms.specs.Limits.{kept_changes};
ghost use Rattle.delta_channel.specs.Calls.{new_sending, Posts};

use circular_buffer::HeapCircularBuffer;
use fuxi_terms::limits::KEPT_CHANGES;
use ledger_law::{Ledger, LedgerFault, OutOfMemory};
use std::alloc::Global;
use std::marker::Model;

/// The sending end of a channel: a ledger, the number of changes that led to it, and the last 256 of them.
///
/// It stands for a history, the list of its ledgers from index 0, the one with no entry, to the last index.
#[derive(Drop)]
pub struct Sender<L: Ledger> {
    own: u64,
    last: u64,
    present: L,
    kept: HeapCircularBuffer<L::Delta>,
}

impl<L: Ledger> Model for Sender<L> {
    ghost use Rattle.std.specs.Prelude.{◌≡◌, min, length};
    ghost use Rattle.fuxi_terms.specs.Limits.{kept_changes};
    ghost use Rattle.delta_channel.specs.Standing.{Sending};

    ghost Value = { Sending L L.Delta };

    ghost view = { λ s. record { own = s.own; last = s.last; present = s.present; kept = s.kept.items } };

    ghost invariant = { λ s. (s.kept.capacity ≡ kept_changes) × (length s.kept.items ≡ min kept_changes s.last) };
}

impl<L: Ledger> Sender<L> {
    /// A sender of incarnation `own`, whose history is the ledger with no entry alone. It takes the room for
    /// the changes that it will keep. Where memory is refused there is no sender.
    pub fn start(alloc: Global, own: u64) -> Result<Sender<L>, OutOfMemory>
        ensures value { IfOk result (λ s. s ≡ new_sending L.nothing own) }
        ensures stands { IfOk result (λ s. StandsFor L.nothing L.patched s (L.nothing ∷ [])) }
    {
        Ok(Sender {
            own,
            last: 0,
            present: L::empty(alloc),
            kept: HeapCircularBuffer::with_capacity(alloc, KEPT_CHANGES)?,
        })
    }

    /// Makes a change to the ledger and keeps it, where the last index is below 2^62. Answers the new last index.
    /// Where 256 changes are kept, the oldest is freed. It takes memory for the change to the ledger alone.
    ///
    /// The fault is the ledger's refusal of the change, or want of memory. It leaves all as it was.
    pub fn post(&mut self, alloc: Global, change: L::Delta) -> Result<u64, LedgerFault>
        requires { self.old.last < 2 ^ 62 }
        ensures { Posts L.nothing L.patched change self.old result self.new }
    {
        self.present.apply(alloc, &change)?;
        self.kept.push_back(change);
        self.last += 1;
        Ok(self.last)
    }

    /// The present ledger.
    pub fn ledger(&self) -> &L
        ensures { result.now ≡ self.now.present }
    {
        &self.present
    }

    /// The last index.
    pub fn last(&self) -> u64
        ensures last { result ≡ self.now.last }
        ensures kept { length self.now.kept ≡ min kept_changes self.now.last }
    {
        self.last
    }

    /// The change that led to an index, which is one of the last 256.
    pub fn kept(&self, index: u64) -> &L::Delta
        requires first { 1 ≤ index }
        requires last { index ≤ self.now.last }
        requires near { self.now.last < index + kept_changes }
        ensures place { slice_get self.now.kept (index - 1 + length self.now.kept - self.now.last) ≡ Some result.now }
        ensures stands { (history : List L) → StandsFor L.nothing L.patched self.now history → IsChangeAt L.patched result.now (index - 1) history }
    {
        let newer = self.last - index;
        match self.kept.get(self.kept.len() - 1 - newer as usize) {
            Some(change) => change,
            None => unreachable!(),
        }
    }

    /// The incarnation.
    pub fn own(&self) -> u64
        ensures { result ≡ self.now.own }
    {
        self.own
    }
}
