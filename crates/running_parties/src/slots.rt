//! The parties of one kind, by their numbers.

ghost use Rattle.peer_channel.specs.Parcels.{IsSent};
ghost use Rattle.std.specs.Prelude.{◌≡◌, ◌+◌, ◌<◌, ◌≤◌, ℕ, length, is_some, Some, None, IfOk, IfSome, IsSome, OnOk, OnErr, slice_get};
ghost use Rattle.std.specs.List.{AllByRecursion};
ghost use Rattle.std.specs.List.Sorted.{IsStrictlySortedBy};
ghost use Rattle.std.specs.Map.{keys_of};
ghost use Rattle.std.specs.Option.{option_copied};
ghost use Rattle.std.specs.Ordering.{nat_cmp};
ghost use Rattle.fuxi_terms.specs.Cluster.{ClusterRecord};
ghost use Rattle.party_ledgers.specs.Packets.{IsFormed};
ghost use Rattle.party_ledgers.specs.PacketHeaders.{header_of};
ghost use Rattle.party_ledgers.specs.declared.packets.Packet.{Packet};
ghost use Rattle.spec_world.specs.World.{empty_world};
ghost use Rattle.fuxi_terms.specs.Limits.{most_steps};
ghost use Rattle.spec_refinement.specs.SeenParties.{Kind as KindOf, Role, resynced};
ghost use Rattle.running_parties.specs.PartyAnswers.{HearsAlike, SendsAlike};
ghost use Rattle.running_parties.specs.Slots.{entry_at, slot_at, boot_at, ActsInSlot, IsSet, IsGone, IsTakenOut, AreOf, AreWithin, MayStep, HearInWorld, TurnInWorld, ResyncInWorld, StartInWorld};

use crate::party::Party;
use crate::places::place_of;
use ledger_law::OutOfMemory;
use party_ledgers::{Header, Kind, Packet, Packets};
use peer_channel::Reply;
use spec_refinement::parties;
use std::alloc::Global;
use std::marker::Model;

/// The parties of one kind that run, each by its number, and the last boot of each number.
///
/// What its calls do is said of every good world that they stand in, of whatever kind (`AreOf`). A call makes at most one step of one
/// party; a party may take fewer than 2^50. A start alone makes room.
pub struct Slots<P: Party> {
    // In the order of the numbers: the core, none while it acts, and the last boot.
    slots: Vec<(u64, (Option<P>, u64))>,
}

// Written out, so that who lets one go checks this call and not all of its parts.
impl<P: Party> Drop for Slots<P> {
    fn drop(self) {
        let Slots { slots } = self;
    }
}

impl<P: Party> Model for Slots<P> {
    ghost use Rattle.running_parties.specs.Slots.{SlotsRecord};
    ghost use Rattle.std.specs.Prelude.{T};
    ghost use Rattle.std.specs.Ordering.{nat_cmp};
    ghost use Rattle.std.specs.FinMap.Entries.{is_sorted};

    ghost Value = { SlotsRecord P };

    ghost view = { λ s. record { slots = s.slots.items } };

    ghost invariant = { λ s. T (is_sorted nat_cmp s.slots.items) };
}

impl<P: Party> Slots<P> {
    /// None: no party runs, and none ever ran. It takes no memory.
    pub fn none(alloc: Global) -> Slots<P>
        ensures stands { (c : ClusterRecord) (k : KindOf) → AreOf P.stands k (empty_world c) result }
        ensures within { AreWithin P.steps 0 result }
    {
        Slots {
            slots: Vec::new(alloc),
        }
    }

    /// How many numbers have a slot.
    pub fn len(&self) -> usize
        ensures count { result ≡ length self.now.slots }
        ensures rising { IsStrictlySortedBy nat_cmp (keys_of self.now.slots) }
    {
        self.slots.len()
    }

    /// The number of the slot at a place of their order, counted from 0.
    pub fn number(&self, place: usize) -> u64
        requires { place < length self.now.slots }
        ensures { slice_get (keys_of self.now.slots) place ≡ Some result }
    {
        self.slots[place].0
    }

    /// The party of a number, or `None` where none runs.
    pub fn get(&self, number: u64) -> Option<&P>
        ensures { option_copied result ≡ slot_at self.now number }
    {
        match place_of(&self.slots, number) {
            Ok(place) => self.slots[place].1.0.as_ref(),
            Err(_) => None,
        }
    }

    /// The last boot of a number, 0 where none ever ran.
    pub fn boot(&self, number: u64) -> u64
        ensures { result ≡ boot_at self.now number }
    {
        match place_of(&self.slots, number) {
            Ok(place) => self.slots[place].1.1,
            Err(_) => 0,
        }
    }

    // What the party of a number does, taken out of its slot and put back; `None` where none runs. Where it fails that party is gone.
    pub(crate) fn act<A: Drop, E: Drop, F: FnOnce(P) -> Result<(P, A), E> + Drop>(
        &mut self,
        number: u64,
        deed: F,
    ) -> Result<Option<A>, E>
        requires { (p : P) → slot_at self.old number ≡ Some p → F.pre deed p }
        ensures { ActsInSlot (F.post deed) number self.old self.new result }
    {
        let Ok(place) = place_of(&self.slots, number) else {
            return Ok(None);
        };
        let slot = &mut self.slots[place].1;
        let Some(party) = slot.0.take() else {
            return Ok(None);
        };
        let (party, answer) = match deed(party) {
            Ok(both) => both,
            Err(fault) => return Err(fault),
        };
        slot.0 = Some(party);
        Ok(Some(answer))
    }

    // The party of a number, taken out of its slot until it is put back; `None` where none runs.
    pub(crate) fn take(&mut self, number: u64) -> Option<P>
        ensures { IsTakenOut number self.old self.new result }
    {
        let Ok(place) = place_of(&self.slots, number) else {
            return None;
        };
        let slot = &mut self.slots[place].1;
        slot.0.take()
    }

    // It is put back.
    pub(crate) fn put(&mut self, number: u64, party: P)
        requires { IsSome (entry_at self.old number) }
        ensures { IsSet number (Some party) (boot_at self.old number) self.old self.new }
    {
        let Ok(place) = place_of(&self.slots, number) else {
            unreachable!();
        };
        let slot = &mut self.slots[place].1;
        slot.0 = Some(party);
    }

    // A party starts in a boot. One that runs of its number is gone. Want of memory leaves all as it was.
    pub(crate) fn start(&mut self, number: u64, party: P, boot: u64) -> Result<(), OutOfMemory>
        ensures world { OnOk result (StartInWorld P.stands number party boot self.old self.new) }
        ensures within { OnOk result (P.steps party ≡ 0 → (n : ℕ) → AreWithin P.steps n self.old → AreWithin P.steps n self.new) }
        ensures err { OnErr result (self.new ≡ self.old) }
    {
        self.set(number, party, boot)
    }

    // A number has this party and boot.
    fn set(&mut self, number: u64, party: P, boot: u64) -> Result<(), OutOfMemory>
        ensures ok { OnOk result (IsSet number (Some party) boot self.old self.new) }
        ensures err { OnErr result (self.new ≡ self.old) }
    {
        match place_of(&self.slots, number) {
            Ok(place) => {
                self.slots[place].1 = (Some(party), boot);
                Ok(())
            }
            Err(place) => {
                self.slots.insert(place, (number, (Some(party), boot)))?;
                Ok(())
            }
        }
    }

    // The slot of a number goes; false where there is none.
    pub(crate) fn remove(&mut self, number: u64) -> bool
        ensures gone { IsGone number self.old self.new }
        ensures ran { result ≡ is_some (entry_at self.old number) }
    {
        let Ok(place) = place_of(&self.slots, number) else {
            return false;
        };
        self.slots.remove(place);
        true
    }

    /// A packet, formed and no End, is heard by the party of a number, which it is for; `None` where none runs. Where memory is refused
    /// that party is gone, and all else is as it was.
    pub fn hear(
        &mut self,
        alloc: Global,
        number: u64,
        packet: Packet,
    ) -> Result<Option<Reply>, OutOfMemory>
        requires formed { IsFormed packet }
        requires no_end { packet.kind ≡ Kind.End → ⊥ }
        requires steps { MayStep P.steps (slot_at self.old number) }
        ensures world { IfOk result (HearInWorld P.stands number packet self.old self.new) }
        ensures within { (n : ℕ) → AreWithin P.steps n self.old → AreWithin P.steps (n + 1) self.new }
        ensures err { OnErr result (IsSet number None (boot_at self.old number) self.old self.new) }
    {
        parties::parties_join();
        self.act(
            number,
            move |party: P|
                requires formed { IsFormed packet }
                requires no_end { packet.kind ≡ Kind.End → ⊥ }
                requires steps { P.steps party < most_steps }
                ensures hears { IfOk result (λ after. HearsAlike (P.stands party) (P.stands after.0) packet after.1) }
                ensures steps { IfOk result (λ after. P.steps after.0 ≤ P.steps party + 1) }
            { party.hear(alloc, packet) },
        )
    }

    /// As what the party of a number, which it is for, hears a packet with this header, where that can be told without its body and
    /// hearing it changes nothing.
    pub fn leaves(&self, number: u64, header: &Header) -> Option<Reply>
        ensures { IfSome result (λ reply. (packet : Packet) → IsFormed packet → header_of packet ≡ header.now → HearInWorld P.stands number packet self.now self.now (Some reply)) }
    {
        parties::parties_join();
        match self.get(number) {
            Some(party) => party.leaves(header),
            None => None,
        }
    }

    /// What the party of a number sends in one turn; `None` where none runs.
    pub fn turn(&mut self, alloc: Global, number: u64) -> Result<Option<Packets>, OutOfMemory>
        requires { MayStep P.steps (slot_at self.old number) }
        ensures world { IfOk result (TurnInWorld P.stands number self.old self.new) }
        ensures formed { IfOk result (λ packets. IfSome packets (AllByRecursion IsSent)) }
        ensures within { (n : ℕ) → AreWithin P.steps n self.old → AreWithin P.steps (n + 1) self.new }
    {
        parties::parties_join();
        self.act(
            number,
            move |party: P|
                requires { P.steps party < most_steps }
                ensures sends { IfOk result (λ after. SendsAlike (P.stands party) (P.stands after.0) after.1) }
                ensures formed { IfOk result (λ after. AllByRecursion IsSent after.1) }
                ensures steps { IfOk result (λ after. P.steps after.0 ≤ P.steps party + 1) }
            { party.turn(alloc) },
        )
    }

    /// The party of a number forgets what its peers have acknowledged. Answers whether one runs.
    pub fn resync(&mut self, alloc: Global, number: u64) -> Result<bool, OutOfMemory>
        requires { MayStep P.steps (slot_at self.old number) }
        ensures world { IfOk result (ResyncInWorld P.stands number self.old self.new) }
        ensures within { (n : ℕ) → AreWithin P.steps n self.old → AreWithin P.steps (n + 1) self.new }
    {
        parties::parties_join();
        let ran = self.act(
            number,
            move |party: P|
                requires { P.steps party < most_steps }
                ensures resyncs { IfOk result (λ after. (r : Role) → P.stands party r → P.stands after.0 (resynced r)) }
                ensures steps { IfOk result (λ after. P.steps after.0 ≤ P.steps party + 1) }
            {
                match party.resync(alloc) {
                    Ok(party) => Ok((party, ())),
                    Err(fault) => Err(fault),
                }
            },
        );
        match ran {
            Ok(ran) => Ok(ran.is_some()),
            Err(fault) => Err(fault),
        }
    }
}
