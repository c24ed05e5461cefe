ghost use Rattle.std.specs.Prelude.{◌≡◌, ◌+◌, ◌<◌, ◌^◌, ℕ, List, true, false, if◌then◌else◌, nat_lt, IsTrue, IfOk, IfSome, OnOk, OnErr, IsOk, Ok, Option, ◌++◌, map};
ghost use Rattle.std.specs.List.{AllByRecursion};
ghost use Rattle.full_sync.specs.Turns.{new_endpoint};
ghost use Rattle.fuxi_terms.specs.declared.vectors.Res.{Res};
ghost use Rattle.fuxi_terms.specs.declared.vectors.Sum.{Sum};
ghost use Rattle.party_ledgers.specs.Packets.{IsFormed, is_number_of, is_bare};
ghost use Rattle.party_ledgers.specs.PacketHeaders.{header_of};
ghost use Rattle.party_ledgers.specs.declared.packets.Packet.{Packet};
ghost use Rattle.spec_net.specs.Ledgers.{Ledger as WrittenLedger};
ghost use Rattle.spec_net.specs.Net.{is_taken};
ghost use Rattle.spec_net.specs.Sides.{Side as WrittenSide, new_side};
ghost use Rattle.peer_channel.specs.CoreSides.{IsSide, SaysWord, HearsAlike, PostsAlike, IsShown};
ghost use Rattle.peer_channel.specs.Sending.{AppendsTurn, TurnsAlike, packet_for};
ghost use Rattle.peer_channel.specs.Telling.{TellsWhy};
ghost use Rattle.fuxi_terms.specs.declared.answers.What.TheVariants.{Exceeds as SaysExceeds};
ghost use Rattle.peer_channel.specs.Testing.{Takes};
ghost use Rattle.delta_channel.specs.Calls.{Meets};
ghost use Rattle.channel_refinement.specs.Alike.{told_as, stamp_of};
ghost use Rattle.peer_channel.specs.Parcels.{packet_of, IsSent};
ghost use Rattle.delta_channel.specs.Hearing.{verdict_of};

use crate::carried::Carried;
use crate::limit::{Limit, Refusal};
use crate::reply::{Reply, Word};
use channel_refinement::law;
use delta_channel::{Place, Stamp, Verdict};
use full_sync::{Duplex, Note};
use fuxi_terms::{Res, Sum, What};
use ledger_law::{LedgerFault, OutOfMemory};
use party_ledgers::{Body, Header, Kind, Packet, Packets};
use schedule_unit::Party;
use std::alloc::Global;
use std::marker::Model;

/// One side of a channel: sends a ledger `A` to a peer and receives a ledger `B` of it.
///
/// A contract sees both directions, as of a [`Duplex`]. What its calls do is said of every side of the written net that
/// it stands for (`IsSide`).
#[derive(Drop)]
pub struct Side<A: Carried, B: Carried> {
    ends: Duplex<A, B>,
}

impl<A: Carried, B: Carried> Model for Side<A, B> {
    ghost use Rattle.full_sync.specs.Turns.{Endpoint};
    ghost use Rattle.peer_channel.specs.Sending.{HaveForms};
    ghost use Rattle.std.specs.Prelude.{◌≡◌};

    ghost Value = { Endpoint A A.Delta B };

    ghost view = { λ s. s.ends };

    ghost invariant = { λ s. HaveForms A.has_delta_form s.ends.outgoing × (s.ends.incoming.place.inc ≡ 0 → s.ends.incoming.place.seq ≡ 0) };
}

impl<A: Carried, B: Carried> Side<A, B> {
    /// The side of a party of incarnation `own` that has sent nothing and knows no peer. Where memory is refused
    /// there is no side.
    pub fn start(alloc: Global, own: u64) -> Result<Side<A, B>, OutOfMemory>
        ensures value { IfOk result (λ s. s ≡ new_endpoint A.nothing B.nothing own) }
        ensures stands { IfOk result (λ s. IsSide A.nothing A.patched A.has_form A.stated B.stated s own new_side) }
    {
        Ok(Side {
            ends: Duplex::start(alloc, own)?,
        })
    }

    /// Hears a packet of the peer that is for this party: of an earlier incarnation, of the known one, or of a greater one,
    /// which becomes the known one. A whole ledger that is taken is copied; a change is made in place.
    ///
    /// The measure is that of the ledger that was received, before and after. Where memory is refused the side and the measure
    /// are lost: what was heard of them is not told.
    pub fn hear<L: Limit<B>>(
        &mut self,
        alloc: Global,
        packet: &Packet,
        limit: &L,
        measure: &mut L::Measure,
    ) -> Result<Reply, OutOfMemory>
        requires formed { IsFormed packet.now }
        requires no_end { packet.now.kind ≡ Kind.End → ⊥ }
        requires from { packet.now.from.role ≡ B.from_role }
        requires to { packet.now.to.role ≡ B.to_role }
        requires measured { L.measures limit.now measure.old self.old.incoming.received }
        ensures hears { IfOk result (HearsAlike A.nothing A.patched A.has_form A.stated B.stated (L.excess limit.now) packet.now self.old self.new) }
        ensures measured { OnOk result (L.measures limit.now measure.new self.new.incoming.received) }
        ensures fresh { IfOk result (λ heard. heard.fresh ≡ nat_lt self.old.incoming.place.inc packet.now.from.inc) }
        ensures peer { self.new.incoming.place.inc ≡ (if nat_lt self.old.incoming.place.inc packet.now.from.inc then packet.now.from.inc else self.old.incoming.place.inc) }
        ensures outgoing { self.new.outgoing ≡ self.old.outgoing }
    {
        if packet.from.inc < self.ends.peer() {
            return Ok(Reply::stale());
        }
        let fresh = self.meet(alloc, packet.from.inc, limit, measure);
        if packet.kind == Kind::Ack {
            law::links_are_one();
            self.ends.on_ack(packet.from.inc, packet.place);
            return Ok(Reply::ack(fresh));
        }
        let stamp = stamp_of(packet);
        let verdict = self.judge(packet, &stamp);
        if verdict != Verdict::Take {
            return Ok(left(fresh, verdict));
        }
        match packet.kind {
            Kind::Full => {
                let ledger = B::whole_in(&packet.body).copy(alloc)?;
                let what = self.take_whole(alloc, &stamp, ledger, limit, measure)?;
                Ok(Reply::make(fresh, what))
            }
            Kind::Delta => {
                let what = self.take_change(alloc, packet, &stamp, limit, measure)?;
                Ok(Reply::make(fresh, what))
            }
            Kind::Ack | Kind::End => unreachable!(),
        }
    }

    /// As what a packet with this header is heard, where that can be told without its body and hearing it changes nothing: one of an
    /// earlier incarnation, and a ledger or a change of the known one that is not to be taken. It takes no memory.
    pub fn leaves(&self, header: &Header) -> Option<Reply>
        ensures known { IfSome result (λ reply. reply.fresh ≡ false) }
        ensures left { IfSome result (λ reply. is_taken reply.what ≡ false) }
        ensures hears { IfSome result (λ reply. (x : Packet) → IsFormed x → header_of x ≡ header.now → (excess : WrittenLedger → Option (Sum × Res)) → HearsAlike A.nothing A.patched A.has_form A.stated B.stated excess x self.now self.now reply) }
    {
        law::words_are_one();
        let _own = self.ends.own();
        if header.from.inc < self.ends.peer() {
            return Some(Reply::stale());
        }
        let known = self.ends.peer();
        if header.from.inc != known || header.place.inc != known {
            return None;
        }
        if is_bare(header.kind) {
            return None;
        }
        match self.ends.verdict(&stamp_on(header)) {
            Verdict::Take => None,
            verdict => Some(left(false, verdict)),
        }
    }

    /// Hears a packet as [`Side::hear`] does. A whole ledger that is taken is moved out of it. Where memory is
    /// refused the side and the measure are lost, as there. The packet is gone in each case.
    pub fn hear_moved<L: Limit<B>>(
        &mut self,
        alloc: Global,
        packet: Packet,
        limit: &L,
        measure: &mut L::Measure,
    ) -> Result<Reply, OutOfMemory>
        requires formed { IsFormed packet }
        requires no_end { packet.kind ≡ Kind.End → ⊥ }
        requires from { packet.from.role ≡ B.from_role }
        requires to { packet.to.role ≡ B.to_role }
        requires measured { L.measures limit.now measure.old self.old.incoming.received }
        ensures hears { IfOk result (HearsAlike A.nothing A.patched A.has_form A.stated B.stated (L.excess limit.now) packet self.old self.new) }
        ensures measured { OnOk result (L.measures limit.now measure.new self.new.incoming.received) }
        ensures fresh { IfOk result (λ heard. heard.fresh ≡ nat_lt self.old.incoming.place.inc packet.from.inc) }
        ensures peer { self.new.incoming.place.inc ≡ (if nat_lt self.old.incoming.place.inc packet.from.inc then packet.from.inc else self.old.incoming.place.inc) }
        ensures outgoing { self.new.outgoing ≡ self.old.outgoing }
    {
        if packet.kind != Kind::Full || packet.from.inc < self.ends.peer() {
            return self.hear(alloc, &packet, limit, measure);
        }
        let fresh = self.meet(alloc, packet.from.inc, limit, measure);
        let stamp = stamp_of(&packet);
        let verdict = self.judge(&packet, &stamp);
        if verdict != Verdict::Take {
            return Ok(left(fresh, verdict));
        }
        let ledger = B::whole_of(packet.body);
        let what = self.take_whole(alloc, &stamp, ledger, limit, measure)?;
        Ok(Reply::make(fresh, what))
    }

    // Hears of an incarnation of the peer. Where it is new, nothing is received of it, and that is measured.
    fn meet<L: Limit<B>>(
        &mut self,
        alloc: Global,
        from: u64,
        limit: &L,
        measure: &mut L::Measure,
    ) -> bool
        requires measured { L.measures limit.now measure.old self.old.incoming.received }
        ensures meets { Meets B.nothing from self.old.incoming result self.new.incoming }
        ensures rest { self.new ≡ record self.old { incoming = self.new.incoming; acked = if result then 0 else self.old.acked } }
        ensures measured { L.measures limit.now measure.new self.new.incoming.received }
    {
        let fresh = self.ends.hear(alloc, from);
        if fresh {
            *measure = limit.nothing();
        }
        fresh
    }

    // The verdict on a Full or a Delta of the known incarnation.
    fn judge(&self, packet: &Packet, stamp: &Stamp) -> Verdict
        requires kind { is_bare packet.now.kind ≡ false }
        requires known { packet.now.from.inc ≡ self.now.incoming.place.inc }
        requires place { packet.now.place.inc ≡ packet.now.from.inc }
        requires stamp { stamp.now ≡ stamp_of (packet_of packet.now) }
        ensures verdict { result ≡ verdict_of self.now.incoming.own self.now.incoming.place stamp.now }
        ensures word { SaysWord A.nothing A.patched A.has_form A.stated B.stated packet.now self.now (told_as result) }
    {
        law::words_are_one();
        let _own = self.ends.own();
        self.ends.verdict(stamp)
    }

    // Takes a whole ledger of which the verdict is to take it, where it is not too much.
    fn take_whole<L: Limit<B>>(
        &mut self,
        alloc: Global,
        stamp: &Stamp,
        ledger: B,
        limit: &L,
        measure: &mut L::Measure,
    ) -> Result<Word, OutOfMemory>
        requires take { verdict_of self.old.incoming.own self.old.incoming.place stamp.now ≡ Verdict.Take }
        requires known { stamp.now.place.inc ≡ self.old.incoming.place.inc }
        requires named { 0 < stamp.now.place.inc }
        requires measured { L.measures limit.now measure.old self.old.incoming.received }
        ensures takes { IfOk result (Takes (L.excess limit.now (B.stated ledger)) stamp.now.place ledger self.old self.new) }
        ensures peer { self.new.incoming.place.inc ≡ self.old.incoming.place.inc }
        ensures outgoing { self.new.outgoing ≡ self.old.outgoing }
        ensures measured { L.measures limit.now measure.new self.new.incoming.received }
    {
        match limit.whole(&ledger) {
            Ok(next) => *measure = next,
            Err(excess) => return exceeds(alloc, excess.total, excess.has),
        }
        self.ends.take_full(stamp, ledger);
        Ok(Word::taken())
    }

    // Takes the change of a packet of the known incarnation of which the verdict is to take it, where what it makes is not too much.
    fn take_change<L: Limit<B>>(
        &mut self,
        alloc: Global,
        packet: &Packet,
        stamp: &Stamp,
        limit: &L,
        measure: &mut L::Measure,
    ) -> Result<Word, OutOfMemory>
        requires formed { IsFormed packet.now }
        requires kind { packet.now.kind ≡ Kind.Delta }
        requires from { packet.now.from.role ≡ B.from_role }
        requires to { packet.now.to.role ≡ B.to_role }
        requires known { packet.now.from.inc ≡ self.old.incoming.place.inc }
        requires stamp { stamp.now ≡ stamp_of (packet_of packet.now) }
        requires take { verdict_of self.old.incoming.own self.old.incoming.place stamp.now ≡ Verdict.Take }
        requires measured { L.measures limit.now measure.old self.old.incoming.received }
        ensures hears { SaysWord A.nothing A.patched A.has_form A.stated B.stated packet.now self.old (told_as Verdict.Take) → IfOk result (λ what. HearsAlike A.nothing A.patched A.has_form A.stated B.stated (L.excess limit.now) packet.now self.old self.new (record { fresh = false; what = what })) }
        ensures peer { self.new.incoming.place.inc ≡ self.old.incoming.place.inc }
        ensures outgoing { self.new.outgoing ≡ self.old.outgoing }
        ensures measured { OnOk result (L.measures limit.now measure.new self.new.incoming.received) }
    {
        let change = B::change_in(&packet.body);
        let next = match limit.change(measure, self.ends.got(), change) {
            Ok(next) => next,
            Err(refusal) => return word_of(alloc, refusal),
        };
        match self.ends.take_delta(alloc, stamp, change) {
            Ok(()) => {}
            Err(fault) => return word_of(alloc, Refusal::Ledger(fault)),
        }
        *measure = next;
        Ok(Word::taken())
    }

    /// Makes a change to the ledger that is sent, where the last index is below 2^62. The change leads to a ledger, and has
    /// a written form.
    ///
    /// Want of memory leaves all as it was.
    pub fn post(&mut self, alloc: Global, change: A::Delta) -> Result<(), OutOfMemory>
        requires last { self.old.outgoing.last < 2 ^ 62 }
        requires leads { IsOk (A.patched self.old.outgoing.present change) }
        requires form { A.has_delta_form change }
        ensures made { OnOk result (A.patched self.old.outgoing.present change ≡ Ok self.new.outgoing.present) }
        ensures posts { OnOk result (PostsAlike A.nothing A.patched A.has_form A.stated B.stated self.old self.new) }
        ensures last { OnOk result (self.new.outgoing.last ≡ self.old.outgoing.last + 1) }
        ensures own { self.new.outgoing.own ≡ self.old.outgoing.own }
        ensures rest { self.new ≡ record self.old { outgoing = self.new.outgoing } }
        ensures err { OnErr result (self.new ≡ self.old) }
    {
        match self.ends.post(alloc, change) {
            Ok(_) => {}
            Err(_) => return Err(OutOfMemory),
        }
        self.ends.sent().is_valid();
        Ok(())
    }

    /// Appends the packets of one turn from the party with the number `own` to the peer with the number `peer`: what the
    /// peer lacks, and then an acknowledgement. It changes nothing of the side.
    ///
    /// After want of memory nothing is said of what the list has.
    pub fn turn(
        &self,
        alloc: Global,
        own: u32,
        peer: u32,
        packets: &mut Packets,
    ) -> Result<(), OutOfMemory>
        requires own { IsTrue (is_number_of A.from_role own) }
        requires peer { IsTrue (is_number_of A.to_role peer) }
        requires started { 0 < self.now.outgoing.own }
        ensures turns { OnOk result (TurnsAlike A.nothing A.patched A.has_form A.stated B.stated self.now A.from_role own A.to_role peer packets.old packets.new) }
        ensures formed { AllByRecursion IsSent packets.old → OnOk result (AllByRecursion IsSent packets.new) }
    {
        let from = Party {
            role: A::sender(),
            number: own,
            inc: self.ends.own(),
        };
        let to = Party {
            role: A::receiver(),
            number: peer,
            inc: self.ends.peer(),
        };
        let _acked = self.ends.acked();
        self.append_turn(alloc, from, to, packets)?;
        Ok(())
    }

    // Appends what a turn sends. No list of notes is made where nothing is lacking or nothing is acknowledged.
    fn append_turn(
        &self,
        alloc: Global,
        from: Party,
        to: Party,
        packets: &mut Packets,
    ) -> Result<(), OutOfMemory>
        requires { to.inc ≡ self.now.incoming.place.inc }
        ensures { OnOk result (AppendsTurn A.nothing A.patched A.whole A.changed from to self.now packets.old packets.new) }
    {
        let acked = self.ends.acked();
        let last = self.ends.last();
        let place = self.ends.place();
        if to.inc == 0 || acked == last {
            packets.push(packet_for(Note::<A>::Ack(place), from, to))?;
            return Ok(());
        }
        if acked == 0 {
            let whole = Note::<A>::Full(last, self.ends.sent().copy(alloc)?);
            packets.push(packet_for(whole, from, to))?;
            packets.push(packet_for(Note::<A>::Ack(place), from, to))?;
            return Ok(());
        }
        let notes = self.ends.turn(alloc)?.into_vec();
        packets.reserve(notes.len())?;
        append_packets(notes, from, to, packets)?;
        Ok(())
    }

    /// Forgets what the peer has acknowledged, so that the next turn sends the whole ledger.
    pub fn resync(&mut self)
        ensures after { self.new ≡ record self.old { acked = 0 } }
    {
        self.ends.resync();
    }

    /// The ledger that is sent is shown already: where nothing is changed nothing is due. It does nothing.
    pub fn is_shown(&self)
        ensures { IsShown A.nothing A.patched A.has_form A.stated B.stated self.now }
    {}

    /// The incarnation of this party.
    pub fn own(&self) -> u64
        ensures { result ≡ self.now.outgoing.own }
    {
        self.ends.own()
    }

    /// The known incarnation of the peer, 0 where none is known.
    pub fn peer(&self) -> u64
        ensures { result ≡ self.now.incoming.place.inc }
    {
        self.ends.peer()
    }

    /// The place in the peer's history.
    pub fn place(&self) -> Place
        ensures { result ≡ self.now.incoming.place }
    {
        self.ends.place()
    }

    /// The last index of what is sent.
    pub fn last(&self) -> u64
        ensures { result ≡ self.now.outgoing.last }
    {
        self.ends.last()
    }

    /// The ledger that is sent.
    pub fn sent(&self) -> &A
        ensures { result.now ≡ self.now.outgoing.present }
    {
        self.ends.sent()
    }

    /// What came of the peer's ledger: the one with no entry where nothing came.
    pub fn got(&self) -> &B
        ensures received { result.now ≡ self.now.incoming.received }
        ensures nothing { self.now.incoming.place.seq ≡ 0 → self.now.incoming.received ≡ B.nothing }
    {
        self.ends.got()
    }
}

// What stands on a packet.
fn stamp_of(packet: &Packet) -> Stamp
    ensures { result ≡ stamp_of (packet_of packet.now) }
{
    Stamp {
        from: packet.from.inc,
        to: packet.to.inc,
        full: matches!(packet.kind, Kind::Full),
        place: packet.place,
    }
}

// Whether a packet of this kind holds nothing.
fn is_bare(kind: Kind) -> bool
    ensures { result ≡ is_bare kind }
{
    matches!(kind, Kind::Ack | Kind::End)
}

// The same of a header.
fn stamp_on(header: &Header) -> Stamp
    ensures packet { (x : Packet) → header_of x ≡ header.now → result ≡ stamp_of (packet_of x) }
    ensures from { result.from ≡ header.now.from.inc }
    ensures place { result.place ≡ header.now.place }
{
    Stamp {
        from: header.from.inc,
        to: header.to.inc,
        full: matches!(header.kind, Kind::Full),
        place: header.place,
    }
}

// As what a packet is heard that is not taken.
fn left(fresh: bool, verdict: Verdict) -> Reply
    ensures { result ≡ record { fresh = fresh; what = told_as verdict } }
{
    Reply::make(fresh, Word::told_as(verdict))
}

// How a refusal is told. Want of memory is none.
fn word_of(alloc: Global, refusal: Refusal) -> Result<Word, OutOfMemory>
    ensures { TellsWhy refusal result }
{
    match refusal {
        Refusal::Ledger(LedgerFault::OutOfMemory) => Err(OutOfMemory),
        Refusal::Ledger(fault) => Word::long(alloc, What::Ledger(fault)),
        Refusal::Exceeds { total, has } => exceeds(alloc, total, has),
    }
}

// A ledger takes more than there is.
fn exceeds(alloc: Global, total: Sum, has: Res) -> Result<Word, OutOfMemory>
    ensures { IfOk result (λ word. word ≡ SaysExceeds total has) }
{
    Word::long(alloc, What::Exceeds { total, has })
}

// Appends the packets of these notes.
fn append_packets<A: Carried>(
    notes: Vec<Note<A>>,
    from: Party,
    to: Party,
    packets: &mut Packets,
) -> Result<(), OutOfMemory>
    ensures { OnOk result (packets.new ≡ packets.old ++ map (packet_for A.whole A.changed from to) notes.items) }
{
    for note in notes {
        packets.push(packet_for(note, from, to))?;
    }
    Ok(())
}

// The packet of a note.
fn packet_for<A: Carried>(note: Note<A>, from: Party, to: Party) -> Packet
    ensures { result ≡ packet_for A.whole A.changed from to note }
{
    let (kind, place, body) = match note {
        Note::Full(seq, ledger) => (
            Kind::Full,
            Place { inc: from.inc, seq },
            ledger.whole_body(),
        ),
        Note::Delta(seq, change) => (
            Kind::Delta,
            Place { inc: from.inc, seq },
            A::change_body(change),
        ),
        Note::Ack(place) => (Kind::Ack, place, Body::Nothing),
    };
    Packet {
        from,
        to,
        kind,
        place,
        body,
    }
}
