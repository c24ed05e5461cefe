//! Packets are heard.

ghost use Rattle.std.specs.Prelude.{◌≡◌, ◌≢◌, ℕ, List, length, IfOk, OnOk};
ghost use Rattle.fuxi_terms.specs.Tallies.{TallyRecord};
ghost use Rattle.delta_channel.specs.declared.receiver.Verdict.TheVariants.{Take};
ghost use Rattle.delta_channel.specs.Hearing.{verdict_of};
ghost use Rattle.channel_refinement.specs.Alike.{told_as, stamp_of};
ghost use Rattle.spec_net.specs.Net.{Party as WrittenParty, Id, Link, word_of, Delta, Full};
ghost use Rattle.work_plan.specs.Ends.{IsEnd, Brought, HearsAs, TakesAs, packet_of, names_packet, change_packet, NamesBrought, ChangeBrought, histories};

use crate::Plan;
use crate::ends::{Ends, Parcel};
use channel_refinement::law;
use delta_channel::{Place, Stamp, Verdict};
use full_sync::Note;
use fuxi_terms::{OutOfMemory, What};
use ledger_law::{Change, Ledger, LedgerFault};
use schedule_unit::Party;
use std::alloc::Global;

/// How a packet was heard: whether its sender is a new incarnation, and as what.
#[derive(Clone, Copy, Debug, Drop, PartialEq, Eq)]
pub struct Heard {
    pub fresh: bool,
    pub what: What,
}

/// Hears a packet of the peer that is for this party, whatever incarnations it names. After want of memory the end is not to
/// be used.
pub fn hear(ends: &mut Ends, alloc: Global, parcel: &Parcel) -> Result<Heard, OutOfMemory>
    ensures hears { IfOk result (λ heard. (p : WrittenParty) (q : Id) (l : Link) (hs : histories) → IsEnd ends.old p q l hs → Brought hs parcel.now → (packet_of parcel.now).from.id ≡ q → (packet_of parcel.now).to.id ≡ p.id
        → HearsAs ends.new heard p q l hs (packet_of parcel.now)) }
    ensures outgoing { ends.new.outgoing ≡ ends.old.outgoing }
{
    let from = parcel.from.inc;
    if from < ends.peer() {
        return Ok(Heard {
            fresh: false,
            what: What::Stale,
        });
    }
    let fresh = ends.hear(alloc, from);
    match hear_known(ends, alloc, parcel) {
        Ok(what) => Ok(Heard { fresh, what }),
        Err(refusal) => Err(refusal),
    }
}

// Hears a packet of the known incarnation.
fn hear_known(ends: &mut Ends, alloc: Global, parcel: &Parcel) -> Result<What, OutOfMemory>
    requires { parcel.now.from.inc ≡ ends.old.incoming.place.inc }
    ensures takes { IfOk result (λ what. (p : WrittenParty) (q : Id) (l : Link) (hs : histories) → IsEnd ends.old p q l hs → Brought hs parcel.now → (packet_of parcel.now).from.id ≡ q → (packet_of parcel.now).to.id ≡ p.id
        → TakesAs ends.new what p q l hs (packet_of parcel.now)) }
    ensures outgoing { ends.new.outgoing ≡ ends.old.outgoing }
{
    match &parcel.note {
        Note::Ack(place) => {
            law::links_are_one();
            ends.on_ack(parcel.from.inc, *place);
            Ok(What::Ack)
        }
        Note::Full(seq, names) => { hear_names(ends, alloc, &parcel.from, &parcel.to, *seq, names) }
        Note::Delta(seq, change) => {
            hear_change(ends, alloc, &parcel.from, &parcel.to, *seq, change)
        }
    }
}

// Hears the whole ledger of an index.
fn hear_names(
    ends: &mut Ends,
    alloc: Global,
    from: &Party,
    to: &Party,
    seq: u64,
    names: &Plan,
) -> Result<What, OutOfMemory>
    requires { from.now.inc ≡ ends.old.incoming.place.inc }
    ensures takes { IfOk result (λ what. (p : WrittenParty) (q : Id) (l : Link) (hs : histories) → IsEnd ends.old p q l hs → let x = names_packet from.now to.now seq in NamesBrought hs x names.now → x.from.id ≡ q → x.to.id ≡ p.id → TakesAs ends.new what p q l hs x) }
    ensures outgoing { ends.new.outgoing ≡ ends.old.outgoing }
{
    law::words_are_one();
    let stamp = stamp_of(from, to, true, seq);
    let verdict = ends.verdict(&stamp);
    if verdict != Verdict::Take {
        return Ok(told_as(verdict));
    }
    let names = names.copy(alloc)?;
    ends.take_full(&stamp, names);
    Ok(What::Taken)
}

// Hears the change that leads to an index. The change of a packet that was sent is never refused.
fn hear_change(
    ends: &mut Ends,
    alloc: Global,
    from: &Party,
    to: &Party,
    seq: u64,
    change: &Change,
) -> Result<What, OutOfMemory>
    requires { from.now.inc ≡ ends.old.incoming.place.inc }
    ensures takes { IfOk result (λ what. (p : WrittenParty) (q : Id) (l : Link) (hs : histories) → IsEnd ends.old p q l hs → let x = change_packet from.now to.now seq in ChangeBrought hs x change.now → x.from.id ≡ q → x.to.id ≡ p.id → TakesAs ends.new what p q l hs x) }
    ensures outgoing { ends.new.outgoing ≡ ends.old.outgoing }
{
    law::words_are_one();
    let stamp = stamp_of(from, to, false, seq);
    let verdict = ends.verdict(&stamp);
    if verdict != Verdict::Take {
        return Ok(told_as(verdict));
    }
    match ends.take_delta(alloc, &stamp, change) {
        Ok(()) => Ok(What::Taken),
        Err(fault) => match word_of(fault) {
            Ok(what) => Ok(what),
            Err(refusal) => Err(refusal),
        },
    }
}

// How a refusal of the ledger is told. Want of memory is none.
fn word_of(fault: LedgerFault) -> Result<What, OutOfMemory>
    ensures { OnOk result (fault ≢ LedgerFault.OutOfMemory) }
{
    match fault {
        LedgerFault::OutOfMemory => Err(OutOfMemory),
        LedgerFault::Below { .. } => Ok(What::Ledger(fault)),
        LedgerFault::TooGreat { .. } => Ok(What::Ledger(fault)),
    }
}

// What stands on a packet of a ledger or a change.
fn stamp_of(from: &Party, to: &Party, full: bool, seq: u64) -> Stamp
    ensures { result ≡ record { from = from.now.inc; to = to.now.inc; full = full; place = record { inc = from.now.inc; seq = seq } } }
{
    Stamp {
        from: from.inc,
        to: to.inc,
        full,
        place: Place { inc: from.inc, seq },
    }
}

// How a verdict is told.
fn told_as(verdict: Verdict) -> What
    ensures { result ≡ told_as verdict }
{
    match verdict {
        Verdict::Take => What::Taken,
        Verdict::Old => What::Old,
        Verdict::Gap => What::Gap,
        Verdict::NotMine => What::NotMine,
        Verdict::Stale => What::Stale,
    }
}
