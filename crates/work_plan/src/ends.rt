//! An end, and what one turn sends.

ghost use Rattle.std.specs.Prelude.{◌≡◌, ◌++◌, ℕ, List, map, length, OnOk, IfOk};
ghost use Rattle.std.specs.List.{AllByRecursion};
ghost use Rattle.fuxi_terms.specs.Tallies.{TallyRecord};
ghost use Rattle.spec_net.specs.Net.{Party as WrittenParty, Id, Link, turn_packets};
ghost use Rattle.work_plan.specs.Ends.{AppendsParcels, IsEnd, Brought, party_of, packet_of, parcel_of, histories};

use crate::{Plan, Running};
use delta_channel::Place;
use full_sync::{Duplex, Note};
use fuxi_terms::OutOfMemory;
use schedule_unit::Party;
use std::alloc::Global;

/// Both directions between the agent and an application. What is sent and what is received are ledgers of one kind.
pub type Ends = Duplex<Plan, Running>;

/// A packet, with what it brings.
#[derive(Drop)]
pub struct Parcel {
    pub from: Party,
    pub to: Party,
    pub note: Note<Plan>,
}

/// Appends the packets of one turn of an end, from the one party to the other. After want of memory nothing is said of what the list has.
pub fn turn(
    ends: &Ends,
    alloc: Global,
    from: Party,
    to: Party,
    parcels: &mut Vec<Parcel>,
) -> Result<(), OutOfMemory>
    ensures turns { OnOk result ((p : WrittenParty) (q : Id) (l : Link) (hs : histories) → IsEnd ends.now p q l hs → party_of from ≡ p → party_of to ≡ record { id = q; inc = l.known }
        → (map packet_of parcels.new.items ≡ map packet_of parcels.old.items ++ turn_packets p q (length (hs p q)) l) × (AllByRecursion (Brought hs) parcels.old.items → AllByRecursion (Brought hs) parcels.new.items)) }
    ensures between { OnOk result (AppendsParcels from to parcels.old.items parcels.new.items) }
{
    let notes = ends.turn(alloc)?;
    let _acked = ends.acked();
    append(notes.into_vec(), from, to, parcels)?;
    Ok(())
}

// Appends the packets of these notes.
fn append(
    notes: Vec<Note<Plan>>,
    from: Party,
    to: Party,
    parcels: &mut Vec<Parcel>,
) -> Result<(), OutOfMemory>
    ensures { OnOk result (parcels.new.items ≡ parcels.old.items ++ map (parcel_of from to) notes.items) }
{
    for note in notes {
        parcels.push(Parcel { from, to, note })?;
    }
    Ok(())
}
