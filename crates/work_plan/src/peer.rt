//! What the agent does with one application.

ghost use Rattle.std.specs.Prelude.{◌≡◌, ◌<◌, ◌&&◌, nat_eq, None, IsSome, IfOk, OnOk, get_or};
ghost use Rattle.fuxi_terms.specs.Limits.{most_units};
ghost use Rattle.work_plan.specs.WorkMoves.{HearsPeer, KeepsPlan, CountsPeer};

use crate::parts::Peer;
use crate::settle::settle_peer;
use crate::{Heard, Parcel, Workers, hear};
use delta_channel::Place;
use fuxi_terms::OutOfMemory;
use fuxi_terms::limits::MOST_UNITS;
use ledger_law::Ledger;
use schedule_unit::{AppNo, UnitNo};
use std::alloc::Global;

// So many workers of a unit may run now.
pub fn count_peer(
    alloc: Global,
    app: AppNo,
    unit: UnitNo,
    count: u32,
    peer: &mut Peer,
    workers: &mut Workers,
) -> Result<(), OutOfMemory>
    requires admitted { IsSome (get_or workers.old app.0 None) }
    requires unit { unit.0 < most_units }
    ensures { OnOk result (CountsPeer app.0 unit.0 count peer.old peer.new workers.old workers.new) }
{
    peer.counts[unit.0 as usize] = count;
    settle_peer(alloc, app, peer, workers, unit.0, unit.0 + 1)
}

// The plan that came stays in force where the application is met in a new boot.
fn keep_plan(alloc: Global, peer: &mut Peer, from: u64) -> Result<(), OutOfMemory>
    ensures { OnOk result (KeepsPlan from peer.old peer.new) }
{
    let place = peer.ends.place();
    if from <= place.inc {
        return Ok(());
    }
    if place.seq == 0 {
        return Ok(());
    }
    peer.plan = peer.ends.got().copy(alloc)?;
    Ok(())
}

// Whether two places are one.
fn same_place(a: Place, b: Place) -> bool
    ensures { result ≡ (nat_eq a.inc b.inc && nat_eq a.seq b.seq) }
{
    a.inc == b.inc && a.seq == b.seq
}

// A packet of the application is heard; where that moved the place in its plans, its workers are settled.
pub fn hear_peer(
    alloc: Global,
    app: AppNo,
    parcel: &Parcel,
    peer: &mut Peer,
    workers: &mut Workers,
) -> Result<Heard, OutOfMemory>
    requires admitted { IsSome (get_or workers.old app.0 None) }
    ensures { IfOk result (λ heard. HearsPeer app.0 parcel.now heard peer.old peer.new workers.old workers.new) }
{
    let before = peer.ends.place();
    keep_plan(alloc, peer, parcel.from.inc)?;
    let heard = hear(&mut peer.ends, alloc, parcel)?;
    let after = peer.ends.place();
    if after.seq == 0 {
        return Ok(heard);
    }
    if same_place(after, before) {
        return Ok(heard);
    }
    settle_peer(alloc, app, peer, workers, 0, MOST_UNITS as u8)?;
    Ok(heard)
}
