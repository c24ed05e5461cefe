//! The workers of an application are settled, and the names that change are sent.

ghost use Rattle.std.specs.Prelude.{◌≡◌, ◌≤◌, ◌+◌, None, IsSome, IfOk, OnOk, get_or};
ghost use Rattle.fuxi_terms.specs.Limits.{most_units};
ghost use Rattle.work_plan.specs.Settles.{SettlesUnit, SettlesUnits, SettlesPeer, force_of};

use crate::numbers::push_changed;
use crate::parts::Peer;
use crate::{Ends, Plan, Workers, set_names};
use fuxi_terms::OutOfMemory;
use ledger_law::Key;
use schedule_unit::{AppNo, UnitNo};
use std::alloc::Global;

// No end appends so many entries: each takes a call, and this many take longer than a machine lasts.
const MOST_ENTRIES: u64 = 1 << 62;

// One unit is settled, and the names that change stand behind those of the units before it.
fn settle_unit(
    workers: &mut Workers,
    app: AppNo,
    unit: UnitNo,
    plan: &Plan,
    count: u32,
    numbers: &mut Vec<(Key, u64)>,
) -> Result<(), OutOfMemory>
    requires { IsSome (get_or workers.old app.0 None) }
    ensures { OnOk result (SettlesUnit app.0 unit.0 plan.now count workers.old workers.new numbers.old.items numbers.new.items) }
{
    let _running = workers.running(app, unit);
    let before = workers.marks(app, unit);
    workers.settle(app, unit, plan, count);
    let after = workers.marks(app, unit);
    push_changed(unit, &before, &after, numbers)
}

// The units from the first on up to the last one, which is not among them, are settled. Answers the names that change.
fn settle_units(
    alloc: Global,
    workers: &mut Workers,
    app: AppNo,
    plan: &Plan,
    counts: &[u32; 8],
    first: u8,
    last: u8,
) -> Result<Vec<(Key, u64)>, OutOfMemory>
    requires admitted { IsSome (get_or workers.old app.0 None) }
    requires order { first ≤ last }
    requires units { last ≤ most_units }
    ensures { IfOk result (λ numbers. SettlesUnits app.0 plan.now counts.now first last workers.old workers.new numbers.items) }
{
    let mut numbers = Vec::new(alloc);
    for unit in first..last {
        let count = counts[unit as usize];
        settle_unit(workers, app, UnitNo(unit), plan, count, &mut numbers)?;
    }
    Ok(numbers)
}

// The plan in force: the one that came, once one did, and else the one before.
fn force_of<'a>(ends: &'a Ends, plan: &'a Plan) -> &'a Plan
    ensures { result.now ≡ force_of ends.now plan.now }
{
    if ends.place().seq == 0 {
        plan
    } else {
        ends.got()
    }
}

// The units from the first on up to the last one, which is not among them, are settled by the plan in force, and the names that
// change are sent.
pub fn settle_peer(
    alloc: Global,
    app: AppNo,
    peer: &mut Peer,
    workers: &mut Workers,
    first: u8,
    last: u8,
) -> Result<(), OutOfMemory>
    requires admitted { IsSome (get_or workers.old app.0 None) }
    requires order { first ≤ last }
    requires units { last ≤ most_units }
    ensures { OnOk result (SettlesPeer app.0 first last peer.old peer.new workers.old workers.new) }
{
    crate::law::plans_name_once();
    crate::law::workers_run_as_planned();
    let plan = force_of(&peer.ends, &peer.plan);
    let _names = plan.entries();
    let numbers = settle_units(alloc, workers, app, plan, &peer.counts, first, last)?;
    if peer.ends.last() >= MOST_ENTRIES {
        return Err(OutOfMemory);
    }
    set_names(&mut peer.ends, alloc, &numbers)?;
    let _sent = peer.ends.sent().entries();
    Ok(())
}
