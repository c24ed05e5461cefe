//! The applications, towards the agent.

ghost use Rattle.std.specs.Prelude.{◌≡◌, ◌<◌, ℕ, None, Some, cond, OnOk, get_or};
ghost use Rattle.fuxi_terms.specs.Limits.{most_units};
ghost use Rattle.work_plan.specs.Ends.{Sets};
ghost use Rattle.work_plan.specs.PlanKeys.{most_workers};
ghost use Rattle.work_plan.specs.WorkEvents.{plan_with};
ghost use Rattle.work_plan.specs.AgentWithApps.{World};
ghost use Rattle.work_plan.specs.WorkMoves.{StartsApp};
ghost use Rattle.work_plan.specs.WorkWorlds.{AppOf};

use crate::places::put;
use crate::{Ends, set_names};
use fuxi_terms::OutOfMemory;
use ledger_law::Key;
use schedule_unit::{AppNo, UnitNo};
use std::alloc::Global;

// No end appends so many entries: each takes a call, and this many take longer than a machine lasts.
const MOST_ENTRIES: u64 = 1 << 62;

// The kind of a key that names a worker.
const WORKER: u8 = 1;

// The last boot of an application, 0 where it never started.
pub fn boot_of(apps: &[Option<Ends>], app: AppNo) -> u64
    ensures { (w : World) → AppOf (get_or apps.now app.0 None) w app.0 → result ≡ w.apps app.0 }
{
    match apps.get(app.0 as usize) {
        Some(Some(ends)) => ends.own(),
        _ => 0,
    }
}

// An application starts in a boot. One that ran is gone.
pub fn start_app(
    apps: &mut Vec<Option<Ends>>,
    alloc: Global,
    app: AppNo,
    boot: u64,
) -> Result<(), OutOfMemory>
    ensures { OnOk result (StartsApp app.0 boot apps.old.items apps.new.items) }
{
    let ends = Ends::start(alloc, boot)?;
    put(apps, app.0, ends)
}

// 1 for a worker that is wanted.
fn number_of(wanted: bool) -> u64
    ensures { result ≡ cond wanted 1 0 }
{
    if wanted { 1 } else { 0 }
}

// A worker of a unit is wanted, or it is not.
pub fn want(
    ends: &mut Ends,
    alloc: Global,
    unit: UnitNo,
    worker: u32,
    wanted: bool,
) -> Result<(), OutOfMemory>
    requires unit { unit.0 < most_units }
    requires worker { worker < most_workers }
    ensures { OnOk result (Sets (plan_with ends.old.outgoing.present unit.0 worker wanted) ends.old ends.new) }
{
    if ends.last() >= MOST_ENTRIES {
        return Err(OutOfMemory);
    }
    let key = Key {
        what: WORKER,
        unit: unit.0,
        number: worker,
    };
    set_names(ends, alloc, &[(key, number_of(wanted))])
}
