//! What is counted in the summary.

ghost use Rattle.std.specs.Prelude.{◌≡◌, ◌*◌, ◌<◌, ◌≤◌, ◌^◌};
ghost use Rattle.std.specs.List.{sum_by};
ghost use Rattle.fuxi_terms.specs.Jobs.{unit_count};
ghost use Rattle.fuxi_terms.specs.Lists.{below};
ghost use Rattle.fuxi_terms.specs.Tables.{held};
ghost use Rattle.app_master.specs.AppCores.{StandsFor as AppStandsFor};
ghost use Rattle.spec_roles.specs.Apps.{AppRole, held_by};
ghost use Rattle.grant_table.specs.GrantTables.{as_known};
ghost use Rattle.schedule_replay.specs.Worlds.{IsReached, IsWorld, StandsFor};
ghost use Rattle.spec_world.specs.World.{World as WrittenWorld};
ghost use Rattle.storm_run.specs.Summaries.{count_of, granted, held_in, rows_in, word_of};

use app_master::AppMaster;
use grant_table::GrantTable;
use party_ledgers::RowLedger;
use running_parties::law;
use schedule_replay::Running;
use schedule_unit::{AppNo, MachineNo, UnitNo};

// What is counted: of a job its grants, of an application what it holds, of an agent the grants in its table.
#[derive(Clone, Copy)]
pub enum Count {
    Granted,
    Held,
    Rows,
}

// The grants of a job.
fn count_grants(table: &GrantTable, app: AppNo) -> u64
    ensures { result ≡ sum_by (held table.now.entries app.0) (below (unit_count (as_known table.now.jobs) app.0)) }
{
    table.is_sound();
    let mut total = 0u64;
    for unit in 0..table.units(app) as u8 {
        total += table.held(app, UnitNo(unit)) as u64;
    }
    total
}

// The grants of a job in the table of the newest master.
fn granted(running: &Running, app: AppNo) -> u64
    ensures { (w : WrittenWorld) → IsWorld w → StandsFor running.now w → result ≡ granted w app.0 }
{
    law::parties_run();
    match running.master(running.fence()) {
        Some(master) => count_grants(master.table(), app),
        None => 0,
    }
}

// What an application holds of a unit.
fn count_unit(app: &AppMaster, unit: UnitNo) -> u64
    requires { unit.0 < app.now.units }
    ensures sum { (r : AppRole) → AppStandsFor app.now r → result ≡ sum_by (held_by r unit.0) (below app.now.machines) }
    ensures few { result ≤ 2 ^ 32 * app.now.machines }
{
    let mut total = 0u64;
    for machine in 0..app.machines() {
        total += app.held(unit, MachineNo(machine)) as u64;
    }
    total
}

// What an application holds.
fn count_held(app: &AppMaster) -> u64
    requires { app.now.machines ≤ 256 }
    ensures { (r : AppRole) → AppStandsFor app.now r → result ≡ sum_by (λ u. sum_by (held_by r u) (below app.now.machines)) (below app.now.units) }
{
    let mut total = 0u64;
    for unit in 0..app.units() {
        total += count_unit(app, UnitNo(unit));
    }
    total
}

// What runs is of a valid cluster, which has few machines.
fn held(running: &Running, app: AppNo) -> u64
    requires { IsReached running.now }
    ensures { (w : WrittenWorld) → IsWorld w → StandsFor running.now w → result ≡ held_in w app.0 }
{
    law::parties_run();
    match running.app(app) {
        Some(master) => count_held(master),
        None => 0,
    }
}

// The grants in the table of an agent.
fn count_rows(table: &RowLedger) -> u64
    ensures { result ≡ sum_by (λ e. e.1) table.now }
{
    let mut total = 0u64;
    for index in 0..table.len() {
        total += table.at(index).count as u64;
    }
    total
}

fn rows(running: &Running, machine: MachineNo) -> u64
    ensures { (w : WrittenWorld) → IsWorld w → StandsFor running.now w → result ≡ rows_in w machine.0 }
{
    law::parties_run();
    match running.agent(machine) {
        Some(agent) => count_rows(agent.table()),
        None => 0,
    }
}

// What is counted of the job, the application or the agent of this number.
pub(crate) fn count_of(running: &Running, what: Count, number: u32) -> u64
    requires { IsReached running.now }
    ensures { (w : WrittenWorld) → IsWorld w → StandsFor running.now w → result ≡ count_of what w number }
{
    match what {
        Count::Granted => granted(running, AppNo(number)),
        Count::Held => held(running, AppNo(number)),
        Count::Rows => rows(running, MachineNo(number)),
    }
}

pub(crate) fn word(what: Count) -> &'static [u8]
    ensures { result.now ≡ word_of what }
{
    match what {
        Count::Granted => b"granted",
        Count::Held => b"held",
        Count::Rows => b"rows",
    }
}
