//! The lines of a table of grants.

ghost use Rattle.std.specs.Prelude.{◌≡◌, ◌<◌, map, length, OnOk};
ghost use Rattle.fuxi_terms.specs.Jobs.{unit_count};
ghost use Rattle.fuxi_terms.specs.Limits.{most_jobs};
ghost use Rattle.schedule_text.specs.Writing.{Begins};
ghost use Rattle.grant_table.specs.GrantTables.{as_known};
ghost use Rattle.party_text.specs.Texts.{Shows};
ghost use Rattle.party_text.specs.MasterLines.{grant_line, grant_lines, grants_of_unit, grants_of_job};

use crate::write_line;
use fuxi_terms::OutOfMemory;
use fuxi_terms::limits::MOST_JOBS;
use grant_table::GrantTable;
use schedule_text::Output;
use schedule_unit::{AppNo, MachineNo, UnitNo};

// The grants of a unit on a machine, where there are any.
fn write_grant(
    epoch: u64,
    table: &GrantTable,
    app: AppNo,
    unit: UnitNo,
    machine: MachineNo,
    out: &mut Vec<u8>,
) -> Result<(), OutOfMemory>
    requires unit { unit.0 < unit_count (as_known table.now.jobs) app.0 }
    requires machine { machine.0 < length table.now.cluster.machines }
    ensures ok { OnOk result (Shows (grant_lines epoch table.now.entries app.0 unit.0 machine.0) out.old.items out.new.items) }
    ensures begins { Begins out.old.items out.new.items }
{
    let count = table.held_on(app, unit, machine);
    if count == 0 {
        return Ok(());
    }
    match write_line(&Output::Grant(epoch, app, unit, machine, count), out) {
        Ok(()) => Ok(()),
        Err(refusal) => Err(refusal),
    }
}

// The grants of a unit, machine by machine.
#[tactic(auto, using(spec_refinement::proofs::ShowsLemmas::begins_then))]
fn write_unit_grants(
    epoch: u64,
    table: &GrantTable,
    app: AppNo,
    unit: UnitNo,
    out: &mut Vec<u8>,
) -> Result<(), OutOfMemory>
    requires { unit.0 < unit_count (as_known table.now.jobs) app.0 }
    ensures ok { OnOk result (Shows (grants_of_unit epoch table.now app.0 unit.0) out.old.items out.new.items) }
    ensures begins { Begins out.old.items out.new.items }
{
    for number in 0..table.cluster().machines() {
        match write_grant(epoch, table, app, unit, MachineNo(number), out) {
            Ok(()) => {}
            Err(refusal) => return Err(refusal),
        }
    }
    Ok(())
}

// How many units of a job are admitted.
fn units_of(table: &GrantTable, app: AppNo) -> u8
    ensures { result ≡ unit_count (as_known table.now.jobs) app.0 }
{
    table.is_sound();
    table.units(app) as u8
}

// The grants of a job, unit by unit.
#[tactic(auto, using(spec_refinement::proofs::ShowsLemmas::begins_then))]
fn write_job_grants(
    epoch: u64,
    table: &GrantTable,
    app: AppNo,
    out: &mut Vec<u8>,
) -> Result<(), OutOfMemory>
    ensures ok { OnOk result (Shows (grants_of_job epoch table.now app.0) out.old.items out.new.items) }
    ensures begins { Begins out.old.items out.new.items }
{
    for number in 0..units_of(table, app) {
        match write_unit_grants(epoch, table, app, UnitNo(number), out) {
            Ok(()) => {}
            Err(refusal) => return Err(refusal),
        }
    }
    Ok(())
}

// The grants of the jobs whose numbers are below one.
#[tactic(auto, using(spec_refinement::proofs::ShowsLemmas::begins_then))]
fn write_jobs_grants(
    epoch: u64,
    table: &GrantTable,
    numbers: u32,
    out: &mut Vec<u8>,
) -> Result<(), OutOfMemory>
    ensures ok { OnOk result (numbers ≡ most_jobs → Shows (map (grant_line epoch) table.now.entries) out.old.items out.new.items) }
    ensures begins { Begins out.old.items out.new.items }
{
    table.is_sound();
    for number in 0..numbers {
        match write_job_grants(epoch, table, AppNo(number), out) {
            Ok(()) => {}
            Err(refusal) => return Err(refusal),
        }
    }
    Ok(())
}

// A table of grants, in the order of job, unit and machine.
pub(crate) fn write_table(
    epoch: u64,
    table: &GrantTable,
    out: &mut Vec<u8>,
) -> Result<(), OutOfMemory>
    ensures ok { OnOk result (Shows (map (grant_line epoch) table.now.entries) out.old.items out.new.items) }
    ensures begins { Begins out.old.items out.new.items }
{
    match write_jobs_grants(epoch, table, MOST_JOBS, out) {
        Ok(()) => Ok(()),
        Err(refusal) => Err(refusal),
    }
}
