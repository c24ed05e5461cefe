//! The lines of an application.

ghost use Rattle.std.specs.Prelude.{◌≡◌, ◌<◌, [], ◌∷◌, OnOk};
ghost use Rattle.std.specs.List.{flat_map};
ghost use Rattle.fuxi_terms.specs.Lists.{below};
ghost use Rattle.spec_roles.specs.Apps.{AppRole, held_by};
ghost use Rattle.schedule_text.specs.Writing.{Begins};
ghost use Rattle.app_master.specs.AppCores.{StandsFor};
ghost use Rattle.spec_refinement.specs.States.{hold_line, unit_lines, app_lines};
ghost use Rattle.party_text.specs.Texts.{Shows};

use crate::line::write_line;
use app_master::AppMaster;
use fuxi_terms::OutOfMemory;
use schedule_text::Output;
use schedule_unit::{AppNo, MachineNo, UnitNo};

// What is held of a unit on a machine, which is so many.
fn write_hold(
    app: &AppMaster,
    job: AppNo,
    unit: UnitNo,
    machine: MachineNo,
    count: u32,
    out: &mut Vec<u8>,
) -> Result<(), OutOfMemory>
    requires number { job.0 ≡ app.now.job }
    requires held { (r : AppRole) → StandsFor app.now r → count ≡ held_by r unit.0 machine.0 }
    ensures ok { OnOk result ((r : AppRole) → StandsFor app.now r → Shows (hold_line r unit.0 machine.0 ∷ []) out.old.items out.new.items) }
    ensures begins { Begins out.old.items out.new.items }
{
    if app.carried(machine) {
        match write_line(&Output::Carry(job, unit, machine, count), out) {
            Ok(()) => return Ok(()),
            Err(refusal) => return Err(refusal),
        }
    }
    match write_line(&Output::Hold(job, unit, machine, count), out) {
        Ok(()) => Ok(()),
        Err(refusal) => Err(refusal),
    }
}

// What is held of a unit, from one machine to the next on which there is some.
#[tactic(auto, using(spec_refinement::proofs::ShowsLemmas::begins_then))]
fn write_unit(
    app: &AppMaster,
    job: AppNo,
    unit: UnitNo,
    out: &mut Vec<u8>,
) -> Result<(), OutOfMemory>
    requires number { job.0 ≡ app.now.job }
    requires unit { unit.0 < app.now.units }
    ensures ok { OnOk result ((r : AppRole) → StandsFor app.now r → Shows (unit_lines r unit.0) out.old.items out.new.items) }
    ensures begins { Begins out.old.items out.new.items }
{
    // That a machine's number is below the greatest is known once the number of machines is read.
    let _machines = app.machines();
    let mut from = 0;
    while let Some((machine, count)) = app.next_held(unit, from) {
        match write_hold(app, job, unit, machine, count, out) {
            Ok(()) => {}
            Err(refusal) => return Err(refusal),
        }
        from = machine.0 + 1;
    }
    Ok(())
}

// What is held, unit by unit.
#[tactic(auto, using(spec_refinement::proofs::ShowsLemmas::begins_then))]
fn write_units(app: &AppMaster, job: AppNo, out: &mut Vec<u8>) -> Result<(), OutOfMemory>
    requires number { job.0 ≡ app.now.job }
    ensures ok { OnOk result ((r : AppRole) → StandsFor app.now r → Shows (flat_map (unit_lines r) (below r.units)) out.old.items out.new.items) }
    ensures begins { Begins out.old.items out.new.items }
{
    for number in 0..app.units() {
        match write_unit(app, job, UnitNo(number), out) {
            Ok(()) => {}
            Err(refusal) => return Err(refusal),
        }
    }
    Ok(())
}

/// Appends the lines of the application of a job: its boot and its place, and what it holds of each unit on each machine. A refusal may
/// leave some of them behind what was there.
#[tactic(auto, using(spec_refinement::proofs::ShowsLemmas::begins_then))]
pub fn write_app(app: &AppMaster, job: AppNo, out: &mut Vec<u8>) -> Result<(), OutOfMemory>
    requires number { job.0 ≡ app.now.job }
    ensures ok { OnOk result ((r : AppRole) → StandsFor app.now r → Shows (app_lines r) out.old.items out.new.items) }
    ensures begins { Begins out.old.items out.new.items }
{
    let place = app.place();
    match write_line(&Output::App(job, app.boot(), place.inc, place.seq), out) {
        Ok(()) => {}
        Err(refusal) => return Err(refusal),
    }
    match write_units(app, job, out) {
        Ok(()) => Ok(()),
        Err(refusal) => Err(refusal),
    }
}
