//! The lines of a master.

ghost use Rattle.std.specs.Prelude.{◌≡◌, ◌<◌, ℕ, [], ◌∷◌, ◌++◌, map, length, Some, slice_get, OnOk};
ghost use Rattle.fuxi_terms.specs.Keys.{Pair};
ghost use Rattle.spec_roles.specs.MasterRoles.{MasterRole};
ghost use Rattle.spec_world.specs.Outputs.{MasterIs, Reported};
ghost use Rattle.spec_world.specs.Show.{show_master};
ghost use Rattle.schedule_text.specs.Writing.{Begins};
ghost use Rattle.fuxi_master.specs.Cores.{StandsFor};
ghost use Rattle.party_text.specs.Texts.{Shows};
ghost use Rattle.party_text.specs.MasterLines.{reported_lines, grant_line, wait_line};

use crate::grants::write_table;
use crate::write_line;
use failover::{Machines, Phase};
use fuxi_master::Master;
use fuxi_terms::OutOfMemory;
use schedule_text::Output;
use schedule_unit::MachineNo;

// The line of a machine, where it is reported.
fn write_report(
    epoch: u64,
    reported: &Machines,
    machine: MachineNo,
    out: &mut Vec<u8>,
) -> Result<(), OutOfMemory>
    ensures ok { OnOk result (Shows (reported_lines epoch reported.now.numbers machine.0) out.old.items out.new.items) }
    ensures begins { Begins out.old.items out.new.items }
{
    if reported.has(machine) {
        match write_line(&Output::Reported(epoch, machine), out) {
            Ok(()) => return Ok(()),
            Err(refusal) => return Err(refusal),
        }
    }
    Ok(())
}

// The machines that are reported, in their order.
#[tactic(auto, using(spec_refinement::proofs::ShowsLemmas::begins_then))]
fn write_reports(master: &Master, out: &mut Vec<u8>) -> Result<(), OutOfMemory>
    ensures ok { OnOk result ((r : MasterRole) → StandsFor master.now.core r → Shows (map (Reported r.state.epoch) r.state.reported) out.old.items out.new.items) }
    ensures begins { Begins out.old.items out.new.items }
{
    let epoch = master.epoch();
    let reported = master.reported();
    let machines = master.table().cluster().machines();
    for number in 0..machines {
        match write_report(epoch, reported, MachineNo(number), out) {
            Ok(()) => {}
            Err(refusal) => return Err(refusal),
        }
    }
    Ok(())
}

// The pair at a place of the line, with what is out of it.
fn write_wait(master: &Master, index: usize, out: &mut Vec<u8>) -> Result<(), OutOfMemory>
    requires { index < length master.now.core.allotment.placer.seen.line }
    ensures ok { OnOk result ((r : MasterRole) (p : Pair) → StandsFor master.now.core r → slice_get r.state.line index ≡ Some p → Shows (wait_line r.state p ∷ []) out.old.items out.new.items) }
    ensures begins { Begins out.old.items out.new.items }
{
    let pair = master.waiting().at(index);
    let units = master.table().units(pair.0);
    // No line of a master has a unit that is not there, and of one nothing can be asked.
    if pair.1.0 as usize >= units {
        return Ok(());
    }
    let count = master.out(pair.0, pair.1);
    match write_line(&Output::Wait(master.epoch(), pair.0, pair.1, count), out) {
        Ok(()) => Ok(()),
        Err(refusal) => Err(refusal),
    }
}

// The line of a master.
#[tactic(auto, using(spec_refinement::proofs::ShowsLemmas::begins_then))]
fn write_waits(master: &Master, out: &mut Vec<u8>) -> Result<(), OutOfMemory>
    ensures ok { OnOk result ((r : MasterRole) → StandsFor master.now.core r → Shows (map (wait_line r.state) r.state.line) out.old.items out.new.items) }
    ensures begins { Begins out.old.items out.new.items }
{
    for index in 0..master.waiting().len() {
        match write_wait(master, index, out) {
            Ok(()) => {}
            Err(refusal) => return Err(refusal),
        }
    }
    Ok(())
}

// The table of a master, and its line.
#[tactic(auto, using(spec_refinement::proofs::ShowsLemmas::begins_then))]
fn write_grants(master: &Master, out: &mut Vec<u8>) -> Result<(), OutOfMemory>
    ensures ok { OnOk result ((r : MasterRole) → StandsFor master.now.core r → Shows (map (grant_line r.state.epoch) r.state.table ++ map (wait_line r.state) r.state.line) out.old.items out.new.items) }
    ensures begins { Begins out.old.items out.new.items }
{
    match write_table(master.epoch(), master.table(), out) {
        Ok(()) => {}
        Err(refusal) => return Err(refusal),
    }
    match write_waits(master, out) {
        Ok(()) => Ok(()),
        Err(refusal) => Err(refusal),
    }
}

// Whether a master serves.
fn serves(master: &Master) -> bool
    ensures { result ≡ master.now.core.serving }
{
    match master.phase() {
        Phase::Serving => true,
        Phase::Rebuilding => false,
    }
}

// A master, and the machines that are reported to it.
#[tactic(auto, using(spec_refinement::proofs::ShowsLemmas::begins_then))]
fn write_head(master: &Master, out: &mut Vec<u8>) -> Result<(), OutOfMemory>
    ensures ok { OnOk result ((r : MasterRole) → StandsFor master.now.core r → Shows (MasterIs r.state.epoch r.state.serving ∷ map (Reported r.state.epoch) r.state.reported) out.old.items out.new.items) }
    ensures begins { Begins out.old.items out.new.items }
{
    match write_line(&Output::Master(master.epoch(), serves(master)), out) {
        Ok(()) => {}
        Err(refusal) => return Err(refusal),
    }
    match write_reports(master, out) {
        Ok(()) => Ok(()),
        Err(refusal) => Err(refusal),
    }
}

/// Appends the lines of a master: its epoch and whether it serves, the machines that are reported to it, its grants in the order of job,
/// unit and machine, and the pairs that wait. A refusal may leave some of them behind what was there.
#[tactic(auto, using(spec_refinement::proofs::ShowsLemmas::begins_then))]
pub fn write_master(master: &Master, out: &mut Vec<u8>) -> Result<(), OutOfMemory>
    ensures ok { OnOk result ((r : MasterRole) → StandsFor master.now.core r → Shows (show_master r.state) out.old.items out.new.items) }
    ensures begins { Begins out.old.items out.new.items }
{
    match write_head(master, out) {
        Ok(()) => {}
        Err(refusal) => return Err(refusal),
    }
    match write_grants(master, out) {
        Ok(()) => Ok(()),
        Err(refusal) => Err(refusal),
    }
}
