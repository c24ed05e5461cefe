//! The lines of the hard state.

ghost use Rattle.std.specs.Prelude.{[], ◌∷◌, ◌++◌, map, OnOk};
ghost use Rattle.spec_world.specs.Outputs.{Banned};
ghost use Rattle.spec_world.specs.Show.{show_jobs};
ghost use Rattle.schedule_text.specs.Writing.{Begins};
ghost use Rattle.spec_refinement.specs.States.{hard_lines};
ghost use Rattle.party_text.specs.Texts.{Shows};
ghost use Rattle.party_text.specs.MasterLines.{job_lines, ban_lines};

use crate::write_line;
use fuxi_terms::OutOfMemory;
use fuxi_terms::limits::{MOST_JOBS, MOST_MACHINES};
use hard_state::Hard;
use schedule_text::Output;
use schedule_unit::{AppNo, MachineNo};

// The line of the job of a number, where there is one.
fn write_job(hard: &Hard, app: AppNo, out: &mut Vec<u8>) -> Result<(), OutOfMemory>
    ensures ok { OnOk result (Shows (job_lines hard.now.value.jobs app.0) out.old.items out.new.items) }
    ensures begins { Begins out.old.items out.new.items }
{
    match hard.job(app) {
        Some(job) => write_line(&Output::Job(app, job.group(), hard.ended(app)), out),
        None => Ok(()),
    }
}

// The lines of the jobs, in the order of their numbers.
fn write_jobs(hard: &Hard, out: &mut Vec<u8>) -> Result<(), OutOfMemory>
    ensures ok { OnOk result (Shows (show_jobs hard.now.value.jobs) out.old.items out.new.items) }
    ensures begins { Begins out.old.items out.new.items }
{
    // Asked for its clause: the number of each job is below the limit.
    let _jobs = hard.known().jobs();
    for number in 0..MOST_JOBS {
        match write_job(hard, AppNo(number), out) {
            Ok(()) => {}
            Err(refusal) => return Err(refusal),
        }
    }
    Ok(())
}

// The line of a machine, where it is banned.
fn write_ban(hard: &Hard, machine: MachineNo, out: &mut Vec<u8>) -> Result<(), OutOfMemory>
    ensures ok { OnOk result (Shows (ban_lines hard.now.value.bans machine.0) out.old.items out.new.items) }
    ensures begins { Begins out.old.items out.new.items }
{
    if hard.banned(machine) {
        return write_line(&Output::Banned(machine), out);
    }
    Ok(())
}

// The lines of the machines that are banned, in their order.
fn write_bans(hard: &Hard, out: &mut Vec<u8>) -> Result<(), OutOfMemory>
    ensures ok { OnOk result (Shows (map (λ m. Banned m) hard.now.value.bans) out.old.items out.new.items) }
    ensures begins { Begins out.old.items out.new.items }
{
    // Asked for its clauses: the numbers of the machines rise, and are below the limit.
    hard.known().bans_rise();
    for number in 0..MOST_MACHINES as u32 {
        match write_ban(hard, MachineNo(number), out) {
            Ok(()) => {}
            Err(refusal) => return Err(refusal),
        }
    }
    Ok(())
}

// The jobs, and then the bans.
#[tactic(auto, using(spec_refinement::proofs::ShowsLemmas::begins_then))]
fn write_lists(hard: &Hard, out: &mut Vec<u8>) -> Result<(), OutOfMemory>
    ensures ok { OnOk result (Shows (show_jobs hard.now.value.jobs ++ map (λ m. Banned m) hard.now.value.bans) out.old.items out.new.items) }
    ensures begins { Begins out.old.items out.new.items }
{
    match write_jobs(hard, out) {
        Ok(()) => {}
        Err(refusal) => return Err(refusal),
    }
    match write_bans(hard, out) {
        Ok(()) => Ok(()),
        Err(refusal) => Err(refusal),
    }
}

/// Appends the lines of a hard state: its fence, its jobs in the order of their numbers, and the machines that are banned. A refusal may
/// leave some of them behind what was there.
#[tactic(auto, using(spec_refinement::proofs::ShowsLemmas::begins_then))]
pub fn write_hard(hard: &Hard, out: &mut Vec<u8>) -> Result<(), OutOfMemory>
    ensures ok { OnOk result (Shows (hard_lines hard.now.value) out.old.items out.new.items) }
    ensures begins { Begins out.old.items out.new.items }
{
    match write_line(&Output::Fence(hard.fence()), out) {
        Ok(()) => {}
        Err(refusal) => return Err(refusal),
    }
    match write_lists(hard, out) {
        Ok(()) => Ok(()),
        Err(refusal) => Err(refusal),
    }
}
