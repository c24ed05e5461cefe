//! A checkpoint, printed.

use fuxi_terms::limits::GREATEST_COUNT;
use golden_lines::Piece::{Number, Text};
use golden_lines::{Stop, say, say_line};
use hard_state::{Hard, HardFault};
use schedule_unit::{AppNo, Job, MachineNo, Unit, UnitNo};
use std::alloc::Global;

pub fn tell_fault(rt: &HostRuntime, fault: HardFault) -> Result<(), Stop> {
    println!(rt; "{fault:?}: {fault}")?;
    Ok(())
}

pub fn tell_bytes(rt: &HostRuntime, alloc: Global, bytes: &[u8]) -> Result<(), Stop> {
    say_line(rt, &[Text(&hex::encode(alloc, bytes)?)])
}

// Its greatest number per machine only where that is not the greatest there is.
fn tell_unit(rt: &HostRuntime, unit: &Unit) -> Result<(), Stop> {
    say(rt, &[Text(" / "), Number(unit.priority as u64)])?;
    for quantity in unit.size.q {
        say(rt, &[Text(" "), Number(quantity as u64)])?;
    }
    if unit.most as u64 != GREATEST_COUNT {
        say(rt, &[Text(" most "), Number(unit.most as u64)])?;
    }
    Ok(())
}

fn tell_job(rt: &HostRuntime, mark: &str, job: &Job) -> Result<(), Stop> {
    say(
        rt,
        &[
            Text("  job "),
            Number(job.app().0 as u64),
            Text(" "),
            Number(job.group().0 as u64),
            Text(" "),
            Text(mark),
        ],
    )?;
    for unit in 0..job.units() {
        tell_unit(rt, job.unit(UnitNo(unit)))?;
    }
    say_line(rt, &[])
}

fn tell_bans(rt: &HostRuntime, hard: &Hard) -> Result<(), Stop> {
    for machine in 0..256 {
        if hard.banned(MachineNo(machine)) {
            say(rt, &[Text(" "), Number(machine as u64)])?;
        }
    }
    say_line(rt, &[])
}

fn tell_jobs(rt: &HostRuntime, hard: &Hard) -> Result<(), Stop> {
    for app in 0..256 {
        if let Some(job) = hard.job(AppNo(app)) {
            let mark = if hard.ended(AppNo(app)) {
                "ended"
            } else {
                "live"
            };
            tell_job(rt, mark, job)?;
        }
    }
    Ok(())
}

/// The fence and the records, the bans and the jobs.
pub fn tell(rt: &HostRuntime, hard: &Hard) -> Result<(), Stop> {
    say(
        rt,
        &[
            Text("fence "),
            Number(hard.fence()),
            Text(", records "),
            Number(hard.records() as u64),
            Text(", bans"),
        ],
    )?;
    tell_bans(rt, hard)?;
    tell_jobs(rt, hard)
}
