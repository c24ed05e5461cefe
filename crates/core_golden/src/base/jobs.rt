ghost use Rattle.std.specs.Prelude.{◌≤◌};

use golden_lines::Piece::{Number, Text};
use golden_lines::{Stop, asks_of, head_of, numbers_of, say, say_line, text_of};
use schedule_unit::{AppNo, GroupNo, Job, JobFault, UnitNo, read_number, write_number};
use std::alloc::Global;

/// Prints the number that a word is.
pub fn number(rt: &HostRuntime, word: &str) -> Result<(), Stop> {
    match read_number(word.as_bytes()) {
        Some(number) => say_line(rt, &[Number(number)])?,
        None => say_line(rt, &[Text("none")])?,
    }
    Ok(())
}

/// Prints numbers as they are written, one behind the other.
pub fn decimal(rt: &HostRuntime, alloc: Global, rest: &str) -> Result<(), Stop> {
    let mut out = Vec::new(alloc);
    for number in numbers_of(alloc, rest)? {
        write_number(number, &mut out)?;
        out.push(b' ')?;
    }
    say_line(rt, &[Text(&text_of(alloc, &out)?)])
}

fn tell(rt: &HostRuntime, job: &Job) -> Result<(), Stop> {
    say(
        rt,
        &[
            Text("job "),
            Number(job.app().0 as u64),
            Text(" of group "),
            Number(job.group().0 as u64),
        ],
    )?;
    for number in 0..job.units() {
        let unit = job.unit(UnitNo(number));
        print!(rt;
            ", priority {} size {:?} most {}",
            unit.priority, unit.size.q, unit.most
        )?;
    }
    say_line(rt, &[])?;
    Ok(())
}

// Prints a copy.
fn tell_copy(rt: &HostRuntime, alloc: Global, job: &Job) -> Result<(), Stop> {
    let copy = job.copy(alloc)?;
    tell(rt, &copy)
}

// Job 255 of group 31 in a cluster of so many resources.
fn made(alloc: Global, resources: u8, units: &str) -> Result<Job, JobFault>
    requires least { 1 ≤ resources }
    requires most { resources ≤ 8 }
{
    match asks_of(alloc, units) {
        Ok(asks) => Job::make(alloc, AppNo(255), GroupNo(31), resources, asks.as_slice()),
        Err(_) => Err(JobFault::OutOfMemory),
    }
}

/// Prints a job in a cluster of so many resources, with the units that `/` parts.
pub fn job(rt: &HostRuntime, alloc: Global, rest: &str) -> Result<(), Stop> {
    let (resources, units) = head_of(rest);
    let resources = match resources.parse::<u8>() {
        Ok(resources) if 1 <= resources && resources <= 8 => resources,
        _ => return say_line(rt, &[Text("no number of resources")]),
    };
    match made(alloc, resources, units) {
        Ok(job) => tell_copy(rt, alloc, &job),
        Err(fault) => Ok(println!(rt; "{fault:?}: {fault}")?),
    }
}
