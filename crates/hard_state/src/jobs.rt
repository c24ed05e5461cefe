// Jobs in the order of their submission, with the place of each by its number.
ghost use Rattle.std.specs.Prelude.{◌≡◌, ◌≤◌, ◌<◌, length, map, get_or, true, false, Some, None, IfOk, IfSome, IsNone, vec_capacity};
ghost use Rattle.fuxi_terms.specs.Cluster.{is_valid_job};
ghost use Rattle.fuxi_terms.specs.Jobs.{job_of, is_known};
ghost use Rattle.spec_roles.specs.HardState.{with_job, with_ended};
ghost use Rattle.hard_state.specs.HardFiles.{known_job};
ghost use Rattle.hard_state.specs.Index.{IsIndex};

use fuxi_terms::OutOfMemory;
use schedule_unit::Job;
use std::alloc::Global;

// A job with the mark whether it has ended.
#[derive(Drop)]
pub struct Entry {
    pub job: Job,
    pub ended: bool,
}

fn place_of(places: &[u16], number: u32) -> u16
    ensures place { result ≡ get_or places.now number 0 }
    ensures below { 0 < result → number < length places.now }
{
    match places.get(number as usize) {
        Some(place) => *place,
        None => 0,
    }
}

pub fn find<'a>(jobs: &'a [Entry], places: &[u16], number: u32) -> Option<&'a Entry>
    requires index { IsIndex places.now (map known_job jobs.now) }
    ensures some { IfSome result (λ entry. job_of (map known_job jobs.now) number ≡ Some (known_job entry.now)) }
    ensures none { IsNone result → job_of (map known_job jobs.now) number ≡ None }
    ensures below { IfSome result (λ entry. number < 256) }
{
    let place = place_of(places, number) as usize;
    if place == 0 {
        return None;
    }
    Some(&jobs[place - 1])
}

// One job more, of a number that no other has. There is room for all numbers, so it takes no memory.
pub fn add(jobs: &mut Vec<Entry>, places: &mut Vec<u16>, job: Job)
    requires index { IsIndex places.old.items (map known_job jobs.old.items) }
    requires room { 256 ≤ vec_capacity jobs.old }
    requires valid { is_valid_job 8 job ≡ true }
    requires unknown { is_known (map known_job jobs.old.items) job.number ≡ false }
    ensures jobs { map known_job jobs.new.items ≡ with_job job (map known_job jobs.old.items) }
    ensures index { IsIndex places.new.items (map known_job jobs.new.items) }
    ensures room { 256 ≤ vec_capacity jobs.new }
{
    let number = job.app().0 as usize;
    match jobs.push(Entry { job, ended: false }) {
        Ok(()) => {}
        Err(_) => unreachable!(),
    }
    places[number] = jobs.len() as u16;
}

// The job of this number has ended.
pub fn end(jobs: &mut [Entry], places: &[u16], number: u32)
    requires index { IsIndex places.now (map known_job jobs.old) }
    requires known { is_known (map known_job jobs.old) number ≡ true }
    ensures jobs { map known_job jobs.new ≡ with_ended number (map known_job jobs.old) }
    ensures index { IsIndex places.now (map known_job jobs.new) }
{
    let place = place_of(places, number) as usize;
    if place == 0 {
        return;
    }
    jobs[place - 1].ended = true;
}

// The same jobs once more, with room for all that there can be.
pub fn copies(alloc: Global, jobs: &[Entry]) -> Result<Vec<Entry>, OutOfMemory>
    ensures same { IfOk result (λ copies. map known_job copies.items ≡ map known_job jobs.now) }
    ensures room { IfOk result (λ copies. 256 ≤ vec_capacity copies) }
{
    let mut copies = Vec::with_capacity(alloc, 256)?;
    for entry in jobs {
        copies.push(Entry {
            job: entry.job.copy(alloc)?,
            ended: entry.ended,
        })?;
    }
    Ok(copies)
}
