//! Clusters and jobs that are drawn.

ghost use Rattle.std.specs.Prelude.{◌<◌, ◌≤◌};

use crate::trees::draw::Draw;
use cluster_desc::{Cluster, read_cluster};
use fuxi_terms::limits::GREATEST_COUNT;
use golden_lines::Stop;
use schedule_unit::{AppNo, Ask, Asks, GroupNo, Job, Quantities, write_number};
use std::alloc::Global;

// Appends quantities of so many resources to the line of a cluster, each some hundreds.
fn put_quantities(
    line: &mut Vec<u8>,
    draw: &mut Draw,
    resources: u32,
    hundreds: u32,
) -> Result<(), Stop>
    requires { 0 < hundreds }
{
    line.push(b'[')?;
    for resource in 0..resources {
        if resource > 0 {
            line.push(b',')?;
        }
        write_number(100 + 100 * u64::from(draw.below(hundreds)), line)?;
    }
    line.push(b']')?;
    Ok(())
}

// Appends so many machines to the line of a cluster, each in one of three racks.
fn put_machines(
    line: &mut Vec<u8>,
    draw: &mut Draw,
    resources: u32,
    machines: u32,
) -> Result<(), Stop> {
    for machine in 0..machines {
        if machine > 0 {
            line.push(b',')?;
        }
        line.extend_from_slice(br#"{"rack":"#)?;
        write_number(u64::from(draw.below(3)), line)?;
        line.extend_from_slice(br#","has":"#)?;
        put_quantities(line, draw, resources, 8)?;
        line.push(b'}')?;
    }
    Ok(())
}

// Appends two groups to the line of a cluster, of which nothing is promised.
fn put_groups(line: &mut Vec<u8>, draw: &mut Draw, resources: u32) -> Result<(), Stop> {
    let none: &[u8] = if resources == 1 { b"[0]" } else { b"[0,0]" };
    for group in 0..2_u32 {
        if group > 0 {
            line.push(b',')?;
        }
        line.extend_from_slice(br#"{"quota":"#)?;
        line.extend_from_slice(none)?;
        line.extend_from_slice(br#","limit":"#)?;
        put_quantities(line, draw, resources, 30)?;
        line.push(b'}')?;
    }
    Ok(())
}

/// A cluster of one or two resources, two to nine machines and two groups.
pub fn draw_cluster(
    alloc: Global,
    draw: &mut Draw,
    resources: u32,
) -> Result<Option<Cluster>, Stop> {
    let machines = 2 + draw.below(8);
    let mut line = Vec::new(alloc);
    line.extend_from_slice(br#"{"resources":"#)?;
    write_number(u64::from(resources), &mut line)?;
    line.extend_from_slice(br#","machines":["#)?;
    put_machines(&mut line, draw, resources, machines)?;
    line.extend_from_slice(br#"],"groups":["#)?;
    put_groups(&mut line, draw, resources)?;
    line.extend_from_slice(b"]}")?;
    match read_cluster(alloc, &line) {
        Ok(cluster) => Ok(Some(cluster)),
        Err(_) => Ok(None),
    }
}

// One to four units of so many resources: few priorities, so that many are the same, and now and then a bound on each machine.
fn draw_units(alloc: Global, draw: &mut Draw, resources: u8) -> Result<Asks, Stop> {
    let mut asks = Asks::new(alloc);
    for _ in 0..1 + draw.below(4) {
        let mut quantities = Quantities::new(alloc);
        quantities.push(50 + 50 * u64::from(draw.below(4)))?;
        if resources > 1 {
            quantities.push(50 * u64::from(draw.below(4)))?;
        }
        let priority = 4 + u64::from(draw.below(3));
        let most = match draw.below(3) {
            0 => 1 + u64::from(draw.below(3)),
            _ => GREATEST_COUNT,
        };
        asks.push(Ask {
            priority,
            quantities,
            most,
        })?;
    }
    Ok(asks)
}

/// One to six jobs in a cluster of one or two resources.
pub fn draw_jobs(alloc: Global, draw: &mut Draw, resources: u8) -> Result<Vec<Job>, Stop>
    requires some { 0 < resources }
    requires few { resources ≤ 8 }
{
    let mut jobs = Vec::new(alloc);
    for number in 0..1 + draw.below(6) {
        let units = draw_units(alloc, draw, resources)?;
        let group = GroupNo(draw.below(2));
        match Job::make(alloc, AppNo(number), group, resources, units.as_slice()) {
            Ok(job) => jobs.push(job)?,
            Err(_) => return Err(Stop::OutOfMemory),
        }
    }
    Ok(jobs)
}
