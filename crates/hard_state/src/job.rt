ghost use Rattle.std.specs.Prelude.{◌≡◌, ◌++◌, ◌*◌, ◌≤◌, length, map, IfOk, IfSome, OnOk, true};
ghost use Rattle.std.specs.Int.{to_be_bytes, w64};
ghost use Rattle.std.specs.List.{flat_map};
ghost use Rattle.fuxi_terms.specs.Cluster.{is_valid_job};
ghost use Rattle.schedule_unit.specs.Units.{unit_record};
ghost use Rattle.hard_state.specs.RecordBodies.{job_bytes, unit_bytes, quantities_in, unit_size, most_in, unit_in, units_in, job_found};
ghost use Rattle.hard_state.specs.UnitRecords.{unit_of};

use fuxi_terms::OutOfMemory;
use fuxi_terms::limits::{GREATEST_COUNT, MOST_GROUPS, MOST_JOBS};
use schedule_unit::{AppNo, Ask, Asks, GroupNo, Job, JobFault, Quantities, Unit, UnitNo};
use std::alloc::Global;

// The number, the group, the number of units, and the units.
pub fn write_job(job: &Job, out: &mut Vec<u8>) -> Result<(), OutOfMemory>
    ensures { OnOk result (out.new.items ≡ out.old.items ++ job_bytes job.now) }
{
    out.extend_from_slice(&job.app().0.to_be_bytes())?;
    out.extend_from_slice(&job.group().0.to_be_bytes())?;
    out.push(job.units())?;
    write_units(job, out)
}

fn write_units(job: &Job, out: &mut Vec<u8>) -> Result<(), OutOfMemory>
    ensures { OnOk result (out.new.items ≡ out.old.items ++ flat_map unit_bytes job.now.units) }
{
    for number in 0..job.units() {
        write_unit(job.unit(UnitNo(number)), out)?;
    }
    Ok(())
}

fn write_unit(unit: &Unit, out: &mut Vec<u8>) -> Result<(), OutOfMemory>
    ensures { OnOk result (out.new.items ≡ out.old.items ++ unit_bytes (unit_record unit.now)) }
{
    out.push(unit.priority)?;
    write_size(&unit.size.q, out)?;
    out.extend_from_slice(&unit.most.to_be_bytes())?;
    Ok(())
}

fn write_size(size: &[u64; 8], out: &mut Vec<u8>) -> Result<(), OutOfMemory>
    ensures { OnOk result (out.new.items ≡ out.old.items ++ flat_map (to_be_bytes w64) size.now) }
{
    for quantity in size {
        out.extend_from_slice(&quantity.to_be_bytes())?;
    }
    Ok(())
}

// Numbers of eight bytes; fewer than eight at the end are left out.
fn read_quantities(alloc: Global, bytes: &[u8]) -> Result<Quantities, OutOfMemory>
    ensures { IfOk result (λ quantities. quantities ≡ quantities_in bytes.now) }
{
    let mut quantities = Quantities::new(alloc);
    let mut rest = bytes;
    while let [a, b, c, d, e, f, g, h, behind @ ..] = rest {
        quantities.push(u64::from_be_bytes([*a, *b, *c, *d, *e, *f, *g, *h]))?;
        rest = behind;
    }
    Ok(quantities)
}

// The bytes of a unit.
fn unit_size(version: u8) -> usize
    ensures { result ≡ unit_size version }
{
    if version == 1 { 65 } else { 69 }
}

// The greatest number per machine of the unit that these bytes begin with.
fn read_most(version: u8, bytes: &[u8]) -> u64
    requires { unit_size version ≤ length bytes.now }
    ensures { result ≡ most_in version bytes.now }
{
    if version == 1 {
        return GREATEST_COUNT;
    }
    u32::from_be_bytes([bytes[65], bytes[66], bytes[67], bytes[68]]) as u64
}

// The unit that these bytes begin with.
fn read_unit(alloc: Global, version: u8, bytes: &[u8]) -> Result<Ask, OutOfMemory>
    requires { unit_size version ≤ length bytes.now }
    ensures { IfOk result (λ ask. unit_of ask ≡ unit_in version bytes.now) }
{
    let quantities = read_quantities(alloc, &bytes[1..65])?;
    Ok(Ask {
        priority: bytes[0] as u64,
        quantities,
        most: read_most(version, bytes),
    })
}

fn read_units(alloc: Global, version: u8, units: usize, bytes: &[u8]) -> Result<Asks, OutOfMemory>
    requires { length bytes.now ≡ unit_size version * units }
    ensures { IfOk result (λ asks. map unit_of asks ≡ units_in version units bytes.now) }
{
    let mut asks = Asks::new(alloc);
    let mut rest = bytes;
    for number in 0..units {
        asks.push(read_unit(alloc, version, rest)?)?;
        rest = &rest[unit_size(version)..];
    }
    Ok(asks)
}

// The job of these bytes in a record of this version, where they are exactly one.
pub fn read_job(alloc: Global, version: u8, bytes: &[u8]) -> Result<Option<Job>, OutOfMemory>
    ensures found { IfOk result (λ found. found ≡ job_found version bytes.now) }
    ensures valid { IfOk result (λ found. IfSome found (λ job. is_valid_job 8 job ≡ true)) }
{
    if bytes.len() < 9 {
        return Ok(None);
    }
    let units = bytes[8] as usize;
    if bytes.len() != 9 + unit_size(version) * units {
        return Ok(None);
    }
    let number = u32::from_be_bytes([bytes[0], bytes[1], bytes[2], bytes[3]]);
    let group = u32::from_be_bytes([bytes[4], bytes[5], bytes[6], bytes[7]]);
    if number >= MOST_JOBS || group >= MOST_GROUPS as u32 {
        return Ok(None);
    }
    let asks = match read_units(alloc, version, units, &bytes[9..]) {
        Ok(asks) => asks,
        Err(OutOfMemory) => return Err(OutOfMemory),
    };
    match Job::make(alloc, AppNo(number), GroupNo(group), 8, asks.as_slice()) {
        Ok(job) => Ok(Some(job)),
        Err(fault) => {
            if fault == JobFault::OutOfMemory {
                return Err(OutOfMemory);
            }
            Ok(None)
        }
    }
}
