ghost use Rattle.std.specs.Prelude.{◌≡◌, ◌++◌, ◌∷◌, length, IfOk, IfSome, OnOk, Some, ◌<◌, ◌^◌};
ghost use Rattle.std.specs.Int.{to_be_bytes, w32};
ghost use Rattle.hard_state.specs.RecordBodies.{body_of, record_in, record_of_kind, is_version, epoch_found, number_found, IsWithinLimits};

use crate::job::{read_job, write_job};
use fuxi_terms::OutOfMemory;
use fuxi_terms::limits::{MOST_JOBS, MOST_MACHINES};
use schedule_unit::{AppNo, Job, MachineNo};
use std::alloc::{AllocError, Global};

/// One change of the hard state, as a checkpoint has it.
#[derive(Debug, Drop)]
pub enum Record {
    /// The fence becomes this epoch.
    Fence(u64),
    /// The job is submitted.
    Submission(Job),
    /// The job of this number has ended.
    Finish(AppNo),
    /// The machine is banned.
    Ban(MachineNo),
    /// The machine is no longer banned.
    Unban(MachineNo),
}

/// Appends the body of a record: the byte of its version, 2 for a job and else 1, the byte of its kind, and then for a fence
/// the epoch (8 bytes, as all numbers with the greatest byte first); for a job its number (4), its group (4), the number of
/// its units (1), and of each unit the priority (1), eight quantities (8 each) and the greatest number of grants on one
/// machine (4); else the number of the job or machine (4).
///
/// After `OutOfMemory` nothing is said of what stands in `out`.
pub fn write_record(written: &Record, out: &mut Vec<u8>) -> Result<(), OutOfMemory>
    ensures { OnOk result (out.new.items ≡ out.old.items ++ body_of written.now) }
{
    match written {
        Record::Fence(epoch) => {
            out.extend_from_slice(&[1, 1])?;
            out.extend_from_slice(&epoch.to_be_bytes())?;
        }
        Record::Submission(job) => {
            out.extend_from_slice(&[2, 2])?;
            write_job(job, out)?;
        }
        Record::Finish(app) => write_number(3, app.0, out)?,
        Record::Ban(machine) => write_number(4, machine.0, out)?,
        Record::Unban(machine) => write_number(5, machine.0, out)?,
    }
    Ok(())
}

// The byte 1, a kind and a number.
fn write_number(kind: u8, number: u32, out: &mut Vec<u8>) -> Result<(), OutOfMemory>
    ensures { OnOk result (out.new.items ≡ out.old.items ++ 1 ∷ kind ∷ to_be_bytes w32 number) }
{
    out.extend_from_slice(&[1, kind])?;
    out.extend_from_slice(&number.to_be_bytes())?;
    Ok(())
}

// An epoch of eight bytes.
fn read_epoch(bytes: &[u8]) -> Option<u64>
    ensures found { result ≡ epoch_found bytes.now }
    ensures fits { IfSome result (λ epoch. epoch < 2 ^ 64) }
{
    let [a, b, c, d, e, f, g, h] = bytes else {
        return None;
    };
    Some(u64::from_be_bytes([*a, *b, *c, *d, *e, *f, *g, *h]))
}

// A number of four bytes that is below this.
fn read_number(most: u32, bytes: &[u8]) -> Option<u32>
    ensures found { result ≡ number_found most bytes.now }
    ensures below { IfSome result (λ number. number < most) }
{
    let [a, b, c, d] = bytes else {
        return None;
    };
    let number = u32::from_be_bytes([*a, *b, *c, *d]);
    if number < most { Some(number) } else { None }
}

// A job has two versions, and each other record one.
fn is_version(version: u8, kind: u8) -> bool
    ensures { result ≡ is_version version kind }
{
    version == 1 || (version == 2 && kind == 2)
}

/// The record of this body, or `None` where it is the body of none: where its version, its kind or its length is another, or
/// one of its numbers is out of the limits. A job is read in version 1 too, where the units have no greatest number of grants
/// on one machine: that is then the greatest there is, 100,000.
#[tactic(auto, unfolding(crate::specs::RecordBodies::record_in))]
pub fn read_record(alloc: Global, body: &[u8]) -> Result<Option<Record>, OutOfMemory>
    ensures found { IfOk result (λ found. found ≡ record_in body.now) }
    ensures within { IfOk result (λ found. IfSome found IsWithinLimits) }
{
    let [version, kind, bytes @ ..] = body else {
        return Ok(None);
    };
    if !is_version(*version, *kind) {
        return Ok(None);
    }
    read_kind(alloc, *version, *kind, bytes)
}

// The record of this version and kind.
fn read_kind(
    alloc: Global,
    version: u8,
    kind: u8,
    bytes: &[u8],
) -> Result<Option<Record>, OutOfMemory>
    ensures found { IfOk result (λ found. found ≡ record_of_kind version kind bytes.now) }
    ensures within { IfOk result (λ found. IfSome found IsWithinLimits) }
{
    if kind == 1 {
        return match read_epoch(bytes) {
            Some(epoch) => Ok(Some(Record::Fence(epoch))),
            None => Ok(None),
        };
    }
    if kind == 2 {
        return match read_job(alloc, version, bytes)? {
            Some(job) => Ok(Some(Record::Submission(job))),
            None => Ok(None),
        };
    }
    if kind == 3 {
        return match read_number(MOST_JOBS, bytes) {
            Some(number) => Ok(Some(Record::Finish(AppNo(number)))),
            None => Ok(None),
        };
    }
    if kind == 4 {
        return match read_number(MOST_MACHINES as u32, bytes) {
            Some(number) => Ok(Some(Record::Ban(MachineNo(number)))),
            None => Ok(None),
        };
    }
    if kind == 5 {
        return match read_number(MOST_MACHINES as u32, bytes) {
            Some(number) => Ok(Some(Record::Unban(MachineNo(number)))),
            None => Ok(None),
        };
    }
    Ok(None)
}
