ghost use Rattle.std.specs.Prelude.{◌≡◌, ℕ, ◌+◌, ◌^◌, ◌<◌, ◌≤◌, ◌↔◌, List, [], length, take, drop, max, IfOk, OnOk, OnErr, IsErr, Some, if◌then◌else◌, reverse, vec_len, vec_capacity};
ghost use Rattle.fuxi_io.specs.Causes.{HasCause};
ghost use Rattle.fuxi_io.specs.Disks.{IsImage, Writes, Syncs, first_told, then_told, after_write};
ghost use Rattle.fuxi_io.specs.MemoryDisks.{AccessFails, ChangeFails, unserved, accessed, disk_written, disk_synced, told_of, moment_of, one_fewer, synced_of, before_write};

use crate::disk::Disk;
use crate::outside::Failed;
use fuxi_terms::OutOfMemory;
use std::alloc::{AllocError, Global};
use std::marker::Model;

// What was done to a disk: a write of `len` bytes from the place `at` on, which covered `count` bytes; or a sync.
#[derive(Clone, Copy, Debug, Drop, PartialEq, Eq)]
pub enum Logged {
    Write { at: usize, len: usize, count: usize },
    Sync,
}

/// A disk over memory that tells its moments. The calls whose numbers stand in its list fail, and so do the
/// writes and syncs that lack room; calls count from 1. A call that fails changes nothing and uses no room.
#[derive(Drop)]
pub struct MemDisk {
    bytes: Vec<u8>,
    // what the writes covered, and the writes and syncs themselves, the oldest first
    covered: Vec<u8>,
    log: Vec<Logged>,
    room: usize,
    fails: Vec<u64>,
    calls: u64,
    faults: u64,
    served: Option<u64>,
}

impl Model for MemDisk {
    ghost use Rattle.std.specs.Prelude.{◌+◌, ◌≤◌, reverse, vec_len, vec_capacity};
    ghost use Rattle.fuxi_io.specs.Disks.{IsImage};
    ghost use Rattle.fuxi_io.specs.MemoryDisks.{DiskStore, moment_of, told_of};

    ghost Value = { DiskStore };

    ghost view = { λ d. record { told = told_of d.bytes.items d.covered.items (reverse d.log.items); room = d.room; fails = d.fails.items; calls = d.calls; faults = d.faults; served = d.served } };

    // There is room for what may be written, and a crash may leave what a read gives.
    ghost invariant = { λ d. (vec_len d.bytes + d.room ≤ vec_capacity d.bytes) × (vec_len d.covered + d.room ≤ vec_capacity d.covered) × (vec_len d.log + d.room ≤ vec_capacity d.log)
        × IsImage (moment_of d.bytes.items d.covered.items (reverse d.log.items)) d.bytes.items };
}

impl MemDisk {
    /// A disk of these bytes, on which nothing is pending, and which has no room. It takes no memory.
    pub fn of(alloc: Global, bytes: Vec<u8>, fails: Vec<u64>) -> MemDisk
        ensures { result ≡ record { told = first_told bytes.items; room = 0; fails = fails.items; calls = 0; faults = 0; served = None } }
    {
        MemDisk {
            bytes,
            covered: Vec::new(alloc),
            log: Vec::new(alloc),
            room: 0,
            fails,
            calls: 0,
            faults: 0,
            served: None,
        }
    }

    /// What a read gives. It takes no memory.
    pub fn bytes(&self) -> &[u8]
        ensures { result.now ≡ self.now.told.now.bytes }
    {
        &self.bytes
    }

    /// Adds so much room, in bytes. A write uses room for its bytes and one more, and a sync uses one.
    /// After `OutOfMemory` all is as it was.
    pub fn room(&mut self, bytes: usize) -> Result<(), OutOfMemory>
        ensures ok { OnOk result (self.new ≡ record self.old { room = self.old.room + bytes }) }
        ensures err { OnErr result (self.new ≡ self.old) }
    {
        let Some(room) = self.room.checked_add(bytes) else {
            return Err(OutOfMemory);
        };
        if self.bytes.reserve(room).is_err()
            || self.covered.reserve(room).is_err()
            || self.log.reserve(room).is_err()
        {
            return Err(OutOfMemory);
        }
        self.room = room;
        Ok(())
    }

    /// From now on so many writes and syncs are served, and each further one fails.
    pub fn stop_after(&mut self, calls: u64)
        ensures { self.new ≡ record self.old { served = Some calls } }
    {
        self.served = Some(calls);
    }

    /// A disk with one of the files that a crash may leave, on which nothing is pending, and which has no
    /// faults and no room. Where `all` is true its bytes are what a read gives, else the file after the last
    /// sync, or as it was made.
    pub fn image(&self, alloc: Global, all: bool) -> Result<MemDisk, OutOfMemory>
        ensures fresh { IfOk result (λ disk. disk ≡ record { told = first_told (if all then self.now.told.now.bytes else self.now.told.now.synced); room = 0; fails = []; calls = 0; faults = 0; served = None }) }
        ensures image { IfOk result (λ disk. IsImage self.now.told.now disk.told.now.bytes) }
    {
        let file = if all {
            self.bytes.to_vec(alloc)
        } else {
            last_synced(alloc, &self.bytes, &self.covered, &self.log)
        };
        match file {
            Ok(bytes) => Ok(MemDisk::of(alloc, bytes, Vec::new(alloc))),
            Err(_) => Err(OutOfMemory),
        }
    }

    // Counts a call, which fails where its number stands in the list.
    fn call(&mut self) -> Result<(), Failed>
        ensures fails { IsErr result ↔ AccessFails self.old }
        ensures failed { OnErr result (self.new ≡ unserved self.old) }
        ensures accessed { OnOk result (self.new ≡ accessed self.old) }
        ensures cause { HasCause self.old.faults self.new.faults result }
    {
        self.calls = self.calls.saturating_add(1);
        if self.fails.contains(&self.calls) {
            self.faults = self.faults.saturating_add(1);
            return Err(Failed);
        }
        Ok(())
    }
}

// One call fewer is served, where that is limited.
fn fewer(served: Option<u64>) -> Option<u64>
    ensures { result ≡ one_fewer served }
{
    match served {
        Some(calls) => Some(calls.saturating_sub(1)),
        None => None,
    }
}

// The file after the last sync of the log, or before all of it. It undoes the writes, the newest first.
fn last_synced(
    alloc: Global,
    bytes: &[u8],
    covered: &[u8],
    log: &[Logged],
) -> Result<Vec<u8>, AllocError>
    ensures { IfOk result (λ file. file.items ≡ synced_of bytes.now covered.now (reverse log.now)) }
{
    let mut file = bytes.to_vec(alloc)?;
    let mut left = covered;
    let mut done = log;
    while let [before @ .., Logged::Write { at, len, count }] = done {
        let seam = left.len().saturating_sub(*count);
        file = undo(alloc, &file, *at, *len, &left[seam..])?;
        left = &left[..seam];
        done = before;
    }
    Ok(file)
}

// The file before a write, which covered these bytes.
fn undo(
    alloc: Global,
    file: &[u8],
    at: usize,
    len: usize,
    covered: &[u8],
) -> Result<Vec<u8>, AllocError>
    ensures { IfOk result (λ old. old.items ≡ before_write file.now at len covered.now) }
{
    let mut old = file[..at.min(file.len())].to_vec(alloc)?;
    old.extend_from_slice(covered)?;
    old.extend_from_slice(&file[at.saturating_add(len).min(file.len())..])?;
    Ok(old)
}

// Fills the buffer with the bytes from a place on.
fn copy_from(bytes: &[u8], at: usize, buf: &mut [u8])
    requires { at + length buf.old ≤ length bytes.now }
    ensures { buf.new ≡ take (length buf.old) (drop at bytes.now) }
{
    buf.copy_from_slice(&bytes[at..at + buf.len()]);
}

// Writes over the file, and logs the write with what it covers. There has to be room for all of it.
fn put(bytes: &mut Vec<u8>, covered: &mut Vec<u8>, log: &mut Vec<Logged>, at: usize, new: &[u8])
    requires begin { at ≤ length bytes.old.items }
    requires room { vec_len bytes.old + length new.now ≤ vec_capacity bytes.old }
    requires room_covered { vec_len covered.old + length new.now ≤ vec_capacity covered.old }
    requires room_log { vec_len log.old + 1 ≤ vec_capacity log.old }
    ensures told { told_of bytes.new.items covered.new.items (reverse log.new.items)
        ≡ then_told (told_of bytes.old.items covered.old.items (reverse log.old.items)) (after_write at new.now (moment_of bytes.old.items covered.old.items (reverse log.old.items))) }
    ensures size { length bytes.new.items ≡ max (length bytes.old.items) (at + length new.now) }
    ensures longer { vec_len bytes.new ≤ vec_len bytes.old + length new.now }
    ensures longer_covered { vec_len covered.new ≤ vec_len covered.old + length new.now }
    ensures longer_log { vec_len log.new ≤ vec_len log.old + 1 }
    ensures capacity { vec_capacity bytes.old ≤ vec_capacity bytes.new }
    ensures capacity_covered { vec_capacity covered.old ≤ vec_capacity covered.new }
    ensures capacity_log { vec_capacity log.old ≤ vec_capacity log.new }
{
    let count = new.len().min(bytes.len() - at);
    match covered.extend_from_slice(&bytes[at..at + count]) {
        Ok(()) => {}
        Err(_) => unreachable!(),
    }
    bytes[at..at + count].copy_from_slice(&new[..count]);
    match bytes.extend_from_slice(&new[count..]) {
        Ok(()) => {}
        Err(_) => unreachable!(),
    }
    let write = Logged::Write {
        at,
        len: new.len(),
        count,
    };
    match log.push(write) {
        Ok(()) => {}
        Err(_) => unreachable!(),
    }
}

// The same, where a crash may leave what a read gives before it: so it may afterwards.
fn put_imaged(
    bytes: &mut Vec<u8>,
    covered: &mut Vec<u8>,
    log: &mut Vec<Logged>,
    at: usize,
    new: &[u8],
)
    requires begin { at ≤ length bytes.old.items }
    requires image { IsImage (moment_of bytes.old.items covered.old.items (reverse log.old.items)) bytes.old.items }
    requires room { vec_len bytes.old + length new.now ≤ vec_capacity bytes.old }
    requires room_covered { vec_len covered.old + length new.now ≤ vec_capacity covered.old }
    requires room_log { vec_len log.old + 1 ≤ vec_capacity log.old }
    ensures told { told_of bytes.new.items covered.new.items (reverse log.new.items)
        ≡ then_told (told_of bytes.old.items covered.old.items (reverse log.old.items)) (after_write at new.now (moment_of bytes.old.items covered.old.items (reverse log.old.items))) }
    ensures image { IsImage (moment_of bytes.new.items covered.new.items (reverse log.new.items)) bytes.new.items }
    ensures size { length bytes.new.items ≡ max (length bytes.old.items) (at + length new.now) }
    ensures longer { vec_len bytes.new ≤ vec_len bytes.old + length new.now }
    ensures longer_covered { vec_len covered.new ≤ vec_len covered.old + length new.now }
    ensures longer_log { vec_len log.new ≤ vec_len log.old + 1 }
    ensures capacity { vec_capacity bytes.old ≤ vec_capacity bytes.new }
    ensures capacity_covered { vec_capacity covered.old ≤ vec_capacity covered.new }
    ensures capacity_log { vec_capacity log.old ≤ vec_capacity log.new }
{
    put(bytes, covered, log, at, new);
}

impl Disk for MemDisk {
    ghost use Rattle.std.specs.Prelude.{Some, length, refl};

    ghost size = { λ d. length d.told.now.bytes };

    ghost told = { λ d. Some d.told };

    ghost faults = { λ d. d.faults };

    ghost measured = { λ d. refl };

    fn len(&mut self) -> Result<u64, Failed>
        ensures size { IfOk result (λ n. n ≡ length self.new.told.now.bytes) }
        ensures told { Some self.new.told ≡ Some self.old.told }
        ensures cause { HasCause self.old.faults self.new.faults result }
        ensures served { OnOk result (self.new.faults ≡ self.old.faults) }
        ensures fails { IsErr result ↔ AccessFails self.old }
        ensures failed { OnErr result (self.new ≡ unserved self.old) }
        ensures accessed { OnOk result (self.new ≡ accessed self.old) }
    {
        match self.call() {
            Ok(()) => Ok(self.bytes.len() as u64),
            Err(Failed) => Err(Failed),
        }
    }

    fn read_at(&mut self, at: u64, buf: &mut [u8]) -> Result<(), Failed>
        requires within { at + length buf.old ≤ length self.old.told.now.bytes }
        ensures bytes { OnOk result (buf.new ≡ take (length buf.old) (drop at self.old.told.now.bytes)) }
        ensures size { length self.new.told.now.bytes ≡ length self.old.told.now.bytes }
        ensures told { Some self.new.told ≡ Some self.old.told }
        ensures cause { HasCause self.old.faults self.new.faults result }
        ensures served { OnOk result (self.new.faults ≡ self.old.faults) }
        ensures fails { IsErr result ↔ AccessFails self.old }
        ensures failed { OnErr result (self.new ≡ unserved self.old) }
        ensures accessed { OnOk result (self.new ≡ accessed self.old) }
    {
        match self.call() {
            Ok(()) => {}
            Err(Failed) => return Err(Failed),
        }
        copy_from(&self.bytes, at as usize, buf);
        Ok(())
    }

    fn write_at(&mut self, at: u64, bytes: &[u8]) -> Result<(), Failed>
        requires begin { at ≤ length self.old.told.now.bytes }
        requires end { at + length bytes.now < 2 ^ 63 }
        ensures size { OnOk result (length self.new.told.now.bytes ≡ max (length self.old.told.now.bytes) (at + length bytes.now)) }
        ensures told { Writes at bytes.now result self.old.told self.new.told }
        ensures cause { HasCause self.old.faults self.new.faults result }
        ensures served { OnOk result (self.new.faults ≡ self.old.faults) }
        ensures fails { IsErr result ↔ ChangeFails self.old (length bytes.now + 1) }
        ensures failed { OnErr result (self.new ≡ unserved self.old) }
        ensures written { OnOk result (self.new ≡ disk_written self.old at bytes.now) }
    {
        match self.call() {
            Ok(()) => {}
            Err(Failed) => return Err(Failed),
        }
        if self.room <= bytes.len() || self.served == Some(0) {
            self.faults = self.faults.saturating_add(1);
            return Err(Failed);
        }
        put_imaged(
            &mut self.bytes,
            &mut self.covered,
            &mut self.log,
            at as usize,
            bytes,
        );
        self.room -= bytes.len() + 1;
        self.served = fewer(self.served);
        Ok(())
    }

    fn sync(&mut self) -> Result<(), Failed>
        ensures size { length self.new.told.now.bytes ≡ length self.old.told.now.bytes }
        ensures told { Syncs result self.old.told self.new.told }
        ensures cause { HasCause self.old.faults self.new.faults result }
        ensures served { OnOk result (self.new.faults ≡ self.old.faults) }
        ensures fails { IsErr result ↔ ChangeFails self.old 1 }
        ensures failed { OnErr result (self.new ≡ unserved self.old) }
        ensures synced { OnOk result (self.new ≡ disk_synced self.old) }
    {
        match self.call() {
            Ok(()) => {}
            Err(Failed) => return Err(Failed),
        }
        if self.room == 0 || self.served == Some(0) {
            self.faults = self.faults.saturating_add(1);
            return Err(Failed);
        }
        match self.log.push(Logged::Sync) {
            Ok(()) => {
                self.room -= 1;
                self.served = fewer(self.served);
                Ok(())
            }
            Err(_) => unreachable!(),
        }
    }
}
