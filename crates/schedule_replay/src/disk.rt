//! The disk in memory that a checkpoint is written to.

ghost use Rattle.std.specs.Prelude.{◌≡◌, ◌⊎◌, ◌+◌, ◌<◌, ◌≤◌, ◌^◌, true, [], length, max, Some, IfOk, OnOk, OnErr, if◌then◌else◌};
ghost use Rattle.fuxi_io.specs.Causes.{HasCause};
ghost use Rattle.fuxi_io.specs.Disks.{IsImage, Syncs, Writes, first_told};
ghost use Rattle.schedule_replay.specs.GrowingDisks.{HasNoRoom, no_moments};

use fuxi_io::{Disk, Failed, MemDisk};
use fuxi_terms::OutOfMemory;
use std::alloc::Global;
use std::marker::Model;

/// A disk in memory that makes the room for each write and each sync before it. So one fails only where memory was refused, or
/// where no more are served.
#[derive(Drop)]
pub(crate) struct GrowingDisk {
    disk: MemDisk,
    // whether memory was ever refused for room
    refused: bool,
}

impl Model for GrowingDisk {
    ghost use Rattle.std.specs.Prelude.{◌≡◌, []};
    ghost use Rattle.schedule_replay.specs.GrowingDisks.{Grown};

    ghost Value = { Grown };

    ghost view = { λ d. record { told = d.disk.told; faults = d.disk.faults; served = d.disk.served; refused = d.refused } };

    // No call is to fail by its number.
    ghost invariant = { λ d. d.disk.fails ≡ [] };
}

impl GrowingDisk {
    /// An empty disk, on which nothing is pending. It takes no memory.
    pub(crate) fn empty(alloc: Global) -> GrowingDisk
        ensures { result ≡ no_moments [] }
    {
        GrowingDisk {
            disk: MemDisk::of(alloc, Vec::new(alloc), Vec::new(alloc)),
            refused: false,
        }
    }

    /// From now on so many writes and syncs are served, and each further one fails.
    pub(crate) fn stop_after(&mut self, calls: u64)
        ensures { self.new ≡ record self.old { served = Some calls } }
    {
        self.disk.stop_after(calls);
    }

    /// A disk with one of the files that a crash may leave, on which nothing is pending: all that was written, or what was synced last.
    pub(crate) fn image(&self, alloc: Global, all: bool) -> Result<GrowingDisk, OutOfMemory>
        ensures fresh { IfOk result (λ disk. disk ≡ no_moments (if all then self.now.told.now.bytes else self.now.told.now.synced)) }
        ensures image { IfOk result (λ disk. IsImage self.now.told.now disk.told.now.bytes) }
    {
        match self.disk.image(alloc, all) {
            Ok(disk) => Ok(GrowingDisk {
                disk,
                refused: false,
            }),
            Err(OutOfMemory) => Err(OutOfMemory),
        }
    }
}

impl Disk for GrowingDisk {
    ghost use Rattle.std.specs.Prelude.{Some, length, refl};

    ghost size = { λ d. length d.told.now.bytes };

    ghost told = { λ d. Some d.told };

    ghost faults = { λ d. d.faults };

    ghost measured = { λ d. refl };

    fn len(&mut self) -> Result<u64, Failed> {
        self.disk.len()
    }

    fn read_at(&mut self, at: u64, buf: &mut [u8]) -> Result<(), Failed> {
        self.disk.read_at(at, buf)
    }

    fn write_at(&mut self, at: u64, bytes: &[u8]) -> Result<(), Failed>
        requires begin { at ≤ length self.old.told.now.bytes }
        requires end { at + length bytes.now < 2 ^ 63 }
        ensures fails { OnErr result (HasNoRoom self.old self.new) }
        ensures size { OnOk result (length self.new.told.now.bytes ≡ max (length self.old.told.now.bytes) (at + length bytes.now)) }
        ensures told { Writes at bytes.now result self.old.told self.new.told }
        ensures cause { HasCause self.old.faults self.new.faults result }
        ensures served { OnOk result (self.new.faults ≡ self.old.faults) }
    {
        match self.disk.room(bytes.len() + 1) {
            Ok(()) => self.disk.write_at(at, bytes),
            Err(OutOfMemory) => {
                self.refused = true;
                self.disk.write_at(at, bytes)
            }
        }
    }

    fn sync(&mut self) -> Result<(), Failed>
        ensures size { length self.new.told.now.bytes ≡ length self.old.told.now.bytes }
        ensures told { Syncs result self.old.told self.new.told }
        ensures cause { HasCause self.old.faults self.new.faults result }
        ensures served { OnOk result (self.new.faults ≡ self.old.faults) }
        ensures fails { OnErr result (HasNoRoom self.old self.new) }
    {
        match self.disk.room(1) {
            Ok(()) => self.disk.sync(),
            Err(OutOfMemory) => {
                self.refused = true;
                self.disk.sync()
            }
        }
    }
}
