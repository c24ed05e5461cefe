//! A disk, and the checkpoint that is open on it.

use crate::checkpoint::call::{Call, make};
use fuxi_io::MemDisk;
use fuxi_terms::OutOfMemory;
use hard_state::{Hard, HardFault};
use std::alloc::Global;
use std::marker::Model;

/// The room of a disk for what the calls of one line write.
pub const ROOM: usize = 4096;

/// A disk with its checkpoint, where one is open, and then sound.
#[derive(Drop)]
pub struct Place {
    hard: Option<Hard>,
    disk: MemDisk,
}

impl Model for Place {
    ghost use Rattle.std.specs.Prelude.{◌≡◌, ◌<◌, length, false, Option, IfSome};
    ghost use Rattle.hard_state.specs.HardFiles.{Kept};
    ghost use Rattle.fuxi_io.specs.MemoryDisks.{DiskStore};

    ghost Value = { Option Kept × DiskStore };

    ghost view = { λ p. (p.hard, p.disk) };

    ghost invariant = { λ p. IfSome p.hard (λ hard. (hard.broken ≡ false) × (hard.gate < length p.disk.told.now.bytes)) };
}

impl Place {
    /// A disk whose checkpoint is not open.
    pub fn shut(disk: MemDisk) -> Place {
        Place { hard: None, disk }
    }

    /// The checkpoint, where it is open.
    pub fn hard(&self) -> Option<&Hard> {
        self.hard.as_ref()
    }

    /// Opens the checkpoint of the disk.
    pub fn open(&mut self, alloc: Global) -> Result<(), HardFault> {
        self.hard = None;
        match Hard::open(alloc, &mut self.disk) {
            Ok(hard) => {
                self.hard = Some(hard);
                Ok(())
            }
            Err(fault) => Err(fault),
        }
    }

    /// Makes the call, where the checkpoint is open. After a fault of the disk it no longer is.
    pub fn call(&mut self, call: &Call) -> Option<Result<(), HardFault>> {
        let Some(hard) = &mut self.hard else {
            return None;
        };
        match make(hard, &mut self.disk, call) {
            Ok(()) => Some(Ok(())),
            Err(fault) => {
                if fault == HardFault::DiskFault {
                    self.hard = None;
                }
                Some(Err(fault))
            }
        }
    }

    /// From now on so many writes and syncs are served.
    pub fn stop_after(&mut self, calls: u64) {
        self.disk.stop_after(calls);
    }

    /// One of the files that a crash may leave, on a disk with so much room.
    pub fn image(&self, alloc: Global, all: bool, room: usize) -> Result<Place, OutOfMemory> {
        let mut image = self.disk.image(alloc, all)?;
        image.room(room)?;
        Ok(Place::shut(image))
    }

    /// Adds so much room on the disk.
    pub fn room(&mut self, room: usize) -> Result<(), OutOfMemory> {
        self.disk.room(room)
    }

    /// What a read of the disk gives.
    pub fn bytes(&self) -> &[u8] {
        self.disk.bytes()
    }
}
