//! A door that is watched.

ghost use Rattle.std.specs.Prelude.{◌≤◌, length};

use fuxi_io::{Door, Failed, MemDoor};
use fuxi_terms::OutOfMemory;
use golden_lines::Stop;
use std::alloc::Global;

/// What a door was handed: the last address, and what each connection took.
#[derive(Drop)]
pub struct Seen {
    pub addr: Vec<u8>,
    pub took: Vec<Vec<u8>>,
}

/// A door over memory, with what it was handed. It counts the calls that fail.
#[derive(Drop)]
pub struct Watched {
    pub alloc: Global,
    pub door: MemDoor,
    pub seen: Seen,
    pub faults: u64,
}

impl Watched {
    /// A door that gives this, and of whose calls one fails.
    pub fn of(alloc: Global, gives: Vec<Vec<u8>>, fail: u64) -> Result<Watched, Stop> {
        let mut door = MemDoor::of(alloc, gives, Vec::from_slice(alloc, &[fail])?);
        door.room(1_000_000)?;
        Ok(Watched {
            alloc,
            door,
            seen: Seen {
                addr: Vec::new(alloc),
                took: Vec::new(alloc),
            },
            faults: 0,
        })
    }
}

fn see_addr(seen: &mut Seen, addr: &[u8]) -> Result<(), OutOfMemory> {
    seen.addr.clear();
    Ok(seen.addr.extend_from_slice(addr)?)
}

fn see_bytes(seen: &mut Seen, bytes: &[u8]) -> Result<(), OutOfMemory> {
    match seen.took.last_mut() {
        Some(took) => Ok(took.extend_from_slice(bytes)?),
        None => Ok(()),
    }
}

// Opens a connection; false where that failed.
fn open(alloc: Global, door: &mut MemDoor, seen: &mut Seen, accepts: bool, addr: &[u8]) -> bool
    requires short { length addr.now ≤ 255 }
{
    if see_addr(seen, addr).is_err() {
        return false;
    }
    let opened = if accepts {
        door.accept(addr)
    } else {
        door.dial(addr)
    };
    opened.is_ok() && seen.took.push(Vec::new(alloc)).is_ok()
}

// Writes the bytes; false where that failed.
fn write(door: &mut MemDoor, seen: &mut Seen, bytes: &[u8]) -> bool {
    door.write(bytes).is_ok() && see_bytes(seen, bytes).is_ok()
}

impl Door for Watched {
    ghost use Rattle.std.specs.Prelude.{None};

    ghost told = { λ d. None };

    ghost faults = { λ d. d.faults };

    fn accept(&mut self, addr: &[u8]) -> Result<(), Failed> {
        if !open(self.alloc, &mut self.door, &mut self.seen, true, addr) {
            self.faults = self.faults.saturating_add(1);
            return Err(Failed);
        }
        Ok(())
    }

    fn dial(&mut self, addr: &[u8]) -> Result<(), Failed> {
        if !open(self.alloc, &mut self.door, &mut self.seen, false, addr) {
            self.faults = self.faults.saturating_add(1);
            return Err(Failed);
        }
        Ok(())
    }

    fn read(&mut self, buf: &mut [u8]) -> Result<usize, Failed> {
        match self.door.read(buf) {
            Ok(count) => Ok(count),
            Err(Failed) => {
                self.faults = self.faults.saturating_add(1);
                Err(Failed)
            }
        }
    }

    fn write(&mut self, bytes: &[u8]) -> Result<(), Failed> {
        if !write(&mut self.door, &mut self.seen, bytes) {
            self.faults = self.faults.saturating_add(1);
            return Err(Failed);
        }
        Ok(())
    }

    fn close(&mut self) -> Result<(), Failed> {
        if self.door.close().is_err() {
            self.faults = self.faults.saturating_add(1);
            return Err(Failed);
        }
        Ok(())
    }
}
