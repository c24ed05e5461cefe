ghost use Rattle.std.specs.Prelude.{◌≡◌, ◌+◌, ◌^◌, ◌<◌, length};
ghost use Rattle.fuxi_io.specs.Causes.{raised};

use crate::disk::Disk;
use crate::outside::Failed;
use std::fs::File;
use std::os::unix::fs::FileExt;

/// A file of the system as a disk. It tells nothing, and knows its length from the last call of `len` and
/// the writes since. Its count rises at each error of the system; a range that the file no longer has is one,
/// and without a file each call is one.
#[derive(Drop)]
pub struct FileDisk {
    file: Option<File>,
    size: u64,
    faults: u64,
}

// The four calls on the file; without one each fails.
fn length(file: &Option<File>) -> Result<u64, Failed> {
    let Some(file) = file else {
        return Err(Failed);
    };
    match file.metadata() {
        Ok(found) => Ok(found.len()),
        Err(_) => Err(Failed),
    }
}

fn read(file: &Option<File>, at: u64, buf: &mut [u8]) -> Result<(), Failed> {
    let Some(file) = file else {
        return Err(Failed);
    };
    file.read_exact_at(buf, at).map_err(|_| Failed)
}

fn write(file: &Option<File>, at: u64, bytes: &[u8]) -> Result<(), Failed> {
    let Some(file) = file else {
        return Err(Failed);
    };
    file.write_all_at(bytes, at).map_err(|_| Failed)
}

fn flush(file: &Option<File>) -> Result<(), Failed> {
    let Some(file) = file else {
        return Err(Failed);
    };
    file.sync_all().map_err(|_| Failed)
}

impl FileDisk {
    /// A disk over this file, which has to be open for reading and writing; or one that fails at each call.
    pub fn of(file: Option<File>) -> FileDisk
        ensures { result ≡ record { file = file; size = 0; faults = 0 } }
    {
        FileDisk {
            file,
            size: 0,
            faults: 0,
        }
    }
}

impl Disk for FileDisk {
    ghost use Rattle.std.specs.Prelude.{None};

    ghost size = { λ d. d.size };

    ghost told = { λ d. None };

    ghost faults = { λ d. d.faults };

    ghost measured = { λ d. tt };

    fn len(&mut self) -> Result<u64, Failed> {
        match length(&self.file) {
            Ok(size) => {
                self.size = size;
                Ok(size)
            }
            Err(Failed) => {
                self.faults = self.faults.saturating_add(1);
                Err(Failed)
            }
        }
    }

    fn read_at(&mut self, at: u64, buf: &mut [u8]) -> Result<(), Failed> {
        match read(&self.file, at, buf) {
            Ok(()) => Ok(()),
            Err(Failed) => {
                self.faults = self.faults.saturating_add(1);
                Err(Failed)
            }
        }
    }

    fn write_at(&mut self, at: u64, bytes: &[u8]) -> Result<(), Failed> {
        match write(&self.file, at, bytes) {
            Ok(()) => {
                self.size = self.size.max(at + bytes.len() as u64);
                Ok(())
            }
            Err(Failed) => {
                self.faults = self.faults.saturating_add(1);
                Err(Failed)
            }
        }
    }

    fn sync(&mut self) -> Result<(), Failed> {
        match flush(&self.file) {
            Ok(()) => Ok(()),
            Err(Failed) => {
                self.faults = self.faults.saturating_add(1);
                Err(Failed)
            }
        }
    }
}
