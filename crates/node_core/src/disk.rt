//! A disk for a party that has none.

ghost use Rattle.std.specs.Prelude.{◌≡◌};

use fuxi_io::{Disk, Failed};

/// A disk that keeps nothing but its length, tells nothing, and never fails: for a node whose party writes none.
#[derive(Drop)]
pub struct NoDisk {
    size: u64,
}

impl NoDisk {
    /// An empty one.
    pub fn new() -> NoDisk
        ensures { result ≡ record { size = 0 } }
    {
        NoDisk { size: 0 }
    }
}

impl Disk for NoDisk {
    ghost use Rattle.std.specs.Prelude.{None};

    ghost size = { λ d. d.size };

    ghost told = { λ d. None };

    ghost faults = { λ d. 0 };

    ghost measured = { λ d. tt };

    fn len(&mut self) -> Result<u64, Failed> {
        Ok(self.size)
    }

    fn read_at(&mut self, _at: u64, _buf: &mut [u8]) -> Result<(), Failed> {
        Ok(())
    }

    fn write_at(&mut self, at: u64, bytes: &[u8]) -> Result<(), Failed> {
        self.size = self.size.max(at + bytes.len() as u64);
        Ok(())
    }

    fn sync(&mut self) -> Result<(), Failed> {
        Ok(())
    }
}
