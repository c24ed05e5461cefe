use fuxi_io::{Failed, Sink, Source};
use std::alloc::Global;

/// A source that gives one byte at each read, and of whose reads one fails.
#[derive(Drop)]
pub struct Drops {
    pub bytes: Vec<u8>,
    pub at: usize,
    pub fail: u64,
    pub calls: u64,
    pub faults: u64,
}

impl Source for Drops {
    ghost use Rattle.std.specs.Prelude.{None};

    ghost left = { λ s. None };

    ghost faults = { λ s. s.faults };

    fn read(&mut self, buf: &mut [u8]) -> Result<usize, Failed> {
        self.calls = self.calls.saturating_add(1);
        if self.calls == self.fail {
            self.faults = self.faults.saturating_add(1);
            return Err(Failed);
        }
        if self.at >= self.bytes.len() {
            return Ok(0);
        }
        buf[0] = self.bytes[self.at];
        self.at += 1;
        Ok(1)
    }
}

/// A sink that takes one byte at each write, and so many bytes in all.
#[derive(Drop)]
pub struct Narrow {
    pub took: Vec<u8>,
    pub limit: usize,
    pub faults: u64,
}

impl Narrow {
    /// A sink that takes so many bytes.
    pub fn of(alloc: Global, limit: usize) -> Narrow {
        Narrow {
            took: Vec::new(alloc),
            limit,
            faults: 0,
        }
    }
}

impl Sink for Narrow {
    ghost use Rattle.std.specs.Prelude.{None};

    ghost took = { λ s. None };

    ghost faults = { λ s. s.faults };

    fn write(&mut self, bytes: &[u8]) -> Result<usize, Failed> {
        if self.took.len() >= self.limit || self.took.push(bytes[0]).is_err() {
            self.faults = self.faults.saturating_add(1);
            return Err(Failed);
        }
        Ok(1)
    }
}
