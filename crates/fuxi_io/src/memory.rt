ghost use Rattle.std.specs.Prelude.{◌≡◌, ℕ, ◌+◌, ◌<◌, ◌≤◌, ◌↔◌, List, [], length, min, IfOk, OnOk, OnErr, IsErr, Option, Some};
ghost use Rattle.std.specs.Io.{ReadsAtMost};
ghost use Rattle.std.specs.Io.KnownBytes.{ReadConsumes, WriteAppends};
ghost use Rattle.fuxi_io.specs.Causes.{HasCause};
ghost use Rattle.fuxi_io.specs.Memory.{SupplyFails, StoreFails, unread, read_on, unwritten, written_on};

use crate::outside::{Failed, Sink, Source};
use fuxi_terms::OutOfMemory;
use std::alloc::Global;
use std::marker::Model;

/// A source over memory that tells what it has left. The calls whose numbers stand in its list fail;
/// calls count from 1.
#[derive(Drop)]
pub struct MemSource {
    bytes: Vec<u8>,
    at: usize,
    fails: Vec<u64>,
    calls: u64,
    faults: u64,
}

impl Model for MemSource {
    ghost use Rattle.std.specs.Prelude.{◌≤◌, length, drop};
    ghost use Rattle.fuxi_io.specs.Memory.{Supply};

    ghost Value = { Supply };

    ghost view = { λ s. record { left = drop s.at s.bytes.items; fails = s.fails.items; calls = s.calls; faults = s.faults } };

    ghost invariant = { λ s. s.at ≤ length s.bytes.items };
}

impl MemSource {
    /// A source of these bytes. It takes no memory.
    pub fn of(bytes: Vec<u8>, fails: Vec<u64>) -> MemSource
        ensures { result ≡ record { left = bytes.items; fails = fails.items; calls = 0; faults = 0 } }
    {
        MemSource {
            bytes,
            at: 0,
            fails,
            calls: 0,
            faults: 0,
        }
    }
}

impl Source for MemSource {
    ghost use Rattle.std.specs.Prelude.{Some};

    ghost left = { λ s. Some s.left };

    ghost faults = { λ s. s.faults };

    /// Reads as many bytes as fit. It fails exactly where the number of the call stands in the list.
    fn read(&mut self, buf: &mut [u8]) -> Result<usize, Failed>
        ensures bound { ReadsAtMost result buf.new }
        ensures bytes { ReadConsumes (Some self.old.left) (Some self.new.left) result buf.new }
        ensures cause { HasCause self.old.faults self.new.faults result }
        ensures served { OnOk result (self.new.faults ≡ self.old.faults) }
        ensures fails { IsErr result ↔ SupplyFails self.old }
        ensures failed { OnErr result (self.new ≡ unread self.old) }
        ensures count { IfOk result (λ n. n ≡ min (length buf.old) (length self.old.left)) }
        ensures read { IfOk result (λ n. self.new ≡ read_on self.old n) }
    {
        self.calls = self.calls.saturating_add(1);
        if self.fails.contains(&self.calls) {
            self.faults = self.faults.saturating_add(1);
            return Err(Failed);
        }
        let rest = &self.bytes[self.at..];
        let n = buf.len().min(rest.len());
        buf[..n].copy_from_slice(&rest[..n]);
        self.at += n;
        Ok(n)
    }
}

/// A sink over memory that tells what it took. The calls whose numbers stand in its list fail, and so do
/// those that lack room; calls count from 1.
#[derive(Drop)]
pub struct MemSink {
    bytes: Vec<u8>,
    room: usize,
    fails: Vec<u64>,
    calls: u64,
    faults: u64,
}

impl Model for MemSink {
    ghost use Rattle.std.specs.Prelude.{◌+◌, ◌≤◌, vec_len, vec_capacity};
    ghost use Rattle.fuxi_io.specs.Memory.{Store};

    ghost Value = { Store };

    ghost view = { λ s. record { took = s.bytes.items; room = s.room; fails = s.fails.items; calls = s.calls; faults = s.faults } };

    ghost invariant = { λ s. vec_len s.bytes + s.room ≤ vec_capacity s.bytes };
}

impl MemSink {
    /// A sink that has taken nothing and has no room. It takes no memory.
    pub fn of(alloc: Global, fails: Vec<u64>) -> MemSink
        ensures { result ≡ record { took = []; room = 0; fails = fails.items; calls = 0; faults = 0 } }
    {
        MemSink {
            bytes: Vec::new(alloc),
            room: 0,
            fails,
            calls: 0,
            faults: 0,
        }
    }

    /// What it took. It takes no memory.
    pub fn bytes(&self) -> &[u8]
        ensures { result.now ≡ self.now.took }
    {
        &self.bytes
    }

    /// Adds so much room, in bytes. A write uses room for its bytes and one more.
    /// After `OutOfMemory` all is as it was.
    pub fn room(&mut self, bytes: usize) -> Result<(), OutOfMemory>
        ensures ok { OnOk result (self.new ≡ record self.old { room = self.old.room + bytes }) }
        ensures err { OnErr result (self.new ≡ self.old) }
    {
        let Some(room) = self.room.checked_add(bytes) else {
            return Err(OutOfMemory);
        };
        match self.bytes.reserve(room) {
            Ok(()) => {
                self.room = room;
                Ok(())
            }
            Err(_) => Err(OutOfMemory),
        }
    }
}

impl Sink for MemSink {
    ghost use Rattle.std.specs.Prelude.{Some};

    ghost took = { λ s. Some s.took };

    ghost faults = { λ s. s.faults };

    /// Takes all of the bytes. It fails exactly where the number of the call stands in the list, or room
    /// for the bytes and one more lacks. A call that fails uses no room.
    fn write(&mut self, bytes: &[u8]) -> Result<usize, Failed>
        ensures some { 0 < length bytes.now → IfOk result (λ n. 0 < n) }
        ensures bound { IfOk result (λ n. n ≤ length bytes.now) }
        ensures bytes { WriteAppends (Some self.old.took) (Some self.new.took) result bytes.now }
        ensures cause { HasCause self.old.faults self.new.faults result }
        ensures served { OnOk result (self.new.faults ≡ self.old.faults) }
        ensures fails { IsErr result ↔ StoreFails self.old bytes.now }
        ensures failed { OnErr result (self.new ≡ unwritten self.old) }
        ensures written { IfOk result (λ n. (n ≡ length bytes.now) × (self.new ≡ written_on self.old bytes.now)) }
    {
        self.calls = self.calls.saturating_add(1);
        if self.fails.contains(&self.calls) || self.room <= bytes.len() {
            self.faults = self.faults.saturating_add(1);
            return Err(Failed);
        }
        match self.bytes.extend_from_slice(bytes) {
            Ok(()) => {
                self.room -= bytes.len() + 1;
                Ok(bytes.len())
            }
            Err(_) => unreachable!(),
        }
    }
}
