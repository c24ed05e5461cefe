ghost use Rattle.std.specs.Prelude.{◌≡◌, ℕ, ◌+◌, ◌-◌, ◌<◌, ◌≤◌, ◌↔◌, nat_eq, true, false, List, [], ◌∷◌, ◌++◌, length, map, take, drop, min, reverse, IfOk, OnOk, OnErr, IsErr, Some, Option, vec_len, vec_capacity};
ghost use Rattle.std.specs.Io.{ReadsAtMost};
ghost use Rattle.fuxi_io.specs.Causes.{HasCause, raised};
ghost use Rattle.fuxi_io.specs.Doors.{Told, Opens, Reads, Writes, Closes, untold, on_last, given, taken, failing, shut, took_by};
ghost use Rattle.fuxi_io.specs.MemoryDoors.{CallFails, OpenFails, ReadFails, WriteFails, AreCut, IsSpan};

use crate::door::Door;
use crate::usage_trace::UsageTrace;
use crate::{Failed, OutOfMemory};
use std::alloc::Global;
use std::marker::Model;
use std::mem;

// A connection that was opened: its bytes, how many of them it gave, where those that it took begin among all
// that were taken, whether a read on it answered 0, and in which order it was used.
#[derive(Drop)]
pub struct Opened {
    bytes: Vec<u8>,
    at: usize,
    from: usize,
    ended: bool,
    order: UsageTrace,
}

/// A door over memory that tells what it has been through. Its connections come in the order of a list, each
/// with the bytes that it gives. The calls whose numbers stand in another list fail, and so do those for which no
/// connection or no room is left; calls count from 1.
#[derive(Drop)]
pub struct MemDoor {
    handed: bool,
    accepts: bool,
    addr: [u8; 255],
    addr_len: usize,
    knocks: u64,
    begun: bool,
    last: Opened,
    past: Vec<Opened>,
    coming: Vec<Vec<u8>>,
    took: Vec<u8>,
    room: usize,
    places: usize,
    fails: Vec<u64>,
    calls: u64,
    faults: u64,
}

impl Model for MemDoor {
    ghost use Rattle.std.specs.Prelude.{◌≡◌, false, [], ◌∷◌, ◌≤◌, ◌+◌, map, length, take, drop, reverse, vec_len, vec_capacity};
    ghost use Rattle.fuxi_io.specs.MemoryDoors.{Doorway, told_of, AreCut};

    ghost Value = { Doorway };

    ghost view = { λ d. record {
      told = told_of d.handed d.accepts (take d.addr_len d.addr) d.knocks d.begun d.took.items d.last (reverse d.past.items);
      left = drop d.last.at d.last.bytes.items;
      coming = map (λ v. v.items) (reverse d.coming.items);
      room = d.room;
      places = d.places;
      fails = d.fails.items;
      calls = d.calls;
      faults = d.faults;
    } };

    ghost invariant = { λ d. (vec_len d.took + d.room ≤ vec_capacity d.took) × (vec_len d.past + d.places ≤ vec_capacity d.past) × (d.last.at ≤ length d.last.bytes.items) × AreCut (length d.took.items) (d.last ∷ reverse d.past.items) × (d.addr_len ≤ 255) × (d.begun ≡ false → d.past.items ≡ []) };
}

// Puts the address into the front of its place, and answers its length.
fn put_addr(place: &mut [u8; 255], addr: &[u8]) -> usize
    requires { length addr.now ≤ 255 }
    ensures len { result ≡ length addr.now }
    ensures addr { take result place.new ≡ addr.now }
{
    let n = addr.len();
    place[..n].copy_from_slice(addr);
    n
}

// Where among so many bytes those begin and end that the connection of this number took, counted from 0.
fn span_of(count: usize, last: &Opened, past: &[Opened], number: usize) -> (usize, usize)
    requires cut { AreCut count (last.now ∷ reverse past.now) }
    requires opened { number ≤ length past.now }
    ensures { IsSpan count (last.now ∷ reverse past.now) number result.0 result.1 }
{
    if number == past.len() {
        return (last.from, count);
    }
    let from = past[number].from;
    if number + 1 == past.len() {
        return (from, last.from);
    }
    (from, past[number + 1].from)
}

impl MemDoor {
    /// A door of the connections that give these bytes, the first one first. It has no room, and takes no memory.
    pub fn of(alloc: Global, mut gives: Vec<Vec<u8>>, fails: Vec<u64>) -> MemDoor
        ensures { result ≡ record { told = untold; left = []; coming = map (λ v. v.items) gives.items; room = 0; places = 0; fails = fails.items; calls = 0; faults = 0 } }
    {
        gives.reverse();
        MemDoor {
            handed: false,
            accepts: false,
            addr: [0; 255],
            addr_len: 0,
            knocks: 0,
            begun: false,
            last: Opened {
                bytes: Vec::new(alloc),
                at: 0,
                from: 0,
                ended: false,
                order: UsageTrace::new(),
            },
            past: Vec::new(alloc),
            coming: gives,
            took: Vec::new(alloc),
            room: 0,
            places: 0,
            fails,
            calls: 0,
            faults: 0,
        }
    }

    /// Adds so much room, in bytes, and room for the connections that are still to come: without it only the
    /// first one can be opened. A write uses room for its bytes and one more. After `OutOfMemory` all is as it was.
    pub fn room(&mut self, bytes: usize) -> Result<(), OutOfMemory>
        ensures ok { OnOk result (self.new ≡ record self.old { room = self.old.room + bytes; places = length self.old.coming }) }
        ensures err { OnErr result (self.new ≡ self.old) }
    {
        let Some(room) = self.room.checked_add(bytes) else {
            return Err(OutOfMemory);
        };
        let places = self.coming.len();
        if self.took.reserve(room).is_err() || self.past.reserve(places).is_err() {
            return Err(OutOfMemory);
        }
        self.room = room;
        self.places = places;
        Ok(())
    }

    /// What the connection of this number of the list took, counted from 0; nothing where it was not opened.
    /// It takes no memory.
    pub fn took(&self, connection: usize) -> &[u8]
        requires { connection < length self.now.told.talks + length self.now.coming }
        ensures { result.now ≡ took_by self.now.told.talks connection }
    {
        if !self.begun {
            return &[];
        }
        if connection > self.past.len() {
            return &[];
        }
        let (from, end) = span_of(self.took.len(), &self.last, &self.past, connection);
        &self.took[from..end]
    }

    // Counts a call, which fails where its number stands in the list.
    fn call(&mut self) -> Result<(), Failed>
        ensures fails { IsErr result ↔ CallFails self.old }
        ensures failed { OnErr result (self.new ≡ record self.old { calls = raised self.old.calls; faults = raised self.old.faults }) }
        ensures asked { OnOk result (self.new ≡ record self.old { calls = raised self.old.calls }) }
        ensures cause { HasCause self.old.faults self.new.faults result }
    {
        self.calls = self.calls.saturating_add(1);
        if self.fails.contains(&self.calls) {
            self.faults = self.faults.saturating_add(1);
            return Err(Failed);
        }
        Ok(())
    }

    // So many bytes more were read of the last connection, or its end.
    fn advance(&mut self, n: usize)
        requires { n ≤ length self.old.left }
        ensures { self.new ≡ record self.old { told = on_last (given (take n self.old.left) (nat_eq n 0)) self.old.told; left = drop n self.old.left } }
    {
        self.last.at += n;
        self.last.order = self.last.order.after_read();
        if n == 0 {
            self.last.ended = true;
        }
    }

    // A read on the last connection failed.
    fn miss_read(&mut self)
        ensures { self.new ≡ record self.old { told = on_last failing self.old.told } }
    {
        self.last.order = self.last.order.after_fault();
    }

    // A write on the last connection failed, which took nothing.
    fn miss_write(&mut self)
        ensures { self.new ≡ record self.old { told = on_last (λ talk. failing (taken [] talk)) self.old.told } }
    {
        self.last.order = self.last.order.after_write().after_fault();
    }

    // The last connection is closed.
    fn shut(&mut self)
        ensures { self.new ≡ record self.old { told = on_last shut self.old.told } }
    {
        self.last.order = self.last.order.after_close();
    }

    // Opens the next connection at this address.
    fn open(&mut self, accepts: bool, addr: &[u8]) -> Result<(), Failed>
        requires short { length addr.now ≤ 255 }
        ensures told { Opens accepts addr.now result self.old.told self.new.told }
        ensures cause { HasCause self.old.faults self.new.faults result }
        ensures fails { IsErr result ↔ OpenFails self.old }
        ensures next { OnOk result (self.old.coming ≡ self.new.left ∷ self.new.coming) }
        ensures places { self.old.places ≤ self.new.places + 1 }
        ensures failed { OnErr result ((self.new.left ≡ self.old.left) × (self.new.coming ≡ self.old.coming)) }
        ensures rest { self.new ≡ record self.old { told = self.new.told; left = self.new.left; coming = self.new.coming; places = self.new.places; calls = raised self.old.calls; faults = self.new.faults } }
    {
        self.handed = true;
        self.accepts = accepts;
        self.addr_len = put_addr(&mut self.addr, addr);
        self.knocks = self.knocks.saturating_add(1);
        match self.call() {
            Ok(()) => {}
            Err(Failed) => return Err(Failed),
        }
        if self.begun && self.places == 0 {
            self.faults = self.faults.saturating_add(1);
            return Err(Failed);
        }
        let Some(bytes) = self.coming.pop() else {
            self.faults = self.faults.saturating_add(1);
            return Err(Failed);
        };
        let next = Opened {
            bytes,
            at: 0,
            from: self.took.len(),
            ended: false,
            order: UsageTrace::new(),
        };
        if !self.begun {
            self.last = next;
            self.begun = true;
            return Ok(());
        }
        let last = mem::replace(&mut self.last, next);
        match self.past.push(last) {
            Ok(()) => {}
            Err(_) => unreachable!(),
        }
        self.places -= 1;
        Ok(())
    }
}

impl Door for MemDoor {
    ghost use Rattle.std.specs.Prelude.{Some};

    ghost told = { λ d. Some d.told };

    ghost faults = { λ d. d.faults };

    /// Opens the next connection of the list. It fails exactly where the number of the call stands in the list of
    /// those that are to fail, no connection is left, or a place for the one before it lacks.
    fn accept(&mut self, addr: &[u8]) -> Result<(), Failed>
        requires short { length addr.now ≤ 255 }
        ensures told { Opens true addr.now result self.old.told self.new.told }
        ensures cause { HasCause self.old.faults self.new.faults result }
        ensures fails { IsErr result ↔ OpenFails self.old }
        ensures next { OnOk result (self.old.coming ≡ self.new.left ∷ self.new.coming) }
        ensures places { self.old.places ≤ self.new.places + 1 }
        ensures failed { OnErr result ((self.new.left ≡ self.old.left) × (self.new.coming ≡ self.old.coming)) }
        ensures rest { self.new ≡ record self.old { told = self.new.told; left = self.new.left; coming = self.new.coming; places = self.new.places; calls = raised self.old.calls; faults = self.new.faults } }
    {
        self.open(true, addr)
    }

    /// Opens the next connection of the list. It fails exactly where the number of the call stands in the list of
    /// those that are to fail, no connection is left, or a place for the one before it lacks.
    fn dial(&mut self, addr: &[u8]) -> Result<(), Failed>
        requires short { length addr.now ≤ 255 }
        ensures told { Opens false addr.now result self.old.told self.new.told }
        ensures cause { HasCause self.old.faults self.new.faults result }
        ensures fails { IsErr result ↔ OpenFails self.old }
        ensures next { OnOk result (self.old.coming ≡ self.new.left ∷ self.new.coming) }
        ensures places { self.old.places ≤ self.new.places + 1 }
        ensures failed { OnErr result ((self.new.left ≡ self.old.left) × (self.new.coming ≡ self.old.coming)) }
        ensures rest { self.new ≡ record self.old { told = self.new.told; left = self.new.left; coming = self.new.coming; places = self.new.places; calls = raised self.old.calls; faults = self.new.faults } }
    {
        self.open(false, addr)
    }

    /// Reads as many bytes as fit. It fails exactly where the number of the call stands in the list, or no
    /// connection was opened.
    fn read(&mut self, buf: &mut [u8]) -> Result<usize, Failed>
        ensures bound { ReadsAtMost result buf.new }
        ensures told { Reads buf.new result self.old.told self.new.told }
        ensures cause { HasCause self.old.faults self.new.faults result }
        ensures fails { IsErr result ↔ ReadFails self.old }
        ensures failed { OnErr result (self.new.left ≡ self.old.left) }
        ensures rest { self.new ≡ record self.old { told = self.new.told; left = self.new.left; calls = raised self.old.calls; faults = self.new.faults } }
        ensures read { IfOk result (λ n. (n ≡ min (length buf.old) (length self.old.left)) × (take n buf.new ≡ take n self.old.left) × (self.new.left ≡ drop n self.old.left)) }
    {
        match self.call() {
            Ok(()) => {}
            Err(Failed) => {
                self.miss_read();
                return Err(Failed);
            }
        }
        if !self.begun {
            self.faults = self.faults.saturating_add(1);
            self.miss_read();
            return Err(Failed);
        }
        let rest = &self.last.bytes[self.last.at..];
        let n = buf.len().min(rest.len());
        buf[..n].copy_from_slice(&rest[..n]);
        self.advance(n);
        Ok(n)
    }

    /// Takes all of the bytes. It fails exactly where the number of the call stands in the list, no connection
    /// was opened, or room for the bytes and one more lacks. A call that fails uses no room.
    fn write(&mut self, bytes: &[u8]) -> Result<(), Failed>
        ensures told { Writes bytes.now result self.old.told self.new.told }
        ensures cause { HasCause self.old.faults self.new.faults result }
        ensures fails { IsErr result ↔ WriteFails self.old bytes.now }
        ensures room { OnOk result (self.new.room ≡ self.old.room - (length bytes.now + 1)) }
        ensures failed { OnErr result ((self.new.told ≡ on_last (λ talk. failing (taken [] talk)) self.old.told) × (self.new.room ≡ self.old.room)) }
        ensures rest { self.new ≡ record self.old { told = self.new.told; room = self.new.room; calls = raised self.old.calls; faults = self.new.faults } }
    {
        match self.call() {
            Ok(()) => {}
            Err(Failed) => {
                self.miss_write();
                return Err(Failed);
            }
        }
        if !self.begun || self.room <= bytes.len() {
            self.faults = self.faults.saturating_add(1);
            self.miss_write();
            return Err(Failed);
        }
        match self.took.extend_from_slice(bytes) {
            Ok(()) => {}
            Err(_) => unreachable!(),
        }
        self.last.order = self.last.order.after_write();
        self.room -= bytes.len() + 1;
        Ok(())
    }

    /// It fails exactly where the number of the call stands in the list. Closing a connection once more is no fault.
    fn close(&mut self) -> Result<(), Failed>
        ensures told { Closes self.old.told self.new.told }
        ensures cause { HasCause self.old.faults self.new.faults result }
        ensures fails { IsErr result ↔ CallFails self.old }
        ensures rest { self.new ≡ record self.old { told = self.new.told; calls = raised self.old.calls; faults = self.new.faults } }
    {
        self.shut();
        self.call()
    }
}
