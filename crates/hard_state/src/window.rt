// A file that is read in large pieces, from its beginning on.
ghost use Rattle.std.specs.Prelude.{◌≡◌, ℕ, ◌+◌, ◌-◌, ◌≤◌, [], length, drop, take, Some, IfOk, IfSome, OnOk};
ghost use Rattle.fuxi_io.specs.Causes.{HasCause};
ghost use Rattle.fuxi_io.specs.Disks.{Told};
ghost use Rattle.hard_state.specs.FilePieces.{end_of, IsPieceOf, Reaches};

use fuxi_io::{Disk, Failed};
use fuxi_terms::OutOfMemory;
use std::alloc::Global;
use std::marker::Model;

// The bytes of a piece, and the most that a record can have with the gate behind it.
const PIECE: u64 = 65_536;

const LONGEST: u64 = 569;

// The piece that was read last, seen as its place in the file and its bytes.
#[derive(Drop)]
pub struct Window {
    buffer: Vec<u8>,
    begin: u64,
    count: usize,
}

impl Model for Window {
    ghost use Rattle.std.specs.Prelude.{◌≡◌, ◌≤◌, length, take};
    ghost use Rattle.hard_state.specs.FilePieces.{Piece};

    ghost Value = { Piece };

    ghost view = { λ w. record { begin = w.begin; bytes = take w.count w.buffer.items } };

    ghost invariant = { λ w. (length w.buffer.items ≡ 65536) × (w.count ≤ 65536) };
}

// Reads so many bytes into the front of the buffer.
fn read_front<D: Disk>(disk: &mut D, at: u64, buffer: &mut [u8], count: usize) -> Result<(), Failed>
    requires inside { at + count ≤ D.size disk.old }
    requires room { count ≤ length buffer.old }
    ensures told { D.told disk.new ≡ D.told disk.old }
    ensures size { D.size disk.new ≡ D.size disk.old }
    ensures cause { HasCause (D.faults disk.old) (D.faults disk.new) result }
    ensures served { OnOk result (D.faults disk.new ≡ D.faults disk.old) }
    ensures length { length buffer.new ≡ length buffer.old }
    ensures bytes { OnOk result (IfSome (D.told disk.old) (λ t. take count buffer.new ≡ take count (drop at t.now.bytes))) }
{
    disk.read_at(at, &mut buffer[..count])
}

impl Window {
    // Nothing is read yet.
    pub fn new(alloc: Global) -> Result<Window, OutOfMemory>
        ensures { IfOk result (λ window. window ≡ record { begin = 0; bytes = [] }) }
    {
        Ok(Window {
            buffer: Vec::from_elem(alloc, 0, PIECE as usize)?,
            begin: 0,
            count: 0,
        })
    }

    // Reads on where fewer bytes than a record can have are left from this place on.
    pub fn reach<D: Disk>(&mut self, disk: &mut D, at: u64, len: u64) -> Result<(), Failed>
        requires size { len ≡ D.size disk.old }
        requires inside { end_of self.old ≤ len }
        requires from { self.old.begin ≤ at }
        requires to { at ≤ end_of self.old }
        ensures told { D.told disk.new ≡ D.told disk.old }
        ensures size { D.size disk.new ≡ D.size disk.old }
        ensures cause { HasCause (D.faults disk.old) (D.faults disk.new) result }
        ensures served { OnOk result (D.faults disk.new ≡ D.faults disk.old) }
        ensures reaches { OnOk result (Reaches self.new at len) }
        ensures holds { OnOk result ((t : Told) → D.told disk.old ≡ Some t → IsPieceOf self.old t.now.bytes → IsPieceOf self.new t.now.bytes) }
    {
        let end = self.begin + self.count as u64;
        if end - at >= LONGEST || end == len {
            return Ok(());
        }
        let count = (len - at).min(PIECE) as usize;
        match read_front(disk, at, &mut self.buffer, count) {
            Ok(()) => {}
            Err(failed) => return Err(failed),
        }
        self.begin = at;
        self.count = count;
        Ok(())
    }

    // The bytes of the piece from this place on.
    pub fn rest(&self, at: u64) -> &[u8]
        requires from { self.now.begin ≤ at }
        requires to { at ≤ end_of self.now }
        ensures { result.now ≡ drop (at - self.now.begin) self.now.bytes }
    {
        &self.buffer[(at - self.begin) as usize..self.count]
    }
}
