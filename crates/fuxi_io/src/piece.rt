ghost use Rattle.std.specs.Prelude.{◌≡◌, ◌≢◌, ℕ, ◌+◌, ◌<◌, ◌≤◌, ◌↔◌, List, [], ◌++◌, length, take, slice_index, IfOk, IfErr, OnErr, Ok, false, IfSome, IfNone, IsTrue, OnOk, vec_capacity};
ghost use Rattle.std.specs.Io.KnownBytes.{Consumes, IsAtEnd, Keeps};
ghost use Rattle.fuxi_io.specs.Causes.{Rose};
ghost use Rattle.fuxi_io.specs.Lines.{FirstLonger, lines_of};
ghost use Rattle.fuxi_io.specs.Pieces.{EndsLine, Moved, NoNewline};
ghost use Rattle.fuxi_io.specs.Reading.{read_ahead};
ghost use Rattle.fuxi_terms.specs.Limits.{most_line_bytes};

use crate::lines::LineStop;
use crate::outside::{Failed, Source};
use fuxi_terms::OutOfMemory;
use fuxi_terms::limits::MOST_LINE_BYTES;
use memchr::memchr;
use std::alloc::Global;
use std::marker::Model;

// How many bytes are asked for in one read.
const PIECE_BYTES: usize = 16384;

// What was read from a source and not yet given to a line: the bytes between two places. It knows where the
// first newline stands, so that each byte is looked at once.
#[derive(Drop)]
pub struct Piece {
    bytes: Vec<u8>,
    from: usize,
    // Where the first newline stands, and `to` where there is none.
    end: usize,
    to: usize,
}

impl Model for Piece {
    ghost use Rattle.std.specs.Prelude.{ℕ, List, ◌≤◌, ◌≡◌, length, slice_range};
    ghost use Rattle.fuxi_io.specs.Pieces.{EndsLine};

    ghost Value = { List ℕ };

    ghost view = { λ p. slice_range p.bytes.items p.from p.to };

    ghost invariant = { λ p. (p.from ≤ p.end) × (p.end ≤ p.to) × (p.to ≤ length p.bytes.items) × (length p.bytes.items ≡ 16384) × EndsLine p.bytes.items p.from p.to p.end };
}

// Where the first newline between two places stands, and the second of them where there is none.
fn line_end(bytes: &[u8], from: usize, to: usize) -> usize
    requires ordered { from ≤ to }
    requires inside { to ≤ length bytes.now }
    ensures from { from ≤ result }
    ensures to { result ≤ to }
    ensures ends { EndsLine bytes.now from to result }
{
    match memchr(b'\n', &bytes[from..to]) {
        Some(n) => from + n,
        None => to,
    }
}

// The line with these bytes behind it, where it is not too long.
fn append(line: &mut Vec<u8>, bytes: &[u8]) -> Result<(), LineStop>
    requires room { most_line_bytes ≤ vec_capacity line.old }
    requires short { length line.old.items ≤ most_line_bytes }
    ensures room { most_line_bytes ≤ vec_capacity line.new }
    ensures ok { OnOk result (line.new.items ≡ line.old.items ++ bytes.now) }
    ensures short { OnOk result (length line.new.items ≤ most_line_bytes) }
    ensures long { OnErr result (most_line_bytes < length line.old.items + length bytes.now) }
    ensures stop { IfErr result (λ stop. stop ≡ LineStop.LineTooLong) }
{
    if bytes.len() > MOST_LINE_BYTES - line.len() {
        return Err(LineStop::LineTooLong);
    }
    match line.extend_from_slice(bytes) {
        Ok(()) => Ok(()),
        Err(_) => unreachable!(),
    }
}

impl Piece {
    // An empty piece. It takes all the memory that its calls need.
    pub fn new(alloc: Global) -> Result<Piece, OutOfMemory>
        ensures { IfOk result (λ piece. piece ≡ []) }
    {
        let bytes = vec![in alloc; 0; PIECE_BYTES].map_err(|_| OutOfMemory)?;
        Ok(Piece {
            bytes,
            from: 0,
            end: 0,
            to: 0,
        })
    }

    pub fn is_empty(&self) -> bool
        ensures { IsTrue result ↔ (self.now ≡ []) }
    {
        self.from == self.to
    }

    // Whether a newline waits.
    pub fn has_newline(&self) -> bool
        ensures { IsTrue result → NoNewline self.now → ⊥ }
    {
        self.end != self.to
    }

    // Reads the next piece, which is empty at the end alone.
    pub fn fill<S: Source>(&mut self, source: &mut S) -> Result<(), LineStop>
        requires { self.old ≡ [] }
        ensures bytes { OnOk result (Consumes (S.left source.old) (S.left source.new) self.new) }
        ensures end { OnOk result (self.new ≡ [] → IsAtEnd (S.left source.new)) }
        ensures later { S.faults source.old ≤ S.faults source.new }
        ensures cause { OnErr result (Rose (S.faults source.old) (S.faults source.new)) }
        ensures served { OnOk result (S.faults source.new ≡ S.faults source.old) }
        ensures stop { IfErr result (λ stop. stop ≡ LineStop.ReadFault) }
        ensures kept { OnErr result (Keeps (S.left source.old) (S.left source.new)) }
        ensures few { length self.new ≤ read_ahead }
    {
        let Ok(n) = source.read(&mut self.bytes) else {
            return Err(LineStop::ReadFault);
        };
        self.from = 0;
        self.end = line_end(&self.bytes, 0, n);
        self.to = n;
        Ok(())
    }

    // Moves the bytes before the first newline, and all where there is none, behind the line, and drops
    // that newline. Answers whether there was one.
    pub fn move_line(&mut self, line: &mut Vec<u8>) -> Result<bool, LineStop>
        requires room { most_line_bytes ≤ vec_capacity line.old }
        requires plain { NoNewline line.old.items }
        requires short { length line.old.items ≤ most_line_bytes }
        ensures room { most_line_bytes ≤ vec_capacity line.new }
        ensures plain { OnOk result (NoNewline line.new.items) }
        ensures short { OnOk result (length line.new.items ≤ most_line_bytes) }
        ensures few { length self.new ≤ length self.old }
        ensures moved { IfOk result (λ found. Moved found (line.old.items ++ self.old) line.new.items self.new) }
        ensures more { result ≡ Ok false → self.old ≢ [] → length line.old.items < length line.new.items }
        ensures long { (more : List ℕ) → OnErr result (FirstLonger most_line_bytes (lines_of (line.old.items ++ self.old ++ more))) }
        ensures stop { IfErr result (λ stop. stop ≡ LineStop.LineTooLong) }
    {
        append(line, &self.bytes[self.from..self.end])?;
        if self.end == self.to {
            self.from = self.to;
            return Ok(false);
        }
        self.from = self.end + 1;
        self.end = line_end(&self.bytes, self.from, self.to);
        Ok(true)
    }
}
