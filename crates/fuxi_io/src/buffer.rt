ghost use Rattle.std.specs.Prelude.{◌≡◌, ℕ, ◌≤◌, List, [], ◌++◌, Option, OnOk, OnErr, IfOk, length, ◌+◌};
ghost use Rattle.std.specs.Io.KnownBytes.{Appends};
ghost use Rattle.fuxi_io.specs.Causes.{HasCause, TakesPart};
ghost use Rattle.fuxi_io.specs.WriteBuffers.{with_waiting, TakesWaiting};

use crate::outside::{Sink, WriteFault, write_all_of};
use fuxi_terms::OutOfMemory;
use std::alloc::Global;
use std::marker::Model;

// How many bytes wait at most before they are written.
const MOST_WAITING: usize = 65536;

/// Bytes that wait to be written, at most 65,536, so that a sink is called once for many texts. All calls are to be
/// given the same sink.
#[derive(Drop)]
pub struct WriteBuffer {
    bytes: Vec<u8>,
}

impl Model for WriteBuffer {
    ghost use Rattle.std.specs.Prelude.{ℕ, List, ◌≤◌, vec_len, vec_capacity};

    ghost Value = { List ℕ };

    ghost view = { λ b. b.bytes.items };

    ghost invariant = { λ b. (65536 ≤ vec_capacity b.bytes) × (vec_len b.bytes ≤ 65536) };
}

impl WriteBuffer {
    /// A buffer in which nothing waits. It takes all the memory that its calls need.
    pub fn new(alloc: Global) -> Result<WriteBuffer, OutOfMemory>
        ensures { IfOk result (λ buffer. buffer ≡ []) }
    {
        let bytes = Vec::with_capacity(alloc, MOST_WAITING).map_err(|_| OutOfMemory)?;
        Ok(WriteBuffer { bytes })
    }

    /// Puts the bytes behind those that wait, which are written first where there is no room for both. After
    /// `WriteFault` a part of both is out, from the front, and nothing waits.
    pub fn put<O: Sink>(&mut self, out: &mut O, bytes: &[u8]) -> Result<(), WriteFault>
        ensures ok { OnOk result (Appends (with_waiting (O.took out.old) self.old) (with_waiting (O.took out.new) self.new) bytes.now) }
        ensures rest { OnOk result ((after : Option (List ℕ)) → TakesPart (O.took out.new) after self.new → TakesWaiting (O.took out.old) self.old bytes.now after) }
        ensures err { OnErr result (TakesWaiting (O.took out.old) self.old bytes.now (O.took out.new)) }
        ensures gone { OnErr result (self.new ≡ []) }
        ensures cause { HasCause (O.faults out.old) (O.faults out.new) result }
        ensures served { OnOk result (O.faults out.new ≡ O.faults out.old) }
    {
        if bytes.len() <= MOST_WAITING - self.bytes.len() {
            self.extend(bytes);
            return Ok(());
        }
        self.flush(out)?;
        if bytes.len() > MOST_WAITING {
            return write_all_of(out, bytes);
        }
        self.extend(bytes);
        Ok(())
    }

    // Puts bytes for which there is room behind those that wait.
    fn extend(&mut self, bytes: &[u8])
        requires { length self.old + length bytes.now ≤ 65536 }
        ensures { self.new ≡ self.old ++ bytes.now }
    {
        match self.bytes.extend_from_slice(bytes) {
            Ok(()) => {}
            Err(_) => unreachable!(),
        }
    }

    /// Writes what waits. After `WriteFault` a part of it is out, from the front. Nothing waits behind it.
    pub fn flush<O: Sink>(&mut self, out: &mut O) -> Result<(), WriteFault>
        ensures ok { OnOk result (Appends (O.took out.old) (O.took out.new) self.old) }
        ensures err { OnErr result (TakesPart (O.took out.old) (O.took out.new) self.old) }
        ensures empty { self.new ≡ [] }
        ensures cause { HasCause (O.faults out.old) (O.faults out.new) result }
        ensures served { OnOk result (O.faults out.new ≡ O.faults out.old) }
    {
        let result = write_all_of(out, &self.bytes);
        self.bytes.clear();
        result
    }
}
