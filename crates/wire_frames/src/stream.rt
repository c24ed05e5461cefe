//! Frames out of pieces of bytes.

ghost use Rattle.std.specs.Prelude.{◌≡◌, ◌+◌, ◌≤◌, OnOk, OnErr, Some, None, Err, vec_len, vec_capacity};
ghost use Rattle.wire_frames.specs.Streams.{new_stream, fed, Pulls, lasting};
ghost use Rattle.wire_frames.specs.declared.fault.FrameFault.{FrameFault as Fault};

use crate::fault::FrameFault;
use crate::read::read_packet;
use ledger_law::OutOfMemory;
use party_ledgers::Packet;
use std::alloc::Global;
use std::marker::Model;

/// Packets out of bytes that come in pieces. A contract sees the bytes that were fed and are in no frame that was
/// pulled, and the fault that is answered from now on.
///
/// A byte is copied when it is fed, and at most four times more on average. The memory is at most twice the most
/// bytes that stood unpulled at once.
#[derive(Drop)]
pub struct Stream {
    alloc: Global,
    bytes: Vec<u8>,
    // Where the bytes begin that are in no frame that was pulled.
    at: usize,
    stuck: Option<FrameFault>,
}

impl Model for Stream {
    ghost use Rattle.std.specs.Prelude.{◌≤◌, length, drop};
    ghost use Rattle.wire_frames.specs.Streams.{Streaming};

    ghost Value = { Streaming };

    ghost view = { λ s. record { left = drop s.at s.bytes.items; stuck = s.stuck } };

    ghost invariant = { λ s. s.at ≤ length s.bytes.items };
}

// Whether pulls answer this fault from then on.
fn lasting(fault: FrameFault) -> Option<FrameFault>
    ensures { result ≡ lasting fault }
{
    match fault {
        FrameFault::Short | FrameFault::OutOfMemory => None,
        lasting => Some(lasting),
    }
}

impl Stream {
    /// A stream of no bytes.
    pub fn new(alloc: Global) -> Stream
        ensures { result ≡ new_stream }
    {
        Stream {
            alloc,
            bytes: Vec::new(alloc),
            at: 0,
            stuck: None,
        }
    }

    // Makes room for so many bytes more, without those that were pulled.
    fn make_room(&mut self, additional: usize) -> Result<(), OutOfMemory>
        ensures { self.new ≡ self.old }
    {
        let len = self.bytes.len();
        let capacity = self.bytes.capacity();
        if additional <= capacity - len {
            return Ok(());
        }
        let left = len - self.at;
        if left <= self.at && additional <= capacity - left {
            self.bytes.copy_within(self.at.., 0);
            self.bytes.truncate(left);
            self.at = 0;
            return Ok(());
        }
        let room = left.saturating_add(additional).saturating_mul(2);
        let mut bytes = Vec::with_capacity(self.alloc, room)?;
        bytes.extend_from_slice(&self.bytes[self.at..])?;
        self.bytes = bytes;
        self.at = 0;
        Ok(())
    }

    /// More bytes. Want of memory leaves the stream as it was.
    pub fn feed(&mut self, piece: &[u8]) -> Result<(), OutOfMemory>
        ensures ok { OnOk result (self.new ≡ fed self.old piece.now) }
        ensures err { OnErr result (self.new ≡ self.old) }
    {
        self.make_room(piece.len())?;
        match self.bytes.extend_from_slice(piece) {
            Ok(()) => Ok(()),
            Err(_) => Err(OutOfMemory),
        }
    }

    /// The next packet of all bytes fed. `Short` and want of memory leave the stream as it was; any other fault is
    /// answered from then on.
    pub fn pull(&mut self) -> Result<Packet, FrameFault>
        ensures again { (fault : Fault) → self.old.stuck ≡ Some fault → (result ≡ Err fault) × (self.new ≡ self.old) }
        ensures pulls { self.old.stuck ≡ None → Pulls self.old result self.new }
    {
        if let Some(fault) = self.stuck {
            return Err(fault);
        }
        match read_packet(self.alloc, &self.bytes[self.at..]) {
            Ok((packet, size)) => {
                self.at += size;
                Ok(packet)
            }
            Err(fault) => {
                self.stuck = lasting(fault);
                Err(fault)
            }
        }
    }
}
