//! The pool.

ghost use Rattle.std.specs.Prelude.{◌≡◌, ℕ, ◌+◌, ◌-◌, ◌<◌, ◌≤◌, ◌++◌, ◌∷◌, [], map, length, take, slice_get, Some, None, IfOk, IfErr, IfSome, IsNone, OnOk, OnErr};
ghost use Rattle.std.specs.List.{AllByRecursion};
ghost use Rattle.fuxi_terms.specs.Limits.{most_packets, most_packet_bytes};
ghost use Rattle.party_ledgers.specs.Packets.{IsFormed};
ghost use Rattle.wire_frames.specs.Frames.{frame};
ghost use Rattle.wire_frames.specs.Streams.{HasFrame};
ghost use Rattle.schedule_replay.specs.PacketPools.{bytes_of, no_frames, with_frames, limit_of, Refuses, IsSized};

use crate::fault::PoolFault;
use crate::frame_ends::frame_at;
use crate::pieces::{OpenPiece, Piece, cut_pieces, frame_in, share_in};
use bytes::Bytes;
use fuxi_terms::limits::{MOST_PACKET_BYTES, MOST_PACKETS};
use ledger_law::OutOfMemory;
use party_ledgers::Packet;
use std::alloc::Global;
use std::marker::Model;
use std::mem;
use wire_frames::frame_length;

/// The packets of a run, as their frames in the order in which they were sent, numbered from 1: at most 1,000,000
/// frames, of at most 2^30 bytes together. A contract sees the list of the frames.
///
/// The frames lie in pieces of at most 256 KiB, or of one frame that is longer, and none lies across two: full pieces,
/// which are shared and never written again, and behind them one that is written. So what is kept is never copied to
/// grow, and a frame can be handed out with no copy.
#[derive(Drop)]
pub struct PacketPool {
    // The full pieces, in the order of their frames.
    pieces: Vec<Piece>,
    // How many frames these have, and how many bytes.
    before: u32,
    before_bytes: u32,
    written: OpenPiece,
}

impl Model for PacketPool {
    ghost use Rattle.schedule_replay.specs.PacketPools.{Stored, all_frames, IsPool};

    ghost Value = { Stored };

    ghost view = { λ p. record { frames = all_frames p.pieces.items p.written.bytes.items p.written.ends.items } };

    ghost invariant = { λ p. IsPool p.pieces.items p.before p.before_bytes p.written.bytes.items p.written.ends.items };
}

// The bytes of the frames of packets, together: so few packets that their sum fits.
fn frames_length(packets: &[Packet]) -> usize
    requires few { length packets.now ≤ most_packets }
    requires formed { AllByRecursion IsFormed packets.now }
    ensures sum { result ≡ bytes_of (map frame packets.now) }
    ensures frames { AllByRecursion HasFrame packets.now }
{
    let mut sum = 0;
    for packet in packets {
        sum += frame_length(packet);
    }
    sum
}

impl PacketPool {
    /// A pool of no packets. It takes no memory.
    pub fn new(alloc: Global) -> PacketPool
        ensures { result ≡ no_frames }
    {
        PacketPool {
            pieces: Vec::new(alloc),
            before: 0,
            before_bytes: 0,
            written: OpenPiece::new(alloc),
        }
    }

    // The first limit that these packets would pass.
    fn test_limits(&self, packets: &[Packet]) -> Result<(), PoolFault>
        requires formed { AllByRecursion IsFormed packets.now }
        ensures frames { OnOk result (AllByRecursion HasFrame packets.now) }
        ensures few { OnOk result (length self.now.frames + length packets.now ≤ most_packets) }
        ensures room { OnOk result (bytes_of self.now.frames + bytes_of (map frame packets.now) ≤ most_packet_bytes) }
        ensures within { OnOk result (limit_of self.now packets.now ≡ None) }
        ensures why { IfErr result (λ fault. Refuses (limit_of self.now packets.now) fault) }
        ensures sized { IfErr result (IsSized packets.now) }
    {
        let kept = self.len();
        if packets.len() > MOST_PACKETS - kept as usize {
            return Err(PoolFault::TooManyPackets { kept });
        }
        let kept = self.bytes();
        if frames_length(packets) > MOST_PACKET_BYTES - kept as usize {
            return Err(PoolFault::PoolBytes { kept });
        }
        Ok(())
    }

    // Takes the piece that is written as a full one, where so many bytes more would lead it too far. A refusal leaves
    // the pool as it was.
    fn make_room(&mut self, more: usize) -> Result<(), OutOfMemory>
        ensures { self.new ≡ self.old }
    {
        if self.written.has_room(more) {
            return Ok(());
        }
        self.pieces.reserve(1)?;
        let alloc = *self.written.bytes.allocator();
        let next = OpenPiece::with_room(alloc)?;
        let (frames, bytes) = (
            self.written.ends.len() as u32,
            self.written.bytes.len() as u32,
        );
        match mem::replace(&mut self.written, next).freeze(self.before) {
            Ok(piece) => {
                self.pieces.push_reserved(piece);
                self.before += frames;
                self.before_bytes += bytes;
                Ok(())
            }
            Err(piece) => {
                self.written = piece;
                Err(OutOfMemory)
            }
        }
    }

    // The frame of a packet behind those that are there. A refusal leaves the pool as it was.
    fn put(&mut self, packet: &Packet) -> Result<(), OutOfMemory>
        requires formed { IsFormed packet.now }
        requires few { length self.old.frames < most_packets }
        requires room { bytes_of self.old.frames + length (frame packet.now) ≤ most_packet_bytes }
        ensures ok { OnOk result (self.new.frames ≡ self.old.frames ++ frame packet.now ∷ []) }
        ensures err { OnErr result (self.new ≡ self.old) }
    {
        self.make_room(frame_length(packet))?;
        self.written.write(packet)?;
        Ok(())
    }

    // The frames of packets behind those that are there. A refusal may leave some of them.
    fn put_each(&mut self, packets: &[Packet]) -> Result<(), OutOfMemory>
        requires formed { AllByRecursion IsFormed packets.now }
        requires few { length self.old.frames + length packets.now ≤ most_packets }
        requires room { bytes_of self.old.frames + bytes_of (map frame packets.now) ≤ most_packet_bytes }
        ensures ok { OnOk result (self.new ≡ with_frames self.old packets.now) }
        ensures kept { length self.old.frames ≤ length self.new.frames }
        ensures as_before { take (length self.old.frames) self.new.frames ≡ self.old.frames }
    {
        for packet in packets {
            match self.put(packet) {
                Ok(()) => {}
                Err(refusal) => return Err(refusal),
            }
        }
        Ok(())
    }

    // Keeps the first frames, which have so many bytes.
    fn cut(&mut self, kept: usize, bytes: usize)
        requires there { kept ≤ length self.old.frames }
        requires bytes { bytes ≡ bytes_of (take kept self.old.frames) }
        ensures { self.new.frames ≡ take kept self.old.frames }
    {
        let before = self.before as usize;
        if kept >= before {
            self.written.cut(kept - before);
            return;
        }
        self.written.cut(0);
        cut_pieces(&mut self.pieces, kept);
        self.before = kept as u32;
        self.before_bytes = bytes as u32;
    }

    /// The frames of these packets, in their order, behind those that are there. A fault is the first that comes in
    /// the order of [`PoolFault`], and leaves the pool as it was; want of memory comes only where no limit would be
    /// passed.
    pub fn add(&mut self, packets: &[Packet]) -> Result<(), PoolFault>
        requires formed { AllByRecursion IsFormed packets.now }
        ensures ok { OnOk result (self.new ≡ with_frames self.old packets.now) }
        ensures frames { OnOk result (AllByRecursion HasFrame packets.now) }
        ensures within { OnOk result (limit_of self.old packets.now ≡ None) }
        ensures err { OnErr result (self.new ≡ self.old) }
        ensures why { IfErr result (λ fault. Refuses (limit_of self.old packets.now) fault) }
        ensures sized { IfErr result (IsSized packets.now) }
    {
        match self.test_limits(packets) {
            Ok(()) => {}
            Err(fault) => return Err(fault),
        }
        let (kept, bytes) = (self.len() as usize, self.bytes() as usize);
        match self.put_each(packets) {
            Ok(()) => Ok(()),
            Err(_) => {
                self.cut(kept, bytes);
                Err(PoolFault::OutOfMemory)
            }
        }
    }

    /// How many packets are kept, at most 1,000,000.
    pub fn len(&self) -> u64
        ensures len { result ≡ length self.now.frames }
        ensures within { result ≤ most_packets }
    {
        self.before as u64 + self.written.ends.len() as u64
    }

    /// How many bytes their frames have together, at most 2^30.
    pub fn bytes(&self) -> u64
        ensures sum { result ≡ bytes_of self.now.frames }
        ensures within { result ≤ most_packet_bytes }
    {
        self.before_bytes as u64 + self.written.bytes.len() as u64
    }

    /// The frame of the packet of this number, at least 1; `None` where fewer packets are kept. It takes no memory.
    pub fn frame(&self, number: u64) -> Option<&[u8]>
        requires first { 0 < number }
        ensures some { IfSome result (λ bytes. slice_get self.now.frames (number - 1) ≡ Some bytes.now) }
        ensures none { IsNone result → length self.now.frames < number }
    {
        if number > self.len() {
            return None;
        }
        let (at, before) = ((number - 1) as usize, self.before as usize);
        if at < before {
            return Some(frame_in(&self.pieces, at));
        }
        Some(frame_at(&self.written.bytes, &self.written.ends, at - before))
    }

    /// The frame of the packet of this number, at least 1, as bytes that the caller owns; `None` where fewer packets are
    /// kept. A frame in a full piece is not copied, and the piece stays until the last of its owners lets it go; one in
    /// the piece that is written is copied.
    pub fn share(&self, alloc: Global, number: u64) -> Result<Option<Bytes>, OutOfMemory>
        requires first { 0 < number }
        ensures some { IfOk result (λ found. IfSome found (λ bytes. slice_get self.now.frames (number - 1) ≡ Some bytes)) }
        ensures none { IfOk result (λ found. IsNone found → length self.now.frames < number) }
    {
        if number > self.len() {
            return Ok(None);
        }
        let (at, before) = ((number - 1) as usize, self.before as usize);
        if at < before {
            return Ok(Some(share_in(&self.pieces, at)?));
        }
        let bytes = frame_at(&self.written.bytes, &self.written.ends, at - before);
        Ok(Some(Bytes::copy_from_slice(alloc, bytes)?))
    }
}
