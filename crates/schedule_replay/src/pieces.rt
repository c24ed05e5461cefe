//! Pieces of frames: one that is written, and full ones, which are shared.

ghost use Rattle.std.specs.Prelude.{◌≡◌, ◌+◌, ◌-◌, ◌<◌, ◌≤◌, ◌++◌, ◌∷◌, [], length, take, get_or, slice_get, Some, IfOk, MatchResult, OnOk, OnErr};
ghost use Rattle.fuxi_terms.specs.Limits.{most_packet_bytes};
ghost use Rattle.party_ledgers.specs.Packets.{IsFormed};
ghost use Rattle.wire_frames.specs.Frames.{frame};
ghost use Rattle.schedule_replay.specs.FrameEnds.{AreEnds, frames_in};
ghost use Rattle.schedule_replay.specs.FullPieces.{ArePieces, first_at, frames_of};

use crate::frame_ends::{bounds_of, frame_at, start_of};
use bytes::Bytes;
use ledger_law::OutOfMemory;
use party_ledgers::Packet;
use std::alloc::Global;
use wire_frames::write_packet;

// A piece with so many bytes is full.
pub(crate) const FULL_BYTES: usize = 262_144;

// The piece that is written. It is a `Vec`, into which a packet is written at once, and which becomes `Bytes` with no copy.
#[derive(Drop)]
pub(crate) struct OpenPiece {
    pub(crate) bytes: Vec<u8>,
    // Where each frame ends, which is where the next one begins.
    pub(crate) ends: Vec<u32>,
}

// A full piece, which is shared and never written again, where each of its frames ends, and how many frames come before it.
#[derive(Drop)]
pub(crate) struct Piece {
    pub(crate) bytes: Bytes,
    pub(crate) ends: Vec<u32>,
    pub(crate) first: u32,
}

impl OpenPiece {
    // A piece of no frames.
    pub(crate) fn new(alloc: Global) -> OpenPiece
        ensures bytes { result.bytes.items ≡ [] }
        ensures ends { result.ends.items ≡ [] }
    {
        OpenPiece {
            bytes: Vec::new(alloc),
            ends: Vec::new(alloc),
        }
    }

    // A piece of no frames, with room for the bytes of a full one.
    pub(crate) fn with_room(alloc: Global) -> Result<OpenPiece, OutOfMemory>
        ensures bytes { IfOk result (λ piece. piece.bytes.items ≡ []) }
        ensures ends { IfOk result (λ piece. piece.ends.items ≡ []) }
    {
        Ok(OpenPiece {
            bytes: Vec::with_capacity(alloc, FULL_BYTES)?,
            ends: Vec::new(alloc),
        })
    }

    // Whether so many bytes more lead it no further than a full one, or it has none yet.
    pub(crate) fn has_room(&self, more: usize) -> bool {
        self.bytes.is_empty() || more <= FULL_BYTES.saturating_sub(self.bytes.len())
    }

    // The frame of a packet behind those that are there. A refusal leaves these.
    pub(crate) fn write(&mut self, packet: &Packet) -> Result<(), OutOfMemory>
        requires formed { IsFormed packet.now }
        requires room { length self.old.bytes.items + length (frame packet.now) ≤ most_packet_bytes }
        requires ends { AreEnds 0 self.old.ends.items (length self.old.bytes.items) }
        ensures frames { OnOk result (frames_in self.new.bytes.items self.new.ends.items ≡ frames_in self.old.bytes.items self.old.ends.items ++ frame packet.now ∷ []) }
        ensures ends { OnOk result (AreEnds 0 self.new.ends.items (length self.new.bytes.items)) }
        ensures err_bytes { OnErr result (self.new.bytes.items ≡ self.old.bytes.items) }
        ensures err_ends { OnErr result (self.new.ends.items ≡ self.old.ends.items) }
    {
        self.ends.reserve(1)?;
        write_packet(packet, &mut self.bytes)?;
        self.ends.push_reserved(self.bytes.len() as u32);
        Ok(())
    }

    // Keeps the first frames.
    pub(crate) fn cut(&mut self, kept: usize)
        requires there { kept ≤ length self.old.ends.items }
        ensures bytes { self.new.bytes.items ≡ take (get_or (0 ∷ self.old.ends.items) kept 0) self.old.bytes.items }
        ensures ends { self.new.ends.items ≡ take kept self.old.ends.items }
    {
        self.bytes.truncate(start_of(&self.ends, kept));
        self.ends.truncate(kept);
    }

    // The same as a full piece. It copies no byte; a refusal gives the piece back.
    pub(crate) fn freeze(self, first: u32) -> Result<Piece, OpenPiece>
        ensures bytes { MatchResult result (λ piece. piece.bytes ≡ self.bytes.items) (λ piece. piece.bytes.items ≡ self.bytes.items) }
        ensures ends { MatchResult result (λ piece. piece.ends.items ≡ self.ends.items) (λ piece. piece.ends.items ≡ self.ends.items) }
        ensures first { IfOk result (λ piece. piece.first ≡ first) }
    {
        let OpenPiece { bytes, ends } = self;
        match Bytes::from_vec(bytes) {
            Ok(bytes) => Ok(Piece { bytes, ends, first }),
            Err(refused) => Err(OpenPiece {
                bytes: refused.value,
                ends,
            }),
        }
    }
}

impl Piece {
    // Keeps the first frames.
    fn cut(&mut self, kept: usize)
        requires there { kept ≤ length self.old.ends.items }
        ensures bytes { self.new.bytes ≡ take (get_or (0 ∷ self.old.ends.items) kept 0) self.old.bytes }
        ensures ends { self.new.ends.items ≡ take kept self.old.ends.items }
        ensures first { self.new.first ≡ self.old.first }
    {
        self.bytes.truncate(start_of(&self.ends, kept));
        self.ends.truncate(kept);
    }
}

// The place of the full piece in which the frame of a place lies. The last one is tried first, since most of what is asked
// for was sent of late.
fn holder_of(pieces: &[Piece], at: usize) -> usize
    requires some { 0 < length pieces.now }
    requires each { ArePieces 0 pieces.now }
    ensures there { result < length pieces.now }
    ensures first { first_at pieces.now result ≤ at }
    ensures next { result + 1 < length pieces.now → at < first_at pieces.now (result + 1) }
{
    let last = pieces.len() - 1;
    if pieces[last].first as usize <= at {
        return last;
    }
    let (mut low, mut high) = (0, last);
    while high - low > 1 {
        let middle = low + (high - low) / 2;
        if pieces[middle].first as usize <= at {
            low = middle;
        } else {
            high = middle;
        }
    }
    low
}

// The frame of a place in the full pieces.
pub(crate) fn frame_in(pieces: &[Piece], at: usize) -> &[u8]
    requires there { at < length (frames_of pieces.now) }
    requires each { ArePieces 0 pieces.now }
    ensures { slice_get (frames_of pieces.now) at ≡ Some result.now }
{
    let piece = &pieces[holder_of(pieces, at)];
    frame_at(
        piece.bytes.as_slice(),
        &piece.ends,
        at - piece.first as usize,
    )
}

// The frame of a place in the full pieces, with one owner more of its piece.
pub(crate) fn share_in(pieces: &[Piece], at: usize) -> Result<Bytes, OutOfMemory>
    requires there { at < length (frames_of pieces.now) }
    requires each { ArePieces 0 pieces.now }
    ensures { IfOk result (λ bytes. slice_get (frames_of pieces.now) at ≡ Some bytes) }
{
    let piece = &pieces[holder_of(pieces, at)];
    let (start, end) = bounds_of(&piece.ends, at - piece.first as usize, piece.bytes.len());
    Ok(piece.bytes.slice(start..end)?)
}

// Keeps the first frames, fewer than there are. No piece is left without one.
pub(crate) fn cut_pieces(pieces: &mut Vec<Piece>, kept: usize)
    requires there { kept < length (frames_of pieces.old.items) }
    requires each { ArePieces 0 pieces.old.items }
    ensures frames { frames_of pieces.new.items ≡ take kept (frames_of pieces.old.items) }
    ensures each { ArePieces 0 pieces.new.items }
{
    let holder = holder_of(pieces, kept);
    let inside = kept - pieces[holder].first as usize;
    if inside == 0 {
        pieces.truncate(holder);
        return;
    }
    pieces[holder].cut(inside);
    pieces.truncate(holder + 1);
}
