//! The laws of the definitions. Each function does nothing; its contract is a law.

ghost use Rattle.std.specs.Prelude.{◌≡◌, ◌≢◌, ◌+◌, ◌<◌, ℕ, List, [], ◌++◌, length, take, Result, Err};
ghost use Rattle.party_ledgers.specs.declared.packets.Packet.{Packet};
ghost use Rattle.party_ledgers.specs.PacketHeaders.{header_of};
ghost use Rattle.wire_frames.specs.Frames.{IsFrame, body_length};
ghost use Rattle.wire_frames.specs.Fronts.{IsFront};
ghost use Rattle.wire_frames.specs.ReadFrames.{Begins, Reads, HasFault, BeginsNone};
ghost use Rattle.wire_frames.specs.Streams.{Event, Runs, Splits, bytes_fed, packets_given};
ghost use Rattle.wire_frames.specs.declared.fault.FrameFault.{FrameFault as Fault};
ghost use Rattle.wire_frames.specs.declared.fault.FrameFault.TheVariants.{Short, OutOfMemory};
ghost use Rattle.wire_frames.specs.declared.read.Front.{Front};

/// Bytes are the frame of one packet, and no frame begins another. It does nothing; its contract is this law.
pub fn one_frame()
    ensures { (x y : Packet) (a b more rest : List ℕ) → IsFrame x a → IsFrame y b → a ++ more ≡ b ++ rest → (x ≡ y) × (a ≡ b) }
{}

/// A frame has 48 bytes and those that the entries of its body take. It does nothing; its contract is this law.
pub fn frame_lengths()
    ensures { (x : Packet) (bytes : List ℕ) → IsFrame x bytes → length bytes ≡ 48 + body_length x.body }
{}

/// The header in front of a frame stands on its packet. It does nothing; its contract is this law.
pub fn one_header()
    ensures { (bytes : List ℕ) (x : Packet) (n : ℕ) (front : Front) → Begins bytes x n → IsFront bytes front → header_of x ≡ front.header }
{}

/// What reading gives is given by the bytes alone, unless memory lacks. What stands behind them changes it only
/// where they are short, and every proper beginning of a frame is short. It does nothing; its contract is these
/// laws.
pub fn one_reading()
    ensures one { (bytes : List ℕ) (r s : Result (Packet × ℕ) Fault) → Reads bytes r → Reads bytes s → r ≢ Err OutOfMemory → s ≢ Err OutOfMemory → r ≡ s }
    ensures more { (bytes more : List ℕ) (r : Result (Packet × ℕ) Fault) → Reads bytes r → r ≢ Err Short → Reads (bytes ++ more) r }
    ensures short { (x : Packet) (bytes : List ℕ) (n : ℕ) → IsFrame x bytes → n < length bytes → HasFault (take n bytes) Short }
{}

/// Of pieces that are fed and packets that are pulled, in whatever order: all bytes fed are the frames of the
/// packets, one behind another, and what is left. Only one list of packets splits bytes so far that no frame is
/// left. It does nothing; its contract is these laws.
pub fn packets_of_stream()
    ensures split { (es : List Event) (end : List ℕ) → Runs [] es end → Splits (bytes_fed es) (packets_given es) end }
    ensures one { (bytes left rest : List ℕ) (xs ys : List Packet) → Splits bytes xs left → Splits bytes ys rest → BeginsNone left → BeginsNone rest → (xs ≡ ys) × (left ≡ rest) }
{}
