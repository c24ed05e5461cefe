//! Frames: packets as bytes, read from a slice or from a stream of pieces.
#![tactic(auto)]

ghost use Rattle.std.specs.Prelude.{◌+◌, length};

mod fault;
pub mod law;
mod read;
mod stream;
mod write;

pub use fault::FrameFault;
pub use read::{Front, read_behind, read_front, read_packet};
pub use stream::Stream;
pub use write::{frame_length, write_packet};

// The version of the format.
const VERSION: u8 = 1;

// The bytes of the length, and those of the header behind it.
const LENGTH_BYTES: usize = 4;

const HEADER_BYTES: usize = 44;

// What stands in front of a body.
const FRONT_BYTES: usize = LENGTH_BYTES + HEADER_BYTES;
