//! Calls of a stream.

use crate::channels::frames::{tell, tell_fault};
use golden_lines::Stop;
use std::alloc::Global;
use wire_frames::{FrameFault, Stream};

/// Prints what the next pull answers.
pub fn pull(rt: &HostRuntime, stream: &mut Stream) -> Result<(), Stop> {
    match stream.pull() {
        Ok(packet) => tell(rt, &packet),
        Err(fault) => tell_fault(rt, fault),
    }
}

// Feeds one byte, and prints the packet that it ends, or a fault other than that the bytes are short.
fn feed_one(rt: &HostRuntime, stream: &mut Stream, byte: u8) -> Result<(), Stop> {
    stream.feed(&[byte])?;
    match stream.pull() {
        Ok(packet) => tell(rt, &packet),
        Err(FrameFault::Short) => Ok(()),
        Err(fault) => tell_fault(rt, fault),
    }
}

fn feed_each(rt: &HostRuntime, stream: &mut Stream, bytes: &[u8]) -> Result<(), Stop> {
    for byte in bytes {
        feed_one(rt, stream, *byte)?;
    }
    pull(rt, stream)
}

/// Feeds a new stream byte by byte, and prints what comes of it.
pub fn single(rt: &HostRuntime, alloc: Global, bytes: &[u8]) -> Result<(), Stop> {
    let mut stream = Stream::new(alloc);
    feed_each(rt, &mut stream, bytes)
}
