//! Why a world stops.

/// Why an event is not taken. The world is gone then.
#[derive(Clone, Copy, Debug, Drop, PartialEq, Eq)]
pub enum WorkStop {
    /// The packets of the event would pass 10,000; so many were sent before it.
    TooManyPackets { kept: u64 },
    /// Memory was refused.
    OutOfMemory,
}
