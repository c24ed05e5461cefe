//! Why a world stopped.

use thiserror::Error;

/// Why an event was not taken. The world is gone then.
#[derive(Clone, Copy, Debug, Drop, Error, PartialEq, Eq)]
pub enum WorldStop {
    /// With the packets of the event more than 1,000,000 would have been sent.
    #[error("{kept} packets were sent, and more than 1000000 would be")]
    TooManyPackets {
        /// How many were sent before it.
        kept: u64,
    },
    /// With the packets of the event their frames would have more than 2^30 bytes together.
    #[error("frames of {kept} bytes were sent, and more than 1073741824 would be")]
    PoolBytes {
        /// How many bytes the frames have that were sent before it.
        kept: u64,
    },
    /// Memory was refused.
    #[error("out of memory")]
    OutOfMemory,
}
