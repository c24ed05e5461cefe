//! Why the program stops before the end of its input.

use fuxi_terms::OutOfMemory;
use std::alloc::{AllocError, AllocFailed};
use std::io;

/// Why the program stops.
#[derive(Debug, Drop)]
pub enum Stop {
    Io(io::Error),
    OutOfMemory,
}

impl From<io::Error> for Stop {
    ghost from_gives = { λ _ _. Unit {0} };

    fn from(error: io::Error) -> Stop {
        Stop::Io(error)
    }
}

impl From<OutOfMemory> for Stop {
    ghost from_gives = { λ _ _. Unit {0} };

    fn from(_error: OutOfMemory) -> Stop {
        Stop::OutOfMemory
    }
}

impl From<AllocError> for Stop {
    ghost from_gives = { λ _ _. Unit {0} };

    fn from(_error: AllocError) -> Stop {
        Stop::OutOfMemory
    }
}

impl<T: Drop> From<AllocFailed<T>> for Stop {
    ghost from_gives = { λ _ _. Unit {0} };

    fn from(_error: AllocFailed<T>) -> Stop {
        Stop::OutOfMemory
    }
}
