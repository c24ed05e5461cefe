use thiserror::Error;

/// What a lease is told. A holder is any number, and an epoch that is held is at least 1.
#[derive(Clone, Copy, Drop, PartialEq, Eq)]
pub enum LeaseEvent {
    /// The holder wants the next epoch.
    Acquire(u32),
    /// The holder goes on with the epoch.
    Renew(u32, u64),
    /// The holder lets the epoch go.
    Release(u32, u64),
    /// Whoever holds does so no longer.
    Expire,
}

/// What a lease answers.
#[derive(Clone, Copy, Drop, PartialEq, Eq)]
pub enum LeaseOut {
    /// This epoch is held now by the one who asked. No epoch before was as great.
    Granted(u64),
    /// This holder holds this epoch, so nobody else is given one.
    Held(u32, u64),
    /// The last epoch is the greatest that there is.
    NoEpoch,
    /// The checkpoint has so many records, the most that it may have.
    HardFull(u32),
    /// The epoch is still held.
    Renewed(u64),
    /// The epoch is held no longer, by the will of its holder.
    Released(u64),
    /// The epoch is held no longer.
    Expired(u64),
    /// Not this holder holds, or not this epoch. The number is the last epoch that was granted.
    NotHolder(u64),
    /// Nobody holds.
    Free,
}

/// Why a call on a lease did not come to its end.
#[derive(Clone, Copy, Debug, Drop, Error, PartialEq, Eq)]
pub enum LeaseFault {
    /// The record at this offset of the file, in bytes, is damaged.
    #[error("the record at {offset} is damaged")]
    NotCheckpoint { offset: u64 },
    /// The disk failed, and its count of faults rose. The lease has to be opened again.
    #[error("disk fault")]
    DiskFault,
    /// Memory was refused, before anything was written.
    #[error("out of memory")]
    OutOfMemory,
}
