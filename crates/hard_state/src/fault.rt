use thiserror::Error;

/// Why a call on a checkpoint did not come to its end, in the order of the tests.
#[derive(Clone, Copy, Debug, Drop, Error, PartialEq, Eq)]
pub enum HardFault {
    /// The fence is not below the epoch.
    #[error("the fence is {fence} already")]
    Stale { fence: u64 },
    /// The fence is above the epoch.
    #[error("the fence is {fence}")]
    Fenced { fence: u64 },
    /// A job of that number was submitted.
    #[error("a job of that number is known")]
    Known,
    /// No job of that number was submitted.
    #[error("no job of that number is known")]
    NoJob,
    /// The job has ended.
    #[error("the job has ended")]
    Ended,
    /// The machine is banned.
    #[error("the machine is banned")]
    AlreadyBanned,
    /// The machine is not banned.
    #[error("the machine is not banned")]
    NotBanned,
    /// The checkpoint has 65,536 records.
    #[error("the checkpoint is full")]
    Full,
    /// The record at this offset of the file, in bytes, is damaged.
    #[error("the record at {offset} is damaged")]
    NotCheckpoint { offset: u64 },
    /// The disk failed, and its count of faults rose. The checkpoint has to be opened again.
    #[error("disk fault")]
    DiskFault,
    /// Memory was refused, before anything was written.
    #[error("out of memory")]
    OutOfMemory,
}
