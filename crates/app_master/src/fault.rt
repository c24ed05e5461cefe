//! Why a command of an application is refused.

use thiserror::Error;

/// Why a command is refused. The tests go in this order, and the first that fails is the answer; the application is as
/// it was.
#[derive(Clone, Copy, Debug, Drop, Error, PartialEq, Eq)]
pub enum AppFault {
    /// The job has no unit of this number.
    #[error("the job has no such unit")]
    NoUnit,
    /// The cluster has no machine of this number.
    #[error("the cluster has no such machine")]
    NoMachine,
    /// The cluster has no machine in this rack.
    #[error("no machine stands in the rack")]
    NoRack,
    /// The number is above 100,000.
    #[error("a number above 100000")]
    WantRange,
    /// The number is above what may be given back there: what is held on a machine that the master names as reported.
    #[error("only {usable} may be given back there")]
    NotUsable {
        /// What may be given back.
        usable: u32,
    },
    /// The number given back in this epoch would pass 1,000,000,000,000.
    #[error("too many given back")]
    BackRange,
    /// Memory was refused.
    #[error("out of memory")]
    OutOfMemory,
}
