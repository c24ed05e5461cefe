//! Why a line describes no cluster.

use fuxi_terms::ClusterKey;
use schedule_unit::GroupNo;
use thiserror::Error;

/// Why a line describes no cluster. The tests go through the value in a fixed order, and the first that
/// fails is the answer.
#[derive(Clone, Copy, Debug, Drop, Error, PartialEq, Eq)]
pub enum ClusterFault {
    /// The line is no JSON that the reader takes, or no UTF-8.
    #[error("the line is no JSON")]
    NotJson,
    /// The value at this key is of another kind.
    #[error("the value of {0:?} is of another kind")]
    WrongKind(ClusterKey),
    /// An object has a key that means nothing there.
    #[error("there is an unknown key")]
    UnknownKey,
    /// An object lacks this key.
    #[error("the key {0:?} is missing")]
    MissingKey(ClusterKey),
    /// A number of resources, machines or groups, or a rack, is out of its range.
    #[error("the number at {0:?} is out of range")]
    Count(ClusterKey),
    /// A list of quantities has not as many as there are resources.
    #[error("a list has another length than there are resources")]
    LengthDiffers,
    /// A quantity is above 1,000,000,000,000.
    #[error("a quantity is above 1000000000000")]
    QuantityRange,
    /// The quota of this group is above its limit in some resource.
    #[error("the quota of group {number} is above its limit", number = .0.0)]
    QuotaOverLimit(GroupNo),
    /// Memory was refused.
    #[error("out of memory")]
    OutOfMemory,
}
