//! The statuses that lines mean.

ghost use Rattle.std.specs.Prelude.{◌≡◌, ◌+◌, ◌≤◌};
ghost use Rattle.fuxi_terms.specs.Limits.{most_lines};
ghost use Rattle.input_lines.specs.InputStatuses.{cluster_status, event_status, stop_status};

use cluster_desc::ClusterFault;
use fuxi_io::{InputFault, LimitOf, LineStop, Status};
use schedule_text::LineFault;
use schedule_unit::GroupNo;

/// The status that a reader's stop means behind so many lines.
pub fn stop_status(stop: LineStop, number: u64) -> Status
    requires { number ≤ most_lines }
    ensures { result ≡ stop_status stop number }
{
    match stop {
        LineStop::ReadFault => Status::ReadFault,
        LineStop::LineTooLong => Status::BadInput {
            line: number + 1,
            fault: InputFault::LineTooLong,
        },
        LineStop::TooManyLines => Status::Limit {
            what: LimitOf::Lines,
            kept: number,
        },
    }
}

/// The status that a fault of the line with this number, which is no event, means.
pub fn event_status(fault: LineFault, number: u64) -> Status
    ensures { result ≡ event_status fault number }
{
    let fault = match fault {
        LineFault::UnknownWord => InputFault::UnknownWord,
        LineFault::WrongCount => InputFault::WrongCount,
        LineFault::BadNumber(place) => InputFault::BadNumber(place),
        LineFault::Range(place) => InputFault::Range(place),
        LineFault::OutOfMemory => return Status::OutOfMemory,
    };
    Status::BadInput {
        line: number,
        fault,
    }
}

/// The status that a fault of the line with this number, which describes no cluster, means.
pub fn cluster_status(fault: ClusterFault, number: u64) -> Status
    ensures { result ≡ cluster_status fault number }
{
    let fault = match fault {
        ClusterFault::NotJson => InputFault::NotJson,
        ClusterFault::WrongKind(key) => InputFault::WrongKind(key),
        ClusterFault::UnknownKey => InputFault::UnknownKey,
        ClusterFault::MissingKey(key) => InputFault::MissingKey(key),
        ClusterFault::Count(key) => InputFault::Count(key),
        ClusterFault::LengthDiffers => InputFault::LengthDiffers,
        ClusterFault::QuantityRange => InputFault::QuantityRange,
        ClusterFault::QuotaOverLimit(GroupNo(group)) => InputFault::QuotaOverLimit(group),
        ClusterFault::OutOfMemory => return Status::OutOfMemory,
    };
    Status::BadInput {
        line: number,
        fault,
    }
}

/// The status of an input that ended behind so many lines, none of which describes the cluster.
pub fn no_cluster(number: u64) -> Status
    requires { number ≤ most_lines }
    ensures { result ≡ Status.BadInput (number + 1) InputFault.NoCluster }
{
    Status::BadInput {
        line: number + 1,
        fault: InputFault::NoCluster,
    }
}
